#![tactic(auto)]

// What every reached desk of the clerk is. There is no code here: specs/Sound.antt has the claims, proofs/ proves them.
