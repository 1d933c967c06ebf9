// What the place of a fault tells (request 2). There is no code here: specs/Claims.antt has the claims, proofs/ proves them.
#![tactic(auto)]
