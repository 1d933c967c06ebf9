#![tactic(auto)]

// The worked examples of document 01. There is no code here: specs/Examples.antt has them as one table, proofs/Examples.antt proves it.
