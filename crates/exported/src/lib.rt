// Demand 3's run and the calls of a host. There is no code here: specs/Claims.antt says that what a step sends is written as its bytes, that a delivery may be of these bytes and that a call is a step; proofs/ proves it.
#![tactic(auto)]
