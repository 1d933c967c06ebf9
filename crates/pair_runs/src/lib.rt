#![tactic(auto)]

// Runs of two desks and two wires, computed: what demand 3 speaks of does happen. There is no code here: specs/Runs.antt has the tables, specs/Refuted.antt the wrong claims
// that they refute, proofs/ proves both.
