#![tactic(auto)]

// Two desks and two wires: demand 3. There is no code here: specs/Demand3.antt has the claims and what their words mean, specs/World.antt the run; proofs/ proves them.
