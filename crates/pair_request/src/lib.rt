#![tactic(auto)]

// One request at its two ends and on the two wires, as the tables of the desks read for it: definitions and laws, no code.
