#![tactic(auto)]

// What every line desk reached from a start has: definitions and laws, no code.
