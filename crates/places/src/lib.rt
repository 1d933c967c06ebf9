#![tactic(auto)]

// Places of a desk, each with a record or free, over any type of record: definitions and laws, no code.
