// What a host gives and is shown as plain numbers. An inner room of the library's face: its functions are no public operations.
#![tactic(auto)]

pub mod given;
pub mod identifiers;
pub mod messages;
pub mod shown;
