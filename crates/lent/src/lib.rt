// The operations on desks that are lent by `&mut`: thin functions over those that take the desk's words, and no desk is copied.
#![tactic(auto)]

pub mod clerk_desk;
pub mod line_desk;
