// The face of the library for C, C++ and Rust (include/tollherring.h): every operation of both desks on words that the host lends, with bytes in
// lent buffers and plain numbers. Whatever is passed has an answer: a number out of its range is refused with 2, a message that has no room in the host's
// buffer with 12, and a refusal changes nothing.
#![tactic(auto)]

pub mod clerk_face;
mod clerk_step;
pub mod line_face;
mod line_step;
pub mod message_face;
pub mod shown;
