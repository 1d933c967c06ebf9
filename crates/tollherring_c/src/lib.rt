// The archive for C, C++ and Rust (include/tollherring.h): a library of Rattle is not an archive too, so each export here calls the operation of `tollherring` that has its
// name, and promises what that promises. They are no public operations beside those.
#![tactic(auto)]

mod clerk_face;
mod line_face;
mod message_face;
mod shown;
