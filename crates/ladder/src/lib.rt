// The story's ladder (docs/STORY.md): what is printed of an event, of both desks' records and of what the teller says. It knows messages as bytes and outcomes as the
// plain numbers that a host is told, so it stands beside the desks and not on them. What prints is handed a writer, and answers its error. It has no result to promise: what the story prints is compared. An inner room of the
// story: its functions are no public operations.
#![tactic(auto)]

mod cause;
pub mod events;
pub mod middle;
pub mod narration;
pub mod records;
mod row;
pub mod shown;
mod words;
