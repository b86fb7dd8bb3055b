//! The replies to a dialogue's lines as JSON, one object on a line of its own for each.
//!
//! The text of a reply is proved elsewhere to say what its line asked for; here it is read once more and written in
//! another form, so that there is one writer of what a reply means.
#![tactic(auto)]

mod form;
mod forms;
mod list;
mod object;
mod reply;
mod stop;
mod words;

pub use object::Json;
pub use reply::{write_bad, write_no_memory, write_reply};
