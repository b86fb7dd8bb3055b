//! A dialogue with an address space: lines are answered as they come.
#![tactic(auto)]

mod asking;
mod bad;
mod dialogue;
mod fault;
mod json_dialogue;
mod line;
mod partial;
mod queue_lines;
mod reason;
mod reply;
mod talk;

pub use dialogue::serve;
pub use fault::ServeFault;
pub use gv_lines::LINE_LIMIT;
pub use json_dialogue::serve_json;
