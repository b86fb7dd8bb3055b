//! What the program `vmbind` does, over any runtime: it reads its arguments, and runs a script, a threads script or a dialogue, replays
//! a log, draws a picture or compares two lists, over the standard streams or a file. Its answer has an exit status.
#![tactic(auto)]

mod args;
mod commands;
mod comparing;
mod drawing;
mod entry;
mod fault;
mod files;
mod help;
mod log_drawing;
mod progress;
mod replaying;
mod rows;
mod serving;
mod stack;
mod status;
mod words;

pub use entry::program;
pub use fault::ProgramFault;
