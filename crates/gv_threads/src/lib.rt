//! Scripts whose requests are put on running queues, run from their bytes to their replies.
#![tactic(auto)]

mod ends;
mod fault;
mod first;
mod gate;
mod harness;
mod last;
mod requests;
mod run;
mod script;
mod setting;
mod why;

pub use fault::ThreadsFault;
pub use run::{RunTerms, run_threads, run_threads_explained};
