//! Logs of real drivers, replayed: which memory an address reached, what it reached before, and what was freed under it.
//!
//! ```text
//!   a log -> line by line -> operations -> entries of a journal on an address space -> what was counted, what is alive
//!                                                     `-> asked, the newest first: what an address reached before
//! ```
#![tactic(auto)]

mod act;
mod alive;
mod binder;
mod chosen;
mod fault;
mod freed_buffers;
mod json_report;
mod json_writer;
mod machine;
mod mapper;
mod mappings;
mod objects;
mod occurrence;
mod outcome;
mod past;
mod player;
mod radv;
mod replayed;
mod replaying;
mod report;
mod run;
mod script;
mod sizes;
mod space_name;
mod space_replay;
mod spaces;
mod tally;
mod terms;
mod text;
mod watcher;

pub use act::{Act, Cause, Moment};
pub use fault::ReplayFault;
pub use gv_logs::Format;
pub use run::{replay, watch};
pub use sizes::{Sizes, measure};
pub use terms::{FlagBits, Form, Terms};
pub use text::{number_of, write_act, write_op, write_time};
pub use watcher::{Nobody, Watcher};
