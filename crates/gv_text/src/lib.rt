//! Scripts of an address space: read whole, run line by line, each line's reply written.
#![tactic(auto)]

mod reading;
mod script;

pub use gv_io::{
    MemorySink, MemorySource, Output, Pipe, ReadCalls, ReadFault, ReadSource, SCRIPT_LIMIT, Sink,
    Source, WriteCalls, WriteFault, WriteSink, is_broken_pipe, write_all,
};
pub use gv_session::{
    BufferNames, Declared, LineFault, NamedVm, ScriptFault, Session, Stage, TimelineNames, answer,
    asked_by, at_first_word, point_named, run_event, run_line, why_bad, why_misplaced,
    why_not_named, why_not_set, write_number, write_outcome_line, write_place, write_refused,
    write_timeline, write_why,
};
pub use reading::read_script;
pub use script::{run_script, run_script_explained};
