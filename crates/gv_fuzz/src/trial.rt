//! One script, run by `run_script` and by the model, and its replies as JSON.
use crate::model::{Ending, ending_of};
use crate::replies::first_changed;
use gv_text::{MemorySink, MemorySource, ScriptFault, run_script};
use std::alloc::{AllocError, Global};

/// What a script came to, and what it was to come to.
#[derive(Drop)]
pub struct Trial {
    pub got: Vec<u8>,
    pub outcome: Result<(), ScriptFault>,
    pub wanted: Ending,
    /// The first line whose reply's JSON doesn't say the same.
    pub changed: Option<u64>,
}

impl Trial {
    /// Runs a script both ways.
    pub fn new(alloc: Global, script: &[u8]) -> Result<Trial, AllocError> {
        let mut sink = MemorySink::new(alloc);
        let outcome = run_script(alloc, &mut MemorySource::new(script), &mut sink);
        let wanted = ending_of(alloc, script)?;
        let changed = first_changed(alloc, script, sink.bytes(), &wanted.ends)?;
        Ok(Trial {
            got: Vec::from_slice(alloc, sink.bytes())?,
            outcome,
            wanted,
            changed,
        })
    }

    /// Whether both ways came to the same, and the JSON too.
    pub fn agrees(&self) -> bool {
        let wanted = match self.wanted.bad_line {
            Some(line) => Err(ScriptFault::BadLine { line }),
            None => Ok(()),
        };
        self.changed.is_none()
            && self.outcome == wanted
            && self.got.as_slice() == self.wanted.text.as_bytes()
    }
}
