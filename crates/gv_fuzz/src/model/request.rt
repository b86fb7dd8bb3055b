//! Requests and jobs, clause by clause.
use super::forms::{ACCESSES, CLAUSES, Verb};
use super::grammar::{Said, said_by};
use super::names::Names;
use gv_buffers::Usage;
use gv_types::Request;
use gv_vm::Access;
use std::alloc::{AllocError, Global};

/// A request, and the queue that it names, if any.
#[derive(Drop)]
pub struct Asked {
    pub queue: Option<u64>,
    pub request: Request,
}

impl Asked {
    /// A request without clauses.
    pub fn nothing(alloc: Global) -> Asked {
        Asked {
            queue: None,
            request: Request {
                ops: Vec::new(alloc),
                waits: Vec::new(alloc),
                signals: Vec::new(alloc),
            },
        }
    }

    /// A further clause. Whether it may stand here: one that names a queue stands once.
    fn add(&mut self, clause: &Said) -> Result<bool, AllocError> {
        match clause.verb {
            Verb::Wait => self.request.waits.push(clause.point())?,
            Verb::Signal => self.request.signals.push(clause.point())?,
            Verb::Queue => return Ok(self.queue.replace(clause.first()).is_none()),
            _ => self.request.ops.push(clause.op())?,
        }
        Ok(true)
    }
}

/// The request of some clauses, if they are ones.
pub fn asked_by(alloc: Global, names: &Names, clauses: &str) -> Result<Option<Asked>, AllocError> {
    let mut asked = Asked::nothing(alloc);
    for part in clauses.split(" ; ") {
        let is_good = match said_by(names, &CLAUSES, part) {
            Some(clause) => asked.add(&clause)?,
            None => false,
        };
        if !is_good {
            return Ok(None);
        }
    }
    Ok(Some(asked))
}

/// The accesses of a job, if they are ones.
pub fn accesses(
    alloc: Global,
    names: &Names,
    text: &str,
) -> Result<Option<Vec<Access>>, AllocError> {
    let mut accesses = Vec::new(alloc);
    for part in text.split(" ; ") {
        match said_by(names, &ACCESSES, part) {
            Some(said) => accesses.push(access_of(&said))?,
            None => return Ok(None),
        }
    }
    Ok(Some(accesses))
}

fn access_of(said: &Said) -> Access {
    let usage = match said.verb {
        Verb::Write => Usage::Write,
        _ => Usage::Read,
    };
    Access {
        addr: said.first(),
        usage,
    }
}
