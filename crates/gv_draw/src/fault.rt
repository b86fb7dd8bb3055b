//! Why a script isn't drawn.

use gv_session::LineFault;
use gv_types::OutOfMemory;
use std::alloc::{AllocError, AllocFailed};
use std::fmt;

/// Why a script isn't drawn.
#[derive(Clone, Copy, Debug, PartialEq, Eq)]
pub enum DrawFault {
    /// The line of this number, counted from 1, is not of the language, or not at its place, or names what is not declared,
    /// or has no end.
    BadLine { line: u64 },
    /// The system refused to give memory.
    OutOfMemory,
}

impl DrawFault {
    /// What is wrong with the line of this number.
    pub(crate) fn at(line: u64, fault: LineFault) -> DrawFault {
        match fault {
            LineFault::Bad => DrawFault::BadLine { line },
            LineFault::OutOfMemory => DrawFault::OutOfMemory,
        }
    }
}

impl fmt::Display for DrawFault {
    fn fmt<W: fmt::Write>(&self, f: &mut fmt::Formatter<W>) -> fmt::Result {
        match *self {
            DrawFault::BadLine { line } => write!(f, "bad line {line}"),
            DrawFault::OutOfMemory => f.write_str("out of memory"),
        }
    }
}

impl From<OutOfMemory> for DrawFault {
    fn from(_error: OutOfMemory) -> DrawFault {
        DrawFault::OutOfMemory
    }
}

impl From<AllocError> for DrawFault {
    fn from(_error: AllocError) -> DrawFault {
        DrawFault::OutOfMemory
    }
}

impl<T: Drop> From<AllocFailed<T>> for DrawFault {
    fn from(_error: AllocFailed<T>) -> DrawFault {
        DrawFault::OutOfMemory
    }
}
