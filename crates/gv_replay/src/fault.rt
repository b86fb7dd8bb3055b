//! Why a replay ends early.

use gv_io::WriteFault;
use gv_logs::LogFault;
use gv_types::OutOfMemory;
use std::alloc::{AllocError, AllocFailed};

/// Why a log was not replayed to its end.
#[derive(Clone, Copy, Debug, PartialEq, Eq)]
pub enum ReplayFault {
    /// No line is of the format.
    NoLine,
    /// No event is of the address space that is to be taken.
    NoSpace,
    /// One address space is to be taken, and there are several.
    ManySpaces,
    ReadFault,
    WriteFault,
    OutOfMemory,
}

impl From<LogFault> for ReplayFault {
    fn from(fault: LogFault) -> ReplayFault {
        match fault {
            LogFault::ReadFault => ReplayFault::ReadFault,
            LogFault::OutOfMemory => ReplayFault::OutOfMemory,
        }
    }
}

impl From<WriteFault> for ReplayFault {
    fn from(_fault: WriteFault) -> ReplayFault {
        ReplayFault::WriteFault
    }
}

impl From<AllocError> for ReplayFault {
    fn from(_error: AllocError) -> ReplayFault {
        ReplayFault::OutOfMemory
    }
}

impl<T: Drop> From<AllocFailed<T>> for ReplayFault {
    fn from(_error: AllocFailed<T>) -> ReplayFault {
        ReplayFault::OutOfMemory
    }
}

impl From<OutOfMemory> for ReplayFault {
    fn from(_error: OutOfMemory) -> ReplayFault {
        ReplayFault::OutOfMemory
    }
}
