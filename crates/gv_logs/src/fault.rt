//! Why a log isn't read to its end.

use gv_io::ReadFault;
use std::alloc::AllocError;

/// Why the next line of a log can't be given.
#[derive(Clone, Copy, Debug, PartialEq, Eq)]
pub enum LogFault {
    ReadFault,
    OutOfMemory,
}

impl From<ReadFault> for LogFault {
    fn from(_fault: ReadFault) -> LogFault {
        LogFault::ReadFault
    }
}

impl From<AllocError> for LogFault {
    fn from(_error: AllocError) -> LogFault {
        LogFault::OutOfMemory
    }
}
