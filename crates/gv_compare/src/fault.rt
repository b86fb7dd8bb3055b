//! Why two lists are not compared.

use gv_types::OutOfMemory;
use std::alloc::{AllocError, AllocFailed};
use std::fmt;

/// One of the two lists.
#[derive(Clone, Copy, Debug, PartialEq, Eq)]
pub enum Which {
    First,
    Second,
}

/// Why two lists are not compared. Lines are counted from 1. Of both lists the first is read first.
#[derive(Clone, Copy, Debug, PartialEq, Eq)]
pub enum CompareFault {
    /// The line is no mapping of such a list.
    NoMapping { list: Which, line: u64 },
    /// The line's mapping begins before the one before it ends. In a `gpuvas`, whose rows may come in any order, the one
    /// before it is that of the next lower address.
    Overlapping { list: Which, line: u64 },
    /// The list is of several address spaces, and none is named, or more than one by this name.
    ManySpaces { list: Which },
    /// No address space of the list has this name.
    NoSpace { list: Which },
    /// The system refused to give memory.
    OutOfMemory,
}

impl CompareFault {
    /// The same of a text before which so many lines stand.
    pub fn behind(self, lines: u64) -> CompareFault {
        match self {
            CompareFault::NoMapping { list, line } => CompareFault::NoMapping {
                list,
                line: line.saturating_add(lines),
            },
            CompareFault::Overlapping { list, line } => CompareFault::Overlapping {
                list,
                line: line.saturating_add(lines),
            },
            other => other,
        }
    }
}

impl fmt::Display for Which {
    fn fmt<W: fmt::Write>(&self, f: &mut fmt::Formatter<W>) -> fmt::Result {
        match self {
            Which::First => f.write_str("the first list"),
            Which::Second => f.write_str("the second list"),
        }
    }
}

impl fmt::Display for CompareFault {
    fn fmt<W: fmt::Write>(&self, f: &mut fmt::Formatter<W>) -> fmt::Result {
        match *self {
            CompareFault::NoMapping { list, line } => {
                write!(f, "line {line} of {list} is no mapping")
            }
            CompareFault::Overlapping { list, line } => {
                write!(f, "line {line} of {list} overlaps the mapping before it")
            }
            CompareFault::ManySpaces { list } => {
                write!(f, "{list} has more than one address space")
            }
            CompareFault::NoSpace { list } => write!(f, "{list} has no such address space"),
            CompareFault::OutOfMemory => f.write_str("out of memory"),
        }
    }
}

impl From<OutOfMemory> for CompareFault {
    fn from(_error: OutOfMemory) -> CompareFault {
        CompareFault::OutOfMemory
    }
}

impl From<AllocError> for CompareFault {
    fn from(_error: AllocError) -> CompareFault {
        CompareFault::OutOfMemory
    }
}

impl<T: Drop> From<AllocFailed<T>> for CompareFault {
    fn from(_error: AllocFailed<T>) -> CompareFault {
        CompareFault::OutOfMemory
    }
}
