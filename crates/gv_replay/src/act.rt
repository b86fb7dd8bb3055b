//! What a line of a log does to the address space.

use gv_types::Op;

/// A line's number, counted from 1, and its time in nanoseconds where it has one.
#[derive(Clone, Copy, Debug, PartialEq, Eq)]
pub struct Moment {
    pub line: u64,
    pub time: Option<u64>,
}

/// What happened, where the operation alone doesn't tell it.
#[derive(Clone, Copy, Debug, PartialEq, Eq)]
pub enum Cause {
    MemoryMade,
    MemoryFreed,
    SparseMade,
    SparseGone,
    SparseBound,
    SparseUnbound,
    /// Unmapped by range, whatever is there.
    Cleared,
    /// The object's pointer is a new object's from here on.
    MadeAnew,
    /// The memory that is bound is the process' own.
    OfProcess,
    /// Of a VMA that isn't known.
    OfUnknown,
    /// Of a VMA that was bound at another range.
    Elsewhere,
    SpaceMade,
    SpaceGone,
    Plain,
}

impl Cause {
    /// In words; none where the operation tells it.
    pub fn words(self) -> Option<&'static str> {
        match self {
            Cause::MemoryMade => Some("memory made"),
            Cause::MemoryFreed => Some("memory freed"),
            Cause::SparseMade => Some("sparse range made"),
            Cause::SparseGone => Some("sparse range gone"),
            Cause::SparseBound => Some("sparse bound"),
            Cause::SparseUnbound => Some("sparse unbound"),
            Cause::Cleared => Some("cleared by range"),
            Cause::MadeAnew => Some("pointer made anew"),
            Cause::OfProcess => Some("memory of the process"),
            Cause::OfUnknown => Some("VMA not known"),
            Cause::Elsewhere => Some("VMA bound elsewhere"),
            Cause::SpaceMade => Some("address space made"),
            Cause::SpaceGone => Some("address space gone"),
            Cause::Plain => None,
        }
    }
}

/// An operation that a line stands for: when, what and why.
#[derive(Clone, Copy, Debug, PartialEq, Eq)]
pub struct Act {
    pub moment: Moment,
    pub op: Op,
    pub cause: Cause,
}
