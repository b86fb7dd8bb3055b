//! Why an operation, a request or a call is refused.
ghost use Rattle.std.specs.Prelude.{◌≡◌, Some};
ghost use Rattle.gv_types.specs.Fault.{name_of, number_of, carried_by, fault_text};

use std::alloc::{AllocError, AllocFailed};
use std::error::Error;
use std::fmt;

/// A refusal, with the number that it carries.
#[derive(Clone, Copy, Debug, PartialEq, Eq)]
pub enum Fault {
    /// An address, a length or an offset is no multiple of 4,096 bytes.
    Unaligned,
    /// The length is 0.
    Empty,
    /// A page is outside the address space.
    OutOfSpace,
    /// A page is in the reserved region.
    Reserved,
    /// The buffer was never made, or is destroyed.
    NoBuffer,
    /// The offset plus the length is past the buffer's end.
    OutOfBuffer,
    /// A buffer of no page, or of over 2^36 pages.
    BadSize,
    /// The limit of live buffers is reached.
    TooManyBuffers,
    /// This many mappings of the buffer are in the list.
    Mapped { count: u64 },
    /// This many mappings of the buffer are in undo values.
    Kept { count: u64 },
    /// This many running jobs use the buffer.
    InUse { jobs: u64 },
    /// Another job uses the buffer, and one of the two writes it.
    Conflict { job: u64 },
    /// The list would pass its limit.
    TooManyMappings,
    /// Over 256 operations in a request.
    TooManyOps,
    /// The limit of items is reached.
    JournalFull,
    /// There is no such item.
    NoEntry,
    /// The item is a withdrawal.
    NotABind,
    /// The item is withdrawn already.
    Withdrawn,
    /// A live later item covers one of its pages.
    Touched { by: u64 },
    /// A later item withdraws one that would be settled.
    Crossed { by: u64 },
    /// The number is not the next one of its queue.
    OutOfTurn { next: u64 },
    /// The limit of outcomes of a queue is reached.
    QueueSpent,
    /// This access, counted from 0, is of a page without a mapping.
    Unmapped { access: u64 },
    /// This access, counted from 0, writes a page that is read-only.
    WriteToReadOnly { access: u64 },
    /// The queue has no free place.
    QueueFull,
    /// The limit of running jobs is reached.
    TooManyJobs,
    /// Over 256 accesses in a job.
    TooManyAccesses,
    /// No such job is running.
    NoJob,
    /// The other end of the queue is gone.
    QueueGone,
    /// The number is neither an outcome's that is not forgotten nor the next one.
    NoOutcome,
    /// An item that is held needs what would be dropped: its outcome, or memory that may be needed to undo it.
    Held { by: u64 },
    /// Out of memory.
    OutOfMemory,
}

impl Fault {
    /// Its printed name.
    pub fn name(&self) -> &'static str
        ensures { result.now ≡ name_of self.now }
    {
        match self {
            Fault::Unaligned => "Unaligned",
            Fault::Empty => "Empty",
            Fault::OutOfSpace => "OutOfSpace",
            Fault::Reserved => "Reserved",
            Fault::NoBuffer => "NoBuffer",
            Fault::OutOfBuffer => "OutOfBuffer",
            Fault::BadSize => "BadSize",
            Fault::TooManyBuffers => "TooManyBuffers",
            Fault::Mapped { .. } => "Mapped",
            Fault::Kept { .. } => "Kept",
            Fault::InUse { .. } => "InUse",
            Fault::Conflict { .. } => "Conflict",
            Fault::TooManyMappings => "TooManyMappings",
            Fault::TooManyOps => "TooManyOps",
            Fault::JournalFull => "JournalFull",
            Fault::NoEntry => "NoEntry",
            Fault::NotABind => "NotABind",
            Fault::Withdrawn => "Withdrawn",
            Fault::Touched { .. } => "Touched",
            Fault::Crossed { .. } => "Crossed",
            Fault::OutOfTurn { .. } => "OutOfTurn",
            Fault::QueueSpent => "QueueSpent",
            Fault::Unmapped { .. } => "Unmapped",
            Fault::WriteToReadOnly { .. } => "WriteToReadOnly",
            Fault::QueueFull => "QueueFull",
            Fault::TooManyJobs => "TooManyJobs",
            Fault::TooManyAccesses => "TooManyAccesses",
            Fault::NoJob => "NoJob",
            Fault::QueueGone => "QueueGone",
            Fault::NoOutcome => "NoOutcome",
            Fault::Held { .. } => "Held",
            Fault::OutOfMemory => "OutOfMemory",
        }
    }

    /// Its number, which is never used for another fault.
    pub fn number(&self) -> u8
        ensures { result ≡ number_of self.now }
    {
        match self {
            Fault::Unaligned => 1,
            Fault::Empty => 2,
            Fault::OutOfSpace => 3,
            Fault::Reserved => 4,
            Fault::NoBuffer => 6,
            Fault::OutOfBuffer => 7,
            Fault::BadSize => 8,
            Fault::TooManyBuffers => 9,
            Fault::Mapped { .. } => 10,
            Fault::Kept { .. } => 11,
            Fault::InUse { .. } => 12,
            Fault::Conflict { .. } => 13,
            Fault::TooManyMappings => 14,
            Fault::TooManyOps => 15,
            Fault::JournalFull => 16,
            Fault::NoEntry => 17,
            Fault::NotABind => 18,
            Fault::Withdrawn => 19,
            Fault::Touched { .. } => 20,
            Fault::Crossed { .. } => 21,
            Fault::OutOfTurn { .. } => 22,
            Fault::QueueSpent => 23,
            Fault::Unmapped { .. } => 24,
            Fault::WriteToReadOnly { .. } => 25,
            Fault::QueueFull => 26,
            Fault::TooManyJobs => 29,
            Fault::TooManyAccesses => 30,
            Fault::NoJob => 31,
            Fault::QueueGone => 32,
            Fault::OutOfMemory => 33,
            Fault::NoOutcome => 34,
            Fault::Held { .. } => 35,
        }
    }

    /// The number that it carries, if any.
    pub fn carried(&self) -> Option<u64>
        ensures { result ≡ carried_by self.now }
    {
        match *self {
            Fault::Mapped { count } => Some(count),
            Fault::Kept { count } => Some(count),
            Fault::InUse { jobs } => Some(jobs),
            Fault::Conflict { job } => Some(job),
            Fault::Touched { by } => Some(by),
            Fault::Crossed { by } => Some(by),
            Fault::OutOfTurn { next } => Some(next),
            Fault::Held { by } => Some(by),
            Fault::Unmapped { access } => Some(access),
            Fault::WriteToReadOnly { access } => Some(access),
            _ => None,
        }
    }
}

impl fmt::Display for Fault {
    ghost output = { λ fault. Some (fault_text fault) };

    fn fmt<W: fmt::Write>(&self, f: &mut fmt::Formatter<W>) -> fmt::Result {
        let name = self.name();
        match self.carried() {
            Some(number) => write!(f, "{name} {number}"),
            None => write!(f, "{name}"),
        }
    }
}

impl Error for Fault {}

/// Out of memory.
#[derive(Clone, Copy, Debug, PartialEq, Eq)]
pub struct OutOfMemory;

impl From<AllocError> for OutOfMemory {
    fn from(_error: AllocError) -> OutOfMemory {
        OutOfMemory
    }
}

impl<T: Drop> From<AllocFailed<T>> for OutOfMemory {
    fn from(_error: AllocFailed<T>) -> OutOfMemory {
        OutOfMemory
    }
}

impl From<OutOfMemory> for Fault {
    ghost use Rattle.std.specs.Prelude.{◌≡◌};
    ghost use Rattle.gv_types.specs.declared.fault.Fault.TheVariants.{OutOfMemory};

    ghost from_gives = { λ _ fault. fault ≡ OutOfMemory };

    fn from(_error: OutOfMemory) -> Fault {
        Fault::OutOfMemory
    }
}

impl From<AllocError> for Fault {
    ghost use Rattle.std.specs.Prelude.{◌≡◌};
    ghost use Rattle.gv_types.specs.declared.fault.Fault.TheVariants.{OutOfMemory};

    ghost from_gives = { λ _ fault. fault ≡ OutOfMemory };

    fn from(_error: AllocError) -> Fault {
        Fault::OutOfMemory
    }
}
