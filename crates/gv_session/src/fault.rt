//! Why a script ends early.
ghost use Rattle.std.specs.Prelude.{◌≡◌};
ghost use Rattle.gv_session.specs.declared.fault.ScriptFault.TheVariants as fault;
ghost use Rattle.gv_session.specs.declared.fault.LineFault.TheVariants as line_fault;
ghost use Rattle.gv_session.specs.Faults.{fault_at};

use gv_io::{ReadFault, WriteFault};
use gv_types::{Fault, OutOfMemory};
use std::alloc::AllocError;

/// Why a script was not run to its end.
#[derive(Clone, Copy, Debug, PartialEq, Eq)]
pub enum ScriptFault {
    /// This line, counted from 1, is no line of the language, or not at this place.
    BadLine { line: u64 },
    /// The script has more than `SCRIPT_LIMIT` bytes.
    ScriptTooLong,
    ReadFault,
    WriteFault,
    OutOfMemory,
}

impl ScriptFault {
    ghost use Rattle.gv_session.specs.Faults.{script_fault_number};

    /// Its number, which is never used for another fault. A device's fault has none; want of memory has that of `Fault`.
    pub fn number(&self) -> Option<u8>
        ensures { result ≡ script_fault_number self.now }
    {
        match self {
            ScriptFault::BadLine { .. } => Some(27),
            ScriptFault::ScriptTooLong => Some(28),
            ScriptFault::ReadFault | ScriptFault::WriteFault => None,
            ScriptFault::OutOfMemory => Some(Fault::OutOfMemory.number()),
        }
    }
}

impl From<ReadFault> for ScriptFault {
    ghost from_gives = { λ _ e. e ≡ fault.ReadFault };

    fn from(_fault: ReadFault) -> ScriptFault {
        ScriptFault::ReadFault
    }
}

impl From<WriteFault> for ScriptFault {
    ghost from_gives = { λ _ e. e ≡ fault.WriteFault };

    fn from(_fault: WriteFault) -> ScriptFault {
        ScriptFault::WriteFault
    }
}

impl From<AllocError> for ScriptFault {
    ghost from_gives = { λ _ e. e ≡ fault.OutOfMemory };

    fn from(_error: AllocError) -> ScriptFault {
        ScriptFault::OutOfMemory
    }
}

impl From<OutOfMemory> for ScriptFault {
    ghost from_gives = { λ _ e. e ≡ fault.OutOfMemory };

    fn from(_error: OutOfMemory) -> ScriptFault {
        ScriptFault::OutOfMemory
    }
}

/// Why a line was not run.
#[derive(Clone, Copy, Debug, PartialEq, Eq)]
pub enum LineFault {
    /// The line is not of the language, or not at this place, or names what is not declared, or declares what is.
    Bad,
    OutOfMemory,
}

impl LineFault {
    /// The same of the line with this number, counted from 1.
    pub fn at(self, number: u64) -> ScriptFault
        ensures { result ≡ fault_at number self }
    {
        match self {
            LineFault::Bad => ScriptFault::BadLine { line: number },
            LineFault::OutOfMemory => ScriptFault::OutOfMemory,
        }
    }
}

impl From<AllocError> for LineFault {
    ghost from_gives = { λ _ e. e ≡ line_fault.OutOfMemory };

    fn from(_error: AllocError) -> LineFault {
        LineFault::OutOfMemory
    }
}

impl From<OutOfMemory> for LineFault {
    ghost from_gives = { λ _ e. e ≡ line_fault.OutOfMemory };

    fn from(_error: OutOfMemory) -> LineFault {
        LineFault::OutOfMemory
    }
}
