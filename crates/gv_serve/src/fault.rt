//! Why a dialogue ends early.
ghost use Rattle.std.specs.Prelude.{◌≡◌};
ghost use Rattle.gv_serve.specs.declared.fault.ServeFault.TheVariants as fault;

use gv_text::{ReadFault, WriteFault};
use gv_types::OutOfMemory;
use std::alloc::AllocError;

/// Why a dialogue was not held to the end of its input.
#[derive(Clone, Copy, Debug, PartialEq, Eq)]
pub enum ServeFault {
    /// A read failed: the lines before it are answered.
    ReadFault,
    /// A write failed.
    WriteFault,
    /// Memory was refused to the dialogue itself, before the first read.
    OutOfMemory,
}

impl From<ReadFault> for ServeFault {
    ghost from_gives = { λ _ e. e ≡ fault.ReadFault };

    fn from(_fault: ReadFault) -> ServeFault {
        ServeFault::ReadFault
    }
}

impl From<WriteFault> for ServeFault {
    ghost from_gives = { λ _ e. e ≡ fault.WriteFault };

    fn from(_fault: WriteFault) -> ServeFault {
        ServeFault::WriteFault
    }
}

impl From<AllocError> for ServeFault {
    ghost from_gives = { λ _ e. e ≡ fault.OutOfMemory };

    fn from(_error: AllocError) -> ServeFault {
        ServeFault::OutOfMemory
    }
}

impl From<OutOfMemory> for ServeFault {
    ghost from_gives = { λ _ e. e ≡ fault.OutOfMemory };

    fn from(_error: OutOfMemory) -> ServeFault {
        ServeFault::OutOfMemory
    }
}
