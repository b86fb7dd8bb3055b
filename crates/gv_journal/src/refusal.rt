//! Why a request is refused.
ghost use Rattle.std.specs.Prelude.{◌≡◌};
ghost use Rattle.gv_journal.specs.Verdict.{refusal};

use gv_types::Fault;

/// The operation of a request that is refused, counted from 0, and why. What refuses the whole request names the first one.
#[derive(Clone, Copy, Debug, PartialEq, Eq)]
pub struct Refusal {
    pub op: u64,
    pub fault: Fault,
}

/// A refusal of the whole request.
pub fn whole(fault: Fault) -> Refusal
    ensures { result ≡ refusal 0 fault }
{
    Refusal { op: 0, fault }
}
