//! What remains to do in a turn of a queue.
ghost use Rattle.std.specs.Prelude.{◌≡◌, false};
ghost use Rattle.gv_vm.specs.TurnParts.{AreRemaining};

use gv_types::Request;

/// What remains of a request: how many of its waits, and of its signals.
#[derive(Clone, Copy)]
pub struct Remaining {
    /// Whether it is in hand; else it is the first that waits.
    pub in_hand: bool,
    pub waits: usize,
    pub signals: usize,
}

/// How many signals are owed, and what remains of the request in hand, or else of the first that waits.
pub struct NextTurn {
    pub owed: usize,
    pub remaining: Option<Remaining>,
}

impl Remaining {
    /// What remains of a request that waits: all of it.
    pub fn waiting(request: &Request) -> Remaining
        ensures { (result.in_hand ≡ false) × AreRemaining request.now.waits.items request.now.signals.items result }
    {
        Remaining {
            in_hand: false,
            waits: request.waits.len(),
            signals: request.signals.len(),
        }
    }
}
