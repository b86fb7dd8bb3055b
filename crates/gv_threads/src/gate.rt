//! After how many looks a request that waits is given up.
ghost use Rattle.std.specs.Prelude.{◌≡◌, ◌≤◌, ◌↔◌};

use gv_queues::{Gate, Turn};
use gv_sync::Lacking;

/// Gives a request up after this many looks at a wait that was not reached.
#[derive(Drop)]
pub struct TurnLimit {
    turns: u64,
}

impl TurnLimit {
    pub fn new(turns: u64) -> Self
        ensures { result.turns ≡ turns }
    {
        TurnLimit { turns }
    }
}

impl Gate for TurnLimit {
    fn turn(&self, _queue: u64, _number: u64, _lacking: &Lacking, turns: u64) -> Turn
        ensures { (result ≡ Turn.GiveUp) ↔ (self.now.turns ≤ turns) }
    {
        if turns < self.turns {
            Turn::GoOn
        } else {
            Turn::GiveUp
        }
    }

    fn before_lock(&self, _queue: u64, _number: u64) {}
}
