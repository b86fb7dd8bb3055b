//! The machine, the acts of its entries and the counts at the end of a replay.

use crate::act::Act;
use crate::machine::Machine;
use crate::tally::Tally;
use std::collections::VecDeque;

/// What a replay leaves: what the held entries were, and what was counted.
pub struct Replayed {
    pub machine: Machine,
    pub acts: VecDeque<Act>,
    pub tally: Tally,
}

impl Replayed {
    /// Gives up what the entries keep.
    pub fn close(self) {
        let Replayed {
            machine,
            acts: _,
            tally: _,
        } = self;
        machine.close();
    }
}
