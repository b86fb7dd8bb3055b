//! What queues were told, by the definitions alone: each whole list is kept, and how many of its first outcomes are forgotten.
use gv_vm::Outcome;
use std::alloc::Global;

#[derive(Drop)]
pub struct QueueOutcomes {
    pub outcomes: Vec<Outcome>,
    pub forgotten: u64,
}

impl QueueOutcomes {
    pub fn new(alloc: Global) -> QueueOutcomes {
        QueueOutcomes {
            outcomes: Vec::new(alloc),
            forgotten: 0,
        }
    }

    /// Those that aren't forgotten.
    pub fn rest(&self) -> &[Outcome] {
        let all = self.outcomes.as_slice();
        &all[(self.forgotten as usize).min(all.len())..]
    }

    /// Whether a number is that of an outcome that isn't forgotten, or the next one.
    pub fn has(&self, number: u64) -> bool {
        self.forgotten <= number && number <= self.outcomes.len() as u64
    }

    /// Those below a number are forgotten: how many more.
    pub fn forget(&mut self, to: u64) -> u64 {
        let count = to.saturating_sub(self.forgotten);
        self.forgotten = to;
        count
    }
}
