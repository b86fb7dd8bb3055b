//! A watcher that counts what it is told.

use gv_replay::{Act, ReplayFault, Watcher};
use gv_space::Space;
use gv_types::{Fault, PageOp};

/// What was told, counted. It ends the replay at a bind of this number.
#[derive(Drop)]
pub struct Counts {
    pub last: u64,
    pub made: u64,
    pub bound: u64,
    pub refused: u64,
    pub done: usize,
    pub mappings: usize,
    pub settled: u64,
    pub destroyed: u64,
}

/// Nothing was told.
pub const NONE: Counts = Counts {
    last: u64::MAX,
    made: 0,
    bound: 0,
    refused: 0,
    done: 0,
    mappings: 9,
    settled: 0,
    destroyed: 0,
};

impl Watcher for Counts {
    fn made(&mut self, _buffer: u64, _pages: u64) -> Result<(), ReplayFault> {
        self.made = self.made.saturating_add(1);
        Ok(())
    }

    fn bound(
        &mut self,
        _act: &Act,
        refused: Option<Fault>,
        done: &[PageOp],
        space: &Space,
    ) -> Result<(), ReplayFault> {
        self.bound = self.bound.saturating_add(1);
        self.refused = self.refused.saturating_add(u64::from(refused.is_some()));
        self.done = self.done.saturating_add(done.len());
        self.mappings = space.list().len();
        if self.bound == self.last {
            return Err(ReplayFault::WriteFault);
        }
        Ok(())
    }

    fn settled(&mut self, to: u64) -> Result<(), ReplayFault> {
        self.settled = to;
        Ok(())
    }

    fn destroyed(&mut self, _buffer: u64) -> Result<(), ReplayFault> {
        self.destroyed = self.destroyed.saturating_add(1);
        Ok(())
    }
}
