//! Buffers whose memory was freed, until no entry keeps them.

use gv_types::BufferId;
use std::alloc::{AllocError, Global};
use std::collections::VecDeque;

/// A buffer, and the number of the first entry that can't keep it.
#[derive(Clone, Copy)]
struct Waiting {
    buffer: BufferId,
    until: u64,
}

/// The oldest first, so their numbers never fall.
#[derive(Drop)]
pub struct FreedBuffers {
    waiting: VecDeque<Waiting>,
}

impl FreedBuffers {
    pub fn new(alloc: Global) -> FreedBuffers {
        FreedBuffers {
            waiting: VecDeque::new(alloc),
        }
    }

    pub fn len(&self) -> usize {
        self.waiting.len()
    }

    /// A buffer waits until the entries below this number are settled.
    pub fn add(&mut self, buffer: BufferId, until: u64) -> Result<(), AllocError> {
        self.waiting.push_back(Waiting { buffer, until })?;
        Ok(())
    }

    /// The oldest one, where `first` is the number of the oldest entry that is held and none below keeps it.
    pub fn take_due(&mut self, first: u64) -> Option<BufferId> {
        if self.waiting.front()?.until > first {
            return None;
        }
        let due = self.waiting.pop_front()?;
        Some(due.buffer)
    }
}
