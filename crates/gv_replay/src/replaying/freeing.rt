//! Frees memory: unmaps its buffer everywhere, and counts what still reached it.

use super::{Replay, pages_of};
use crate::act::{Act, Cause, Moment};
use crate::fault::ReplayFault;
use crate::occurrence::Occurrence;
use crate::watcher::Watcher;
use gv_types::{BufferId, Op};
use std::alloc::Global;

/// A buffer that is freed: its own range in bytes, the line that made it, and why it goes.
#[derive(Clone, Copy)]
pub struct Freed {
    pub buffer: BufferId,
    pub addr: u64,
    pub len: u64,
    pub made_at: u64,
    pub cause: Cause,
}

impl Freed {
    /// A buffer whose pointer is another's from here on: each mapping that is left still reaches it.
    pub fn replaced(buffer: BufferId, made_at: u64) -> Freed {
        Freed {
            buffer,
            addr: 0,
            len: 0,
            made_at,
            cause: Cause::MadeAnew,
        }
    }

    fn act(&self, moment: Moment) -> Act {
        Act {
            moment,
            op: Op::UnmapBuffer {
                buffer: self.buffer,
            },
            cause: self.cause,
        }
    }
}

impl Replay {
    /// Takes away all mappings of a buffer that was freed, which has its own at this range of bytes. The buffer is destroyed once
    /// nothing keeps it.
    pub fn free<V: Watcher>(
        &mut self,
        alloc: Global,
        moment: Moment,
        freed: &Freed,
        watcher: &mut V,
    ) -> Result<(), ReplayFault> {
        let uses = self.machine.space().uses(freed.buffer).unwrap_or(0);
        let others = uses.saturating_sub(self.own_mappings(freed));
        if others > 0 {
            self.note_reached(moment, freed, others)?;
        }
        if uses > 0 {
            self.attempt(alloc, &freed.act(moment), watcher)?;
        }
        self.destroy_later(freed.buffer)
    }

    /// How many mappings of the buffer lie in its own range.
    fn own_mappings(&self, freed: &Freed) -> u64 {
        let Some(own) = pages_of(freed.addr, freed.len) else {
            return 0;
        };
        let list = self.machine.space().list();
        let (index, count) = list.overlapping(own);
        let mut mappings: u64 = 0;
        for mapping in list.run(index, count) {
            if mapping.is_of(freed.buffer) && mapping.range().lies_in(own) {
                mappings = mappings.saturating_add(1);
            }
        }
        mappings
    }

    fn note_reached(
        &mut self,
        moment: Moment,
        freed: &Freed,
        mappings: u64,
    ) -> Result<(), ReplayFault> {
        let pages = self.machine.space().pages(freed.buffer).unwrap_or(0);
        let numbers = [freed.made_at, pages, mappings];
        let occurrence = Occurrence::reached(moment, freed.buffer, numbers);
        self.tally.still_reached.add(occurrence)
    }
}
