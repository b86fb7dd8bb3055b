//! Carries out a log's operations, each as an entry of the journal, and counts findings.

use crate::act::{Act, Moment};
use crate::fault::ReplayFault;
use crate::freed_buffers::FreedBuffers;
use crate::machine::Machine;
use crate::occurrence::Occurrence;
use crate::replayed::Replayed;
use crate::tally::Tally;
use crate::text::number_of;
use crate::watcher::Watcher;
use gv_space::Space;
use gv_types::{BufferId, Fault, Op, PAGE_BYTES, PageRange};
use std::alloc::Global;
use std::collections::VecDeque;

mod freeing;
mod room;

pub use freeing::Freed;

/// The address space and its journal, what is known of each entry, and what was counted. The journal holds the newest entries, as
/// many as it may; older ones are settled, so that buffers that were freed can go. It has to be closed: it isn't `Drop`.
pub struct Replay {
    machine: Machine,
    acts: VecDeque<Act>,
    freed: FreedBuffers,
    pub tally: Tally,
}

/// The pages that a range of bytes meets, if they are of the address space.
fn pages_of(addr: u64, len: u64) -> Option<PageRange> {
    let first = addr / PAGE_BYTES;
    let end = addr.checked_add(len)?.div_ceil(PAGE_BYTES);
    PageRange::new(first, end.checked_sub(first)?)
}

/// Whether an answer of the machine is a refusal: want of memory ends the replay.
fn refusal<T>(answer: Result<T, Fault>) -> Result<Result<T, Fault>, ReplayFault> {
    match answer {
        Err(Fault::OutOfMemory) => Err(ReplayFault::OutOfMemory),
        other => Ok(other),
    }
}

impl Replay {
    pub fn new(alloc: Global, all: bool) -> Result<Replay, ReplayFault> {
        Ok(Replay {
            machine: Machine::new(alloc)?,
            acts: VecDeque::new(alloc),
            freed: FreedBuffers::new(alloc),
            tally: Tally::new(alloc, all),
        })
    }

    /// The address space.
    pub fn space(&self) -> &Space {
        self.machine.space()
    }

    /// How many mappings have a page in this range of bytes.
    pub fn mappings_in(&self, addr: u64, len: u64) -> u64 {
        match pages_of(addr, len) {
            Some(range) => self.machine.space().list().overlapping(range).1 as u64,
            None => 0,
        }
    }

    /// Whether a range of bytes is one mapping of this buffer.
    pub fn is_one_mapping(&self, buffer: &BufferId, addr: u64, len: u64) -> bool {
        let Some(range) = pages_of(addr, len) else {
            return false;
        };
        let list = self.machine.space().list();
        let (index, count) = list.overlapping(range);
        for mapping in list.run(index, count) {
            if mapping.range() == range && mapping.is_of(*buffer) {
                return true;
            }
        }
        false
    }

    /// Counts a map that meets live mappings.
    fn note_over(&mut self, act: &Act) -> Result<(), ReplayFault> {
        let mappings = self.mappings_in(act.op.addr(), act.op.len());
        if mappings > 0 {
            self.tally.over_live.add(Occurrence::over(act, mappings))?;
        }
        Ok(())
    }

    /// Counts an unmap that meets none.
    fn note_nothing(&mut self, act: &Act) -> Result<(), ReplayFault> {
        if self.mappings_in(act.op.addr(), act.op.len()) == 0 {
            self.tally.of_nothing.add(Occurrence::nothing(act))?;
        }
        Ok(())
    }

    /// A buffer lives no more: it is destroyed once nothing keeps it, for which the entries so far have to be settled.
    pub fn destroy_later(&mut self, buffer: BufferId) -> Result<(), ReplayFault> {
        self.freed.add(buffer, self.machine.next())?;
        Ok(())
    }

    /// Makes a buffer. Where there are too many, those that were freed are destroyed first, and what keeps them is settled. None
    /// where it is refused, which is counted.
    pub fn make<V: Watcher>(
        &mut self,
        alloc: Global,
        moment: Moment,
        pages: u64,
        watcher: &mut V,
    ) -> Result<Option<BufferId>, ReplayFault> {
        let mut made = refusal(self.machine.create(alloc, pages))?;
        if made == Err(Fault::TooManyBuffers) {
            self.destroy_freed(watcher)?;
            made = refusal(self.machine.create(alloc, pages))?;
        }
        match made {
            Ok(id) => {
                self.tally.buffers = self.tally.buffers.saturating_add(1);
                watcher.made(number_of(&id), pages)?;
                Ok(Some(id))
            }
            Err(fault) => {
                self.tally
                    .refused
                    .add(Occurrence::not_made(moment, pages, fault))?;
                Ok(None)
            }
        }
    }

    /// Carries out an operation, in an entry of its own. Whether it was accepted; a refusal is counted.
    pub fn carry_out<V: Watcher>(
        &mut self,
        alloc: Global,
        act: &Act,
        watcher: &mut V,
    ) -> Result<bool, ReplayFault> {
        let ops = Vec::from_slice(alloc, &[act.op])?;
        self.make_room(watcher)?;
        match refusal(self.machine.bind(alloc, ops))? {
            Ok(_) => {
                self.note_done(act)?;
                watcher.bound(act, None, self.machine.newest(), self.machine.space())?;
                Ok(true)
            }
            Err(fault) => {
                self.note_refused(act, fault)?;
                watcher.bound(act, Some(fault), &[], self.machine.space())?;
                Ok(false)
            }
        }
    }

    /// Carries out a map, and counts it where it meets live mappings. Whether it was accepted.
    pub fn map<V: Watcher>(
        &mut self,
        alloc: Global,
        act: &Act,
        watcher: &mut V,
    ) -> Result<bool, ReplayFault> {
        self.note_over(act)?;
        self.carry_out(alloc, act, watcher)
    }

    /// Carries out a map and counts it so, whether or not it is accepted.
    pub fn attempt_map<V: Watcher>(
        &mut self,
        alloc: Global,
        act: &Act,
        watcher: &mut V,
    ) -> Result<(), ReplayFault> {
        self.note_over(act)?;
        self.attempt(alloc, act, watcher)
    }

    /// Carries out an unmap, and counts it where it meets none.
    pub fn unmap<V: Watcher>(
        &mut self,
        alloc: Global,
        act: &Act,
        watcher: &mut V,
    ) -> Result<(), ReplayFault> {
        self.note_nothing(act)?;
        self.attempt(alloc, act, watcher)
    }

    /// Carries out an operation, whether or not it is accepted.
    pub fn attempt<V: Watcher>(
        &mut self,
        alloc: Global,
        act: &Act,
        watcher: &mut V,
    ) -> Result<(), ReplayFault> {
        let _done = self.carry_out(alloc, act, watcher)?;
        Ok(())
    }

    fn note_done(&mut self, act: &Act) -> Result<(), ReplayFault> {
        // The borrow checker proves this only where the function names the types inside the act.
        let _op = Op::Unmap { addr: 0, len: 0 };
        self.tally.binds = self.tally.binds.saturating_add(1);
        self.acts.push_back(*act)?;
        Ok(())
    }

    fn note_refused(&mut self, act: &Act, fault: Fault) -> Result<(), ReplayFault> {
        self.tally.refused.add(Occurrence::refused(act, fault))
    }

    /// Ends it: the machine has to be closed.
    pub fn end(self) -> Replayed {
        let Replay {
            machine,
            acts,
            freed: _,
            tally,
        } = self;
        Replayed {
            machine,
            acts,
            tally,
        }
    }
}
