//! The list of mappings, the buffers and the entries, and what calls on them come to by the definitions alone.
use crate::history::{History, HistoryEntry, Kind};
use crate::lists::{count_of, edited, only, push, unmaps_of};
use gv_types::{
    BUFFER_PAGES, Backing, Bounds, BufferId, Entry, Fault, Limits, Mapping, Op, OutOfMemory,
    PageOp, PageRange, Request,
};
use gv_vm::Outcome;
use std::alloc::Global;

/// No request has more operations.
const MOST_OPS: usize = 256;

/// A buffer that was made.
#[derive(Clone, Copy)]
pub struct Made {
    pub id: BufferId,
    pub pages: u64,
    pub is_alive: bool,
}

/// A request of a queue, the one with this number.
#[derive(Drop)]
pub struct TakenRequest {
    pub queue: u64,
    pub number: u64,
    pub request: Request,
    pub seen: Vec<u64>,
}

#[derive(Drop)]
pub struct SpaceModel {
    pub bounds: Bounds,
    pub limits: Limits,
    pub buffers: Vec<Made>,
    pub list: Vec<Mapping>,
    pub history: History,
}

impl SpaceModel {
    /// The buffer with an id, where it is alive.
    pub fn alive(&self, id: &BufferId) -> Option<Made> {
        for made in &self.buffers {
            if made.is_alive && made.id == *id {
                return Some(*made);
            }
        }
        None
    }

    fn count_alive(&self) -> u64 {
        self.buffers.iter().filter(|made| made.is_alive).count() as u64
    }

    /// Makes a buffer at a position of the table that is not known yet.
    pub fn create(&mut self, pages: u64) -> Result<BufferId, Fault> {
        if pages == 0 || pages > BUFFER_PAGES {
            return Err(Fault::BadSize);
        }
        if self.count_alive() >= self.limits.buffers() {
            return Err(Fault::TooManyBuffers);
        }
        let before = self.buffers.len() as u64;
        let made = Made {
            id: BufferId::new(u32::MAX, before),
            pages,
            is_alive: true,
        };
        push(&mut self.buffers, made)?;
        Ok(BufferId::new(u32::MAX, before))
    }

    /// The newest buffer is at this position of the table. Whether it may be.
    pub fn place_newest(&mut self, id: &BufferId) -> bool {
        let Some(newest) = self.buffers.pop() else {
            return false;
        };
        let is_free = !self
            .buffers
            .iter()
            .any(|made| made.is_alive && made.id.index == id.index);
        let is_right = is_free && newest.id.generation == id.generation;
        let placed = self.buffers.push(Made {
            id: *id,
            pages: newest.pages,
            is_alive: true,
        });
        is_right && placed.is_ok()
    }

    /// Destroys a buffer that so many running jobs use.
    pub fn destroy(&mut self, alloc: Global, id: &BufferId, jobs: u64) -> Result<(), Fault> {
        if self.alive(id).is_none() {
            return Err(Fault::NoBuffer);
        }
        let count = count_of(self.list.as_slice(), id);
        if count > 0 {
            return Err(Fault::Mapped { count });
        }
        let count = self.history.kept(alloc, id)?;
        if count > 0 {
            return Err(Fault::Kept { count });
        }
        if jobs > 0 {
            return Err(Fault::InUse { jobs });
        }
        for made in &mut self.buffers {
            if made.id == *id {
                made.is_alive = false;
            }
        }
        Ok(())
    }

    /// What the entries say of a page.
    pub fn view(&self, page: u64) -> Option<Entry> {
        self.history.view(self.list.as_slice(), page)
    }

    /// What an operation does to a list, in operations that name their pages.
    fn in_pages(&self, alloc: Global, list: &[Mapping], op: &Op) -> Result<Vec<PageOp>, Fault> {
        let checked = self.bounds.check(op)?;
        match &checked {
            PageOp::UnmapBuffer { buffer } => {
                if self.alive(buffer).is_none() {
                    return Err(Fault::NoBuffer);
                }
                return Ok(unmaps_of(alloc, list, buffer)?);
            }
            PageOp::Map { range, backing, .. } => self.check_buffer(*range, backing)?,
            PageOp::Unmap { .. } => {}
        }
        Ok(only(alloc, checked)?)
    }

    /// Whether a map of a range lies in its buffer.
    fn check_buffer(&self, range: PageRange, backing: &Backing) -> Result<(), Fault> {
        let Backing::Buffer { id, page } = backing else {
            return Ok(());
        };
        let Some(made) = self.alive(id) else {
            return Err(Fault::NoBuffer);
        };
        if page.saturating_add(range.count()) > made.pages {
            return Err(Fault::OutOfBuffer);
        }
        Ok(())
    }

    fn has_too_many(&self, list: &[Mapping]) -> bool {
        list.len() as u64 > self.limits.mappings()
    }

    /// Does one operation of a request to a list, and adds what it did.
    fn does(
        &self,
        alloc: Global,
        list: &mut Vec<Mapping>,
        done: &mut Vec<PageOp>,
        op: &Op,
    ) -> Result<(), Fault> {
        for op in self.in_pages(alloc, list.as_slice(), op)? {
            *list = edited(alloc, list.as_slice(), &op)?;
            if self.has_too_many(list.as_slice()) {
                return Err(Fault::TooManyMappings);
            }
            push(done, op)?;
        }
        Ok(())
    }

    /// Carries out a request, whole or not at all.
    pub fn bind(&mut self, alloc: Global, taken: TakenRequest) -> Result<Outcome, OutOfMemory> {
        let refused = |op, fault| Ok(Outcome::Refused { op, fault });
        if taken.request.ops.len() > MOST_OPS {
            return refused(0, Fault::TooManyOps);
        }
        if self.history.entries.len() as u64 >= self.limits.items() {
            return refused(0, Fault::JournalFull);
        }
        let mut list = self.list.clone()?;
        let mut done = Vec::new(alloc);
        for (op, of_request) in taken.request.ops.iter().enumerate() {
            if let Err(fault) = self.does(alloc, &mut list, &mut done, of_request) {
                return refused(op as u64, fault);
            }
        }
        let entry = self.history.next();
        self.enter(list, taken, done)?;
        Ok(Outcome::Accepted { entry })
    }

    /// Enters a request that did these operations and left this list.
    fn enter(
        &mut self,
        list: Vec<Mapping>,
        taken: TakenRequest,
        done: Vec<PageOp>,
    ) -> Result<(), OutOfMemory> {
        let TakenRequest {
            queue,
            number,
            request,
            seen,
        } = taken;
        let kind = Kind::Bind {
            queue,
            number,
            request,
            seen,
            done,
        };
        self.add(list, kind)
    }

    /// Adds an entry that left this list.
    fn add(&mut self, list: Vec<Mapping>, kind: Kind) -> Result<(), OutOfMemory> {
        let before = std::mem::replace(&mut self.list, list);
        self.history.entries.push(HistoryEntry { before, kind })?;
        Ok(())
    }

    /// Takes the newest entry back. Its number.
    pub fn rewind(&mut self) -> Result<u64, Fault> {
        let Some(newest) = self.history.entries.pop() else {
            return Err(Fault::NoEntry);
        };
        let HistoryEntry { before, kind: _ } = newest;
        self.list = before;
        Ok(self.history.next())
    }

    /// Why an entry can't be withdrawn, whatever the limit of mappings.
    fn withdraw_fault(&self, entry: u64) -> Option<Fault> {
        let Some(past) = self.history.get(entry) else {
            return Some(Fault::NoEntry);
        };
        if let Kind::Withdrawal { .. } = &past.kind {
            return Some(Fault::NotABind);
        }
        if self.history.is_withdrawn(entry) {
            return Some(Fault::Withdrawn);
        }
        if let Some(by) = self.history.touched_by(entry) {
            return Some(Fault::Touched { by });
        }
        if self.history.entries.len() as u64 >= self.limits.items() {
            return Some(Fault::JournalFull);
        }
        None
    }

    /// The list once the pages of an entry hold again what they held before it.
    fn withdrawn(&self, alloc: Global, entry: u64) -> Result<Vec<Mapping>, Fault> {
        let mut list = self.list.clone()?;
        let Some(past) = self.history.get(entry) else {
            return Ok(list);
        };
        for position in (0..past.done().len()).rev() {
            list = self
                .history
                .restored(alloc, list.as_slice(), past, position)?;
            if self.has_too_many(list.as_slice()) {
                return Err(Fault::TooManyMappings);
            }
        }
        Ok(list)
    }

    /// Withdraws an entry. The number of the withdrawal.
    pub fn withdraw(&mut self, alloc: Global, entry: u64) -> Result<u64, Fault> {
        if let Some(fault) = self.withdraw_fault(entry) {
            return Err(fault);
        }
        let list = self.withdrawn(alloc, entry)?;
        let number = self.history.next();
        self.add(list, Kind::Withdrawal { of: entry })?;
        Ok(number)
    }

    /// Settles the entries below a number. How many.
    pub fn settle(&mut self, alloc: Global, to: u64) -> Result<u64, Fault> {
        if to < self.history.first || to > self.history.next() {
            return Err(Fault::NoEntry);
        }
        if let Some(by) = self.history.crossed_by(to) {
            return Err(Fault::Crossed { by });
        }
        let count = to.saturating_sub(self.history.first);
        let entries = std::mem::replace(&mut self.history.entries, Vec::new(alloc));
        for (position, entry) in entries.into_iter().enumerate() {
            if position as u64 >= count {
                push(&mut self.history.entries, entry)?;
            }
        }
        self.history.first = to;
        Ok(count)
    }
}
