//! The buffers of an address space, and the jobs that use them.
ghost use Rattle.std.specs.Prelude.{◌≡◌, ◌<◌, List};
ghost use Rattle.std.specs.Prelude.{IfOk, IsOk, IsOkUnless, OnOk, OnErr, MatchOption};
ghost use Rattle.std.specs.List.{All};
ghost use Rattle.gv_types.specs.PageRange.{IsInSpace};
ghost use Rattle.gv_types.specs.declared.mapping.Mapping.{Mapping};
ghost use Rattle.gv_buffers.specs.Buffers.{uses, kept, pages, create_fault, destroy_fault, join_fault};
ghost use Rattle.gv_buffers.specs.Buffers.{without, changed, joined_by, left_everywhere, IsCreated};
ghost use Rattle.gv_space.specs.Counts.{count_of, ranges_of};
ghost use Rattle.gv_space.specs.State.{AreKept};
ghost use Rattle.gv_space.specs.Refusal.{dead_fault};

use super::Space;
use crate::ranges;
use gv_buffers::Usage;
use gv_types::{BufferId, Fault, PageRange};
use std::alloc::Global;

impl Space {
    /// How many mappings of the buffer are in the list, or None where the id is dead.
    pub fn uses(&self, id: BufferId) -> Option<u64>
        ensures { result ≡ uses self.now.buffers id }
    {
        self.buffers.uses(id)
    }

    /// How many mappings of the buffer are in undo values, or None where the id is dead.
    pub fn kept(&self, id: BufferId) -> Option<u64>
        ensures { result ≡ kept self.now.buffers id }
    {
        self.buffers.kept(id)
    }

    /// How many pages the buffer has, or None where the id is dead.
    pub fn pages(&self, id: BufferId) -> Option<u64>
        ensures { result ≡ pages self.now.buffers id }
    {
        self.buffers.pages(id)
    }

    /// The pages of each mapping of a buffer, in ascending order: what an unmap of the whole buffer unmaps. `NoBuffer` where
    /// the id is dead; `OutOfMemory` only where there is such a mapping. Where the buffer keeps the first pages of all, each is looked up;
    /// else the list is gone through, as far as the last of them.
    pub fn buffer_ranges(&self, alloc: Global, id: BufferId) -> Result<Vec<PageRange>, Fault>
        ensures fault { MatchOption (dead_fault (pages self.now.buffers id))
            (IsOkUnless result Fault.OutOfMemory) (λ fault. result ≡ Err fault) }
        ensures ranges { IfOk result (λ list. list.items ≡ ranges_of id self.now.mappings) }
        ensures in_space { IfOk result (λ list. All IsInSpace list.items) }
        ensures some { result ≡ Err Fault.OutOfMemory → 0 < count_of id self.now.mappings }
    {
        let Some(count) = self.buffers.uses(id) else {
            return Err(Fault::NoBuffer);
        };
        let first_pages = self.first_pages.first_pages(id.index);
        Ok(ranges::ranges_of(alloc, self.list(), id, count, first_pages)?)
    }

    /// Why no buffer of `pages` pages can be made, whatever memory there is.
    pub fn create_fault(&self, pages: u64) -> Option<Fault>
        ensures { result ≡ create_fault self.now.buffers pages }
    {
        self.buffers.create_fault(pages)
    }

    /// Makes a buffer of `pages` pages. `BadSize` at 0 pages or over 2^36, and `TooManyBuffers` where the limit's buffers are
    /// alive or 2^64 - 1 were made, then `OutOfMemory`.
    pub fn create(&mut self, alloc: Global, pages: u64) -> Result<BufferId, Fault>
        ensures fault { MatchOption (create_fault self.old.buffers pages)
            (IsOkUnless result Fault.OutOfMemory) (λ fault. result ≡ Err fault) }
        ensures ok { IfOk result (λ id. IsCreated self.old.buffers self.new.buffers id pages) }
        ensures rest { self.new ≡ record self.old { buffers = self.new.buffers } }
        ensures err { OnErr result (self.new ≡ self.old) }
        ensures kept { (ms : List Mapping) → AreKept self.old ms → AreKept self.new ms }
    {
        if let Some(fault) = self.create_fault(pages) {
            return Err(fault);
        }
        let index = self.buffers.next_index();
        self.first_pages.reserve(alloc, index)?;
        self.mapped.reserve_name(index)?;
        match self.buffers.create(alloc, pages) {
            Ok(id) => {
                self.mapped.name(BufferId {
                    index: id.index,
                    generation: id.generation,
                });
                Ok(id)
            }
            Err(fault) => Err(fault),
        }
    }

    /// Destroys a buffer that nothing names. `NoBuffer` where the id is dead, then `Mapped` where mappings of it are in the
    /// list, `Kept` where they are in undo values, and `InUse` where jobs use it. It takes no memory.
    pub fn destroy(&mut self, id: BufferId) -> Result<(), Fault>
        ensures fault { MatchOption (destroy_fault self.old.buffers id)
            (IsOk result) (λ fault. result ≡ Err fault) }
        ensures ok { OnOk result (self.new ≡ record self.old { buffers = without id self.old.buffers }) }
        ensures err { OnErr result (self.new ≡ self.old) }
        ensures kept { (ms : List Mapping) → AreKept self.old ms → AreKept self.new ms }
    {
        self.buffers.destroy(id)
    }

    /// Lets a job use a buffer, as the kernel's Reservation Objects do; one that uses it already gets the stronger usage.
    /// `NoBuffer` where the id is dead, then `Conflict` with the least other job that uses the buffer where one of the two
    /// writes it, then `OutOfMemory`.
    pub fn join(&mut self, alloc: Global, id: BufferId, job: u64, usage: Usage) -> Result<(), Fault>
        ensures fault { MatchOption (join_fault self.old.buffers id job usage)
            (IsOkUnless result Fault.OutOfMemory) (λ fault. result ≡ Err fault) }
        ensures ok { OnOk result
            (self.new ≡ record self.old { buffers = changed id (joined_by job usage) self.old.buffers }) }
        ensures err { OnErr result (self.new ≡ self.old) }
        ensures kept { (ms : List Mapping) → AreKept self.old ms → AreKept self.new ms }
    {
        self.buffers.join(alloc, id, job, usage)
    }

    /// Removes a job from the users of every buffer. It takes no memory.
    pub fn leave(&mut self, job: u64)
        ensures state { self.new ≡ record self.old { buffers = left_everywhere job self.old.buffers } }
        ensures kept { (ms : List Mapping) → AreKept self.old ms → AreKept self.new ms }
    {
        self.buffers.leave(job);
    }
}
