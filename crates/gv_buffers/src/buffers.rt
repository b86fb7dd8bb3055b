//! The table of buffers.
ghost use Rattle.std.specs.Prelude.{◌≡◌, ◌<◌, length, IfOk, IsOk, IsOkUnless, OnOk, OnErr, MatchOption};
ghost use Rattle.gv_types.specs.Limits.{greatest, IsFromOneTo};

use crate::counter::{Counter, Move};
use crate::indices::{Indices, forget};
use crate::live_buffer::LiveBuffer;
use crate::slots::Slots;
use crate::usage::Usage;
use crate::users::Users;
use gv_types::{BUFFER_PAGES, BufferId, Fault, Generation, OutOfMemory};
use std::alloc::Global;
use std::collections::HashMap;
use std::marker::Model;

// So many buffers a new table has room for, where its limit is no lower.
const FIRST_ROOM: u64 = 8;

/// The live buffers of an address space: how many pages each has, how many mappings name it, and which running jobs use it. No two jobs use
/// one buffer where either writes it, as the kernel's Reservation Objects ask. An id that died stays dead when its index is used again.
#[derive(Drop)]
pub struct Buffers {
    limit: u64,
    made: u64,
    slots: Slots,
    indices: Indices,
}

impl Model for Buffers {
    ghost use Rattle.gv_buffers.specs.Buffers.{BuffersState};

    ghost Value = { BuffersState };

    ghost use Rattle.gv_buffers.specs.Inside.{table_of, AreSoundBuffers};

    ghost view = { table_of };

    ghost invariant = { AreSoundBuffers };
}

impl Buffers {
    ghost use Rattle.gv_buffers.specs.Buffers.{no_buffers, next_index, uses, kept, pages, IsTable};
    ghost use Rattle.gv_buffers.specs.Buffers.{create_fault, destroy_fault, join_fault, IsCreated};
    ghost use Rattle.gv_buffers.specs.Buffers.{without, changed, left_everywhere};
    ghost use Rattle.gv_buffers.specs.Buffers.{buffer, counted, raised, lowered, taken_out, brought_back};
    ghost use Rattle.gv_buffers.specs.Buffers.{joined_by, most_counted};
    ghost use Rattle.gv_buffers.specs.Slots.{CanMove, after_move};
    ghost use Rattle.std.specs.Option.{IsSomeAnd};

    /// A table of no buffer, in which at most `limit` are alive at once, from 1 to 65,536. It has room for the first 8. `OutOfMemory` where
    /// the system refuses that room.
    pub fn new(alloc: Global, limit: u64) -> Result<Buffers, Fault>
        requires { IsFromOneTo greatest.buffers limit }
        ensures empty { IfOk result (λ b. b ≡ no_buffers limit) }
        ensures only_memory { IsOkUnless result Fault.OutOfMemory }
    {
        let room = limit.min(FIRST_ROOM) as usize;
        Ok(Buffers {
            limit,
            made: 0,
            slots: Slots::new(alloc, room)?,
            indices: HashMap::new(alloc),
        })
    }

    /// Gives room back that neither an index needs nor a buffer.
    pub fn shrink(&mut self)
        ensures { self.new ≡ self.old }
    {
        self.slots.shrink_buffers();
        self.slots.shrink();
    }

    /// Why no buffer of `pages` pages can be made, whatever memory there is: `BadSize` at 0 pages or
    /// over 2^36, then `TooManyBuffers` where the limit's buffers are alive or 2^64 - 1 were made.
    pub fn create_fault(&self, pages: u64) -> Option<Fault>
        ensures { result ≡ create_fault self.now pages }
    {
        if pages == 0 || pages > BUFFER_PAGES {
            return Some(Fault::BadSize);
        }
        if self.live() as u64 >= self.limit || self.made == u64::MAX {
            return Some(Fault::TooManyBuffers);
        }
        None
    }

    /// The index that the next buffer gets, where fewer than the limit's are alive.
    pub fn next_index(&self) -> u32
        requires { length self.now.live < self.now.limit }
        ensures index { result ≡ next_index self.now }
        ensures few { result < greatest.buffers }
    {
        self.slots.next_index()
    }

    /// Makes a buffer of `pages` pages, unless `create_fault` says why none can be, or memory is refused. The id's generation is how many
    /// were made before; its index is the one that a destroyed buffer left last, if one is vacant. Where none is, it may take memory,
    /// for twice as many indices; where one is, only if a `shrink` gave the room of the dead buffer back.
    pub fn create(&mut self, alloc: Global, pages: u64) -> Result<BufferId, Fault>
        ensures fault { MatchOption (create_fault self.old pages)
            (IsOkUnless result Fault.OutOfMemory) (λ fault. result ≡ Err fault) }
        ensures ok { IfOk result (λ id. IsCreated self.old self.new id pages) }
        ensures err { OnErr result (self.new ≡ self.old) }
        ensures table { OnOk result (IsTable self.new) }
    {
        if let Some(fault) = self.create_fault(pages) {
            return Err(fault);
        }
        let generation = self.made;
        let buffer = LiveBuffer {
            generation: Generation::new(generation),
            pages,
            uses: 0,
            kept: 0,
            users: Users::new(alloc),
        };
        let index = self.slots.put_in(buffer)?;
        self.made += 1;
        Ok(BufferId::new(index, generation))
    }

    /// Destroys a buffer that nothing names. `NoBuffer` where the id is dead, then `Mapped` where mappings of it are in the list, `Kept`
    /// where they are in undo values, and `InUse` where jobs use it. It takes no memory.
    pub fn destroy(&mut self, id: BufferId) -> Result<(), Fault>
        ensures fault { MatchOption (destroy_fault self.old id)
            (IsOk result) (λ fault. result ≡ Err fault) }
        ensures ok { OnOk result (self.new ≡ without id self.old) }
        ensures err { OnErr result (self.new ≡ self.old) }
    {
        let index = id.index;
        let Some(slot) = self.slots.get(id) else {
            return Err(Fault::NoBuffer);
        };
        slot.check_unused()?;
        self.slots.take_out(index);
        Ok(())
    }

    /// How many mappings of the buffer are in the list, or None where the id is dead.
    pub fn uses(&self, id: BufferId) -> Option<u64>
        ensures value { result ≡ uses self.now id }
        ensures table { IsTable self.now }
    {
        self.counted(Counter::Uses, id)
    }

    /// How many mappings of the buffer are in undo values, or None where the id is dead.
    pub fn kept(&self, id: BufferId) -> Option<u64>
        ensures value { result ≡ kept self.now id }
        ensures table { IsTable self.now }
    {
        self.counted(Counter::Kept, id)
    }

    /// How many pages the buffer has, or None where the id is dead.
    pub fn pages(&self, id: BufferId) -> Option<u64>
        ensures value { result ≡ pages self.now id }
        ensures table { IsTable self.now }
    {
        self.slots.get(id).map(|slot| slot.pages)
    }

    /// Counts one more mapping in the list. It takes no memory.
    #[inline(always)]
    pub fn count_in(&mut self, id: BufferId)
        requires { IsSomeAnd (uses self.old id) (λ count. count < most_counted) }
        ensures { self.new ≡ changed id (raised Counter.Uses 1) self.old }
    {
        self.count_move(id, Move::In);
    }

    /// Counts one mapping less in the list. It takes no memory.
    #[inline(always)]
    pub fn count_out(&mut self, id: BufferId)
        requires { IsSomeAnd (uses self.old id) (λ count. 0 < count) }
        ensures { self.new ≡ changed id (lowered Counter.Uses 1) self.old }
    {
        self.count_move(id, Move::Out);
    }

    /// One mapping leaves the list and comes into an undo value. It takes no memory.
    #[inline(always)]
    pub fn count_taken_out(&mut self, id: BufferId)
        requires used { IsSomeAnd (uses self.old id) (λ count. 0 < count) }
        requires room { IsSomeAnd (kept self.old id) (λ count. count < most_counted) }
        ensures { self.new ≡ changed id taken_out self.old }
    {
        self.count_move(id, Move::TakenOut);
    }

    /// One mapping comes back into the list out of an undo value. It takes no memory.
    #[inline(always)]
    pub fn count_brought_back(&mut self, id: BufferId)
        requires room { IsSomeAnd (uses self.old id) (λ count. count < most_counted) }
        requires kept { IsSomeAnd (kept self.old id) (λ count. 0 < count) }
        ensures { self.new ≡ changed id brought_back self.old }
    {
        self.count_move(id, Move::BroughtBack);
    }

    /// Counts one more mapping in undo values. It takes no memory.
    #[inline(always)]
    pub fn keep(&mut self, id: BufferId)
        requires { IsSomeAnd (kept self.old id) (λ count. count < most_counted) }
        ensures { self.new ≡ changed id (raised Counter.Kept 1) self.old }
    {
        self.count_move(id, Move::Saved);
    }

    /// Counts one mapping less in undo values. It takes no memory.
    #[inline(always)]
    pub fn unkeep(&mut self, id: BufferId)
        requires { IsSomeAnd (kept self.old id) (λ count. 0 < count) }
        ensures { self.new ≡ changed id (lowered Counter.Kept 1) self.old }
    {
        self.count_move(id, Move::Released);
    }

    // How many buffers are alive.
    fn live(&self) -> usize
        ensures { result ≡ length self.now.live }
    {
        self.slots.live()
    }

    /// How many mappings a counter of the buffer counts, or None where the id is dead.
    fn counted(&self, counter: Counter, id: BufferId) -> Option<u64>
        ensures value { result ≡ counted counter self.now id }
        ensures table { IsTable self.now }
    {
        self.slots.get(id).map(|slot| slot.count(counter))
    }

    /// Counts a mapping that moves.
    #[inline(always)]
    fn count_move(&mut self, id: BufferId, how: Move)
        requires { IsSomeAnd (buffer self.old id) (CanMove how) }
        ensures { self.new ≡ changed id (after_move how) self.old }
    {
        self.slots.count_move(id.index, how);
    }

    /// Lets a job use a buffer; one that uses it already gets the stronger usage. `NoBuffer` where
    /// the id is dead, then `Conflict` with the least other job that uses the buffer where one of
    /// the two writes it, then `OutOfMemory`.
    pub fn join(&mut self, alloc: Global, id: BufferId, job: u64, usage: Usage) -> Result<(), Fault>
        ensures fault { MatchOption (join_fault self.old id job usage)
            (IsOkUnless result Fault.OutOfMemory) (λ fault. result ≡ Err fault) }
        ensures ok { OnOk result (self.new ≡ changed id (joined_by job usage) self.old) }
        ensures err { OnErr result (self.new ≡ self.old) }
        ensures table { IsTable self.new }
    {
        let index = id.index;
        let Some(slot) = self.slots.get(id) else {
            return Err(Fault::NoBuffer);
        };
        if let Some(job) = slot.users.conflict(job, usage) {
            return Err(Fault::Conflict { job });
        }
        self.slots
            .reserve_user(alloc, &mut self.indices, index, job)?;
        self.slots.join(index, job, usage);
        Ok(())
    }

    /// Removes a job from the users of every buffer. It goes to the buffers that the job joined and
    /// to no other, and takes no memory.
    pub fn leave(&mut self, job: u64)
        ensures value { self.new ≡ left_everywhere job self.old }
        ensures table { IsTable self.new }
    {
        if let Some(noted) = forget(&mut self.indices, job) {
            self.slots.leave_all(&noted, job);
        }
    }
}
