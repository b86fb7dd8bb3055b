//! The live buffer at each index, and the vacant indices.
ghost use Rattle.std.specs.Prelude.{◌≡◌, ◌≢◌, ◌+◌, ◌<◌, ◌∷◌, ◌^◌, ℕ, Contains, IfOk, OnOk, OnErr, IsOkUnless};
ghost use Rattle.std.specs.Prelude.{Some, None, length, reverse, drop, slice_index_or, IsSome, IsSomeAnd};
ghost use Rattle.std.specs.Option.{option_copied, option_map};
ghost use Rattle.gv_buffers.specs.Indices.{IsNoted};
ghost use Rattle.gv_buffers.specs.Slots.{get, live_at, live_count, buffer_in, next_slot, no_slots};
ghost use Rattle.gv_buffers.specs.Slots.{Holds, Updates, AreNoted, AreVacant};
ghost use Rattle.gv_buffers.specs.Slots.{HasRoomForJob, IsLeftOrSame, CanMove, after_move};
ghost use Rattle.gv_buffers.specs.Buffers.{joined_by, left_by};

mod shrinking;

use crate::counter::Move;
use crate::indices::{Indices, note};
use crate::live_buffer::LiveBuffer;
use crate::usage::Usage;
use gv_types::{BufferId, Fault};
use slab::Slab;
use std::alloc::{AllocError, Global};
use std::marker::Model;

/// For each index the live buffer there, and the indices that dead buffers left. The buffers are stored in a slab, and an index has the key
/// of its buffer. The slab leaves open which key a buffer gets, so no contract sees a key; which index it gets is specified.
#[derive(Drop)]
pub struct Slots {
    // For each index the key of the live buffer there.
    keys: Vec<Option<usize>>,
    // The indices that have no key. The one that was left last stands last.
    vacant: Vec<u32>,
    live: Slab<LiveBuffer>,
}

impl Model for Slots {
    ghost use Rattle.gv_buffers.specs.Slots.{SlotsState};

    ghost Value = { SlotsState };

    ghost use Rattle.gv_buffers.specs.Keys.{slots_of, AreSoundSlots};

    ghost view = { slots_of };

    ghost invariant = { AreSoundSlots };
}

impl Slots {
    /// Slots with no index, and room for some.
    pub fn new(alloc: Global, room: usize) -> Result<Slots, AllocError>
        ensures { IfOk result (λ slots. slots ≡ no_slots) }
    {
        Ok(Slots {
            keys: Vec::with_capacity(alloc, room)?,
            vacant: Vec::with_capacity(alloc, room)?,
            live: Slab::with_capacity(alloc, room)?,
        })
    }

    /// How many buffers are alive.
    pub fn live(&self) -> usize
        ensures { result ≡ live_count self.now.entries }
    {
        self.live.len()
    }

    /// The live buffer with this id.
    pub fn get(&self, id: BufferId) -> Option<&LiveBuffer>
        ensures { option_copied result ≡ live_at self.now.entries id }
    {
        let Some(Some(key)) = self.keys.get(id.index as usize) else {
            return None;
        };
        match self.live.get(*key) {
            Some(buffer) if buffer.generation == id.generation => Some(buffer),
            _ => None,
        }
    }

    /// The index of the next buffer: the one that was left last, else the first that never had a buffer.
    pub fn next_index(&self) -> u32
        requires { length self.now.entries < 2 ^ 32 }
        ensures { result ≡ next_slot self.now.entries self.now.vacant }
    {
        match self.vacant.last() {
            Some(index) => *index,
            None => self.keys.len() as u32,
        }
    }

    /// Puts a buffer into the next index. `OutOfMemory` where the system refuses room, which doubles, and where no index can number the
    /// slot: no limit asks for as many.
    pub fn put_in(&mut self, buffer: LiveBuffer) -> Result<u32, Fault>
        requires { AreVacant self.old.entries self.old.vacant }
        ensures index { IfOk result (λ index. index ≡ next_slot self.old.entries self.old.vacant) }
        ensures was_vacant { IfOk result (λ index. get self.old.entries index ≡ None) }
        ensures updates { IfOk result (λ index. Updates self.old.entries self.new.entries index (Some buffer)) }
        ensures count { OnOk result (live_count self.new.entries ≡ live_count self.old.entries + 1) }
        ensures vacant { OnOk result (AreVacant self.new.entries self.new.vacant) }
        ensures rest { OnOk result (reverse self.new.vacant ≡ drop 1 (reverse self.old.vacant)) }
        ensures err { OnErr result (self.new ≡ self.old) }
        ensures only_memory { IsOkUnless result Fault.OutOfMemory }
    {
        self.live.reserve(1)?;
        if let Some(index) = self.vacant.pop() {
            self.keys[index as usize] = Some(self.live.insert_reserved(buffer));
            return Ok(index);
        }
        let Ok(index) = u32::try_from(self.keys.len()) else {
            return Err(Fault::OutOfMemory);
        };
        self.keys.reserve(1)?;
        self.vacant.reserve(self.keys.len() + 1)?;
        let key = self.live.insert_reserved(buffer);
        self.keys.push_reserved(Some(key));
        Ok(index)
    }

    /// Takes the buffer at an index out, and notes the index as vacant.
    pub fn take_out(&mut self, index: u32)
        requires lives { Holds self.old.entries index }
        requires vacant { AreVacant self.old.entries self.old.vacant }
        ensures updates { Updates self.old.entries self.new.entries index None }
        ensures count { live_count self.new.entries + 1 ≡ live_count self.old.entries }
        ensures vacant { AreVacant self.new.entries self.new.vacant }
        ensures noted { reverse self.new.vacant ≡ index ∷ reverse self.old.vacant }
    {
        let key = key_of(&self.keys, index);
        self.live.remove(key);
        self.keys[index as usize] = None;
        self.vacant.push_reserved(index);
    }

    /// Counts a mapping that moves, of the buffer at an index.
    #[inline(always)]
    pub fn count_move(&mut self, index: u32, how: Move)
        requires { IsSomeAnd (buffer_in self.old.entries index) (CanMove how) }
        ensures here { buffer_in self.new.entries index ≡ option_map (after_move how) (buffer_in self.old.entries index) }
        ensures others { (other : ℕ) → other ≢ index → get self.new.entries other ≡ get self.old.entries other }
        ensures length { length self.new.entries ≡ length self.old.entries }
        ensures vacant { self.new.vacant ≡ self.old.vacant }
    {
        self.live[key_of(&self.keys, index)].count_move(how);
    }

    /// Makes room for a job among the users of the buffer at an index, and notes the index for the job, where it is no user yet.
    pub fn reserve_user(
        &mut self,
        alloc: Global,
        indices: &mut Indices,
        index: u32,
        job: u64,
    ) -> Result<(), AllocError>
        requires lives { Holds self.old.entries index }
        requires noted { AreNoted indices.old index (buffer_in self.old.entries index) }
        ensures same { (other : ℕ) → buffer_in self.new.entries other ≡ buffer_in self.old.entries other }
        ensures keeps { (other at : ℕ) → IsNoted indices.old other at → IsNoted indices.new other at }
        ensures noted { OnOk result (IsNoted indices.new job index) }
        ensures room { OnOk result (HasRoomForJob job (get self.new.entries index)) }
        ensures length { length self.new.entries ≡ length self.old.entries }
        ensures vacant { self.new.vacant ≡ self.old.vacant }
    {
        let key = key_of(&self.keys, index);
        if !self.live[key].reserve_user(job)? {
            return Ok(());
        }
        note(alloc, indices, job, index)
    }

    /// Lets the job use the buffer at an index, where there is room for it.
    pub fn join(&mut self, index: u32, job: u64, usage: Usage)
        requires lives { Holds self.old.entries index }
        requires room { HasRoomForJob job (get self.old.entries index) }
        ensures here { buffer_in self.new.entries index ≡ option_map (joined_by job usage) (buffer_in self.old.entries index) }
        ensures others { (other : ℕ) → other ≢ index → get self.new.entries other ≡ get self.old.entries other }
        ensures length { length self.new.entries ≡ length self.old.entries }
        ensures vacant { self.new.vacant ≡ self.old.vacant }
    {
        let key = key_of(&self.keys, index);
        self.live[key].users.join(job, usage);
    }

    /// Removes the job from the users of the buffer at one index, if there is one.
    pub fn leave(&mut self, index: u32, job: u64)
        ensures here { buffer_in self.new.entries index ≡ option_map (left_by job) (buffer_in self.old.entries index) }
        ensures others { (other : ℕ) → other ≢ index → get self.new.entries other ≡ get self.old.entries other }
        ensures length { length self.new.entries ≡ length self.old.entries }
        ensures vacant { self.new.vacant ≡ self.old.vacant }
    {
        if let Some(Some(key)) = self.keys.get(index as usize) {
            self.live[*key].users.leave(job);
        }
    }

    /// Removes the job from the users of the buffers at some indices.
    pub fn leave_all(&mut self, indices: &[u32], job: u64)
        ensures noted { (index : ℕ) → Contains indices.now index
            → buffer_in self.new.entries index ≡ option_map (left_by job) (buffer_in self.old.entries index) }
        ensures others { (index : ℕ) → IsLeftOrSame job self.old.entries self.new.entries index }
        ensures length { length self.new.entries ≡ length self.old.entries }
        ensures vacant { self.new.vacant ≡ self.old.vacant }
    {
        for index in indices {
            self.leave(*index, job);
        }
    }
}

/// The key of the live buffer at an index.
#[inline(always)]
fn key_of(keys: &[Option<usize>], index: u32) -> usize
    requires { IsSome (slice_index_or keys.now index None) }
    ensures { slice_index_or keys.now index None ≡ Some result }
{
    keys[index as usize].unwrap()
}
