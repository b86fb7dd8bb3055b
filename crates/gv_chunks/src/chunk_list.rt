//! A list of mappings in chunks.
ghost use Rattle.std.specs.Prelude.{◌≡◌, ◌+◌, ◌*◌, ◌<◌, ◌≤◌, [], ◌∷◌, length, take, drop, max, slice_index_or, OnOk, OnErr};
ghost use Rattle.gv_types.specs.declared.mapping.Mapping.{Mapping};
ghost use Rattle.gv_chunks.specs.declared.TheConstants.{CHUNK};

use crate::CHUNK;
use crate::piece::piece_of;
use crate::spot::Spot;
use crate::starts::Starts;
use crate::store::ChunkStore;
use gv_types::{OutOfMemory, Packed};
use std::alloc::Global;
use std::marker::Model;

/// The chunks in use, and where each begins.
#[derive(Clone, Copy)]
pub struct UsedChunks<'a> {
    pub chunks: &'a [Vec<Packed>],
    /// For each chunk, how many mappings stand before it.
    pub starts: &'a Starts,
    /// For each chunk, the page at which its first mapping begins.
    pub firsts: &'a [u64],
}

/// Mappings in chunks. Room that it has is never given up.
#[derive(Debug, Drop)]
pub struct ChunkList {
    store: ChunkStore,
}

impl Model for ChunkList {
    ghost use Rattle.gv_chunks.specs.Chunks.{ChunkListState};
    ghost use Rattle.gv_chunks.specs.Inside.{IsChunkStore, items_of, capacities_of};

    ghost Value = { ChunkListState };

    ghost view = { λ l. record { items = items_of l.store; room = l.store.room; capacities = capacities_of l.store } };

    ghost invariant = { λ l. IsChunkStore l.store };
}

impl ChunkList {
    ghost use Rattle.std.specs.List.{splice};
    ghost use Rattle.gv_chunks.specs.Chunks.{chunks_joined, AreFilled, AreStarts, AreFirsts, KeepsMappings};

    /// A list of no mapping, which takes no memory.
    pub fn new(alloc: Global) -> ChunkList
        ensures items { result.items ≡ [] }
        ensures room { result.room ≡ 0 }
        ensures capacities { result.capacities ≡ 0 ∷ 0 ∷ 0 ∷ 0 ∷ 0 ∷ [] }
    {
        ChunkList {
            store: ChunkStore::new(alloc),
        }
    }

    /// How many mappings it has.
    #[inline(always)]
    pub fn len(&self) -> usize
        ensures { result ≡ length self.now.items }
    {
        self.store.len
    }

    /// The chunks in use.
    #[inline(always)]
    pub fn chunks(&self) -> UsedChunks<'_>
        ensures items { chunks_joined result.chunks.now ≡ self.now.items }
        ensures filled { AreFilled result.chunks.now }
        ensures starts { AreStarts result.starts.now.numbers result.chunks.now }
        ensures firsts { AreFirsts result.firsts.now result.chunks.now }
    {
        UsedChunks {
            chunks: &self.store.chunks[..self.store.used_count],
            starts: &self.store.starts,
            firsts: &self.store.firsts,
        }
    }

    /// What the chunk of a spot holds from its index on. Where the list ends before the index, nothing.
    #[inline(always)]
    pub fn piece_at(&self, spot: Spot) -> &[Packed]
        ensures value { result.now ≡ take (length result.now) (drop spot.index self.now.items) }
        ensures some { spot.index < length self.now.items → 0 < length result.now }
    {
        if spot.index >= self.store.len {
            return &[];
        }
        let (chunk, start) = self.store.find(spot);
        piece_of(&self.store.chunks, chunk, spot.index - start)
    }

    /// What the chunk of an index holds from the index on. Where the list ends before the index, nothing.
    pub fn piece(&self, index: usize) -> &[Packed]
        ensures value { result.now ≡ take (length result.now) (drop index self.now.items) }
        ensures some { index < length self.now.items → 0 < length result.now }
    {
        self.piece_at(Spot::anywhere(index))
    }

    /// The mapping at an index.
    pub fn get(&self, index: usize) -> &Packed
        requires { index < length self.now.items }
        ensures { (d : Mapping) → result.now ≡ slice_index_or self.now.items index d }
    {
        &self.piece(index)[0]
    }

    /// Makes room for `more` mappings beside those in the list: where the room has to grow, as much as the chunks
    /// have that are needed, and at most the double where that is enough. `OutOfMemory` where the system refuses the
    /// memory, and only where that room was missing.
    pub fn reserve(&mut self, more: usize) -> Result<(), OutOfMemory>
        ensures kept { KeepsMappings self.old self.new }
        ensures ok { OnOk result (length self.new.items + more ≤ self.new.room) }
        ensures err { OnErr result (self.old.room < length self.old.items + more) }
        ensures enough { length self.old.items + more ≤ self.old.room
            → self.new.room ≡ self.old.room }
        ensures capacities { length self.old.items + more ≤ self.old.room
            → self.new.capacities ≡ self.old.capacities }
        ensures double_or_need { self.new.room
            ≤ max (2 * self.old.room) (length self.old.items + more) }
    {
        if more <= self.store.room - self.store.len {
            return Ok(());
        }
        let need = self.store.len.checked_add(more).ok_or(OutOfMemory)?;
        let whole = need.div_ceil(CHUNK / 2).saturating_mul(CHUNK / 2);
        let wanted = need.max(whole.min(self.store.room.saturating_mul(2)));
        self.store.grow(wanted)
    }

    /// Gives room back: it has room for just its mappings then, or for one more than a chunk holds.
    pub fn shrink(&mut self)
        ensures items { self.new.items ≡ self.old.items }
        ensures room { self.new.room ≤ max (length self.old.items) (CHUNK + 1) }
        ensures no_more { self.new.room ≤ self.old.room }
    {
        self.store.shrink();
    }

    /// Replaces `out_count` mappings from a spot on by `pieces`. It takes no memory: the room has
    /// to be there, and stays as it is, and so does that of each vector.
    pub fn splice(&mut self, spot: Spot, out_count: usize, pieces: &[Packed])
        requires within { spot.index + out_count ≤ length self.old.items }
        requires room { length self.old.items + length pieces.now ≤ self.old.room + out_count }
        ensures items { self.new.items
            ≡ splice self.old.items spot.index (spot.index + out_count) pieces.now }
        ensures room { self.new.room ≡ self.old.room }
        ensures capacities { self.new.capacities ≡ self.old.capacities }
    {
        if out_count == 0 && pieces.is_empty() {
            return;
        }
        self.store.replace(spot, out_count, pieces);
    }
}
