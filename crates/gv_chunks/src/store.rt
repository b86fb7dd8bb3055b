//! The vectors of a `ChunkList`: grown, searched and edited.
ghost use Rattle.std.specs.Prelude.{◌≡◌, ◌+◌, ◌-◌, ◌*◌, ◌<◌, ◌≤◌, true, [], ◌∷◌, length, take, drop, max, slice_index_or, vec_len, OnOk, OnErr};
ghost use Rattle.std.specs.List.{splice};
ghost use Rattle.std.specs.Global.{Vec};
ghost use Rattle.gv_types.specs.declared.mapping.Mapping.{Mapping};
ghost use Rattle.gv_chunks.specs.Chunks.{chunks_joined};
ghost use Rattle.gv_chunks.specs.Inside.{IsChunkStore, IsDivisible, IsChunkOfIndex, IsEditable, IsEmptied, items_of, capacities_of};
ghost use Rattle.gv_chunks.specs.declared.store.EditKind.TheVariants.{Within, Emptied, Elsewhere};
ghost use Rattle.gv_chunks.specs.declared.TheConstants.{CHUNK};

use crate::CHUNK;
use crate::chunk_row::{retire_chunk, split_chunk};
use crate::grow::{add_chunks, chunks_for};
use crate::index::{last_at_most, pad, start_of_hint, write_first, write_index};
use crate::replace::replace_run;
use crate::row::{put_entry, take_entry};
use crate::run::replace_anywhere;
use crate::spot::Spot;
use crate::starts::Starts;
use gv_types::{OutOfMemory, Packed};
use std::alloc::Global;

/// How a run is replaced: within its chunk, which may be emptied by it, or over chunks.
#[derive(Clone, Copy)]
pub(crate) enum EditKind {
    Within,
    Emptied,
    Elsewhere,
}

/// Whether so many chunks are few for the mappings: filled by half or more on average, but for one.
pub(crate) fn are_few(used_count: usize, count: usize) -> bool
    ensures few { result ≡ true → CHUNK * used_count ≤ 2 * count + CHUNK }
    ensures one { used_count ≤ 1 → result ≡ true }
{
    used_count <= count / (CHUNK / 2) + 1
}

/// The chunks of a list, and where each begins: how many mappings stand before it, and at which page its first one begins. The
/// first `used_count` chunks hold all that the list has.
#[derive(Debug, Drop)]
pub struct ChunkStore {
    pub(crate) chunks: Vec<Vec<Packed>>,
    pub(crate) starts: Starts,
    pub(crate) firsts: Vec<u64>,
    pub(crate) used_count: usize,
    pub(crate) len: usize,
    pub(crate) room: usize,
}

impl ChunkStore {
    /// No chunk.
    pub fn new(alloc: Global) -> ChunkStore
        ensures items { items_of result ≡ [] }
        ensures room { result.room ≡ 0 }
        ensures capacities { capacities_of result ≡ 0 ∷ 0 ∷ 0 ∷ 0 ∷ 0 ∷ [] }
        ensures store { IsChunkStore result }
    {
        ChunkStore {
            chunks: Vec::new(alloc),
            starts: Starts::new(alloc),
            firsts: Vec::new(alloc),
            used_count: 0,
            len: 0,
            room: 0,
        }
    }

    /// Makes chunks and their entries in the index for `room` mappings. Where the system refuses the memory the room stays.
    pub fn grow(&mut self, room: usize) -> Result<(), OutOfMemory>
        requires store { IsChunkStore self.old }
        requires more { self.old.room ≤ room }
        ensures items { items_of self.new ≡ items_of self.old }
        ensures ok { OnOk result (self.new.room ≡ room) }
        ensures err { OnErr result (self.new.room ≡ self.old.room) }
        ensures store { IsChunkStore self.new }
    {
        let count = chunks_for(room);
        self.starts.pad(count)?;
        pad(&mut self.firsts, count, 0)?;
        add_chunks(&mut self.chunks, count)?;
        self.room = room;
        Ok(())
    }

    /// The least room of a list of so many mappings in so many chunks: for just these, and where more than one chunk stands, for one more
    /// than a chunk holds at least.
    fn least_room(&self) -> usize
        requires { IsChunkStore self.now }
        ensures fits { self.now.len ≤ result }
        ensures short { result ≤ CHUNK → self.now.used_count ≤ 1 }
        ensures most { result ≤ max self.now.len (CHUNK + 1) }
        ensures within { result ≤ self.now.room }
    {
        if self.used_count > 1 {
            self.len.max(CHUNK + 1)
        } else {
            self.len
        }
    }

    /// How many chunks it has to have for so much room: none for none.
    fn least_chunks(&self, room: usize) -> usize
        ensures used_count { self.now.used_count ≤ result }
        ensures some { 0 < room → 0 < result }
        ensures enough { CHUNK < room → 2 * room + 3 * CHUNK ≤ CHUNK * result }
    {
        if room == 0 {
            return self.used_count;
        }
        chunks_for(room).max(self.used_count)
    }

    /// Gives back the chunks that hold nothing and of which a list of so many mappings needs none.
    pub fn shrink(&mut self)
        requires store { IsChunkStore self.old }
        ensures items { items_of self.new ≡ items_of self.old }
        ensures room { self.new.room ≤ max self.old.len (CHUNK + 1) }
        ensures no_more { self.new.room ≤ self.old.room }
        ensures len { self.new.len ≡ self.old.len }
        ensures store { IsChunkStore self.new }
    {
        let least = self.least_room();
        let count = self.least_chunks(least);
        self.chunks.truncate(count);
        self.chunks.shrink_to_fit();
        self.starts.shorten(count);
        self.firsts.truncate(count);
        self.firsts.shrink_to_fit();
        self.room = least;
    }

    /// The chunk of a spot's index, and how many mappings stand before that chunk.
    #[inline(always)]
    pub fn find(&self, spot: Spot) -> (usize, usize)
        requires store { IsChunkStore self.now }
        requires within { spot.index ≤ length (items_of self.now) }
        ensures { IsChunkOfIndex self.now spot.index result.0 result.1 }
    {
        match start_of_hint(&self.starts, self.used_count, spot.index, spot.hint) {
            Some(start) => (spot.hint, start),
            None => self.find_anywhere(spot.index),
        }
    }

    /// The chunk of an index, looked for in all of them, and how many mappings stand before that chunk.
    #[cold]
    #[inline(never)]
    pub(crate) fn find_anywhere(&self, index: usize) -> (usize, usize)
        requires store { IsChunkStore self.now }
        requires within { index ≤ length (items_of self.now) }
        ensures { IsChunkOfIndex self.now index result.0 result.1 }
    {
        if self.used_count == 0 {
            return (0, 0);
        }
        let chunk = last_at_most(&self.starts, self.used_count, index);
        (chunk, self.starts.get(chunk))
    }

    /// How the run of `out_count` mappings from an index on is replaced by `in_count`.
    #[inline(always)]
    pub(crate) fn edit_kind(
        &self,
        chunk: usize,
        start: usize,
        index: usize,
        out_count: usize,
        in_count: usize,
    ) -> EditKind
        requires store { IsChunkStore self.now }
        requires spot { IsChunkOfIndex self.now index chunk start }
        requires within { index + out_count ≤ length (items_of self.now) }
        requires room { self.now.len + in_count ≤ self.now.room + out_count }
        requires change { 0 < out_count + in_count }
        ensures within { result ≡ Within → IsEditable self.now chunk start index out_count in_count }
        ensures emptied { result ≡ Emptied → IsEmptied self.now chunk start index out_count in_count }
        ensures elsewhere { result ≡ Elsewhere → CHUNK < self.now.room }
    {
        // Tells that the room is a number of a machine.
        let _room = self.room;
        let held = self.chunks[chunk].len();
        if index - start + out_count > held {
            return EditKind::Elsewhere;
        }
        let now = held - out_count + in_count;
        let after = self.len - out_count + in_count;
        if now > CHUNK {
            return EditKind::Elsewhere;
        }
        if now == 0 && are_few(self.used_count - 1, after) {
            return EditKind::Emptied;
        }
        if now > 0 && are_few(self.used_count.max(1), after) {
            return EditKind::Within;
        }
        EditKind::Elsewhere
    }

    /// Replaces `out_count` mappings from `index` on, which lie in the chunk, by pieces that fit into it.
    #[inline(always)]
    pub(crate) fn edit(
        &mut self,
        chunk: usize,
        start: usize,
        index: usize,
        out_count: usize,
        pieces: &[Packed],
    )
        requires store { IsChunkStore self.old }
        requires editable { IsEditable self.old chunk start index out_count (length pieces.now) }
        requires room { self.old.len + length pieces.now ≤ self.old.room + out_count }
        ensures items { items_of self.new ≡ splice (items_of self.old) index (index + out_count) pieces.now }
        ensures room { self.new.room ≡ self.old.room }
        ensures capacities { capacities_of self.new ≡ capacities_of self.old }
        ensures store { IsChunkStore self.new }
    {
        let offset = index - start;
        replace_run(&mut self.chunks[chunk], offset, out_count, pieces);
        self.len = self.len - out_count + pieces.len();
        self.used_count = self.starts.set_if_unused(self.used_count, chunk, start);
        write_first(&mut self.firsts, chunk, &self.chunks[chunk], offset);
        self.starts
            .shift(chunk + 1, self.used_count, out_count, pieces.len());
    }

    /// Takes out all that a chunk holds, and with it the chunk.
    pub(crate) fn remove(&mut self, chunk: usize, start: usize, index: usize, out_count: usize)
        requires store { IsChunkStore self.old }
        requires emptied { IsEmptied self.old chunk start index out_count 0 }
        ensures items { items_of self.new ≡ splice (items_of self.old) index (index + out_count) [] }
        ensures room { self.new.room ≡ self.old.room }
        ensures capacities { capacities_of self.new ≡ capacities_of self.old }
        ensures store { IsChunkStore self.new }
    {
        // Tells that the list's length is a number of a machine.
        let _len = self.len;
        retire_chunk(&mut self.chunks, self.used_count, chunk);
        // The later chunks hold what they held, so their entries move as a block, and no later chunk is read.
        self.starts.take(chunk, self.used_count);
        take_entry(&mut self.firsts, chunk, self.used_count);
        self.used_count -= 1;
        self.len -= out_count;
        self.starts.shift(chunk, self.used_count, out_count, 0);
    }

    /// Replaces `out_count` mappings from `index` on by the pieces, wherever they lie. All chunks are gone through.
    #[cold]
    #[inline(never)]
    pub(crate) fn replace_and_merge(&mut self, index: usize, out_count: usize, pieces: &[Packed])
        requires store { IsChunkStore self.old }
        requires within { index + out_count ≤ length (items_of self.old) }
        requires long { CHUNK < self.old.room }
        requires room { self.old.len + length pieces.now ≤ self.old.room + out_count }
        ensures items { items_of self.new ≡ splice (items_of self.old) index (index + out_count) pieces.now }
        ensures room { self.new.room ≡ self.old.room }
        ensures capacities { capacities_of self.new ≡ capacities_of self.old }
        ensures store { IsChunkStore self.new }
    {
        let used = replace_anywhere(&mut self.chunks, self.used_count, index, out_count, pieces);
        self.len = self.len - out_count + pieces.len();
        self.used_count = if self.len == 0 { 0 } else { used };
        write_index(
            &self.chunks[..self.used_count],
            &mut self.starts,
            &mut self.firsts,
            0,
        );
    }

    /// Divides a chunk into two. The first has one more than half: so a list that only grows at its end stays few.
    pub(crate) fn divide(&mut self, chunk: usize)
        requires store { IsChunkStore self.old }
        requires divisible { IsDivisible self.old chunk }
        ensures items { items_of self.new ≡ items_of self.old }
        ensures len { self.new.len ≡ self.old.len }
        ensures room { self.new.room ≡ self.old.room }
        ensures capacities { capacities_of self.new ≡ capacities_of self.old }
        ensures store { IsChunkStore self.new }
    {
        // Tells that the list's length is a number of a machine.
        let _len = self.len;
        let offset = self.chunks[chunk].len() / 2 + 1;
        split_chunk(&mut self.chunks, self.used_count, chunk, offset);
        // Of the later chunks only their places change, so their entries move as a block, and no later chunk is read.
        let start = self.starts.get(chunk) + offset;
        let first = self.chunks[chunk + 1][0].first();
        self.starts.put(chunk + 1, self.used_count, start);
        put_entry(&mut self.firsts, chunk + 1, self.used_count, first);
        self.used_count += 1;
    }
}
