//! A run of a list in chunks replaced: within a chunk, over two, or over many.
ghost use Rattle.std.specs.Prelude.{◌≡◌, ◌+◌, ◌<◌, ◌≤◌, length};
ghost use Rattle.std.specs.List.{splice};
ghost use Rattle.gv_chunks.specs.Inside.{IsChunkStore, items_of, capacities_of};
ghost use Rattle.gv_chunks.specs.declared.TheConstants.{CHUNK};

use crate::CHUNK;
use crate::spot::Spot;
use crate::store::{ChunkStore, EditKind, are_few};
use gv_types::Packed;

impl ChunkStore {
    /// Replaces `out_count` mappings from `index` on by the pieces: in their chunk, where they lie in one and fit.
    fn replace_one(&mut self, index: usize, out_count: usize, pieces: &[Packed])
        requires store { IsChunkStore self.old }
        requires within { index + out_count ≤ length (items_of self.old) }
        requires room { self.old.len + length pieces.now ≤ self.old.room + out_count }
        requires change { 0 < out_count + length pieces.now }
        ensures items { items_of self.new ≡ splice (items_of self.old) index (index + out_count) pieces.now }
        ensures room { self.new.room ≡ self.old.room }
        ensures capacities { capacities_of self.new ≡ capacities_of self.old }
        ensures store { IsChunkStore self.new }
    {
        let (chunk, start) = self.find_anywhere(index);
        match self.edit_kind(chunk, start, index, out_count, pieces.len()) {
            EditKind::Within => self.edit(chunk, start, index, out_count, pieces),
            EditKind::Emptied => self.remove(chunk, start, index, out_count),
            EditKind::Elsewhere => self.replace_and_merge(index, out_count, pieces),
        }
    }

    /// Replaces a run of which `beyond` mappings lie beyond the chunk in which it begins: first these go.
    fn replace_across(&mut self, index: usize, out_count: usize, beyond: usize, pieces: &[Packed])
        requires store { IsChunkStore self.old }
        requires beyond { 0 < beyond }
        requires less { beyond < out_count }
        requires within { index + out_count ≤ length (items_of self.old) }
        requires room { self.old.len + length pieces.now ≤ self.old.room + out_count }
        ensures items { items_of self.new ≡ splice (items_of self.old) index (index + out_count) pieces.now }
        ensures room { self.new.room ≡ self.old.room }
        ensures capacities { capacities_of self.new ≡ capacities_of self.old }
        ensures store { IsChunkStore self.new }
    {
        let here = out_count - beyond;
        self.replace_one(index + here, beyond, &[]);
        self.replace_one(index, here, pieces);
    }

    /// Divides a chunk where that is few, and two chunks have room for so many more.
    fn make_room(&mut self, chunk: usize, more: usize)
        requires store { IsChunkStore self.old }
        requires long { CHUNK < self.old.room }
        ensures items { items_of self.new ≡ items_of self.old }
        ensures len { self.new.len ≡ self.old.len }
        ensures room { self.new.room ≡ self.old.room }
        ensures capacities { capacities_of self.new ≡ capacities_of self.old }
        ensures store { IsChunkStore self.new }
    {
        if more <= CHUNK / 2
            && chunk < self.used_count
            && self.chunks[chunk].len() > 2
            && are_few(self.used_count + 1, self.len)
        {
            self.divide(chunk);
        }
    }

    /// Replaces a run that does not lie in one chunk, or for which more comes in than the chunk has room for.
    #[cold]
    #[inline(never)]
    fn replace_elsewhere(
        &mut self,
        chunk: usize,
        end: usize,
        index: usize,
        out_count: usize,
        pieces: &[Packed],
    )
        requires store { IsChunkStore self.old }
        requires long { CHUNK < self.old.room }
        requires within { index + out_count ≤ length (items_of self.old) }
        requires room { self.old.len + length pieces.now ≤ self.old.room + out_count }
        requires change { 0 < out_count + length pieces.now }
        ensures items { items_of self.new ≡ splice (items_of self.old) index (index + out_count) pieces.now }
        ensures room { self.new.room ≡ self.old.room }
        ensures capacities { capacities_of self.new ≡ capacities_of self.old }
        ensures store { IsChunkStore self.new }
    {
        let beyond = out_count.saturating_sub(end.saturating_sub(index));
        if 0 < beyond && beyond < out_count {
            self.replace_across(index, out_count, beyond, pieces);
            return;
        }
        self.make_room(chunk, pieces.len());
        self.replace_one(index, out_count, pieces);
    }

    /// Replaces `out_count` mappings from a spot on by the pieces. In most lists of most sizes they lie in one chunk, and what
    /// comes in fits into it.
    pub fn replace(&mut self, spot: Spot, out_count: usize, pieces: &[Packed])
        requires store { IsChunkStore self.old }
        requires within { spot.index + out_count ≤ length (items_of self.old) }
        requires room { self.old.len + length pieces.now ≤ self.old.room + out_count }
        requires change { 0 < out_count + length pieces.now }
        ensures items { items_of self.new ≡ splice (items_of self.old) spot.index (spot.index + out_count) pieces.now }
        ensures room { self.new.room ≡ self.old.room }
        ensures capacities { capacities_of self.new ≡ capacities_of self.old }
        ensures store { IsChunkStore self.new }
    {
        let index = spot.index;
        let (chunk, start) = self.find(spot);
        match self.edit_kind(chunk, start, index, out_count, pieces.len()) {
            EditKind::Within => self.edit(chunk, start, index, out_count, pieces),
            EditKind::Emptied => self.remove(chunk, start, index, out_count),
            EditKind::Elsewhere => {
                // Tells that the list's length is a number of a machine.
                let _len = self.len;
                let end = start + self.chunks[chunk].len();
                self.replace_elsewhere(chunk, end, index, out_count, pieces);
            }
        }
    }
}
