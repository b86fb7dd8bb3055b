//! The list of mappings of an address space, sorted and disjoint.
ghost use Rattle.std.specs.Prelude.{◌≡◌, ◌+◌, ◌*◌, ◌<◌, ◌≤◌, [], length, take, drop, slice_index_or};
ghost use Rattle.std.specs.Prelude.{max, MatchOption, None, Some, OnOk, OnErr};
ghost use Rattle.gv_types.specs.declared.mapping.Mapping.{Mapping};
ghost use Rattle.gv_chunks.specs.declared.TheConstants.{CHUNK};

use crate::chunk_search::{chunk_of_page, entry_in, first_ending_after_of, overlap_in};
use crate::overlap::Overlap;
use crate::run::Run;
use gv_chunks::{ChunkList, Spot};
use gv_types::{Entry, OutOfMemory, Packed, PageRange, SPACE_PAGES};
use std::alloc::Global;
use std::marker::Model;

/// Mappings in ascending order, no two of which share a page: what a `drm_gpuvm` of DRM GPUVM keeps
/// in a tree. Room that it has is never given up.
#[derive(Debug, Drop)]
pub struct RangeList {
    list: ChunkList,
}

impl Model for RangeList {
    ghost use Rattle.gv_ranges.specs.List.{RangeListState, IsLaidOut};

    ghost Value = { RangeListState };

    ghost view = { λ l. record { mappings = l.list.items; room = l.list.room } };

    ghost invariant = { λ l. IsLaidOut l.list.items };
}

impl RangeList {
    ghost use Rattle.std.specs.List.{splice};
    ghost use Rattle.gv_ranges.specs.List.{at, first_ending_after, run, IsLaidOut, IsOverlappingRun, IsUnchangedList};

    /// A list of no mapping, which takes no memory.
    pub fn new(alloc: Global) -> RangeList
        ensures mappings { result.mappings ≡ [] }
        ensures room { result.room ≡ 0 }
    {
        RangeList {
            list: ChunkList::new(alloc),
        }
    }

    /// How many mappings there are.
    pub fn len(&self) -> usize
        ensures len { result ≡ length self.now.mappings }
        ensures laid_out { IsLaidOut self.now.mappings }
    {
        self.list.len()
    }

    /// The mapping at an index.
    #[inline(always)]
    pub fn get(&self, index: usize) -> &Packed
        requires { index < length self.now.mappings }
        ensures { (d : Mapping) → result.now ≡ slice_index_or self.now.mappings index d }
    {
        self.list.get(index)
    }

    /// The mappings from an index on that stand in one block of memory with the one at it.
    #[inline(always)]
    pub fn piece(&self, index: usize) -> &[Packed]
        requires { index ≤ length self.now.mappings }
        ensures value { result.now ≡ take (length result.now) (drop index self.now.mappings) }
        ensures some { index < length self.now.mappings → 0 < length result.now }
    {
        self.list.piece(index)
    }

    /// The mappings from a spot on that stand in one block of memory with the one at it.
    #[inline(always)]
    pub fn piece_at(&self, spot: Spot) -> &[Packed]
        requires { spot.index ≤ length self.now.mappings }
        ensures value { result.now ≡ take (length result.now) (drop spot.index self.now.mappings) }
        ensures some { spot.index < length self.now.mappings → 0 < length result.now }
    {
        self.list.piece_at(spot)
    }

    /// The mapping at a spot.
    #[inline(always)]
    pub fn get_at(&self, spot: Spot) -> &Packed
        requires { spot.index < length self.now.mappings }
        ensures { (d : Mapping) → result.now ≡ slice_index_or self.now.mappings spot.index d }
    {
        &self.piece_at(spot)[0]
    }

    /// The `count` mappings from an index on, one after another.
    pub fn run(&self, index: usize, count: usize) -> Run<'_>
        requires { index + count ≤ length self.now.mappings }
        ensures { result ≡ run self.now.mappings index count }
    {
        Run::new(self, index, count)
    }

    /// The `count` mappings from a spot on, one after another.
    #[inline(always)]
    pub fn run_at(&self, spot: Spot, count: usize) -> Run<'_>
        requires { spot.index + count ≤ length self.now.mappings }
        ensures { result ≡ run self.now.mappings spot.index count }
    {
        Run::at(self, spot, count)
    }

    /// All mappings, in ascending order.
    pub fn iter(&self) -> Run<'_>
        ensures { result ≡ self.now.mappings }
    {
        Run::new(self, 0, self.len())
    }

    /// Makes room for `more` mappings beside those in the list, and for no more than that: no mapping
    /// is moved for it. `OutOfMemory` where the system refuses the memory, and only where that room
    /// was missing.
    pub fn reserve(&mut self, more: usize) -> Result<(), OutOfMemory>
        ensures unchanged { IsUnchangedList self.old self.new }
        ensures ok { OnOk result (length self.new.mappings + more ≤ self.new.room) }
        ensures err { OnErr result (self.old.room < length self.old.mappings + more) }
        ensures enough { length self.old.mappings + more ≤ self.old.room
            → self.new.room ≡ self.old.room }
        ensures double_or_need { self.new.room
            ≤ max (2 * self.old.room) (length self.old.mappings + more) }
    {
        self.list.reserve(more)
    }

    /// What the page holds, if anything. One search, whose steps leave a quarter of what there is, and at last a half.
    pub fn at(&self, page: u64) -> Option<Entry>
        ensures { result ≡ at self.now.mappings page }
    {
        entry_in(self.list.chunks(), page)
    }

    /// The first mapping that ends behind a page: the one that holds it, or else the next one. One search.
    pub fn first_ending_after(&self, page: u64) -> Option<&Packed>
        ensures { MatchOption result (first_ending_after self.now.mappings page ≡ None)
            (λ m. first_ending_after self.now.mappings page ≡ Some m.now) }
    {
        first_ending_after_of(self.list.chunks(), page)
    }

    /// The block of memory in which a page lies, for the spot of an index that lies there too: the calls for it need not search then.
    pub fn hint(&self, page: u64) -> usize {
        let used = self.list.chunks();
        if page >= SPACE_PAGES || used.chunks.is_empty() {
            return 0;
        }
        chunk_of_page(used.chunks, used.firsts, page)
    }

    /// Where the range meets the list. One search, and a look at each of the mappings that meet it; the calls for the spot search no more.
    #[inline(always)]
    pub fn overlap(&self, range: PageRange) -> Overlap<'_>
        ensures run { IsOverlappingRun self.now.mappings range result.spot.index result.count }
        ensures block { result.block.now ≡ take (length result.block.now) (drop result.spot.index self.now.mappings) }
    {
        overlap_in(self.list.chunks(), range)
    }

    /// The index of the first mapping that meets the range, and how many mappings do. Where none
    /// does, the index is the number of mappings that end before the range. One search, and a look at each
    /// of the mappings that meet it.
    pub fn overlapping(&self, range: PageRange) -> (usize, usize)
        ensures { IsOverlappingRun self.now.mappings range result.0 result.1 }
    {
        let Overlap { spot, count, .. } = self.overlap(range);
        (spot.index, count)
    }

    /// Gives room back that no mapping needs: it has room for just its mappings then, or for a little more than a block of memory holds.
    pub fn shrink(&mut self)
        ensures mappings { self.new.mappings ≡ self.old.mappings }
        ensures room { self.new.room ≤ max (length self.old.mappings) (CHUNK + 1) }
        ensures no_more { self.new.room ≤ self.old.room }
    {
        self.list.shrink();
    }

    /// Replaces `out_count` mappings from `index` on by `pieces`. It takes no memory: the room has
    /// to be there, and stays as it is.
    pub fn splice(&mut self, index: usize, out_count: usize, pieces: &[Packed])
        requires within { index + out_count ≤ length self.old.mappings }
        requires room { length self.old.mappings + length pieces.now ≤ self.old.room + out_count }
        requires laid_out { IsLaidOut
            (splice self.old.mappings index (index + out_count) pieces.now) }
        ensures mappings { self.new.mappings
            ≡ splice self.old.mappings index (index + out_count) pieces.now }
        ensures room { self.new.room ≡ self.old.room }
    {
        self.splice_at(Spot::anywhere(index), out_count, pieces);
    }

    /// The same from a spot on.
    #[inline(always)]
    pub fn splice_at(&mut self, spot: Spot, out_count: usize, pieces: &[Packed])
        requires within { spot.index + out_count ≤ length self.old.mappings }
        requires room { length self.old.mappings + length pieces.now ≤ self.old.room + out_count }
        requires laid_out { IsLaidOut
            (splice self.old.mappings spot.index (spot.index + out_count) pieces.now) }
        ensures mappings { self.new.mappings
            ≡ splice self.old.mappings spot.index (spot.index + out_count) pieces.now }
        ensures room { self.new.room ≡ self.old.room }
    {
        self.list.splice(spot, out_count, pieces);
    }
}
