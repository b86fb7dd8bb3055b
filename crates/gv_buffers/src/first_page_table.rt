//! Where the mappings of each buffer begin.
ghost use Rattle.std.specs.Prelude.{◌≡◌, ◌+◌, ◌<◌, ◌≤◌, ℕ, max, length, OnOk, OnErr};
ghost use Rattle.gv_buffers.specs.Buffers.{most_counted};
ghost use Rattle.gv_buffers.specs.FirstPages.{page_added, page_removed, first_pages_at, AreSameElsewhere, HasRoomFor, HaveSameFirstPages};

use crate::first_pages::FirstPages;
use gv_types::OutOfMemory;
use std::alloc::Global;
use std::marker::Model;

/// For each index of a buffer, where its mappings in the list begin, as far as it is known. It knows nothing of buffers: an index whose
/// buffer died has no mapping, and so has the one that it is given to next.
#[derive(Drop)]
pub struct FirstPageTable {
    rows: Vec<FirstPages>,
}

impl Model for FirstPageTable {
    ghost use Rattle.std.specs.Prelude.{List};
    ghost use Rattle.gv_buffers.specs.FirstPages.{FirstPagesState};

    ghost Value = { List FirstPagesState };

    ghost view = { λ t. t.rows.items };
}

impl FirstPageTable {
    /// A table without a row. It takes no memory.
    pub fn new(alloc: Global) -> FirstPageTable
        ensures { length result ≡ 0 }
    {
        FirstPageTable {
            rows: Vec::new(alloc),
        }
    }

    /// Makes a row for an index, where it has none, and for none behind it. `OutOfMemory` where the system refuses its room, which
    /// doubles, and only where that row was missing.
    pub fn reserve(&mut self, alloc: Global, index: u32) -> Result<(), OutOfMemory>
        ensures same { (other : ℕ) → first_pages_at self.new other ≡ first_pages_at self.old other }
        ensures no_fewer { length self.old ≤ length self.new }
        ensures no_more { length self.new ≤ max (length self.old) (index + 1) }
        ensures ok { OnOk result (index < length self.new) }
        ensures needed { OnErr result (length self.old ≤ index) }
    {
        while self.rows.len() <= index as usize {
            self.rows.push(FirstPages::new(alloc))?;
        }
        Ok(())
    }

    /// Makes room for more mappings at an index, as far as their pages will be kept.
    pub fn make_room(&mut self, index: u32, more: u64) -> Result<(), OutOfMemory>
        ensures same { HaveSameFirstPages self.old self.new }
        ensures length { length self.new ≡ length self.old }
        ensures no_less { (other : ℕ) → (first_pages_at self.old other).room ≤ (first_pages_at self.new other).room }
        ensures room { OnOk result (index < length self.old → HasRoomFor more (first_pages_at self.old index) (first_pages_at self.new index)) }
    {
        if (index as usize) < self.rows.len() {
            self.rows[index as usize].make_room(more)?;
        }
        Ok(())
    }

    /// Gives room back that no page needs.
    pub fn shrink(&mut self)
        ensures same { HaveSameFirstPages self.old self.new }
        ensures length { length self.new ≡ length self.old }
    {
        for index in 0..self.rows.len() {
            self.rows[index].shrink();
        }
        self.rows.shrink_to_fit();
    }

    /// How many mappings an index has.
    pub fn count(&self, index: u32) -> u64
        ensures { result ≡ (first_pages_at self.now index).count }
    {
        match self.rows.get(index as usize) {
            Some(row) => row.count(),
            None => 0,
        }
    }

    /// The pages at which the mappings of an index begin, ascending; none where they aren't known.
    pub fn first_pages(&self, index: u32) -> &[u64]
        ensures { result.now ≡ (first_pages_at self.now index).pages }
    {
        match self.rows.get(index as usize) {
            Some(row) => row.pages(),
            None => &[],
        }
    }

    /// A mapping of an index comes, which begins at a page. It takes no memory.
    #[inline(always)]
    pub fn add_page(&mut self, index: u32, page: u64)
        requires row { index < length self.old }
        requires few { (first_pages_at self.old index).count < most_counted }
        ensures here { first_pages_at self.new index ≡ page_added page (first_pages_at self.old index) }
        ensures others { AreSameElsewhere index self.old self.new }
        ensures length { length self.new ≡ length self.old }
    {
        self.rows[index as usize].add_page(page);
    }

    /// A mapping of an index leaves, which began at a page.
    #[inline(always)]
    pub fn remove_page(&mut self, index: u32, page: u64)
        ensures here { first_pages_at self.new index ≡ page_removed page (first_pages_at self.old index) }
        ensures others { AreSameElsewhere index self.old self.new }
        ensures length { length self.new ≡ length self.old }
    {
        if (index as usize) < self.rows.len() {
            self.rows[index as usize].remove_page(page);
        }
    }
}
