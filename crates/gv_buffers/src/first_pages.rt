//! Where the mappings of a buffer begin.
ghost use Rattle.std.specs.Prelude.{◌≡◌, ◌+◌, ◌<◌, ◌≤◌, OnOk, OnErr};
ghost use Rattle.gv_buffers.specs.Buffers.{most_counted};
ghost use Rattle.gv_buffers.specs.FirstPages.{are_known, no_first_pages, page_added, page_removed, HasRoomFor};

use smallvec::SmallVec;
use std::alloc::{AllocError, Global};
use std::marker::Model;

/// So many pages stand in the value itself: most buffers have a mapping, or a few.
const INLINE: usize = 4;

/// Of a buffer with more mappings no page is kept, until it has none.
const MOST: u64 = 64;

/// How many mappings a buffer has in the list, and the first page of each, ascending; none where they aren't known.
#[derive(Drop)]
pub struct FirstPages {
    count: u64,
    pages: SmallVec<u64, INLINE>,
}

impl Model for FirstPages {
    ghost use Rattle.gv_buffers.specs.FirstPages.{FirstPagesState, AreRising};

    ghost Value = { FirstPagesState };

    ghost view = { λ p. record { count = p.count; pages = p.pages.items; room = p.pages.capacity } };

    ghost invariant = { λ p. AreRising p.pages.items };
}

impl FirstPages {
    /// Those of a buffer without a mapping.
    pub fn new(alloc: Global) -> FirstPages
        ensures { result ≡ no_first_pages }
    {
        FirstPages {
            count: 0,
            pages: SmallVec::new(alloc),
        }
    }

    /// How many mappings there are.
    pub fn count(&self) -> u64
        ensures { result ≡ self.now.count }
    {
        self.count
    }

    /// The pages.
    pub fn pages(&self) -> &[u64]
        ensures { result.now ≡ self.now.pages }
    {
        self.pages.as_slice()
    }

    /// Whether they are known.
    fn are_known(&self) -> bool
        ensures { result ≡ are_known self.now }
    {
        self.pages.len() as u64 == self.count
    }

    /// Makes room for more mappings, as far as their pages will be kept.
    pub fn make_room(&mut self, more: u64) -> Result<(), AllocError>
        ensures pages { self.new.pages ≡ self.old.pages }
        ensures count { self.new.count ≡ self.old.count }
        ensures no_less { self.old.room ≤ self.new.room }
        ensures room { OnOk result (HasRoomFor more self.old self.new) }
        ensures err { OnErr result (self.new ≡ self.old) }
    {
        if self.count < MOST && self.are_known() {
            self.pages.reserve(more.min(MOST - self.count) as usize)?;
        }
        Ok(())
    }

    /// Gives room back that no page needs.
    pub fn shrink(&mut self)
        ensures pages { self.new.pages ≡ self.old.pages }
        ensures count { self.new.count ≡ self.old.count }
    {
        self.pages.shrink_to_fit();
    }

    /// A mapping that begins at a page comes. It takes no memory: without room, the pages aren't known from here on.
    #[inline(always)]
    pub fn add_page(&mut self, page: u64)
        requires { self.old.count < most_counted }
        ensures { self.new ≡ page_added page self.old }
    {
        // Where there are others, and none is kept, none is known.
        if self.count == 0 || !self.pages.is_empty() {
            self.put_in(page);
        }
        self.count += 1;
    }

    /// Puts the page of one that comes, where the others may be known.
    fn put_in(&mut self, page: u64)
        ensures pages { self.new.pages ≡ (page_added page self.old).pages }
        ensures count { self.new.count ≡ self.old.count }
        ensures room { self.new.room ≡ self.old.room }
    {
        if self.count >= MOST || !self.are_known() || self.pages.len() == self.pages.capacity() {
            self.pages.clear();
            return;
        }
        let index = self.pages.as_slice().partition_point(|other| *other < page);
        let _has_room = self.pages.insert(index, page);
    }

    /// A mapping leaves, which began at a page.
    #[inline(always)]
    pub fn remove_page(&mut self, page: u64)
        ensures { self.new ≡ page_removed page self.old }
    {
        if !self.pages.is_empty() {
            self.take_away(page);
        }
        self.count = self.count.saturating_sub(1);
    }

    /// Takes the page of one that leaves away, where some page is kept.
    fn take_away(&mut self, page: u64)
        ensures pages { self.new.pages ≡ (page_removed page self.old).pages }
        ensures count { self.new.count ≡ self.old.count }
        ensures room { self.new.room ≡ self.old.room }
    {
        match self.pages.as_slice().binary_search(&page) {
            Ok(index) if self.are_known() => {
                let _page = self.pages.remove(index);
            }
            _ => self.pages.clear(),
        }
    }
}
