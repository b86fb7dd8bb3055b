//! A run of pages of the address space.
ghost use Rattle.std.specs.Prelude.{◌≡◌, ◌<◌, ◌≤◌, ◌↔◌, IsSome, IfSome};

use std::marker::Model;

/// How many pages the address space has: addresses have 57 bits.
pub const SPACE_PAGES: u64 = 1 << 45;

/// A run of pages: at least one, and none past the end of the address space. The region of the address space
/// that a mapping or an operation of DRM GPUVM covers, counted in pages of 4,096 bytes.
#[derive(Clone, Copy, Debug, PartialEq, Eq)]
pub struct PageRange {
    first: u64,
    count: u64,
}

impl Model for PageRange {
    ghost use Rattle.gv_types.specs.PageRange.{PageRangeState, IsInSpace};

    ghost Value = { PageRangeState };

    ghost view = { λ r. record { first = r.first; count = r.count } };

    ghost invariant = { λ r. IsInSpace (record { first = r.first; count = r.count }) };

    ghost inverse = { λ s. record { first = s.first; count = s.count } };
}

impl PageRange {
    ghost use Rattle.gv_types.specs.Page.{PAGES};
    ghost use Rattle.gv_types.specs.PageRange.{IsInSpace, span, end_of, covers, meets, lies_in};

    /// The range of `count` pages from the page `first` on. None if it has no page, or one past the end of
    /// the address space.
    pub fn new(first: u64, count: u64) -> Option<PageRange>
        ensures valid { IsSome result ↔ IsInSpace (span first count) }
        ensures value { IfSome result (λ r. r ≡ span first count) }
    {
        if count != 0 && count <= SPACE_PAGES && first <= SPACE_PAGES - count {
            Some(PageRange { first, count })
        } else {
            None
        }
    }

    /// The pages from the page `first` up to, and without, the page `end`.
    pub fn between(first: u64, end: u64) -> PageRange
        requires ordered { first < end }
        requires in_space { end ≤ PAGES }
        ensures first { result.first ≡ first }
        ensures end { end_of result ≡ end }
    {
        PageRange {
            first,
            count: end - first,
        }
    }

    /// Its first page.
    pub fn first(self) -> u64
        ensures value { result ≡ self.first }
        ensures in_space { IsInSpace self }
    {
        self.first
    }

    /// How many pages it has.
    pub fn count(self) -> u64
        ensures value { result ≡ self.count }
        ensures in_space { IsInSpace self }
    {
        self.count
    }

    /// The first page past it.
    pub fn end(self) -> u64
        ensures value { result ≡ end_of self }
        ensures in_space { IsInSpace self }
    {
        self.first + self.count
    }

    /// Whether the page is in it.
    pub fn covers(self, page: u64) -> bool
        ensures { result ≡ covers self page }
    {
        self.first <= page && page < self.first + self.count
    }

    /// Whether some page is in both.
    pub fn meets(self, other: PageRange) -> bool
        ensures { result ≡ meets self other }
    {
        self.first < other.first + other.count && other.first < self.first + self.count
    }

    /// Whether each of its pages is in the other.
    pub fn lies_in(self, other: PageRange) -> bool
        ensures { result ≡ lies_in self other }
    {
        other.first <= self.first && self.first + self.count <= other.first + other.count
    }
}
