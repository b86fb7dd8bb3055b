//! A mapping in 32 bytes.
ghost use Rattle.std.specs.Prelude.{◌≡◌, ◌+◌, ◌<◌, ◌≤◌, IsTrue};
ghost use Rattle.std.specs.Option.{option_to_list};
ghost use Rattle.gv_types.specs.Page.{PAGES};
ghost use Rattle.gv_types.specs.PageRange.{end_of, covers};
ghost use Rattle.gv_types.specs.Mapping.{clip, is_of, part, piece, IsMapping};
ghost use Rattle.gv_types.specs.Operation.{own_mapping, IsPageOp};

use crate::mapping::{Backing, BufferId, Entry, Flags, Mapping};
use crate::operation::PageOp;
use crate::page_range::PageRange;
use std::marker::Model;

/// So many bits of `head` are below the first page.
const HEAD_BITS: u32 = 19;

const BELOW_HEAD: u64 = (1 << HEAD_BITS) - 1;

/// So many bits of the count are in `low`.
const LOW_BITS: u32 = 32;

const BELOW_LOW: u64 = (1 << LOW_BITS) - 1;

/// So many bits of `tagged_page` are below the page.
const TAG_BITS: u32 = 2;

/// The bit of `tagged_page` where a buffer stands behind the pages.
const BUFFER: u64 = 1;

/// The bit of `tagged_page` where the pages are read-only.
const READ_ONLY: u64 = 2;

/// A mapping whose pages are numbers that fit, in 32 bytes: contracts see the mapping itself.
#[derive(Clone, Copy, Debug, PartialEq, Eq)]
pub struct Packed {
    /// The first page, and below it what the count has above 32 bits: so heads are in the order of the pages.
    head: u64,
    /// The page of the buffer, and below it two bits: read-only, and whether a buffer stands behind the pages.
    tagged_page: u64,
    /// How many buffers were made before the buffer.
    generation: u64,
    /// The lower 32 bits of the count.
    low: u32,
    /// The buffer's position in the table of buffers.
    index: u32,
}

// The chunks of a list hold many of them.
const _: () = prove!(size_of::<Packed>() == 32);

impl Model for Packed {
    ghost use Rattle.gv_types.specs.declared.mapping.Mapping.{Mapping};
    ghost use Rattle.gv_types.specs.Packed.{unpacked, words_of, IsPacked, words_of-unpacked};

    ghost Value = { Mapping };

    ghost view = { unpacked };

    ghost invariant = { IsPacked };

    ghost inverse = { words_of };

    ghost inverse_ok = { words_of-unpacked };
}

impl Default for Packed {
    ghost use Rattle.gv_types.specs.Mapping.{one_page_of_zeros};

    ghost is_default = { λ m. m ≡ one_page_of_zeros };

    /// One page of zeros at page 0: what stands in the unused places of a short list that lies in its value.
    fn default() -> Packed {
        Packed {
            head: 0,
            tagged_page: 0,
            generation: 0,
            low: 1,
            index: 0,
        }
    }
}

impl Packed {
    /// The mapping in 32 bytes.
    #[inline(always)]
    pub fn new(mapping: &Mapping) -> Packed
        requires { IsMapping mapping.now }
        ensures { result ≡ mapping.now }
    {
        let count = mapping.range.count();
        let head = (mapping.range.first() << HEAD_BITS) + (count >> LOW_BITS);
        let low = (count & BELOW_LOW) as u32;
        let read_only = if mapping.flags.read_only {
            READ_ONLY
        } else {
            0
        };
        match mapping.backing {
            Backing::Buffer { id, page } => Packed {
                head,
                tagged_page: (page << TAG_BITS) + read_only + BUFFER,
                generation: id.generation.get(),
                low,
                index: id.index,
            },
            Backing::Zero => Packed {
                head,
                tagged_page: read_only,
                generation: 0,
                low,
                index: 0,
            },
        }
    }

    /// The mapping that an operation puts in, if any.
    #[inline(always)]
    pub fn own(op: &PageOp) -> Option<Packed>
        requires { IsPageOp op.now }
        ensures { option_to_list result ≡ own_mapping op.now }
    {
        match op.own_mapping() {
            Some(mapping) => Some(Packed::new(&mapping)),
            None => None,
        }
    }

    /// The mapping itself.
    #[inline(always)]
    pub fn mapping(&self) -> Mapping
        ensures value { result ≡ self.now }
        ensures is { IsMapping result }
    {
        // A look at a word tells the proof that the words are those of a mapping.
        let _ = &self.head;
        Mapping {
            range: self.range(),
            backing: self.backing(),
            flags: self.flags(),
        }
    }

    /// Its first page.
    #[inline(always)]
    pub fn first(&self) -> u64
        ensures value { result ≡ self.now.range.first }
        ensures small { result < PAGES }
    {
        self.head >> HEAD_BITS
    }

    /// How many pages it has.
    #[inline(always)]
    pub fn count(&self) -> u64
        ensures value { result ≡ self.now.range.count }
        ensures some { 0 < result }
        ensures in_space { self.now.range.first + result ≤ PAGES }
    {
        ((self.head & BELOW_HEAD) << LOW_BITS) + u64::from(self.low)
    }

    /// The first page past it.
    #[inline(always)]
    pub fn end(&self) -> u64
        ensures value { result ≡ end_of self.now.range }
        ensures some { self.now.range.first < result }
        ensures in_space { result ≤ PAGES }
    {
        self.first() + self.count()
    }

    /// The pages that it covers.
    #[inline(always)]
    pub fn range(&self) -> PageRange
        ensures { result ≡ self.now.range }
    {
        PageRange::between(self.first(), self.end())
    }

    /// What stands behind its pages.
    #[inline(always)]
    pub fn backing(&self) -> Backing
        ensures { result ≡ self.now.backing }
    {
        if self.tagged_page & BUFFER == BUFFER {
            Backing::Buffer {
                id: BufferId::new(self.index, self.generation),
                page: self.tagged_page >> TAG_BITS,
            }
        } else {
            Backing::Zero
        }
    }

    /// How its pages may be accessed.
    #[inline(always)]
    pub fn flags(&self) -> Flags
        ensures { result ≡ self.now.flags }
    {
        Flags {
            read_only: self.tagged_page / READ_ONLY & 1 == 1,
        }
    }

    /// Whether the buffer stands behind its pages.
    #[inline(always)]
    pub fn is_of(&self, id: BufferId) -> bool
        ensures { result ≡ is_of id self.now.backing }
    {
        self.tagged_page & BUFFER == BUFFER
            && self.index == id.index
            && self.generation == id.generation.get()
    }

    /// What it holds at a page of its range.
    #[inline(always)]
    pub fn part(&self, page: u64) -> Entry
        requires covered { IsTrue (covers self.now.range page) }
        ensures { result ≡ part self.now page }
    {
        // A look at a word tells the proof that the words are those of a mapping.
        let _ = &self.head;
        Entry {
            backing: self.backing().advanced(page - self.first()),
            flags: self.flags(),
        }
    }

    /// What of it lies at the page `low` or above and below the page `high`, if anything does.
    #[inline(always)]
    pub fn clip(&self, low: u64, high: u64) -> Option<Packed>
        ensures { result ≡ clip low high self.now }
    {
        let first = low.max(self.first());
        let end = high.min(self.end());
        if first >= end {
            return None;
        }
        Some(self.piece(first, end - first))
    }

    /// `count` pages of it from the page `first` on.
    #[inline(always)]
    fn piece(&self, first: u64, count: u64) -> Packed
        requires some { 0 < count }
        requires above { self.now.range.first ≤ first }
        requires below { first + count ≤ end_of self.now.range }
        ensures { result ≡ piece self.now first count }
    {
        let further = if self.tagged_page & BUFFER == BUFFER {
            (first - self.first()) << TAG_BITS
        } else {
            0
        };
        Packed {
            head: (first << HEAD_BITS) + (count >> LOW_BITS),
            tagged_page: self.tagged_page + further,
            generation: self.generation,
            low: (count & BELOW_LOW) as u32,
            index: self.index,
        }
    }
}
