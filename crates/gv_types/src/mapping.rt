//! What a run of pages maps.
ghost use Rattle.std.specs.Prelude.{◌≡◌, IsTrue};

use crate::generation::Generation;
use crate::page_range::PageRange;

/// The greatest number of pages of a buffer.
pub const BUFFER_PAGES: u64 = 1 << 36;

/// A buffer: its position in the table of buffers, which a later buffer may take again, and how many buffers were
/// made before it, which no other buffer has.
#[derive(Clone, Copy, Debug, PartialEq, Eq)]
pub struct BufferId {
    pub index: u32,
    pub generation: Generation,
}

/// What pages map: a buffer's pages from `page` on, or nothing but zeros. DRM GPUVM calls the first a
/// backing buffer object with its offset, and the second sparse.
#[derive(Clone, Copy, Debug, PartialEq, Eq)]
pub enum Backing {
    Buffer { id: BufferId, page: u64 },
    Zero,
}

/// How pages may be accessed.
#[derive(Clone, Copy, Debug, PartialEq, Eq)]
pub struct Flags {
    pub read_only: bool,
}

/// What one page of the address space holds.
#[derive(Clone, Copy, Debug, PartialEq, Eq)]
pub struct Entry {
    pub backing: Backing,
    pub flags: Flags,
}

/// A run of pages and what they map, `drm_gpuva` in DRM GPUVM.
#[derive(Clone, Copy, Debug, PartialEq, Eq)]
pub struct Mapping {
    pub range: PageRange,
    pub backing: Backing,
    pub flags: Flags,
}

// Long lists are moved in blocks, so a mapping is kept small.
const _: () = prove!(size_of::<Mapping>() == 48);

impl Default for Mapping {
    ghost use Rattle.gv_types.specs.Mapping.{one_page_of_zeros};

    ghost is_default = { λ m. m ≡ one_page_of_zeros };

    /// One page of zeros at page 0: it fills the unused places of a short list that is stored in its value.
    fn default() -> Mapping {
        Mapping {
            range: PageRange::between(0, 1),
            backing: Backing::Zero,
            flags: Flags { read_only: false },
        }
    }
}

impl BufferId {
    ghost use Rattle.gv_types.specs.Mapping.{buffer_id};

    /// The buffer at a position of the table that was made after `generation` others.
    pub fn new(index: u32, generation: u64) -> BufferId
        ensures { result ≡ buffer_id index generation }
    {
        BufferId {
            index,
            generation: Generation::new(generation),
        }
    }
}

impl Backing {
    ghost use Rattle.gv_types.specs.Mapping.{advanced, HasSmallPages};

    /// The same backing, `pages` further on. The pages of a mapping are small numbers: in a mapping no sum wraps.
    pub fn advanced(self, pages: u64) -> Backing
        ensures { HasSmallPages self pages → result ≡ advanced self pages }
    {
        match self {
            Backing::Buffer { id, page } => Backing::Buffer {
                id,
                page: page.wrapping_add(pages),
            },
            Backing::Zero => Backing::Zero,
        }
    }
}

impl Entry {
    ghost use Rattle.gv_types.specs.Mapping.{entry_advanced, HasSmallPages};

    /// What the page holds that is `pages` after the entry's, in the same mapping.
    pub fn advanced(self, pages: u64) -> Entry
        ensures { HasSmallPages self.backing pages → result ≡ entry_advanced self pages }
    {
        Entry {
            backing: self.backing.advanced(pages),
            flags: self.flags,
        }
    }
}

impl Mapping {
    ghost use Rattle.gv_types.specs.PageRange.{covers};
    ghost use Rattle.gv_types.specs.Mapping.{part, clip, IsMapping};

    /// What the mapping holds at a page of its range.
    pub fn part(&self, page: u64) -> Entry
        requires mapping { IsMapping self.now }
        requires covered { IsTrue (covers self.now.range page) }
        ensures { result ≡ part self.now page }
    {
        Entry {
            backing: self.backing.advanced(page - self.range.first()),
            flags: self.flags,
        }
    }

    /// The part of the mapping from the page `low` on and below the page `high`, if there is one. Its first
    /// page maps the same page of the buffer as in the whole mapping.
    pub fn clip(&self, low: u64, high: u64) -> Option<Mapping>
        requires { IsMapping self.now }
        ensures { result ≡ clip low high self.now }
    {
        let first = low.max(self.range.first());
        let end = high.min(self.range.end());
        if first >= end {
            return None;
        }
        let range = PageRange::between(first, end);
        Some(Mapping {
            range,
            backing: self.backing.advanced(first - self.range.first()),
            flags: self.flags,
        })
    }
}
