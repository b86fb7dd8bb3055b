//! The pages that operations may touch.
ghost use Rattle.std.specs.Prelude.{◌≡◌, ◌&&◌, IfOk, IsTrue};
ghost use Rattle.gv_types.specs.Operation.{addr_of, len_of, offset_of, has_range, in_pages};
ghost use Rattle.gv_types.specs.Operation.{range_of, IsPageOp, IsChecked};
ghost use Rattle.gv_types.specs.Bounds.{area, byte_area, whole_area, checked, IsAllowed, LieInArea, is_aligned, meets_region};

use crate::fault::Fault;
use crate::operation::{Op, PAGE_BYTES, PageOp};
use crate::page_range::{PageRange, SPACE_PAGES};
use std::marker::Model;

/// The pages of an address space, and a region of them that is reserved, as the region that DRM GPUVM keeps for
/// the kernel. An empty region reserves nothing, wherever it begins.
#[derive(Clone, Copy, Debug)]
pub struct Bounds {
    space: PageRange,
    reserved: Option<PageRange>,
}

impl Model for Bounds {
    ghost use Rattle.gv_types.specs.Bounds.{BoundsState};

    ghost Value = { BoundsState };

    ghost view = { λ b. record { space = b.space; reserved = b.reserved } };

    ghost inverse = { λ a. record { space = a.space; reserved = a.reserved } };
}

impl Bounds {
    /// The space of `len` bytes from the byte `start` on, with a region of bytes reserved. None if a number is no
    /// multiple of 4,096, or `new` answers None for the numbers of pages.
    pub fn from_bytes(
        start: u64,
        len: u64,
        reserved_start: u64,
        reserved_len: u64,
    ) -> Option<Bounds>
        ensures { result ≡ byte_area start len reserved_start reserved_len }
    {
        if !is_whole_pages(start)
            || !is_whole_pages(len)
            || !is_whole_pages(reserved_start)
            || !is_whole_pages(reserved_len)
        {
            return None;
        }
        Bounds::new(
            start / PAGE_BYTES,
            len / PAGE_BYTES,
            reserved_start / PAGE_BYTES,
            reserved_len / PAGE_BYTES,
        )
    }

    /// The space of `count` pages from the page `first` on, with a region of pages reserved. None unless the space
    /// is a range of pages and the region is empty or inside it.
    pub fn new(first: u64, count: u64, reserved_first: u64, reserved_count: u64) -> Option<Bounds>
        ensures { result ≡ area first count reserved_first reserved_count }
    {
        let space = PageRange::new(first, count)?;
        if reserved_count == 0 {
            return Some(Bounds {
                space,
                reserved: None,
            });
        }
        let region = PageRange::new(reserved_first, reserved_count)?;
        if region.lies_in(space) {
            Some(Bounds {
                space,
                reserved: Some(region),
            })
        } else {
            None
        }
    }

    /// All pages, and none of them reserved.
    pub fn whole() -> Bounds
        ensures { result ≡ whole_area }
    {
        Bounds {
            space: PageRange::between(0, SPACE_PAGES),
            reserved: None,
        }
    }

    /// The operation in pages, or its first fault in this order: `Unaligned` (its address, length or offset is no
    /// multiple of 4,096 bytes), `Empty` (its length is 0), `OutOfSpace` (a page is outside the space), `Reserved`
    /// (a page is reserved). An unmap of a whole buffer names no pages, and has none of these faults. It takes no memory.
    pub fn check(&self, op: &Op) -> Result<PageOp, Fault>
        ensures value { result ≡ checked self.now op.now }
        ensures same { IfOk result (λ p. p ≡ in_pages op.now) }
        ensures allowed { IfOk result (IsAllowed self.now) }
        ensures page_op { IfOk result IsChecked }
    {
        match *op {
            Op::UnmapBuffer { buffer } => Ok(PageOp::UnmapBuffer { buffer }),
            Op::Map { .. } | Op::MapZero { .. } | Op::Unmap { .. } => self.check_pages(op),
        }
    }

    /// The same for an operation that names its pages.
    fn check_pages(&self, op: &Op) -> Result<PageOp, Fault>
        requires { IsTrue (has_range op.now) }
        ensures value { result ≡ checked self.now op.now }
        ensures same { IfOk result (λ p. p ≡ in_pages op.now) }
        ensures allowed { IfOk result (λ p. LieInArea self.now (range_of p)) }
        ensures page_op { IfOk result IsPageOp }
    {
        if !is_aligned(op) {
            return Err(Fault::Unaligned);
        }
        if op.len() == 0 {
            return Err(Fault::Empty);
        }
        let first = op.addr() / PAGE_BYTES;
        let end = first + op.len() / PAGE_BYTES;
        if first < self.space.first() || self.space.end() < end {
            return Err(Fault::OutOfSpace);
        }
        let range = PageRange::between(first, end);
        if self.is_reserved(range) {
            return Err(Fault::Reserved);
        }
        Ok(op.on_pages(range))
    }

    /// Whether some page of the range is in the reserved region.
    fn is_reserved(&self, range: PageRange) -> bool
        ensures { result ≡ meets_region self.now.reserved range }
    {
        match self.reserved {
            Some(region) => range.meets(region),
            None => false,
        }
    }
}

/// Whether its address, its length and its offset are numbers of pages.
fn is_aligned(op: &Op) -> bool
    ensures { result ≡ (is_aligned (addr_of op.now) && is_aligned (len_of op.now) && is_aligned (offset_of op.now)) }
{
    is_whole_pages(op.addr()) && is_whole_pages(op.len()) && is_whole_pages(op.offset())
}

/// Whether a number of bytes is a number of pages.
fn is_whole_pages(bytes: u64) -> bool
    ensures { result ≡ is_aligned bytes }
{
    bytes % PAGE_BYTES == 0
}
