//! Which pages an item reaches, so that it can be passed over unread.
ghost use Rattle.std.specs.Prelude.{◌≡◌, ◌≤◌, Some};
ghost use Rattle.std.specs.List.{list_any};
ghost use Rattle.gv_types.specs.Page.{PAGES};
ghost use Rattle.gv_journal.specs.Restoring.{pages_named};
ghost use Rattle.gv_journal.specs.Reach.{extents_joined, extent_of, regions_between, regions_named, regions_of, regions_meet, reaches, IsReachOf};

use crate::touching::pages_of;
use gv_types::{PageOp, PageRange};

/// The pages of a region: those of one table of pages, so that an operation of a driver's size lies in one or two.
const REGION: u64 = 512;

/// The least page that operations cover and the one past the greatest, and a bit for each region of 128 in which they cover
/// some. Where they cover none, all are 0.
#[derive(Clone, Copy)]
pub struct Reach {
    pub first: u64,
    pub past: u64,
    pub regions: u128,
}

impl Reach {
    /// That of an item's operations.
    pub fn of(ops: &[PageOp]) -> Reach
        ensures reach { IsReachOf result ops.now }
        ensures in_space { result.past ≤ PAGES }
    {
        let regions = regions_of(ops);
        match extent_of(ops) {
            Some(range) => Reach {
                first: range.first(),
                past: range.end(),
                regions,
            },
            None => Reach {
                first: 0,
                past: 0,
                regions,
            },
        }
    }

    /// Whether some page may be in what both cover. The regions are asked first: where they don't meet, as mostly, no more is read.
    pub fn reaches(&self, other: &Reach) -> bool
        ensures { result ≡ reaches self.now other.now }
    {
        self.shares_region(other.regions) && self.first < other.past && other.first < self.past
    }

    /// Whether it covers pages in one of these regions, as far as the bits tell.
    fn shares_region(&self, regions: u128) -> bool
        ensures { result ≡ regions_meet self.now.regions regions }
    {
        self.regions & regions != 0
    }

    /// Whether it covers pages in one of the regions of one of several. It doesn't stop at the first, so that there is no branch from
    /// one to the next: mostly there is none. Inlined, so that the loop is unrolled where the caller gives a fixed number of them.
    #[inline(always)]
    pub fn shares_region_with_any(&self, others: &[u128]) -> bool
        ensures { result ≡ list_any (λ other. regions_meet self.now.regions other) others.now }
    {
        let mut any = false;
        for other in others {
            any |= self.shares_region(*other);
        }
        any
    }
}

/// The pages from the least to the greatest of both.
fn extents_joined(range: PageRange, other: PageRange) -> PageRange
    ensures { extents_joined (Some range) (Some other) ≡ Some result }
{
    let first = range.first().min(other.first());
    let end = range.end().max(other.end());
    PageRange::between(first, end)
}

/// The pages from the least to the greatest of those that there are.
fn joined_any(extent: Option<PageRange>, other: Option<PageRange>) -> Option<PageRange>
    ensures { result ≡ extents_joined extent other }
{
    match (extent, other) {
        (Some(range), Some(other)) => Some(extents_joined(range, other)),
        (Some(range), None) => Some(range),
        (None, other) => other,
    }
}

/// The pages from the least to the greatest that operations cover.
fn extent_of(ops: &[PageOp]) -> Option<PageRange>
    ensures { result ≡ extent_of ops.now }
{
    let mut extent = None;
    for op in ops {
        extent = joined_any(extent, pages_of(op));
    }
    extent
}

/// The bits of the regions from one to another.
fn regions_between(low: u64, high: u64) -> u128
    requires { low ≤ high }
    ensures { result ≡ regions_between low high }
{
    let unset = 127u64.saturating_sub(high - low);
    (u128::MAX >> unset).rotate_left((low % 128) as u32)
}

/// The bits of the regions with pages that an operation names.
fn regions_named(op: &PageOp) -> u128
    ensures { result ≡ regions_named (pages_named op.now) }
{
    match pages_of(op) {
        Some(range) => regions_between(range.first() / REGION, (range.end() - 1) / REGION),
        None => 0,
    }
}

/// The bits of the regions in which operations cover pages.
fn regions_of(ops: &[PageOp]) -> u128
    ensures { result ≡ regions_of ops.now }
{
    let mut regions = 0;
    for op in ops {
        regions |= regions_named(op);
    }
    regions
}
