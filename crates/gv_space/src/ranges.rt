//! The pages of a buffer's mappings.
ghost use Rattle.std.specs.Prelude.{◌≡◌, ◌<◌, Bool, IfOk, OnErr, length, map, filter, take};
ghost use Rattle.gv_types.specs.Mapping.{is_of};
ghost use Rattle.gv_types.specs.declared.mapping.Mapping.{Mapping};
ghost use Rattle.gv_space.specs.Counts.{count_of, ranges_of};

use gv_ranges::RangeList;
use gv_types::{BufferId, OutOfMemory, PageRange};
use std::alloc::Global;

/// The range of each mapping of a buffer that has `count` of them, in the order of the list. Where their first pages are known, each is
/// looked up there; else the list is gone through, as far as the last one.
pub fn ranges_of(
    alloc: Global,
    list: &RangeList,
    id: BufferId,
    count: u64,
    first_pages: &[u64],
) -> Result<Vec<PageRange>, OutOfMemory>
    requires count { count ≡ count_of id list.now.mappings }
    requires first_pages { length first_pages.now ≡ count
        → first_pages.now ≡ map (λ m. m.range.first) (filter (λ m. is_of id m.backing) list.now.mappings) }
    ensures ranges { IfOk result (λ ranges. ranges.items ≡ ranges_of id list.now.mappings) }
    ensures some { OnErr result (0 < count) }
{
    if count == 0 {
        return Ok(Vec::new(alloc));
    }
    if first_pages.len() as u64 == count {
        return ranges_at(alloc, list, first_pages);
    }
    first_ranges(alloc, list, id, count as usize)
}

/// The range of each mapping that begins at one of these first pages, where all of them begin there that pass a test.
fn ranges_at(
    alloc: Global,
    list: &RangeList,
    first_pages: &[u64],
) -> Result<Vec<PageRange>, OutOfMemory>
    ensures { IfOk result (λ ranges. (test : Mapping → Bool) → first_pages.now ≡ map (λ m. m.range.first) (filter test list.now.mappings)
        → ranges.items ≡ map (λ m. m.range) (filter test list.now.mappings)) }
{
    // Tells that the list is laid out.
    let _len = list.len();
    let mut ranges = Vec::with_capacity(alloc, first_pages.len())?;
    for page in first_pages {
        if let Some(mapping) = list.first_ending_after(*page) {
            ranges.push(mapping.range())?;
        }
    }
    Ok(ranges)
}

/// The ranges of a buffer's first mappings.
fn first_ranges(
    alloc: Global,
    list: &RangeList,
    id: BufferId,
    count: usize,
) -> Result<Vec<PageRange>, OutOfMemory>
    ensures { IfOk result (λ ranges. ranges.items
        ≡ map (λ m. m.range) (take count (filter (λ m. is_of id m.backing) list.now.mappings))) }
{
    let ranges = list
        .iter()
        .filter(|m| m.is_of(id))
        .take(count)
        .map(|m| m.range())
        .collect(alloc)?;
    Ok(ranges)
}
