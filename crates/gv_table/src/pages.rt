//! Paints a table of single pages: its slots in the range become those of the list's tree.
ghost use Rattle.std.specs.Prelude.{◌≡◌, ◌+◌, ◌*◌, ◌<◌, ◌≤◌, ℕ, false, IsTrue, slice_index_or};
ghost use Rattle.gv_types.specs.Page.{PAGES};
ghost use Rattle.gv_types.specs.PageRange.{span, meets, end_of};
ghost use Rattle.gv_ranges.specs.List.{IsLaidOut, IsIndexOfPage, AreEnded};
ghost use Rattle.gv_table.specs.BufferNames.{AreEncodable};
ghost use Rattle.gv_table.specs.Levels.{slots_per_table, pages_of, slot_pages, first_within};
ghost use Rattle.gv_table.specs.Tree.{IsTreeOf, IsEncodableOutside, slot_of, no_page};

use crate::deciding_mapping::advance;
use crate::fill::{empty, fill};
use crate::levels::{SLOTS, slots_met};
use crate::page_slot::PageSlot;
use crate::slot_position::Excerpt;
use crate::unnamed_list::UnnamedList;
use std::ops::Range;

/// Makes the slots of a run those of the list's tree, as far as one mapping or one gap goes, and at most up to the run's
/// end: where it ends. The position is that of the first mapping which ends past the page of the run's first slot.
fn paint_run(
    slots: &mut [PageSlot; SLOTS],
    first: u64,
    run: Range<usize>,
    mappings: &UnnamedList<'_>,
    position: usize,
) -> usize
    requires in_space { first + slots_per_table ≤ PAGES }
    requires some { run.start < run.end }
    requires within { run.end ≤ slots_per_table }
    requires laid_out { IsLaidOut mappings.now }
    requires encoded { AreEncodable mappings.now }
    requires position { IsIndexOfPage mappings.now (first + run.start) position }
    ensures further { run.start < result }
    ensures within { result ≤ run.end }
    ensures painted { (k : ℕ) → run.start ≤ k → k < result
        → IsTreeOf mappings.now 0 (first + k) (slot_of (slice_index_or slots.new k no_page)) }
    ensures before { (k : ℕ) → k < run.start
        → slice_index_or slots.new k no_page ≡ slice_index_or slots.old k no_page }
    ensures behind { (k : ℕ) → result ≤ k
        → slice_index_or slots.new k no_page ≡ slice_index_or slots.old k no_page }
{
    let Range {
        start: low,
        end: high,
    } = run;
    if position == mappings.len() {
        empty(slots, low, high);
        return high;
    }
    let m = mappings.get(position);
    let page = first + low as u64;
    if page < m.range.first() {
        let end = (m.range.first() - first).min(high as u64) as usize;
        empty(slots, low, end);
        return end;
    }
    let end = (m.range.end() - first).min(high as u64) as usize;
    fill(slots, low, end, &m.part(page));
    end
}

/// Makes the slots of a table of pages that meet the range what the mappings say of them. None is or becomes a table, so nothing is
/// counted, and the others stay.
pub fn paint_pages(slots: &mut [PageSlot; SLOTS], first: u64, excerpt: &Excerpt<'_, '_>)
    requires in_space { first + slots_per_table * pages_of 0 ≤ PAGES }
    requires laid_out { IsLaidOut excerpt.now.mappings.now }
    requires encoded { AreEncodable excerpt.now.mappings.now }
    requires position { AreEnded excerpt.now.mappings.now (first_within excerpt.now.range first) excerpt.now.position }
    requires met { IsTrue (meets (span first (slots_per_table * pages_of 0)) excerpt.now.range) }
    ensures inside { (k : ℕ) → k < slots_per_table → IsTrue (meets (slot_pages 0 (first + k * pages_of 0)) excerpt.now.range)
        → IsTreeOf excerpt.now.mappings.now 0 (first + k * pages_of 0) (slot_of (slice_index_or slots.new k no_page)) }
    ensures outside { (k : ℕ) → k < slots_per_table → meets (slot_pages 0 (first + k * pages_of 0)) excerpt.now.range ≡ false
        → slice_index_or slots.new k no_page ≡ slice_index_or slots.old k no_page }
{
    let Excerpt {
        mappings,
        range,
        mut position,
    } = *excerpt;
    let (low, high) = slots_met(0, first, range);
    let mut index = low;
    while index < high {
        position = advance(mappings, position, first + index as u64);
        index = paint_run(slots, first, index..high, mappings, position);
    }
}

/// Makes the slots of a table of pages those of the list's tree, given that they fit outside the range. The mappings are looked up anew
/// where they are not at hand.
pub fn paint_pages_of_list(slots: &mut [PageSlot; SLOTS], first: u64, excerpt: &Excerpt<'_, '_>)
    requires in_space { first + slots_per_table * pages_of 0 ≤ PAGES }
    requires laid_out { IsLaidOut excerpt.now.mappings.now }
    requires encoded { AreEncodable excerpt.now.mappings.now }
    requires position { AreEnded excerpt.now.mappings.now (first_within excerpt.now.range first) excerpt.now.position }
    requires met { IsTrue (meets (span first (slots_per_table * pages_of 0)) excerpt.now.range) }
    requires outside { (k : ℕ) → k < slots_per_table
        → IsEncodableOutside excerpt.now.mappings.now excerpt.now.range 0 (first + k * pages_of 0)
        (slot_of (slice_index_or slots.old k no_page)) }
    ensures { (k : ℕ) → k < slots_per_table → IsTreeOf excerpt.now.mappings.now 0
        (first + k * pages_of 0) (slot_of (slice_index_or slots.new k no_page)) }
{
    let mappings = excerpt.mappings.with_block_at(excerpt.position);
    let excerpt = Excerpt {
        mappings: &mappings,
        range: excerpt.range,
        position: excerpt.position,
    };
    paint_pages(slots, first, &excerpt);
}
