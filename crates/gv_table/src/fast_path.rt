//! The fast path of a paint: the range lies in one table of pages, or is whole slots of another table. That table stands and is to stay, and
//! pieces tell what the list is to say of the range. No list is read.
ghost use Rattle.std.specs.Prelude.{◌≡◌, ◌+◌, ◌*◌, ◌<◌, ◌≤◌, ℕ, false, true, IsTrue, List, slice_index_or};
ghost use Rattle.gv_types.specs.Page.{PAGES};
ghost use Rattle.gv_types.specs.PageRange.{span, meets, lies_in, end_of};
ghost use Rattle.gv_types.specs.declared.mapping.Mapping.{Mapping};
ghost use Rattle.gv_ranges.specs.List.{IsLaidOut, AreEnded};
ghost use Rattle.gv_table.specs.declared.slot.Slot.TheVariants.{Empty};
ghost use Rattle.gv_table.specs.Kinds.{Kind};
ghost use Rattle.gv_table.specs.BufferNames.{AreEncodable};
ghost use Rattle.gv_table.specs.Levels.{root_level, top_level, slots_per_table, pages_of, slot_pages};
ghost use Rattle.gv_table.specs.Patch.{IsPatched};
ghost use Rattle.gv_table.specs.Shape.{IsShaped};
ghost use Rattle.gv_table.specs.Tree.{IsTreeOf, IsEncodableOutside, slot_of, no_page};
ghost use Rattle.gv_table.specs.Counts.{lost, row_lost, tables_at, row_tables_at};
ghost use Rattle.gv_table.specs.declared.wanted.Wanted.{Wanted};
ghost use Rattle.gv_table.specs.Wanted.{wanted};

use crate::fast_row::{table_around, try_paint_leaves};
use crate::levels::{SLOTS, pages_of};
use crate::page_slot::PageSlot;
use crate::pages::paint_pages;
use crate::slot::Slot;
use crate::slot_position::{Excerpt, SlotPosition};
use gv_types::PageRange;

/// Paints a range that lies in one table of pages below this slot, or is whole slots of another table, where that table stands and is to
/// stay: whether it did. Then all tables above it stay too, so none is gained, lost or counted, and no slot beside the range is looked at.
/// Of the list the pieces tell what it says of the range, and `some` where one of its mappings lies.
#[cycle(fast_path)]
pub fn try_paint_slot(
    slot: &mut Slot,
    slot_at: SlotPosition,
    excerpt: &Excerpt<'_, '_>,
    some: PageRange,
) -> bool
    requires some { 0 < slot_at.level }
    requires known { slot_at.level ≤ top_level }
    requires in_space { end_of (slot_pages slot_at.level slot_at.first) ≤ PAGES }
    requires laid_out { IsLaidOut excerpt.now.mappings.now }
    requires encoded { AreEncodable excerpt.now.mappings.now }
    requires position { AreEnded excerpt.now.mappings.now excerpt.now.range.first excerpt.now.position }
    requires met { IsTrue (meets (slot_pages slot_at.level slot_at.first) excerpt.now.range) }
    ensures not { result ≡ false → slot.new ≡ slot.old }
    ensures stays { IsTrue result → (ms : List Mapping) → IsPatched ms excerpt.now.mappings.now excerpt.now.range some
        → wanted ms slot_at.level slot_at.first ≡ Wanted.Table }
    ensures tree { IsTrue result → (ms : List Mapping) → IsPatched ms excerpt.now.mappings.now excerpt.now.range some
        → IsEncodableOutside ms excerpt.now.range slot_at.level slot_at.first slot.old → IsTreeOf ms slot_at.level slot_at.first slot.new }
    ensures lost { IsTrue result → (ms : List Mapping) → IsPatched ms excerpt.now.mappings.now excerpt.now.range some
        → IsEncodableOutside ms excerpt.now.range slot_at.level slot_at.first slot.old
        → (kind : Kind) → lost kind ms slot_at.level slot_at.first slot.old ≡ 0 }
    ensures counted { (target : ℕ) → tables_at target slot_at.level slot.new ≡ tables_at target slot_at.level slot.old }
    ensures shaped { IsShaped slot_at.level slot.old → IsShaped slot_at.level slot.new }
{
    let below = SlotPosition {
        level: slot_at.level - 1,
        first: slot_at.first,
    };
    match slot {
        Slot::Pages(table) => {
            slot_at.level == 1 && try_paint_pages(&mut table.0, slot_at.first, excerpt, some)
        }
        Slot::Table(slots) => slot_at.level > 1 && try_paint_row(slots, below, excerpt, some),
        Slot::Empty | Slot::Zero { .. } | Slot::Buffer { .. } => false,
    }
}

/// The same for the slots of a table: down to the one that is a table round the range, or else for the slots that the range is made of.
#[cycle(fast_path)]
fn try_paint_row(
    slots: &mut [Slot; SLOTS],
    slot_at: SlotPosition,
    excerpt: &Excerpt<'_, '_>,
    some: PageRange,
) -> bool
    requires some { 0 < slot_at.level }
    requires known { slot_at.level ≤ root_level }
    requires in_space { slot_at.first + slots_per_table * pages_of slot_at.level ≤ PAGES }
    requires laid_out { IsLaidOut excerpt.now.mappings.now }
    requires encoded { AreEncodable excerpt.now.mappings.now }
    requires position { AreEnded excerpt.now.mappings.now excerpt.now.range.first excerpt.now.position }
    requires met { IsTrue (meets (span slot_at.first (slots_per_table * pages_of slot_at.level)) excerpt.now.range) }
    ensures not { result ≡ false → slots.new ≡ slots.old }
    ensures stays { IsTrue result → (ms : List Mapping) → IsPatched ms excerpt.now.mappings.now excerpt.now.range some
        → wanted ms (slot_at.level + 1) slot_at.first ≡ Wanted.Table }
    ensures tree { IsTrue result → (ms : List Mapping) → IsPatched ms excerpt.now.mappings.now excerpt.now.range some
        → ((k : ℕ) → k < slots_per_table → IsEncodableOutside ms excerpt.now.range slot_at.level
        (slot_at.first + k * pages_of slot_at.level) (slice_index_or slots.old k Empty))
        → (k : ℕ) → k < slots_per_table → IsTreeOf ms slot_at.level
        (slot_at.first + k * pages_of slot_at.level) (slice_index_or slots.new k Empty) }
    ensures lost { IsTrue result → (ms : List Mapping) → IsPatched ms excerpt.now.mappings.now excerpt.now.range some
        → ((k : ℕ) → k < slots_per_table → IsEncodableOutside ms excerpt.now.range slot_at.level
        (slot_at.first + k * pages_of slot_at.level) (slice_index_or slots.old k Empty))
        → (kind : Kind) → row_lost kind ms slot_at.level slot_at.first slots.old ≡ 0 }
    ensures counted { (target : ℕ) → row_tables_at target slot_at.level slots.new
        ≡ row_tables_at target slot_at.level slots.old }
    ensures shaped { ((k : ℕ) → k < slots_per_table → IsShaped slot_at.level (slice_index_or slots.old k Empty))
        → (k : ℕ) → k < slots_per_table → IsShaped slot_at.level (slice_index_or slots.new k Empty) }
{
    let SlotPosition { level, first } = slot_at;
    let Some(index) = table_around(slots, slot_at, excerpt.range) else {
        return divides(some, level + 1, first) && try_paint_leaves(slots, slot_at, excerpt);
    };
    let part = SlotPosition {
        level,
        first: first + index as u64 * pages_of(level),
    };
    try_paint_slot(&mut slots[index], part, excerpt, some)
}

/// The same, where the slots are those of the table of pages.
fn try_paint_pages(
    slots: &mut [PageSlot; SLOTS],
    first: u64,
    excerpt: &Excerpt<'_, '_>,
    some: PageRange,
) -> bool
    requires in_space { first + slots_per_table * pages_of 0 ≤ PAGES }
    requires laid_out { IsLaidOut excerpt.now.mappings.now }
    requires encoded { AreEncodable excerpt.now.mappings.now }
    requires position { AreEnded excerpt.now.mappings.now excerpt.now.range.first excerpt.now.position }
    requires met { IsTrue (meets (span first (slots_per_table * pages_of 0)) excerpt.now.range) }
    ensures not { result ≡ false → slots.new ≡ slots.old }
    ensures stays { IsTrue result → (ms : List Mapping) → IsPatched ms excerpt.now.mappings.now excerpt.now.range some
        → wanted ms 1 first ≡ Wanted.Table }
    ensures tree { IsTrue result → (ms : List Mapping) → IsPatched ms excerpt.now.mappings.now excerpt.now.range some
        → ((k : ℕ) → k < slots_per_table → IsEncodableOutside ms excerpt.now.range 0 (first + k * pages_of 0)
        (slot_of (slice_index_or slots.old k no_page)))
        → (k : ℕ) → k < slots_per_table → IsTreeOf ms 0
        (first + k * pages_of 0) (slot_of (slice_index_or slots.new k no_page)) }
{
    if !divides(some, 1, first) {
        return false;
    }
    paint_pages(slots, first, excerpt);
    true
}

/// Whether a mapping at these pages holds some of those of a slot, and not all: then the slot is to be a table.
#[inline(always)]
fn divides(some: PageRange, level: usize, first: u64) -> bool
    requires known { level ≤ top_level }
    requires in_space { end_of (slot_pages level first) ≤ PAGES }
    ensures met { IsTrue result → IsTrue (meets some (slot_pages level first)) }
    ensures not_whole { IsTrue result → lies_in (slot_pages level first) some ≡ false }
{
    let end = first + pages_of(level);
    if end <= some.first() || some.end() <= first {
        return false;
    }
    if first < some.first() {
        return true;
    }
    some.end() < end
}
