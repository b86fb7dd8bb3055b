//! Paints the tree: in the range it becomes that of the list.
ghost use Rattle.std.specs.Prelude.{◌≡◌, ◌+◌, ◌*◌, ◌<◌, ◌≤◌, ℕ, IsTrue};
ghost use Rattle.std.specs.Prelude.{slice_index_or};
ghost use Rattle.gv_types.specs.Page.{PAGES};
ghost use Rattle.gv_types.specs.PageRange.{span, meets, end_of};
ghost use Rattle.gv_ranges.specs.List.{IsLaidOut, IsIndexOfPage, AreEnded};
ghost use Rattle.gv_table.specs.declared.slot.Slot.TheVariants.{Empty};
ghost use Rattle.gv_table.specs.Kinds.{Kind, of};
ghost use Rattle.gv_table.specs.BufferNames.{AreEncodable};
ghost use Rattle.gv_table.specs.Levels.{top_level, root_level, slots_per_table, pages_of};
ghost use Rattle.gv_table.specs.Levels.{slot_pages, first_within};
ghost use Rattle.gv_table.specs.Tree.{IsTreeOf, IsEncodableOutside};
ghost use Rattle.gv_table.specs.Shape.{IsShaped};
ghost use Rattle.gv_table.specs.Counts.{gained, lost, row_gained, row_lost};
ghost use Rattle.gv_table.specs.Counts.{tables_at, row_tables_at, count_at};
ghost use Rattle.gv_table.specs.Counts.{CountsSlot, CountsRow};

use crate::alike::{Alike, alike_from};
use crate::deciding_mapping::advance;
use crate::divide::make_table;
use crate::leaves::{make_leaf, paint_alike};
use crate::levels::{SLOTS, TOP_LEVEL, pages_of, part_around, slots_met};
use crate::pages::paint_pages_of_list;
use crate::release::clear_unwanted;
use crate::slot::Slot;
use crate::slot_position::{Excerpt, SlotPosition};
use crate::spares::Spares;
use crate::table_counts::TableCounts;
use crate::wanted::{Wanted, slot_wanted};

/// Makes the tree that of the list, given that it fits outside the range. Tables that it gains are spare ones; those that it loses are
/// put to those pruned from it. The mappings before the position end before the range.
pub fn paint_tree(
    root: &mut Slot,
    excerpt: &Excerpt<'_, '_>,
    spares: &mut Spares,
    pruned: &mut Spares,
    counts: &mut TableCounts,
)
    requires laid_out { IsLaidOut excerpt.now.mappings.now }
    requires encoded { AreEncodable excerpt.now.mappings.now }
    requires ended { AreEnded excerpt.now.mappings.now excerpt.now.range.first excerpt.now.position }
    requires outside { IsEncodableOutside excerpt.now.mappings.now excerpt.now.range top_level 0 root.old }
    requires enough { (kind : Kind) → gained kind excerpt.now.mappings.now top_level 0 root.old ≤ of kind spares.old }
    requires counted { (target : ℕ) → count_at counts.old target ≡ tables_at target top_level root.old }
    requires shaped { IsShaped top_level root.old }
    ensures tree { IsTreeOf excerpt.now.mappings.now top_level 0 root.new }
    ensures taken { (kind : Kind) → of kind spares.new + gained kind excerpt.now.mappings.now top_level 0 root.old
        ≡ of kind spares.old }
    ensures put { (kind : Kind) → of kind pruned.new
        ≡ of kind pruned.old + lost kind excerpt.now.mappings.now top_level 0 root.old }
    ensures counted { (target : ℕ) → count_at counts.new target ≡ tables_at target top_level root.new }
    ensures shaped { IsShaped top_level root.new }
{
    let Excerpt {
        mappings,
        range,
        position,
    } = *excerpt;
    let slot_at = SlotPosition {
        level: TOP_LEVEL,
        first: 0,
    };
    let excerpt = Excerpt {
        mappings,
        range,
        position: advance(mappings, position, range.first()),
    };
    paint_slot(root, slot_at, &excerpt, spares, pruned, counts);
}

/// Makes a slot that meets the range that of the list's tree, given that it fits outside the range. Tables that it gains are spare
/// ones; those that it loses are put to those pruned from the tree.
#[cycle(paint)]
#[inline(always)]
pub fn paint_slot(
    slot: &mut Slot,
    slot_at: SlotPosition,
    excerpt: &Excerpt<'_, '_>,
    spares: &mut Spares,
    pruned: &mut Spares,
    counts: &mut TableCounts,
)
    requires some { 0 < slot_at.level }
    requires known { slot_at.level ≤ top_level }
    requires in_space { end_of (slot_pages slot_at.level slot_at.first) ≤ PAGES }
    requires laid_out { IsLaidOut excerpt.now.mappings.now }
    requires encoded { AreEncodable excerpt.now.mappings.now }
    requires position { IsIndexOfPage excerpt.now.mappings.now (first_within excerpt.now.range slot_at.first)
        excerpt.now.position }
    requires met { IsTrue (meets (slot_pages slot_at.level slot_at.first) excerpt.now.range) }
    requires outside { IsEncodableOutside excerpt.now.mappings.now excerpt.now.range slot_at.level slot_at.first slot.old }
    requires enough { (kind : Kind) → gained kind excerpt.now.mappings.now slot_at.level slot_at.first slot.old
        ≤ of kind spares.old }
    requires part { CountsSlot counts.old slot_at.level slot.old }
    requires shaped { IsShaped slot_at.level slot.old }
    ensures tree { IsTreeOf excerpt.now.mappings.now slot_at.level slot_at.first slot.new }
    ensures shaped { IsShaped slot_at.level slot.new }
    ensures taken { (kind : Kind) → of kind spares.new
        + gained kind excerpt.now.mappings.now slot_at.level slot_at.first slot.old ≡ of kind spares.old }
    ensures put { (kind : Kind) → of kind pruned.new
        ≡ of kind pruned.old + lost kind excerpt.now.mappings.now slot_at.level slot_at.first slot.old }
    ensures counted { (target : ℕ) → count_at counts.new target + tables_at target slot_at.level slot.old
        ≡ count_at counts.old target + tables_at target slot_at.level slot.new }
{
    let SlotPosition { level, first } = slot_at;
    match slot_wanted(excerpt, slot_at) {
        Wanted::Nothing => clear_unwanted(slot, slot_at, excerpt.range, pruned, counts),
        Wanted::Entry(entry) => make_leaf(slot, level, entry, pruned, counts),
        Wanted::Table => {
            make_table(slot, level, spares, counts);
            let slot_at = SlotPosition {
                level: level - 1,
                first,
            };
            match slot {
                Slot::Pages(table) => paint_pages_of_list(&mut table.0, first, excerpt),
                Slot::Table(slots) => paint_row(slots, slot_at, excerpt, spares, pruned, counts),
                Slot::Empty | Slot::Zero { .. } | Slot::Buffer { .. } => unreachable!(),
            }
        }
    }
}

/// The same for the slots of a table. Where the whole range lies in one of them, as mostly, that one is all that is looked at.
#[cycle(paint)]
fn paint_row(
    slots: &mut [Slot; SLOTS],
    slot_at: SlotPosition,
    excerpt: &Excerpt<'_, '_>,
    spares: &mut Spares,
    pruned: &mut Spares,
    counts: &mut TableCounts,
)
    requires some { 0 < slot_at.level }
    requires known { slot_at.level ≤ root_level }
    requires in_space { slot_at.first + slots_per_table * pages_of slot_at.level ≤ PAGES }
    requires laid_out { IsLaidOut excerpt.now.mappings.now }
    requires encoded { AreEncodable excerpt.now.mappings.now }
    requires position { IsIndexOfPage excerpt.now.mappings.now (first_within excerpt.now.range slot_at.first)
        excerpt.now.position }
    requires met { IsTrue (meets (span slot_at.first (slots_per_table * pages_of slot_at.level)) excerpt.now.range) }
    requires outside { (k : ℕ) → k < slots_per_table
        → IsEncodableOutside excerpt.now.mappings.now excerpt.now.range slot_at.level
        (slot_at.first + k * pages_of slot_at.level) (slice_index_or slots.old k Empty) }
    requires enough { (kind : Kind) → row_gained kind excerpt.now.mappings.now slot_at.level slot_at.first slots.old
        ≤ of kind spares.old }
    requires part { CountsRow counts.old slot_at.level slots.old }
    requires shaped { (k : ℕ) → k < slots_per_table → IsShaped slot_at.level (slice_index_or slots.old k Empty) }
    ensures tree { (k : ℕ) → k < slots_per_table → IsTreeOf excerpt.now.mappings.now slot_at.level
        (slot_at.first + k * pages_of slot_at.level) (slice_index_or slots.new k Empty) }
    ensures shaped { (k : ℕ) → k < slots_per_table → IsShaped slot_at.level (slice_index_or slots.new k Empty) }
    ensures taken { (kind : Kind) → of kind spares.new
        + row_gained kind excerpt.now.mappings.now slot_at.level slot_at.first slots.old ≡ of kind spares.old }
    ensures put { (kind : Kind) → of kind pruned.new
        ≡ of kind pruned.old + row_lost kind excerpt.now.mappings.now slot_at.level slot_at.first slots.old }
    ensures counted { (target : ℕ) → count_at counts.new target + row_tables_at target slot_at.level slots.old
        ≡ count_at counts.old target + row_tables_at target slot_at.level slots.new }
{
    let SlotPosition { level, first } = slot_at;
    if let Some(index) = part_around(level + 1, first, excerpt.range) {
        let slot_at = SlotPosition {
            level,
            first: first + index as u64 * pages_of(level),
        };
        paint_slot(&mut slots[index], slot_at, excerpt, spares, pruned, counts);
        return;
    }
    let mappings = excerpt.mappings.with_block_at(excerpt.position);
    let excerpt = Excerpt {
        mappings: &mappings,
        range: excerpt.range,
        position: excerpt.position,
    };
    paint_slots(slots, slot_at, &excerpt, spares, pruned, counts);
}

/// The same, whichever slots meet the range: those are visited.
#[cycle(paint)]
fn paint_slots(
    slots: &mut [Slot; SLOTS],
    slot_at: SlotPosition,
    excerpt: &Excerpt<'_, '_>,
    spares: &mut Spares,
    pruned: &mut Spares,
    counts: &mut TableCounts,
)
    requires some { 0 < slot_at.level }
    requires known { slot_at.level ≤ root_level }
    requires in_space { slot_at.first + slots_per_table * pages_of slot_at.level ≤ PAGES }
    requires laid_out { IsLaidOut excerpt.now.mappings.now }
    requires encoded { AreEncodable excerpt.now.mappings.now }
    requires position { AreEnded excerpt.now.mappings.now (first_within excerpt.now.range slot_at.first)
        excerpt.now.position }
    requires met { IsTrue (meets (span slot_at.first (slots_per_table * pages_of slot_at.level)) excerpt.now.range) }
    requires outside { (k : ℕ) → k < slots_per_table
        → IsEncodableOutside excerpt.now.mappings.now excerpt.now.range slot_at.level
        (slot_at.first + k * pages_of slot_at.level) (slice_index_or slots.old k Empty) }
    requires enough { (kind : Kind) → row_gained kind excerpt.now.mappings.now slot_at.level slot_at.first slots.old
        ≤ of kind spares.old }
    requires part { CountsRow counts.old slot_at.level slots.old }
    requires shaped { (k : ℕ) → k < slots_per_table → IsShaped slot_at.level (slice_index_or slots.old k Empty) }
    ensures tree { (k : ℕ) → k < slots_per_table → IsTreeOf excerpt.now.mappings.now slot_at.level
        (slot_at.first + k * pages_of slot_at.level) (slice_index_or slots.new k Empty) }
    ensures shaped { (k : ℕ) → k < slots_per_table → IsShaped slot_at.level (slice_index_or slots.new k Empty) }
    ensures taken { (kind : Kind) → of kind spares.new
        + row_gained kind excerpt.now.mappings.now slot_at.level slot_at.first slots.old ≡ of kind spares.old }
    ensures put { (kind : Kind) → of kind pruned.new
        ≡ of kind pruned.old + row_lost kind excerpt.now.mappings.now slot_at.level slot_at.first slots.old }
    ensures counted { (target : ℕ) → count_at counts.new target + row_tables_at target slot_at.level slots.old
        ≡ count_at counts.old target + row_tables_at target slot_at.level slots.new }
{
    let SlotPosition { level, first } = slot_at;
    let Excerpt {
        mappings,
        range,
        mut position,
    } = *excerpt;
    let pages = pages_of(level);
    let (low, high) = slots_met(level, first, range);
    let mut index = low;
    while index < high {
        let start = first + index as u64 * pages;
        position = advance(mappings, position, start.max(range.first()));
        let part = SlotPosition {
            level,
            first: start,
        };
        let excerpt = Excerpt {
            mappings,
            range,
            position,
        };
        let Alike { count, held } = alike_from(&excerpt, part);
        let alike = count.min((high - index) as u64) as usize;
        if alike == 0 {
            paint_slot(&mut slots[index], part, &excerpt, spares, pruned, counts);
            index += 1;
        } else {
            let run = index..index + alike;
            paint_alike(slots, slot_at, run, held.as_ref(), &excerpt, pruned, counts);
            index += alike;
        }
    }
}
