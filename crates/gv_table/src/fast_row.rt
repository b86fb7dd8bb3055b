//! The fast path of a paint, where the range is whole slots of one table: none of them is a table, and none is to be one. Pieces tell
//! what the list is to say of the range. No list is read.
ghost use Rattle.std.specs.Prelude.{◌≡◌, ◌+◌, ◌*◌, ◌<◌, ◌≤◌, ℕ, false, IsTrue, IfSome, MatchOption, slice_index_or};
ghost use Rattle.gv_types.specs.Page.{PAGES};
ghost use Rattle.gv_types.specs.PageRange.{span, meets, covers};
ghost use Rattle.gv_types.specs.Mapping.{part, IsMapping};
ghost use Rattle.gv_ranges.specs.List.{IsLaidOut, AreEnded};
ghost use Rattle.gv_table.specs.declared.slot.Slot.TheVariants.{Empty};
ghost use Rattle.gv_table.specs.Leaves.{AreWhole, IsLeafOf};
ghost use Rattle.gv_table.specs.Levels.{root_level, slots_per_table, pages_of, slot_pages, IsInPart};
ghost use Rattle.gv_table.specs.BufferNames.{AreEncodable, IsEncodable};
ghost use Rattle.gv_table.specs.Tree.{IsTreeOf, is_table, leaf};

use crate::alike::{Alike, alike_from};
use crate::deciding_mapping::advance;
use crate::levels::{SLOTS, pages_of, part_around, slots_met};
use crate::slot::{Slot, overwrite};
use crate::slot_position::{Excerpt, SlotPosition};
use gv_types::{Mapping, PageRange};
use std::ops::Range;

/// Which slot of a row the whole range lies in, if it lies in one that is a table.
#[inline(always)]
pub fn table_around(slots: &[Slot; SLOTS], slot_at: SlotPosition, range: PageRange) -> Option<usize>
    requires known { slot_at.level ≤ root_level }
    requires in_space { slot_at.first + slots_per_table * pages_of slot_at.level ≤ PAGES }
    requires met { IsTrue (meets (span slot_at.first (slots_per_table * pages_of slot_at.level)) range) }
    ensures part { IfSome result (λ index. IsInPart range (slot_at.level + 1) slot_at.first index) }
    ensures met { IfSome result (λ index.
        IsTrue (meets (slot_pages slot_at.level (slot_at.first + index * pages_of slot_at.level)) range)) }
{
    let index = part_around(slot_at.level + 1, slot_at.first, range)?;
    if !slots[index].is_table() {
        return None;
    }
    Some(index)
}

/// Gives the slots of a row that meet the range what the pieces say of them, where each lies whole in it, none is a table, and none is
/// to be one: whether it did, and if not, nothing changed.
#[inline(never)]
pub fn try_paint_leaves(
    slots: &mut [Slot; SLOTS],
    slot_at: SlotPosition,
    excerpt: &Excerpt<'_, '_>,
) -> bool
    requires some { 0 < slot_at.level }
    requires known { slot_at.level ≤ root_level }
    requires in_space { slot_at.first + slots_per_table * pages_of slot_at.level ≤ PAGES }
    requires laid_out { IsLaidOut excerpt.now.mappings.now }
    requires encoded { AreEncodable excerpt.now.mappings.now }
    requires position { AreEnded excerpt.now.mappings.now excerpt.now.range.first excerpt.now.position }
    requires met { IsTrue (meets (span slot_at.first (slots_per_table * pages_of slot_at.level)) excerpt.now.range) }
    ensures not { result ≡ false → slots.new ≡ slots.old }
    ensures inside { IsTrue result → (k : ℕ) → k < slots_per_table
        → IsTrue (meets (slot_pages slot_at.level (slot_at.first + k * pages_of slot_at.level)) excerpt.now.range)
        → IsLeafOf excerpt.now.mappings.now excerpt.now.range slot_at.level (slot_at.first + k * pages_of slot_at.level)
        (slice_index_or slots.old k Empty) (slice_index_or slots.new k Empty) }
    ensures outside { (k : ℕ) → k < slots_per_table
        → meets (slot_pages slot_at.level (slot_at.first + k * pages_of slot_at.level)) excerpt.now.range ≡ false
        → slice_index_or slots.new k Empty ≡ slice_index_or slots.old k Empty }
{
    let (low, high) = slots_met(slot_at.level, slot_at.first, excerpt.range);
    if holds_table(slots, low, high) {
        return false;
    }
    if !are_whole(slot_at, excerpt, low, high) {
        return false;
    }
    put_leaves(slots, slot_at, excerpt, low..high);
    true
}

/// Whether one of the slots from `low` up to `high` is a table.
fn holds_table(slots: &[Slot; SLOTS], low: usize, high: usize) -> bool
    requires ordered { low ≤ high }
    requires within { high ≤ slots_per_table }
    ensures { result ≡ false → (k : ℕ) → low ≤ k → k < high → is_table (slice_index_or slots.now k Empty) ≡ false }
{
    for index in low..high {
        if slots[index].is_table() {
            return true;
        }
    }
    false
}

/// Whether each of the slots from `low` up to `high` lies whole in the range, and is to be no table.
fn are_whole(slot_at: SlotPosition, excerpt: &Excerpt<'_, '_>, low: usize, high: usize) -> bool
    requires known { slot_at.level ≤ root_level }
    requires in_space { slot_at.first + slots_per_table * pages_of slot_at.level ≤ PAGES }
    requires laid_out { IsLaidOut excerpt.now.mappings.now }
    requires position { AreEnded excerpt.now.mappings.now excerpt.now.range.first excerpt.now.position }
    requires within { high ≤ slots_per_table }
    ensures { IsTrue result
        → AreWhole excerpt.now.mappings.now excerpt.now.range slot_at.level slot_at.first low high }
{
    let SlotPosition { level, first } = slot_at;
    let Excerpt {
        mappings,
        range,
        mut position,
    } = *excerpt;
    let pages = pages_of(level);
    let mut index = low;
    while index < high {
        let start = first + index as u64 * pages;
        position = advance(mappings, position, start.max(range.first()));
        let part = SlotPosition {
            level,
            first: start,
        };
        let excerpt = Excerpt {
            mappings,
            range,
            position,
        };
        let Alike { count, .. } = alike_from(&excerpt, part);
        if count == 0 {
            return false;
        }
        index += count.min((high - index) as u64) as usize;
    }
    true
}

/// Gives the slots of a run what the pieces say of them.
fn put_leaves(
    slots: &mut [Slot; SLOTS],
    slot_at: SlotPosition,
    excerpt: &Excerpt<'_, '_>,
    run: Range<usize>,
)
    requires known { slot_at.level ≤ root_level }
    requires in_space { slot_at.first + slots_per_table * pages_of slot_at.level ≤ PAGES }
    requires laid_out { IsLaidOut excerpt.now.mappings.now }
    requires encoded { AreEncodable excerpt.now.mappings.now }
    requires position { AreEnded excerpt.now.mappings.now excerpt.now.range.first excerpt.now.position }
    requires ordered { run.start ≤ run.end }
    requires within { run.end ≤ slots_per_table }
    requires whole { AreWhole excerpt.now.mappings.now excerpt.now.range slot_at.level slot_at.first run.start run.end }
    ensures painted { (k : ℕ) → run.start ≤ k → k < run.end → IsTreeOf excerpt.now.mappings.now slot_at.level
        (slot_at.first + k * pages_of slot_at.level) (slice_index_or slots.new k Empty) }
    ensures before { (k : ℕ) → k < run.start
        → slice_index_or slots.new k Empty ≡ slice_index_or slots.old k Empty }
    ensures behind { (k : ℕ) → run.end ≤ k
        → slice_index_or slots.new k Empty ≡ slice_index_or slots.old k Empty }
{
    let SlotPosition { level, first } = slot_at;
    let Excerpt {
        mappings,
        range,
        mut position,
    } = *excerpt;
    let Range {
        start: low,
        end: high,
    } = run;
    let pages = pages_of(level);
    let mut index = low;
    while index < high {
        let start = first + index as u64 * pages;
        position = advance(mappings, position, start.max(range.first()));
        let part = SlotPosition {
            level,
            first: start,
        };
        let excerpt = Excerpt {
            mappings,
            range,
            position,
        };
        let Alike { count, held } = alike_from(&excerpt, part);
        let alike = count.min((high - index) as u64) as usize;
        fill_leaves(slots, slot_at, index..index + alike, held.as_ref());
        index += alike;
    }
}

/// Gives the slots of a run what the mapping says that holds each of them whole, or empties them where there is none.
fn fill_leaves(
    slots: &mut [Slot; SLOTS],
    slot_at: SlotPosition,
    run: Range<usize>,
    held: Option<&Mapping>,
)
    requires known { slot_at.level ≤ root_level }
    requires in_space { slot_at.first + slots_per_table * pages_of slot_at.level ≤ PAGES }
    requires ordered { run.start ≤ run.end }
    requires within { run.end ≤ slots_per_table }
    requires mapping { IfSome held (λ m. IsMapping m.now) }
    requires covered { (k : ℕ) → run.start ≤ k → k < run.end
        → IfSome held (λ m. IsTrue (covers m.now.range (slot_at.first + k * pages_of slot_at.level))) }
    requires encoded { (k : ℕ) → run.start ≤ k → k < run.end
        → IfSome held (λ m. IsEncodable (part m.now (slot_at.first + k * pages_of slot_at.level)).backing 1) }
    ensures filled { (k : ℕ) → run.start ≤ k → k < run.end → MatchOption held.entry
        (slice_index_or slots.new k Empty ≡ Empty)
        (λ m. slice_index_or slots.new k Empty ≡ leaf (part m.now (slot_at.first + k * pages_of slot_at.level))) }
    ensures before { (k : ℕ) → k < run.start
        → slice_index_or slots.new k Empty ≡ slice_index_or slots.old k Empty }
    ensures behind { (k : ℕ) → run.end ≤ k
        → slice_index_or slots.new k Empty ≡ slice_index_or slots.old k Empty }
{
    let SlotPosition { level, first } = slot_at;
    let Range {
        start: low,
        end: high,
    } = run;
    let pages = pages_of(level);
    for index in low..high {
        let new = leaf_of(held, first + index as u64 * pages);
        overwrite(&mut slots[index], new);
    }
}

/// The leaf of a mapping's part that begins at a page, or an empty slot.
#[inline(always)]
fn leaf_of(held: Option<&Mapping>, page: u64) -> Slot
    requires mapping { IfSome held (λ m. IsMapping m.now) }
    requires covered { IfSome held (λ m. IsTrue (covers m.now.range page)) }
    requires encoded { IfSome held (λ m. IsEncodable (part m.now page).backing 1) }
    ensures { MatchOption held.entry (result ≡ Empty) (λ m. result ≡ leaf (part m.now page)) }
{
    match held {
        Some(m) => Slot::leaf(m.part(page)),
        None => Slot::Empty,
    }
}
