//! Slots that need no table painted, with the tables that they lose.
ghost use Rattle.std.specs.Prelude.{◌≡◌, ◌≤◌, ◌<◌, ◌+◌, ◌*◌, ℕ, IsTrue, IfSome, MatchOption, slice_index_or};
ghost use Rattle.gv_types.specs.Page.{PAGES};
ghost use Rattle.gv_types.specs.PageRange.{covers};
ghost use Rattle.gv_types.specs.Mapping.{part, IsMapping};
ghost use Rattle.gv_ranges.specs.List.{IsLaidOut};
ghost use Rattle.gv_table.specs.declared.slot.Slot.TheVariants.{Empty};
ghost use Rattle.gv_table.specs.Kinds.{Kind, of};
ghost use Rattle.gv_table.specs.Levels.{top_level, root_level, slots_per_table, pages_of};
ghost use Rattle.gv_table.specs.BufferNames.{AreEncodable, IsEncodable};
ghost use Rattle.gv_table.specs.Shape.{IsShaped};
ghost use Rattle.gv_table.specs.Tree.{IsTreeOf, leaf};
ghost use Rattle.gv_table.specs.Counts.{tables_in, tables_at, row_tables_at, count_at, row_gained, row_lost, CountsRow};
ghost use Rattle.gv_table.specs.Wanted.{wanted};

use crate::levels::{SLOTS, pages_of};
use crate::release::clear;
use crate::slot::{Slot, overwrite};
use crate::slot_position::{Excerpt, SlotPosition};
use crate::spares::Spares;
use crate::table_counts::TableCounts;
use crate::wanted::Wanted;
use gv_types::{Entry, Mapping};
use std::ops::Range;

/// Makes a slot a leaf, takes its tables off the counts, and puts them to those pruned from the tree.
#[inline(always)]
pub fn make_leaf(
    slot: &mut Slot,
    level: usize,
    entry: Entry,
    pruned: &mut Spares,
    counts: &mut TableCounts,
)
    requires some { 0 < level }
    requires encoded { IsEncodable entry.backing 1 }
    requires known { level ≤ top_level }
    requires shaped { IsShaped level slot.old }
    requires counted { (target : ℕ) → tables_at target level slot.old ≤ count_at counts.old target }
    ensures leaf { slot.new ≡ leaf entry }
    ensures put { (kind : Kind) → of kind pruned.new ≡ of kind pruned.old + tables_in kind level slot.old }
    ensures counted { (target : ℕ) → count_at counts.new target + tables_at target level slot.old
        ≡ count_at counts.old target }
{
    clear(slot, level, pruned, counts);
    overwrite(slot, Slot::leaf(entry));
}

/// Makes a slot what the mapping says that holds it whole, or empties it where there is none.
#[inline(always)]
fn paint_whole(
    slot: &mut Slot,
    slot_at: SlotPosition,
    held: Option<&Mapping>,
    pruned: &mut Spares,
    counts: &mut TableCounts,
)
    requires some { 0 < slot_at.level }
    requires known { slot_at.level ≤ top_level }
    requires shaped { IsShaped slot_at.level slot.old }
    requires mapping { IfSome held (λ m. IsMapping m.now) }
    requires covered { IfSome held (λ m. IsTrue (covers m.now.range slot_at.first)) }
    requires encoded { IfSome held (λ m. IsEncodable (part m.now slot_at.first).backing 1) }
    requires counted { (target : ℕ) → tables_at target slot_at.level slot.old ≤ count_at counts.old target }
    ensures slot { MatchOption held.entry (slot.new ≡ Empty) (λ m. slot.new ≡ leaf (part m.now slot_at.first)) }
    ensures put { (kind : Kind) → of kind pruned.new ≡ of kind pruned.old + tables_in kind slot_at.level slot.old }
    ensures counted { (target : ℕ) → count_at counts.new target + tables_at target slot_at.level slot.old
        ≡ count_at counts.old target }
{
    match held {
        Some(m) => make_leaf(slot, slot_at.level, m.part(slot_at.first), pruned, counts),
        None => clear(slot, slot_at.level, pruned, counts),
    }
}

/// Makes the slots of a run what the mapping says that holds each of them whole, or empties them where no mapping meets them. The
/// slot_at is that of the row's first slot.
pub fn paint_alike(
    slots: &mut [Slot; SLOTS],
    slot_at: SlotPosition,
    run: Range<usize>,
    held: Option<&Mapping>,
    excerpt: &Excerpt<'_, '_>,
    pruned: &mut Spares,
    counts: &mut TableCounts,
)
    requires some { 0 < slot_at.level }
    requires known { slot_at.level ≤ root_level }
    requires shaped { (k : ℕ) → k < slots_per_table → IsShaped slot_at.level (slice_index_or slots.old k Empty) }
    requires in_space { slot_at.first + slots_per_table * pages_of slot_at.level ≤ PAGES }
    requires laid_out { IsLaidOut excerpt.now.mappings.now }
    requires encoded { AreEncodable excerpt.now.mappings.now }
    requires ordered { run.start ≤ run.end }
    requires within { run.end ≤ slots_per_table }
    requires wanted { (k : ℕ) → run.start ≤ k → k < run.end → MatchOption held
        (wanted excerpt.now.mappings.now slot_at.level (slot_at.first + k * pages_of slot_at.level) ≡ Wanted.Nothing)
        (λ m. wanted excerpt.now.mappings.now slot_at.level (slot_at.first + k * pages_of slot_at.level)
        ≡ Wanted.Entry (part m.now (slot_at.first + k * pages_of slot_at.level))) }
    requires mapping { IfSome held (λ m. IsMapping m.now) }
    requires covered { (k : ℕ) → run.start ≤ k → k < run.end
        → IfSome held (λ m. IsTrue (covers m.now.range (slot_at.first + k * pages_of slot_at.level))) }
    requires part { CountsRow counts.old slot_at.level slots.old }
    ensures painted { (k : ℕ) → run.start ≤ k → k < run.end → IsTreeOf excerpt.now.mappings.now slot_at.level
        (slot_at.first + k * pages_of slot_at.level) (slice_index_or slots.new k Empty) }
    ensures shaped { (k : ℕ) → k < slots_per_table → IsShaped slot_at.level (slice_index_or slots.new k Empty) }
    ensures before { (k : ℕ) → k < run.start
        → slice_index_or slots.new k Empty ≡ slice_index_or slots.old k Empty }
    ensures behind { (k : ℕ) → run.end ≤ k
        → slice_index_or slots.new k Empty ≡ slice_index_or slots.old k Empty }
    ensures gained { (kind : Kind) → row_gained kind excerpt.now.mappings.now slot_at.level slot_at.first slots.new
        ≡ row_gained kind excerpt.now.mappings.now slot_at.level slot_at.first slots.old }
    ensures put { (kind : Kind) → of kind pruned.new + row_lost kind excerpt.now.mappings.now slot_at.level slot_at.first slots.new
        ≡ of kind pruned.old + row_lost kind excerpt.now.mappings.now slot_at.level slot_at.first slots.old }
    ensures counted { (target : ℕ) → count_at counts.new target + row_tables_at target slot_at.level slots.old
        ≡ count_at counts.old target + row_tables_at target slot_at.level slots.new }
{
    let SlotPosition { level, first } = slot_at;
    let Range {
        start: low,
        end: high,
    } = run;
    let pages = pages_of(level);
    for index in low..high {
        let part = SlotPosition {
            level,
            first: first + index as u64 * pages,
        };
        paint_whole(&mut slots[index], part, held, pruned, counts);
    }
}
