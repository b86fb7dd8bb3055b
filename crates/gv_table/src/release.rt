//! A slot emptied: its tables go to the pruned ones, or back to the system.
ghost use Rattle.std.specs.Prelude.{◌≡◌, ◌⊎◌, ◌≤◌, ◌<◌, ◌+◌, ◌*◌, ℕ, IsTrue, false};
ghost use Rattle.gv_types.specs.Page.{PAGES};
ghost use Rattle.gv_types.specs.PageRange.{meets, end_of};
ghost use Rattle.gv_table.specs.declared.slot.Slot.TheVariants.{Empty};
ghost use Rattle.gv_table.specs.Kinds.{Kind, of};
ghost use Rattle.gv_table.specs.Levels.{top_level, slots_per_table, pages_of, slot_pages};
ghost use Rattle.gv_table.specs.Shape.{IsShaped};
ghost use Rattle.gv_table.specs.Tree.{child};
ghost use Rattle.gv_table.specs.Counts.{tables_in, tables_at, count_at};

use crate::fill::empty;
use crate::levels::{SLOTS, slots_met};
use crate::slot::{Slot, give_back, give_pages_back, overwrite};
use crate::slot_position::SlotPosition;
use crate::spares::Spares;
use crate::table_counts::TableCounts;
use gv_types::PageRange;
use std::mem;

/// Empties a slot, takes its tables off the counts, and puts them to those pruned from the tree.
#[inline(always)]
pub fn clear(slot: &mut Slot, level: usize, pruned: &mut Spares, counts: &mut TableCounts)
    requires some { 0 < level }
    requires known { level ≤ top_level }
    requires shaped { IsShaped level slot.old }
    requires counted { (target : ℕ) → tables_at target level slot.old ≤ count_at counts.old target }
    ensures emptied { slot.new ≡ Empty }
    ensures put { (kind : Kind) → of kind pruned.new ≡ of kind pruned.old + tables_in kind level slot.old }
    ensures counted { (target : ℕ) → count_at counts.new target + tables_at target level slot.old
        ≡ count_at counts.old target }
{
    if slot.is_table() {
        release(slot, level, pruned, counts);
        return;
    }
    overwrite(slot, Slot::Empty);
}

/// The same, with the slots of its table.
#[inline(never)]
fn release(slot: &mut Slot, level: usize, pruned: &mut Spares, counts: &mut TableCounts)
    requires some { 0 < level }
    requires known { level ≤ top_level }
    requires shaped { IsShaped level slot.old }
    requires counted { (target : ℕ) → tables_at target level slot.old ≤ count_at counts.old target }
    ensures emptied { slot.new ≡ Empty }
    ensures put { (kind : Kind) → of kind pruned.new ≡ of kind pruned.old + tables_in kind level slot.old }
    ensures counted { (target : ℕ) → count_at counts.new target + tables_at target level slot.old
        ≡ count_at counts.old target }
{
    if level == 1 {
        release_part(slot, 0, SLOTS, pruned, counts);
        return;
    }
    match mem::replace(slot, Slot::Empty) {
        Slot::Table(mut slots) => {
            for index in 0..SLOTS {
                release(&mut slots[index], level - 1, pruned, counts);
            }
            pruned.put_slots(slots);
            counts.lower(level - 1);
        }
        Slot::Pages(_) => unreachable!(),
        Slot::Empty | Slot::Zero { .. } | Slot::Buffer { .. } => {}
    }
}

/// The same for a slot whose table, where it is one, has slots of single pages, which hold no table: those from `low` up to,
/// and without, `high` are emptied in one pass, without a call for each of them. The others are empty. Not inlined: most paints
/// give no table up, and would keep fewer values in registers.
#[inline(never)]
fn release_part(
    slot: &mut Slot,
    low: usize,
    high: usize,
    pruned: &mut Spares,
    counts: &mut TableCounts,
)
    requires ordered { low ≤ high }
    requires within { high ≤ slots_per_table }
    requires shaped { IsShaped 1 slot.old }
    requires rest { (k : ℕ) → k < slots_per_table → (k < low) ⊎ (high ≤ k) → child slot.old k ≡ Empty }
    requires counted { (target : ℕ) → tables_at target 1 slot.old ≤ count_at counts.old target }
    ensures emptied { slot.new ≡ Empty }
    ensures put { (kind : Kind) → of kind pruned.new ≡ of kind pruned.old + tables_in kind 1 slot.old }
    ensures counted { (target : ℕ) → count_at counts.new target + tables_at target 1 slot.old
        ≡ count_at counts.old target }
{
    match mem::replace(slot, Slot::Empty) {
        Slot::Pages(mut table) => {
            empty(&mut table.0, low, high);
            pruned.put_pages(table);
            counts.lower(0);
        }
        Slot::Table(_) => unreachable!(),
        Slot::Empty | Slot::Zero { .. } | Slot::Buffer { .. } => {}
    }
}

/// Empties a slot, and gives its tables back to the system, one after another. What they hold is not emptied before.
#[inline(never)]
pub fn free_tables(slot: &mut Slot, level: usize)
    ensures { slot.new ≡ Empty }
{
    match mem::replace(slot, Slot::Empty) {
        Slot::Pages(table) => give_pages_back(table),
        Slot::Table(mut slots) => {
            if level > 0 {
                for index in 0..SLOTS {
                    free_tables(&mut slots[index], level - 1);
                }
            }
            give_back(slots);
        }
        Slot::Empty | Slot::Zero { .. } | Slot::Buffer { .. } => {}
    }
}

/// Empties a slot of which nothing is wanted. All that it holds lies in the range: of a table of pages, which is large, only the
/// slots are emptied that meet it.
#[inline(always)]
pub fn clear_unwanted(
    slot: &mut Slot,
    slot_at: SlotPosition,
    range: PageRange,
    pruned: &mut Spares,
    counts: &mut TableCounts,
)
    requires some { 0 < slot_at.level }
    requires known { slot_at.level ≤ top_level }
    requires shaped { IsShaped slot_at.level slot.old }
    requires in_space { end_of (slot_pages slot_at.level slot_at.first) ≤ PAGES }
    requires met { IsTrue (meets (slot_pages slot_at.level slot_at.first) range) }
    requires counted { (target : ℕ) → tables_at target slot_at.level slot.old ≤ count_at counts.old target }
    requires rest { slot_at.level ≡ 1 → (k : ℕ) → k < slots_per_table
        → meets (slot_pages 0 (slot_at.first + k * pages_of 0)) range ≡ false → child slot.old k ≡ Empty }
    ensures emptied { slot.new ≡ Empty }
    ensures put { (kind : Kind) → of kind pruned.new ≡ of kind pruned.old + tables_in kind slot_at.level slot.old }
    ensures counted { (target : ℕ) → count_at counts.new target + tables_at target slot_at.level slot.old
        ≡ count_at counts.old target }
{
    if slot_at.level == 1 && slot.is_table() {
        let (low, high) = slots_met(0, slot_at.first, range);
        release_part(slot, low, high, pruned, counts);
        return;
    }
    clear(slot, slot_at.level, pruned, counts);
}
