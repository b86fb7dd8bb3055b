//! A slot that is to be a table, made one.
ghost use Rattle.std.specs.Prelude.{◌≡◌, ◌+◌, ◌-◌, ◌*◌, ◌<◌, ◌≤◌, ℕ, true, false, None, IfSome, slice_index_or};
ghost use Rattle.gv_types.specs.Page.{PAGES};
ghost use Rattle.gv_types.specs.Mapping.{entry_advanced, HasSmallPages};
ghost use Rattle.gv_table.specs.declared.slot.Slot.TheVariants.{Empty};
ghost use Rattle.gv_table.specs.Chain.{AreEmpty};
ghost use Rattle.gv_table.specs.PageChain.{ArePagesEmpty};
ghost use Rattle.gv_table.specs.Kinds.{Kind, of, one_of, unless};
ghost use Rattle.gv_table.specs.BufferNames.{IsEncodable};
ghost use Rattle.gv_table.specs.Levels.{top_level, slots_per_table, pages_of};
ghost use Rattle.gv_table.specs.Shape.{IsShaped};
ghost use Rattle.gv_table.specs.Tree.{is_table, child, leaf, slot_of, no_page};
ghost use Rattle.gv_table.specs.Counts.{one_if_new, IsDivided, CountsSlot, count_at};

use crate::fill::fill;
use crate::levels::{SLOTS, pages_of};
use crate::page_slot::Pages;
use crate::slot::{Slot, overwrite};
use crate::spares::Spares;
use crate::table_counts::TableCounts;
use gv_types::Entry;

/// Makes the slots the parts of a leaf, each of `pages` pages.
fn spread(slots: &mut [Slot; SLOTS], entry: &Entry, pages: u64)
    requires bound { slots_per_table * pages ≤ PAGES }
    requires some { 0 < pages }
    ensures leaves { (k : ℕ) → k < slots_per_table
        → is_table (slice_index_or slots.new k Empty) ≡ false }
    ensures entries { HasSmallPages entry.now.backing (slots_per_table * pages)
        → IsEncodable entry.now.backing (slots_per_table * pages) → (k : ℕ) → k < slots_per_table
        → slice_index_or slots.new k Empty ≡ leaf (entry_advanced entry.now (k * pages)) }
{
    for index in 0..SLOTS {
        slots[index] = Slot::leaf(entry.advanced(index as u64 * pages));
    }
}

/// An empty table, with the parts of the entry, where there is one.
fn filled(entry: Option<Entry>, pages: u64, table: Box<[Slot; SLOTS]>) -> Box<[Slot; SLOTS]>
    requires bound { slots_per_table * pages ≤ PAGES }
    requires some { 0 < pages }
    requires empty { AreEmpty table.value }
    ensures empty { entry ≡ None → AreEmpty result.value }
    ensures leaves { (k : ℕ) → k < slots_per_table
        → is_table (slice_index_or result.value k Empty) ≡ false }
    ensures entries { IfSome entry (λ e. HasSmallPages e.backing (slots_per_table * pages)
        → IsEncodable e.backing (slots_per_table * pages) → (k : ℕ) → k < slots_per_table
        → slice_index_or result.value k Empty ≡ leaf (entry_advanced e (k * pages))) }
{
    let mut slots = table;
    if let Some(entry) = entry {
        spread(&mut slots, &entry, pages);
    }
    slots
}

/// An empty table of pages, with those of the entry, where there is one.
fn filled_pages(entry: Option<Entry>, table: Box<Pages>) -> Box<Pages>
    requires empty { ArePagesEmpty table.value.0 }
    ensures empty { entry ≡ None → ArePagesEmpty result.value.0 }
    ensures entries { IfSome entry (λ e. HasSmallPages e.backing slots_per_table → IsEncodable e.backing slots_per_table → (k : ℕ) → k < slots_per_table
        → slot_of (slice_index_or result.value.0 k no_page) ≡ leaf (entry_advanced e k)) }
{
    let mut table = table;
    if let Some(entry) = entry {
        fill(&mut table.0, 0, SLOTS, &entry);
    }
    table
}

/// A spare table instead of what a slot at a level holds, with the parts of that.
fn divided(entry: Option<Entry>, level: usize, spares: &mut Spares) -> Slot
    requires some { 0 < level }
    requires known { level ≤ top_level }
    requires enough { (kind : Kind) → one_of kind (level - 1) ≤ of kind spares.old }
    ensures table { is_table result ≡ true }
    ensures shaped { IsShaped level result }
    ensures leaves { (k : ℕ) → k < slots_per_table → is_table (child result k) ≡ false }
    ensures empty { entry ≡ None → (k : ℕ) → k < slots_per_table → child result k ≡ Empty }
    ensures entries { IfSome entry (λ e. HasSmallPages e.backing (slots_per_table * pages_of (level - 1))
        → IsEncodable e.backing (slots_per_table * pages_of (level - 1)) → (k : ℕ) → k < slots_per_table → child result k ≡ leaf (entry_advanced e (k * pages_of (level - 1)))) }
    ensures taken { (kind : Kind) → of kind spares.new + one_of kind (level - 1) ≡ of kind spares.old }
{
    if level == 1 {
        Slot::Pages(filled_pages(entry, spares.take_pages()))
    } else {
        Slot::Table(filled(entry, pages_of(level - 1), spares.take_slots()))
    }
}

/// Makes a slot that is no table one: a spare table, with the parts of what the slot held, which the
/// counts then count.
#[cold]
#[inline(never)]
fn divide(slot: &mut Slot, level: usize, spares: &mut Spares, counts: &mut TableCounts)
    requires some { 0 < level }
    requires known { level ≤ top_level }
    requires other { is_table slot.old ≡ false }
    requires enough { (kind : Kind) → one_of kind (level - 1) ≤ of kind spares.old }
    requires part { CountsSlot counts.old level slot.old }
    ensures divided { IsDivided level slot.old slot.new }
    ensures shaped { IsShaped level slot.new }
    ensures taken { (kind : Kind) → of kind spares.new + one_of kind (level - 1) ≡ of kind spares.old }
    ensures counted { (target : ℕ) → count_at counts.new target
        ≡ count_at counts.old target + one_if_new target (level - 1) false }
{
    counts.raise(level - 1);
    let table = divided(slot.entry(), level, spares);
    overwrite(slot, table);
}

/// A table stays as it is, and another slot is divided.
#[inline(always)]
pub fn make_table(slot: &mut Slot, level: usize, spares: &mut Spares, counts: &mut TableCounts)
    requires some { 0 < level }
    requires known { level ≤ top_level }
    requires enough { (kind : Kind) → unless (is_table slot.old) (one_of kind (level - 1)) ≤ of kind spares.old }
    requires part { CountsSlot counts.old level slot.old }
    requires shaped { IsShaped level slot.old }
    ensures divided { IsDivided level slot.old slot.new }
    ensures shaped { IsShaped level slot.new }
    ensures taken { (kind : Kind) → of kind spares.new + unless (is_table slot.old) (one_of kind (level - 1))
        ≡ of kind spares.old }
    ensures counted { (target : ℕ) → count_at counts.new target
        ≡ count_at counts.old target + one_if_new target (level - 1) (is_table slot.old) }
{
    if !slot.is_table() {
        divide(slot, level, spares, counts);
    }
}
