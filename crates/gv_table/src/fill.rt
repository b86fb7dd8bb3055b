//! A run of slots of single pages, emptied or made leaves.
ghost use Rattle.std.specs.Prelude.{◌≡◌, ◌+◌, ◌-◌, ◌<◌, ◌≤◌, ℕ, slice_index_or};
ghost use Rattle.gv_types.specs.Mapping.{entry_advanced, HasSmallPages};
ghost use Rattle.gv_table.specs.Levels.{slots_per_table};
ghost use Rattle.gv_table.specs.BufferNames.{IsEncodable};
ghost use Rattle.gv_table.specs.Tree.{leaf, slot_of, no_page};

use crate::levels::SLOTS;
use crate::page_slot::{NO_PAGE, PageSlot, page_leaf};
use gv_types::Entry;

/// Empties the slots from `low` up to, and without, `high`.
pub fn empty(slots: &mut [PageSlot; SLOTS], low: usize, high: usize)
    requires ordered { low ≤ high }
    requires within { high ≤ slots_per_table }
    ensures emptied { (k : ℕ) → low ≤ k → k < high → slice_index_or slots.new k no_page ≡ no_page }
    ensures before { (k : ℕ) → k < low
        → slice_index_or slots.new k no_page ≡ slice_index_or slots.old k no_page }
    ensures behind { (k : ℕ) → high ≤ k
        → slice_index_or slots.new k no_page ≡ slice_index_or slots.old k no_page }
{
    for index in low..high {
        slots[index] = NO_PAGE;
    }
}

/// Makes the slots from `low` up to, and without, `high` leaves of one page each: the entry's, and those behind it.
pub fn fill(slots: &mut [PageSlot; SLOTS], low: usize, high: usize, entry: &Entry)
    requires ordered { low ≤ high }
    requires within { high ≤ slots_per_table }
    ensures filled { HasSmallPages entry.now.backing (high - low) → IsEncodable entry.now.backing (high - low) → (k : ℕ) → low ≤ k → k < high
        → slot_of (slice_index_or slots.new k no_page) ≡ leaf (entry_advanced entry.now (k - low)) }
    ensures before { (k : ℕ) → k < low
        → slice_index_or slots.new k no_page ≡ slice_index_or slots.old k no_page }
    ensures behind { (k : ℕ) → high ≤ k
        → slice_index_or slots.new k no_page ≡ slice_index_or slots.old k no_page }
{
    for index in low..high {
        slots[index] = page_leaf(entry.advanced((index - low) as u64));
    }
}
