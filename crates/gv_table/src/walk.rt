//! What a page of a tree holds.
ghost use Rattle.std.specs.Prelude.{◌≡◌, ◌≤◌, ◌<◌, ◌+◌, ℕ, false, List, slice_index_or};
ghost use Rattle.gv_types.specs.Page.{PAGES};
ghost use Rattle.gv_types.specs.declared.mapping.Mapping.{Mapping};
ghost use Rattle.gv_ranges.specs.List.{at, IsLaidOut};
ghost use Rattle.gv_table.specs.Levels.{top_level, slots_per_table, pages_of};
ghost use Rattle.gv_table.specs.Named.{named};
ghost use Rattle.gv_table.specs.Tree.{IsTreeOf, is_table, no_page, slot_of};

use crate::levels::{SLOTS, TOP_LEVEL, pages_of, slots_in};
use crate::names::named;
use crate::page_slot::{PageSlot, page_entry};
use crate::slot::Slot;
use gv_types::{BufferId, Entry};

/// What the page of a slot holds that lies `distance` pages past its first, where the slot is no table.
fn held_by(slot: &Slot, names: &[BufferId], distance: u64) -> Option<Entry>
    ensures { (ms : List Mapping) (level first : ℕ) → IsLaidOut ms → IsTreeOf ms level first (named names.now slot.now)
        → is_table slot.now ≡ false → distance < pages_of level → result ≡ at ms (first + distance) }
{
    let entry = slot.entry()?;
    Some(named(names, &entry).advanced(distance))
}

/// The same of a slot in a table of pages.
fn held_at(
    slots: &[PageSlot; SLOTS],
    index: usize,
    names: &[BufferId],
    distance: u64,
) -> Option<Entry>
    requires { index < slots_per_table }
    ensures { (ms : List Mapping) (level first : ℕ) → IsLaidOut ms
        → IsTreeOf ms level first (named names.now (slot_of (slice_index_or slots.now index no_page)))
        → distance < pages_of level → result ≡ at ms (first + distance) }
{
    let entry = page_entry(slots[index])?;
    Some(named(names, &entry).advanced(distance))
}

/// What a page of a tree holds: one step a level.
pub fn walk_tree(root: &Slot, names: &[BufferId], page: u64) -> Option<Entry>
    requires { page < PAGES }
    ensures { (ms : List Mapping) → IsLaidOut ms → IsTreeOf ms top_level 0 (named names.now root.now)
        → result ≡ at ms page }
{
    let mut slot = root;
    let mut level = TOP_LEVEL;
    let mut distance = page;
    while level > 0 {
        match slot {
            Slot::Table(slots) => {
                level -= 1;
                let index = slots_in(level, distance);
                distance -= index * pages_of(level);
                slot = &slots[index as usize];
            }
            Slot::Pages(table) => {
                level -= 1;
                let index = slots_in(level, distance);
                distance -= index * pages_of(level);
                return held_at(&table.0, index as usize, names, distance);
            }
            Slot::Empty | Slot::Zero { .. } | Slot::Buffer { .. } => break,
        }
    }
    held_by(slot, names, distance)
}
