//! Old items settled: what they keep is given up, and they go.
ghost use Rattle.std.specs.Prelude.{◌≡◌, ◌++◌, List, reverse, None};
ghost use Rattle.std.specs.List.{All};
ghost use Rattle.gv_types.specs.declared.mapping.Mapping.{Mapping};
ghost use Rattle.gv_space.specs.State.{AreKept};
ghost use Rattle.gv_space.specs.Undo.{AreAmongKept, released};
ghost use Rattle.gv_journal.specs.History.{kept_by};
ghost use Rattle.gv_journal.specs.Notes.{crossed, lesser, crossing_from};
ghost use Rattle.gv_journal.specs.ItemStore.{IsSpent};

use crate::item::{Item, ItemKind};
use crate::note::Note;
use crate::undoing::release_all;
use gv_space::Space;
use std::alloc::Global;

/// The number of the withdrawal of an item, where it is this one or above.
fn crossed(note: &Note, to: u64) -> Option<u64>
    ensures { result ≡ crossed to note.now }
{
    match note.withdrawal() {
        Some(by) if by >= to => Some(by),
        _ => None,
    }
}

/// The lesser of two numbers that there may be.
fn lesser(least: Option<u64>, other: Option<u64>) -> Option<u64>
    ensures { result ≡ lesser least other }
{
    match (least, other) {
        (Some(least), Some(other)) => Some(least.min(other)),
        (Some(least), None) => Some(least),
        (None, other) => other,
    }
}

/// The least number, from this one on, of a withdrawal of one of the items.
pub fn first_crossing(notes: &[Note], to: u64) -> Option<u64>
    ensures { result ≡ crossing_from to None notes.now }
{
    let mut least = None;
    for note in notes {
        least = lesser(least, crossed(note, to));
    }
    least
}

/// What stands in the slot of a settled item. It takes no memory.
fn blank(alloc: Global) -> Item
    ensures { IsSpent result }
{
    Item {
        kind: ItemKind::Withdrawal { of: 0 },
        undos: Vec::new(alloc),
    }
}

/// Gives up what items keep, and leaves them spent. It takes no memory.
pub fn release_items(space: &mut Space, items: &mut [Item])
    requires { AreAmongKept space.old (kept_by (reverse items.old)) }
    ensures state { space.new ≡ released space.old (kept_by (reverse items.old)) }
    ensures kept { (others : List Mapping)
        → AreKept space.old (kept_by (reverse items.old) ++ others) → AreKept space.new others }
    ensures spent { All IsSpent items.new }
{
    let mut remaining = items.len();
    while remaining > 0 {
        remaining -= 1;
        let item = &mut items[remaining];
        let alloc = *item.undos.allocator();
        let Item { kind: _, undos } = std::mem::replace(item, blank(alloc));
        release_all(space, undos);
    }
}
