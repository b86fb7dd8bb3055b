//! Reverts or releases a list of undo values, the last one first.
ghost use Rattle.std.specs.Prelude.{◌≡◌, ◌++◌, List, reverse};
ghost use Rattle.gv_types.specs.declared.mapping.Mapping.{Mapping};
ghost use Rattle.gv_space.specs.State.{AreKept};
ghost use Rattle.gv_space.specs.Undo.{AreAmongKept, released};
ghost use Rattle.gv_journal.specs.Undoing.{taken_by, reverted_by, AreRevertible};

use gv_space::{OpUndo, Space};

/// Takes changes back, the last one first. It takes no memory.
pub fn revert_all(space: &mut Space, mut undos: Vec<OpUndo>)
    requires revertible { AreRevertible space.old.limits.mappings space.old.room space.old.mappings (reverse undos.items) }
    requires kept { AreAmongKept space.old (taken_by (reverse undos.items)) }
    ensures state { space.new ≡ reverted_by space.old (reverse undos.items) }
    ensures kept { (others : List Mapping)
        → AreKept space.old (taken_by (reverse undos.items) ++ others) → AreKept space.new others }
{
    while let Some(undo) = undos.pop() {
        space.revert(undo);
    }
    undos.destroy_empty();
}

/// Gives up what undo values keep: the changes stay. It takes no memory.
pub fn release_all(space: &mut Space, mut undos: Vec<OpUndo>)
    requires { AreAmongKept space.old (taken_by (reverse undos.items)) }
    ensures state { space.new ≡ released space.old (taken_by (reverse undos.items)) }
    ensures kept { (others : List Mapping)
        → AreKept space.old (taken_by (reverse undos.items) ++ others) → AreKept space.new others }
{
    while let Some(undo) = undos.pop() {
        space.release(undo);
    }
    undos.destroy_empty();
}
