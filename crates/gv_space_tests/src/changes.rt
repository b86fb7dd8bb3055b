//! Edits of a space, looked at one by one: `keep_first` keeps the first ones and undoes the others. No undo value leaves this file.
ghost use Rattle.std.specs.Prelude.{List};
ghost use Rattle.gv_types.specs.declared.mapping.Mapping.{Mapping};
ghost use Rattle.gv_space.specs.State.{AreKept, IsUnchanged};
ghost use Rattle.gv_space.specs.Undo.{AreAmongKept};

use crate::watch::Watch;
use crate::words::{Clause, Verb};
use gv_model::Edit;
use gv_space::{OpUndo, Space};
use gv_types::{Backing, Fault, PageRange};
use std::alloc::Global;

/// Applies edits in turn, each by its two halves: the check, and the operation in pages. Then they are undone, the newest first.
fn there_and_back(
    alloc: Global,
    space: &mut Space,
    watch: &mut Watch,
    edits: &[Edit],
) -> Result<(), Fault>
    ensures { IsUnchanged space.old space.new }
{
    // The borrow checker proves this only where the function names the types inside the operation.
    let _backing = Backing::Zero;
    let Some((edit, rest)) = edits.split_first() else {
        return Ok(());
    };
    let op = space.check(edit.op())?;
    let undo = space.apply_pages(alloc, &op)?;
    watch.after_edit(alloc, space, edit, undo.range());
    let outcome = there_and_back(alloc, space, watch, rest);
    space.revert(undo);
    watch.undo_spent(alloc, space, false);
    outcome
}

/// Applies edits in turn, of which the first ones, so many, stay. The others are undone. It looks after each edit, and each time that an
/// undo value is spent, the newest first.
pub fn keep_first(
    alloc: Global,
    space: &mut Space,
    watch: &mut Watch,
    edits: &[Edit],
    staying: u64,
) -> Result<(), Fault>
    ensures { (ms : List Mapping) → AreKept space.old ms → AreKept space.new ms }
{
    if staying == 0 {
        return there_and_back(alloc, space, watch, edits);
    }
    let Some((edit, rest)) = edits.split_first() else {
        return Ok(());
    };
    let undo = space.apply(alloc, edit.op())?;
    watch.after_edit(alloc, space, edit, undo.range());
    let outcome = keep_first(alloc, space, watch, rest, staying - 1);
    space.release(undo);
    watch.undo_spent(alloc, space, true);
    outcome
}

/// Restores a range from an undo value; that is undone, or stays.
fn restore(
    alloc: Global,
    space: &mut Space,
    watch: &mut Watch,
    saved: &OpUndo,
    restored: &Clause,
) -> Result<(), Fault>
    requires { AreAmongKept space.old saved.now.change.taken }
    ensures { (ms : List Mapping) → AreKept space.old ms → AreKept space.new ms }
{
    let [first, count, ..] = restored.numbers;
    let Some(range) = PageRange::new(first, count) else {
        return Err(Fault::OutOfSpace);
    };
    let undo = space.restore(alloc, range, saved)?;
    watch.after_restore(alloc, space, range);
    let stays = matches!(restored.verb, Verb::Stays);
    if stays {
        space.release(undo);
    } else {
        space.revert(undo);
    }
    watch.undo_spent(alloc, space, stays);
    Ok(())
}

/// Restores the ranges among some clauses, in turn.
fn restore_all(
    alloc: Global,
    space: &mut Space,
    watch: &mut Watch,
    saved: &OpUndo,
    clauses: &[Clause],
) -> Result<(), Fault>
    requires { AreAmongKept space.old saved.now.change.taken }
    ensures { AreAmongKept space.new saved.now.change.taken }
{
    for clause in clauses {
        if let Verb::Range | Verb::Stays = clause.verb {
            restore(alloc, space, watch, saved, clause)?;
        }
    }
    Ok(())
}

/// Applies edits for good, and then restores ranges from the undo value of the first, each for good or not.
pub fn bring_back(
    alloc: Global,
    space: &mut Space,
    watch: &mut Watch,
    edits: &[Edit],
    clauses: &[Clause],
) -> Result<(), Fault> {
    let Some((edit, rest)) = edits.split_first() else {
        return Ok(());
    };
    let saved = space.apply(alloc, edit.op())?;
    watch.after_edit(alloc, space, edit, saved.range());
    let outcome = match keep_first(alloc, space, watch, rest, u64::MAX) {
        Ok(()) => restore_all(alloc, space, watch, &saved, clauses),
        Err(fault) => Err(fault),
    };
    space.release(saved);
    watch.undo_spent(alloc, space, true);
    outcome
}
