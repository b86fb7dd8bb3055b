//! For a withdrawal: what undo values saved is put back, that of the last one first.
ghost use Rattle.std.specs.Prelude.{◌≡◌, ◌⊎◌, reverse, IfOk, IfErr, OnOk, OnErr, Some, None};
ghost use Rattle.gv_space.specs.State.{IsUnchanged};
ghost use Rattle.gv_space.specs.Undo.{AreAmongKept};
ghost use Rattle.gv_journal.specs.Undoing.{taken_by};
ghost use Rattle.gv_journal.specs.Restoring.{put_limits, AreUndosOfPuts, ArePutBack, GrowsForPuts};

use crate::undoing::revert_all;
use gv_space::{OpUndo, Space};
use gv_types::Fault;
use std::alloc::Global;

/// Puts back all that undo values saved, or changes nothing.
pub fn restore_all(alloc: Global, space: &mut Space, saved: &[OpUndo]) -> Result<Vec<OpUndo>, Fault>
    requires { AreAmongKept space.old (taken_by (reverse saved.now)) }
    ensures accepted { OnOk result (put_limits (reverse saved.now) space.old ≡ None) }
    ensures refused { IfErr result (λ fault.
        (put_limits (reverse saved.now) space.old ≡ Some fault) ⊎ (fault ≡ Fault.OutOfMemory)) }
    ensures restored { IfOk result (λ fresh. ArePutBack space.old space.new (reverse saved.now) (reverse fresh.items)) }
    ensures undos { IfOk result (λ fresh. AreUndosOfPuts space.old.mappings (reverse saved.now) fresh.items) }
    ensures unchanged { OnErr result (IsUnchanged space.old space.new) }
    ensures grown { GrowsForPuts (reverse saved.now) space.old space.new }
{
    let mut fresh = match Vec::with_capacity(alloc, saved.len()) {
        Ok(fresh) => fresh,
        Err(_) => return Err(Fault::OutOfMemory),
    };
    let mut remaining = saved.len();
    while remaining > 0 {
        remaining -= 1;
        let undo = &saved[remaining];
        match space.restore(alloc, undo.range(), undo) {
            Ok(undo) => fresh.push_reserved(undo),
            Err(fault) => {
                revert_all(space, fresh);
                return Err(fault);
            }
        }
    }
    Ok(fresh)
}
