//! A request carried out on an address space and its journal.
ghost use Rattle.std.specs.Prelude.{◌≡◌, ◌≤◌, map, take, IfOk, OnOk};
ghost use Rattle.std.specs.List.{All};
ghost use Rattle.gv_journal.specs.Fits.{FitsSpace};
ghost use Rattle.gv_vm.specs.State.{roomless};
ghost use Rattle.gv_vm.specs.BindOutcome.{CameTo, seen_by};

use crate::outcome::Outcome;
use gv_journal::{Journal, ReadyRequest, Refusal};
use gv_space::Space;
use gv_sync::Reached;
use gv_types::OutOfMemory;
use std::alloc::Global;

/// The numbers that reached points had.
pub fn seen_of(alloc: Global, reached: &[Reached]) -> Result<Vec<u64>, OutOfMemory>
    ensures seen { IfOk result (λ seen. seen.items ≡ seen_by reached.now) }
    ensures reached { OnOk result (All (λ r. r.point.value ≤ r.number) reached.now) }
{
    let mut seen = Vec::with_capacity(alloc, reached.len())?;
    for point in reached {
        seen.push_reserved(point.seen());
    }
    Ok(seen)
}

/// Applies a request whole or not at all, and answers its outcome.
pub fn dispatch(
    alloc: Global,
    space: &mut Space,
    journal: &mut Journal,
    ready: ReadyRequest,
) -> Outcome
    requires { FitsSpace space.old journal.old }
    ensures came { CameTo (roomless space.old) (roomless space.new) journal.old journal.new
        ready.queue ready.number ready.request ready.seen.items result }
    ensures fits { FitsSpace space.new journal.new }
{
    match journal.bind(alloc, space, ready) {
        Ok(entry) => Outcome::Accepted { entry },
        Err(Refusal { op, fault }) => Outcome::Refused { op, fault },
    }
}
