//! What the accesses of a job reach, held for it.
ghost use Rattle.std.specs.Prelude.{◌≡◌, ◌⊎◌, IfOk, IsOk, IsOkUnless, OnOk, OnErr, IfErr};
ghost use Rattle.std.specs.Prelude.{MatchOption, List, Some, None, map};
ghost use Rattle.gv_types.specs.declared.mapping.Mapping.{Mapping};
ghost use Rattle.gv_buffers.specs.Buffers.{left_everywhere};
ghost use Rattle.gv_space.specs.State.{AreKept};
ghost use Rattle.gv_vm.specs.Places.{place_at};
ghost use Rattle.gv_vm.specs.Jobs.{access_fault, with_access_held, target_fault, with_target_held};
ghost use Rattle.gv_vm.specs.Jobs.{accesses_fault, with_all_held, AreRefused};

use crate::jobs::Access;
use crate::places::{Place, Target, translate};
use gv_buffers::{Usage, laws};
use gv_space::Space;
use gv_types::Fault;
use std::alloc::Global;

/// Finds the place of one access, the one with this number counted from 0, and makes the job hold the buffer there.
/// `Unmapped`, then `WriteToReadOnly`, then `Conflict` with the least other job that uses the buffer if one of the two
/// writes it, then `OutOfMemory`.
fn hold(
    alloc: Global,
    space: &mut Space,
    job: u64,
    number: u64,
    access: &Access,
) -> Result<Place, Fault>
    ensures fault { MatchOption (access_fault space.old.mappings job space.old.buffers number access.now)
        (IsOkUnless result Fault.OutOfMemory) (λ fault. result ≡ Err fault) }
    ensures place { IfOk result (λ place. place_at space.old.mappings access.now.addr ≡ Some place) }
    ensures ok { OnOk result (space.new
        ≡ record space.old { buffers = with_access_held space.old.mappings job access.now space.old.buffers }) }
    ensures err { OnErr result (space.new ≡ space.old) }
    ensures left { left_everywhere job space.new.buffers ≡ left_everywhere job space.old.buffers }
    ensures kept { (ms : List Mapping) → AreKept space.old ms → AreKept space.new ms }
{
    let Some(place) = translate(space, access.addr) else {
        return Err(Fault::Unmapped { access: number });
    };
    if access.usage == Usage::Write && place.flags.read_only {
        return Err(Fault::WriteToReadOnly { access: number });
    }
    hold_target(alloc, space, job, access.usage, place.target)?;
    Ok(place)
}

/// Makes the job hold what a place reaches: a buffer, or a zero, which needs no reservation.
fn hold_target(
    alloc: Global,
    space: &mut Space,
    job: u64,
    usage: Usage,
    target: Target,
) -> Result<(), Fault>
    ensures fault { MatchOption (target_fault space.old.buffers job usage target)
        (IsOkUnless result Fault.OutOfMemory) (λ fault. result ≡ Err fault) }
    ensures ok { OnOk result (space.new
        ≡ record space.old { buffers = with_target_held job usage target space.old.buffers }) }
    ensures err { OnErr result (space.new ≡ space.old) }
    ensures left { left_everywhere job space.new.buffers ≡ left_everywhere job space.old.buffers }
    ensures kept { (ms : List Mapping) → AreKept space.old ms → AreKept space.new ms }
{
    laws::leaving();
    match target {
        Target::Buffer { id, .. } => space.join(alloc, id, job, usage),
        Target::Zero => Ok(()),
    }
}

/// Finds the places of all accesses of a job in turn, and makes it hold what they reach. After a refusal it may hold some
/// of that.
pub fn hold_all(
    alloc: Global,
    space: &mut Space,
    job: u64,
    accesses: &[Access],
) -> Result<Vec<Place>, Fault>
    ensures none { OnOk result
        (accesses_fault space.old.mappings job space.old.buffers 0 accesses.now ≡ None) }
    ensures places { IfOk result (λ places. map Some places.items
        ≡ map (λ access. place_at space.old.mappings access.addr) accesses.now) }
    ensures ok { OnOk result (space.new
        ≡ record space.old { buffers = with_all_held space.old.mappings job accesses.now space.old.buffers }) }
    ensures refused { IfErr result
        (AreRefused space.old.mappings job space.old.buffers accesses.now) }
    ensures rest { space.new ≡ record space.old { buffers = space.new.buffers } }
    ensures left { left_everywhere job space.new.buffers ≡ left_everywhere job space.old.buffers }
    ensures kept { (ms : List Mapping) → AreKept space.old ms → AreKept space.new ms }
{
    // The borrow checker proves the loop only where the function names the type inside the places.
    let _target = Target::Zero;
    let mut places = Vec::new(alloc);
    for (number, access) in accesses.iter().enumerate() {
        let place = match hold(alloc, space, job, number as u64, access) {
            Ok(place) => place,
            Err(fault) => return Err(fault),
        };
        if places.reserve(1).is_err() {
            return Err(Fault::OutOfMemory);
        }
        places.push_reserved(place);
    }
    Ok(places)
}
