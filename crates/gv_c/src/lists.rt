//! Calls that write lists, and change nothing.
ghost use Rattle.std.specs.Prelude.{◌≡◌, ◌+◌, ◌-◌, ◌<◌, ◌≤◌, map, max, min, length};
ghost use Rattle.gv_space.specs.Refusal.{operation_fault};
ghost use Rattle.gv_vm.specs.Outcomes.{queues, lifetime_told, told_to};
ghost use Rattle.gv_vm.specs.State.{forgotten_of};
ghost use Rattle.gv_c.specs.Lists.{IsTold, AreListed, IsPlanned, ArePlanned, IsWritten, numbered, written_over};
ghost use Rattle.gv_c.specs.Values.{c_mapping, c_step};

use crate::handle::Handle;
use crate::outcome::RequestOutcome;
use crate::space_values::{ListedMapping, SplitStep};
use crate::status::{BAD_ARGUMENT, NO_VM, OK, of};
use crate::values::Operation;
use gv_ranges::{RangeList, Run};
use gv_split::Step;
use gv_types::Op;
use gv_vm::{Outcome, QUEUES, Vm};
use std::alloc::Global;

/// Lists the outcomes of a queue's requests, from the one with the number `from` on, as room allows.
#[unsafe(no_mangle)]
pub extern "C" fn vmbind_told(
    alloc: Global,
    vm: &mut Handle,
    queue: u64,
    from: u64,
    list: &mut [RequestOutcome],
    count: &mut u64,
    total: &mut u64,
) -> u32
    ensures told { IsTold vm.old.value queue from list.old result list.new count.new total.new }
    ensures same { vm.new.value ≡ vm.old.value }
{
    *count = 0;
    *total = 0;
    let Some(held) = vm.take(alloc) else {
        return NO_VM;
    };
    let status = if queue < held.world.queues() && queue < QUEUES as u64 {
        let vm = held.world.vm();
        *total = vm.told_next(queue);
        *count = write_told(list, vm, queue, from);
        OK
    } else {
        BAD_ARGUMENT
    };
    vm.put(held);
    status
}

/// Lists the mappings from the one with the number `from` on, as room allows.
#[unsafe(no_mangle)]
pub extern "C" fn vmbind_mappings(
    alloc: Global,
    vm: &mut Handle,
    from: u64,
    list: &mut [ListedMapping],
    count: &mut u64,
    total: &mut u64,
) -> u32
    ensures listed { AreListed vm.old.value from list.old result list.new count.new total.new }
    ensures same { vm.new.value ≡ vm.old.value }
{
    *count = 0;
    *total = 0;
    let Some(held) = vm.take(alloc) else {
        return NO_VM;
    };
    let mappings = held.world.vm().space().list();
    *count = write_mappings(list, mappings, from);
    *total = mappings.len() as u64;
    vm.put(held);
    OK
}

/// Lists the split steps of an operation, as room allows. Nothing changes.
#[unsafe(no_mangle)]
pub extern "C" fn vmbind_plan(
    alloc: Global,
    vm: &mut Handle,
    op: &Operation,
    list: &mut [SplitStep],
    count: &mut u64,
    total: &mut u64,
) -> u32
    ensures planned { IsPlanned vm.old.value op.now list.old result list.new count.new total.new }
    ensures same { vm.new.value ≡ vm.old.value }
{
    *count = 0;
    *total = 0;
    let Some(held) = vm.take(alloc) else {
        return NO_VM;
    };
    let Some(op) = op.op() else {
        vm.put(held);
        return BAD_ARGUMENT;
    };
    let listing = write_plan(alloc, held.world.vm(), &op, list);
    vm.put(held);
    *count = listing.count;
    *total = listing.total;
    listing.status
}

/// A status, how many were written, and how many there are.
#[derive(Clone, Copy)]
pub struct Listing {
    pub status: u32,
    pub count: u64,
    pub total: u64,
}

fn write_plan(alloc: Global, vm: &Vm, op: &Op, list: &mut [SplitStep]) -> Listing
    ensures { ArePlanned vm.now.space op.now (operation_fault vm.now.space op.now) list.old result.status list.new result.count result.total }
{
    match vm.plan(alloc, op) {
        Ok(steps) => {
            let all = steps.as_slice();
            Listing {
                status: OK,
                count: write_steps(list, all),
                total: all.len() as u64,
            }
        }
        Err(fault) => Listing {
            status: of(fault),
            count: 0,
            total: 0,
        },
    }
}

/// How many of the `all` items are written: those from number `from` on, as room allows.
pub fn fitting(room: usize, all: usize, from: u64) -> usize
    ensures { result ≡ min room (all - from) }
{
    if from >= all as u64 {
        return 0;
    }
    room.min(all - from as usize)
}

/// Writes the outcomes of a queue that are not forgotten, from a number on.
fn write_told(list: &mut [RequestOutcome], vm: &Vm, queue: u64, from: u64) -> u64
    requires { queue < queues }
    ensures { IsWritten (numbered 0 (told_to vm.now.told queue)) (max (forgotten_of vm.now queue) from) list.old list.new result
        (length (told_to vm.now.told queue)) }
{
    // For the prover: that the numbers of all outcomes fit.
    let _next = vm.told_next(queue);
    let first = vm.told_from(queue);
    write_outcomes(list, first, vm.told(queue), from.saturating_sub(first))
}

/// Writes outcomes, of which the first has this number, from the one at the place `from` on.
fn write_outcomes(list: &mut [RequestOutcome], first: u64, told: &[Outcome], from: u64) -> u64
    requires { first + length told.now ≤ lifetime_told }
    ensures { IsWritten (numbered first told.now) from list.old list.new result (length told.now) }
{
    let count = fitting(list.len(), told.len(), from);
    for k in 0..count {
        list[k] = RequestOutcome::of(first + (from + k as u64), told[from as usize + k]);
    }
    count as u64
}

fn write_mappings(list: &mut [ListedMapping], mappings: &RangeList, from: u64) -> u64
    ensures { IsWritten (map c_mapping mappings.now.mappings) from list.old list.new result (length mappings.now.mappings) }
{
    let count = fitting(list.len(), mappings.len(), from);
    if count == 0 {
        return 0;
    }
    write_run(list, mappings.run(from as usize, count));
    count as u64
}

/// Writes the mappings of a run, one after another, for which there is room.
fn write_run(list: &mut [ListedMapping], run: Run<'_>)
    requires { length run ≤ length list.old }
    ensures { list.new ≡ written_over list.old (map c_mapping run.entry) }
{
    let mut k = 0;
    for mapping in run {
        list[k] = ListedMapping::of(&mapping.mapping());
        k += 1;
    }
}

fn write_steps(list: &mut [SplitStep], steps: &[Step]) -> u64
    ensures { IsWritten (map c_step steps.now) 0 list.old list.new result (length steps.now) }
{
    let count = fitting(list.len(), steps.len(), 0);
    for k in 0..count {
        list[k] = SplitStep::of(&steps[k]);
    }
    count as u64
}
