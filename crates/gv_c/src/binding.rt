//! The C calls that put requests on queues and serve them: `vmbind_bind`, `_submit`, `_serve`.
ghost use Rattle.std.specs.Prelude.{◌≡◌, Result};
ghost use Rattle.gv_types.specs.declared.fault.OutOfMemory.{OutOfMemory as Want};
ghost use Rattle.gv_vm.specs.QueueTurns.{IsTurn};
ghost use Rattle.gv_vm.specs.World.{next_number};
ghost use Rattle.gv_vm.specs.declared.world.turn.TurnResult.{TurnResult as Came};
ghost use Rattle.gv_c.specs.Binding.{IsBound, IsSubmitted, IsServed, IsPutOf, IsServedAfter};
ghost use Rattle.gv_c.specs.Calls.{turned};
ghost use Rattle.gv_c.specs.Statuses.{turn_status};

use crate::handle::Handle;
use crate::outcome::RequestOutcome;
use crate::request::put;
use crate::status::{BAD_ARGUMENT, NO_VM, OK, of_turn};
use crate::values::BindRequest;
use gv_vm::World;
use std::alloc::Global;

/// The flag of a serve that gives up.
const GIVE_UP: u32 = 1;

/// A status, and what became of the request.
#[derive(Clone, Copy)]
struct Served {
    status: u32,
    outcome: RequestOutcome,
}

/// Puts a request on its queue and serves the queue up to it.
#[unsafe(no_mangle)]
pub extern "C" fn vmbind_bind(
    alloc: Global,
    vm: &mut Handle,
    request: &BindRequest<'_>,
    outcome: &mut RequestOutcome,
) -> u32
    ensures { IsBound request.now vm.old.value result outcome.new vm.new.value }
{
    let Some(mut held) = vm.take(alloc) else {
        *outcome = RequestOutcome::none();
        return NO_VM;
    };
    let put = put(alloc, &mut held.world, request);
    let served = serve_up_to(alloc, &mut held.world, request.queue, put);
    vm.put(held);
    *outcome = served.outcome;
    served.status
}

/// Serves a queue up to a request that was put.
fn serve_up_to(alloc: Global, world: &mut World, queue: u64, put: Result<u64, u32>) -> Served
    ensures { IsServedAfter queue put world.old result.status result.outcome world.new }
{
    match put {
        Ok(number) => {
            let turn = world.serve_up_to(alloc, queue, number);
            Served {
                status: of_turn(&turn),
                outcome: RequestOutcome::of_turn(number, &turn),
            }
        }
        Err(status) => Served {
            status,
            outcome: RequestOutcome::none(),
        },
    }
}

/// Puts a request on its queue, and writes its number there.
#[unsafe(no_mangle)]
pub extern "C" fn vmbind_submit(
    alloc: Global,
    vm: &mut Handle,
    request: &BindRequest<'_>,
    number: &mut u64,
) -> u32
    ensures { IsSubmitted request.now vm.old.value result number.new vm.new.value }
{
    *number = 0;
    let Some(mut held) = vm.take(alloc) else {
        return NO_VM;
    };
    let put = put(alloc, &mut held.world, request);
    vm.put(held);
    match put {
        Ok(put) => {
            *number = put;
            OK
        }
        Err(status) => status,
    }
}

/// Serves the request in hand of a queue, or else the first that waits. With flag 1 it is given up if a point is not reached.
#[unsafe(no_mangle)]
pub extern "C" fn vmbind_serve(
    alloc: Global,
    vm: &mut Handle,
    queue: u64,
    flags: u32,
    outcome: &mut RequestOutcome,
) -> u32
    ensures { IsServed queue flags vm.old.value result outcome.new vm.new.value }
{
    *outcome = RequestOutcome::none();
    let Some(mut held) = vm.take(alloc) else {
        return NO_VM;
    };
    if queue >= held.world.queues() || flags > GIVE_UP {
        vm.put(held);
        return BAD_ARGUMENT;
    }
    let number = held.world.next_number(queue);
    let turn = held.world.turn(alloc, queue, flags == GIVE_UP);
    vm.put(held);
    *outcome = RequestOutcome::of_turn(number, &turn);
    of_turn(&turn)
}
