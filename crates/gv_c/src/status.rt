//! What calls answer: 0, the number of a fault, or one of these.
ghost use Rattle.std.specs.Prelude.{◌≡◌};
ghost use Rattle.gv_types.specs.Fault.{number_of};
ghost use Rattle.gv_c.specs.Statuses.{status_of, outcome_status, turn_status};

use gv_types::{Fault, OutOfMemory};
use gv_vm::{Outcome, Reply, TurnResult};

/// All went well.
pub const OK: u32 = 0;

/// Out of memory: the number of that fault.
pub const OUT_OF_MEMORY: u32 = 33;

/// A bad argument: no such kind, flag, queue or timeline, or limits or bounds of no address space.
pub const BAD_ARGUMENT: u32 = 64;

/// The handle is empty.
pub const NO_VM: u32 = 65;

/// The handle has an address space already.
pub const NOT_NULL: u32 = 66;

/// There is nothing to do.
pub const IDLE: u32 = 67;

/// A point is not reached.
pub const NOT_READY: u32 = 68;

/// The number of a fault, which is never 0.
pub fn of(fault: Fault) -> u32
    ensures { result ≡ number_of fault }
{
    u32::from(fault.number())
}

/// The status of a request's outcome.
pub fn of_outcome(outcome: Outcome) -> u32
    ensures { result ≡ outcome_status outcome }
{
    match outcome {
        Outcome::Accepted { .. } => OK,
        Outcome::Refused { fault, .. } => of(fault),
        Outcome::NotReady { .. } => NOT_READY,
    }
}

/// The status of a turn of a queue.
pub fn of_turn(turn: &Result<TurnResult, OutOfMemory>) -> u32
    ensures { result ≡ turn_status turn.now }
{
    match turn {
        Ok(TurnResult::Told { outcome, .. }) => of_outcome(*outcome),
        Ok(TurnResult::Waits { .. }) => NOT_READY,
        Ok(TurnResult::Idle) => IDLE,
        Err(_) => OUT_OF_MEMORY,
    }
}

/// The status of an event's reply. The events that are asked for here are idle only if a queue or a timeline doesn't exist.
pub fn of_reply(reply: &Option<Result<Reply, OutOfMemory>>) -> u32
    ensures { result ≡ status_of reply.now }
{
    match reply {
        None => NO_VM,
        Some(Err(_)) => OUT_OF_MEMORY,
        Some(Ok(Reply::Idle)) => BAD_ARGUMENT,
        Some(Ok(Reply::NotPut { fault, .. })) => of(*fault),
        Some(Ok(Reply::Refused { fault })) => of(*fault),
        Some(Ok(_)) => OK,
    }
}
