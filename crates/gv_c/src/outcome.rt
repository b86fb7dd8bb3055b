//! What became of a request, as it crosses to C.
ghost use Rattle.std.specs.Prelude.{◌≡◌};
ghost use Rattle.gv_c.specs.Values.{c_outcome, no_outcome, pending};
ghost use Rattle.gv_c.specs.Calls.{turned};

use crate::values::SyncPoint;
use gv_types::OutOfMemory;
use gv_vm::{Outcome, TurnResult};

/// Kinds of what became of a request: there is no outcome, it is one of three, or the request stays on its queue.
pub const NOT_PUT: u32 = 0;

pub const ACCEPTED: u32 = 1;

pub const REFUSED: u32 = 2;

pub const GIVEN_UP: u32 = 3;

pub const PENDING: u32 = 4;

/// What became of a request: its number on its queue, and its outcome.
#[repr(C)]
#[derive(Clone, Copy)]
pub struct RequestOutcome {
    pub kind: u32,
    pub fault: u32,
    pub number: u64,
    pub entry: u64,
    pub op: u64,
    pub carried: u64,
    pub point: SyncPoint,
    pub have: u64,
}

impl RequestOutcome {
    /// There is no outcome.
    pub fn none() -> RequestOutcome
        ensures { result ≡ no_outcome }
    {
        RequestOutcome {
            kind: NOT_PUT,
            fault: 0,
            number: 0,
            entry: 0,
            op: 0,
            carried: 0,
            point: SyncPoint::none(),
            have: 0,
        }
    }

    /// A request stays on its queue.
    fn pending(number: u64) -> RequestOutcome
        ensures { result ≡ pending number }
    {
        RequestOutcome {
            kind: PENDING,
            number,
            ..RequestOutcome::none()
        }
    }

    /// A request with this number has this outcome.
    pub fn of(number: u64, outcome: Outcome) -> RequestOutcome
        ensures { result ≡ c_outcome number outcome }
    {
        let told = RequestOutcome {
            number,
            ..RequestOutcome::none()
        };
        match outcome {
            Outcome::Accepted { entry } => RequestOutcome {
                kind: ACCEPTED,
                entry,
                ..told
            },
            Outcome::Refused { op, fault } => RequestOutcome {
                kind: REFUSED,
                op,
                fault: u32::from(fault.number()),
                carried: fault.carried().unwrap_or(0),
                ..told
            },
            Outcome::NotReady { point, have } => RequestOutcome {
                kind: GIVEN_UP,
                point: SyncPoint::of(point),
                have,
                ..told
            },
        }
    }

    /// The result of a turn for the request with this number.
    pub fn of_turn(number: u64, turn: &Result<TurnResult, OutOfMemory>) -> RequestOutcome
        ensures { result ≡ turned number turn.now }
    {
        match turn {
            Ok(TurnResult::Told { number, outcome }) => RequestOutcome::of(*number, *outcome),
            Ok(TurnResult::Waits { point, have }) => RequestOutcome {
                point: SyncPoint::of(*point),
                have: *have,
                ..RequestOutcome::pending(number)
            },
            Ok(TurnResult::Idle) => RequestOutcome::none(),
            Err(_) => RequestOutcome::pending(number),
        }
    }
}
