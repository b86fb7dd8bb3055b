//! What happens to a world, and what it answers.
ghost use Rattle.std.specs.Prelude.{◌≡◌};
ghost use Rattle.gv_vm.specs.Plans.{is_put, is_taken, is_accepted, is_raised, looked_of};

use crate::jobs::Access;
use crate::outcome::Outcome;
use crate::places::Place;
use gv_types::{BufferId, Fault, Point, Request};

/// One event: a request put on a queue, taken from it, looked at, bound or given up, a signal raised, or a call.
#[derive(Drop)]
pub enum Event {
    /// A request at the back of a queue.
    Put { queue: u64, request: Request },
    /// The request at the front of a queue is taken in hand.
    Take { queue: u64 },
    /// A look at the first wait, of the request in hand, that is not reached yet.
    Look { queue: u64 },
    /// The request in hand is carried out.
    Bind { queue: u64 },
    /// The request in hand is given up, since the wait of its last look was not reached.
    GiveUp { queue: u64 },
    /// The first signal owed is raised.
    Pay { queue: u64 },
    Raise { point: Point },
    Create { pages: u64 },
    Destroy { id: BufferId },
    Rewind,
    Withdraw { entry: u64 },
    Settle { to: u64 },
    /// The outcomes of a queue below a number are dropped.
    Forget { queue: u64, to: u64 },
    /// Memory that nothing needs is freed.
    Trim,
    JobBegin { accesses: Vec<Access> },
    JobEnd { job: u64 },
    /// What does an address, in bytes, reach?
    Translate { addr: u64 },
}

/// The answer to an event. `Idle` exactly if the event is not enabled.
#[derive(Debug, PartialEq, Drop)]
pub enum Reply {
    Idle,
    Put { number: u64 },
    NotPut { fault: Fault, request: Request },
    Taken { number: u64 },
    Reached { point: Point, seen: u64 },
    Lacking { point: Point, have: u64 },
    Told { number: u64, outcome: Outcome },
    Raised { point: Point, now: u64 },
    Created { id: BufferId },
    Destroyed,
    Rewound { item: u64 },
    /// The withdrawal itself is the item of this number.
    Withdrawn { item: u64 },
    Settled { count: u64 },
    Forgot { count: u64 },
    Trimmed,
    Begun { job: u64, places: Vec<Place> },
    Ended { job: u64 },
    Found { place: Option<Place> },
    Refused { fault: Fault },
}

/// The result of a look, or of all looks of a request.
#[derive(Clone, Copy, Debug, PartialEq, Eq)]
pub enum LookResult {
    NoneLacked,
    Lacked,
    /// The world answered otherwise: there is no more to do.
    Other,
}

impl Reply {
    /// Whether a request was put.
    pub fn is_put(&self) -> bool
        ensures { result ≡ is_put self.now }
    {
        match self {
            Reply::Put { .. } => true,
            _ => false,
        }
    }

    /// Whether a request was taken in hand.
    pub fn is_taken(&self) -> bool
        ensures { result ≡ is_taken self.now }
    {
        match self {
            Reply::Taken { .. } => true,
            _ => false,
        }
    }

    /// Whether a request was accepted.
    pub fn is_accepted(&self) -> bool
        ensures { result ≡ is_accepted self.now }
    {
        match self {
            Reply::Told {
                outcome: Outcome::Accepted { .. },
                ..
            } => true,
            _ => false,
        }
    }

    /// Whether a timeline was raised.
    pub fn is_raised(&self) -> bool
        ensures { result ≡ is_raised self.now }
    {
        match self {
            Reply::Raised { .. } => true,
            _ => false,
        }
    }

    /// The result of a look.
    pub fn looked(&self) -> LookResult
        ensures { result ≡ looked_of self.now }
    {
        match self {
            Reply::Reached { .. } => LookResult::NoneLacked,
            Reply::Lacking { .. } => LookResult::Lacked,
            _ => LookResult::Other,
        }
    }
}
