//! The outcomes of requests.
use gv_types::{Fault, Point, Request};

/// The outcome of a request: it is this entry of the journal; this operation was refused, and why; or it was
/// given up, since this point was not reached.
#[derive(Clone, Copy, Debug, PartialEq, Eq)]
pub enum Outcome {
    Accepted { entry: u64 },
    Refused { op: u64, fault: Fault },
    NotReady { point: Point, have: u64 },
}

/// Why there is no outcome. The request comes back as it was.
#[derive(Debug, PartialEq, Drop)]
pub struct NotTold {
    pub fault: Fault,
    pub request: Request,
}
