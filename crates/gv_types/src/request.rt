//! A list of operations, with the points that it waits for and signals.
ghost use Rattle.std.specs.Prelude.{IsTrue, ◌↔◌, ◌<◌};
ghost use Rattle.std.specs.List.{All};

use crate::operation::Op;

/// A number on a timeline, as a point of a timeline of DRM Sync Objects.
#[derive(Clone, Copy, Debug, PartialEq, Eq)]
pub struct Point {
    pub timeline: u64,
    pub value: u64,
}

/// A bind call of Asynchronous VM_BIND: its operations, the points to wait for before they start, and those to
/// signal at their end.
#[derive(Debug, PartialEq, Drop)]
pub struct Request {
    pub ops: Vec<Op>,
    pub waits: Vec<Point>,
    pub signals: Vec<Point>,
}

impl Request {
    ghost use Rattle.gv_types.specs.Request.{Fits};

    /// Whether all its timelines are below the count `timelines`.
    pub fn fits(&self, timelines: u64) -> bool
        ensures { IsTrue result ↔ Fits timelines self.now }
    {
        all_below(&self.waits, timelines) && all_below(&self.signals, timelines)
    }
}

/// Whether the timelines of all points are below `timelines`.
fn all_below(points: &[Point], timelines: u64) -> bool
    ensures { IsTrue result ↔ All (λ p. p.timeline < timelines) points.now }
{
    points.iter().all(|point| point.timeline < timelines)
}
