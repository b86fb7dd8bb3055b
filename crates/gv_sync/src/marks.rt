//! What a seat knows. Both types exist in proofs alone.
use gv_types::Point;
use std::collections::LinkedList;

/// Of one timeline: the number seen last, the greatest number raised to, and the count of steps
/// taken.
pub struct Mark {
    pub seen: u64,
    pub raised: u64,
    pub taken: u64,
}

/// A mark for each timeline, the points that the seat raised to, in order, and how often its share
/// was halved: the first seat has the whole, and each split halves a share.
pub struct SeatKnowledge {
    pub marks: LinkedList<Mark>,
    pub raises: LinkedList<Point>,
    pub halvings: u64,
}
