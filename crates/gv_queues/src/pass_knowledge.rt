//! What a pass of a queue knows.
use gv_types::Request;
use std::collections::LinkedList;

/// Which queue a channel is of, and for how many timelines. It exists only in proofs.
pub struct About {
    pub queue: u64,
    pub timelines: u64,
}

/// What a pass may do, what its channel is, and what was put and taken with it. It exists only in proofs.
pub struct PassKnowledge {
    pub puts: bool,
    pub takes: bool,
    pub about: About,
    pub put: LinkedList<Request>,
    pub taken: LinkedList<Request>,
}
