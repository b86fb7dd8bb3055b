//! Why a reply isn't written in the form of its kind.
use std::alloc::AllocError;
use std::num::ParseIntError;

#[derive(Clone, Copy)]
pub enum Stop {
    /// The system refused memory.
    OutOfMemory,
    /// The text isn't a reply of this kind.
    NotUnderstood,
}

impl From<AllocError> for Stop {
    fn from(_error: AllocError) -> Stop {
        Stop::OutOfMemory
    }
}

impl From<ParseIntError> for Stop {
    fn from(_error: ParseIntError) -> Stop {
        Stop::NotUnderstood
    }
}
