//! What a worker asks while it waits.
use gv_sync::Lacking;

/// What to do with a request that waits.
#[derive(Clone, Copy, Debug, PartialEq, Eq)]
pub enum Turn {
    GoOn,
    GiveUp,
}

/// Decides how long requests wait. All workers share it.
pub trait Gate {
    /// Asked after each look at a wait not reached, of the request with this number of a queue. `turns` looks of the request
    /// have found a wait not reached, over all its waits, this one included.
    fn turn(&self, queue: u64, number: u64, lacking: &Lacking, turns: u64) -> Turn;

    /// Called before a worker takes the lock for this request.
    fn before_lock(&self, queue: u64, number: u64);
}
