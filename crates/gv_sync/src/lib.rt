//! Timelines: numbers that only rise, which many threads read and raise without waiting.
#![tactic(auto)]

mod clock;
pub mod laws;
mod marks;
mod sights;
mod timelines;

pub use clock::Clock;
pub use marks::Mark;
pub use sights::{Lacking, Reached};
pub use timelines::{MAX_TIMELINES, Seat, SyncFault, Timelines};
