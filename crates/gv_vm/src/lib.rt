//! One GPU address space as a whole: requests carried out or given up, each with its outcome; entries undone,
//! withdrawn and settled; the places that addresses reach, and the running jobs that hold the buffers there.
//!
//! A `World` answers one event after another. It has a machine (`Vm`), timelines, and queues of requests:
//!
//! ```text
//!   Put -> waits in its queue -> Take -> in hand -> Look for each of its waits -> Bind -> accepted: an entry of the journal; Pay for each signal
//!                                                        |                          `---> refused: the machine is as before
//!                                                        `-> a wait is not reached: Look again, or GiveUp
//! ```
//!
//! Rewind, Withdraw and Settle change the entries; Forget drops outcomes; Create, Destroy, JobBegin, JobEnd and Translate ask
//! the machine alone.
#![tactic(auto)]

mod dispatch;
mod event;
mod holding;
mod jobs;
pub mod laws;
mod next_turn;
mod outcome;
mod places;
mod queue;
mod sizes;
mod told;
mod vm;
mod world;

pub use event::{Event, LookResult, Reply};
pub use jobs::{Access, Job, MAX_ACCESSES, MAX_RUNNING};
pub use outcome::{NotTold, Outcome};
pub use places::{Place, Stretch, Target};
pub use sizes::Sizes;
pub use told::QUEUES;
pub use vm::{PastItem, Vm};
pub use world::{Stopped, TurnResult, World};
