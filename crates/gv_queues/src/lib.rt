//! Running queues over one address space: each has one submitter and one worker on a thread of its own. The address space
//! is under a lock, and the timelines are outside of it.
#![tactic(auto)]

mod channel;
mod driver;
mod finishing;
mod gate;
mod opening;
mod pass_knowledge;
mod put_all;
mod put_end;
mod queues;
mod running;
mod serving;
mod submitter;
mod taking;
mod vm_lock;
mod waiting;
mod worker;
mod worker_end;

pub use channel::{Ends, open};
pub use driver::Driver;
pub use finishing::{QueueEnd, QueuesFault, finish};
pub use gate::{Gate, Turn};
pub use put_all::PutAll;
pub use put_end::PutEnd;
pub use queues::Queues;
pub use serving::{ReachedRequest, decline, serve};
pub use submitter::{PutFault, Submitter};
pub use taking::{Taken, Taker};
pub use vm_lock::VmLock;
pub use worker_end::WorkerEnd;
