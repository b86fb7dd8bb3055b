//! The values that every part of the address space manager uses: pages, mappings, operations and faults.
#![tactic(auto)]

mod bounds;
mod fault;
mod generation;
pub mod laws;
mod limits;
mod mapping;
mod operation;
mod packed;
mod page_range;
mod request;

pub use bounds::Bounds;
pub use fault::{Fault, OutOfMemory};
pub use generation::Generation;
pub use limits::{Limits, MAX_BUFFERS, MAX_ITEMS, MAX_MAPPINGS, MAX_TOLD};
pub use mapping::{BUFFER_PAGES, Backing, BufferId, Entry, Flags, Mapping};
pub use operation::{Op, PAGE_BYTES, PageOp};
pub use packed::Packed;
pub use page_range::{PageRange, SPACE_PAGES};
pub use request::{Point, Request};
