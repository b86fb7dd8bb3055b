//! What texts are read from and written to: devices in memory, those of the standard library, and text on its way to them.
#![tactic(auto)]

mod device;
mod memory;
mod output;
mod standard;
mod transfer;

pub use device::{ReadFault, Sink, Source, WriteFault};
pub use memory::{MemorySink, MemorySource};
pub use output::Output;
pub use standard::{Pipe, ReadCalls, ReadSource, WriteCalls, WriteSink, is_broken_pipe};
pub use transfer::{SCRIPT_LIMIT, write_all};
