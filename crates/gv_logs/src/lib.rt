//! Lines of the logs of real drivers: RADV's history, trace events of amdgpu, xe and i915, and the kernel's list of mappings.
//!
//! ```text
//!   a device -> line by line -> one reader of each format, over tables of its fields -> what the line says
//! ```
#![tactic(auto)]

mod amdgpu_line;
mod cursor;
mod driver;
mod event_head;
mod fault;
mod fields;
mod format;
mod gpuvas_line;
mod i915_line;
mod line_reader;
mod radv_line;
mod vma_line;
mod xe_line;

pub use amdgpu_line::{AmdgpuEvent, AmdgpuLine};
pub use event_head::EventHead;
pub use fault::LogFault;
pub use format::{Format, LogLine};
pub use gpuvas_line::{GPUVAS_HEAD, GpuvasLine, GpuvasRow};
pub use line_reader::{Found, LineReader};
pub use radv_line::{RadvEvent, RadvLine};
pub use vma_line::{Vma, VmaEvent, VmaLine};
