//! Who wrote a log, and what a line of it says.

use crate::amdgpu_line::AmdgpuLine;
use crate::cursor::{decimal_of, hex_of};
use crate::driver::Driver;
use crate::gpuvas_line::GpuvasLine;
use crate::radv_line::{RadvLine, low_48_bits};
use crate::vma_line::VmaLine;

/// Who wrote the log.
#[derive(Clone, Copy, Debug, PartialEq, Eq)]
pub enum Format {
    /// The `bo_history.log` that RADV writes into a hang report.
    Radv,
    /// The kernel's trace events of amdgpu, as text of trace-cmd, of perf or of the kernel's own trace file.
    Amdgpu,
    /// The kernel's trace events of xe, as the same texts.
    Xe,
    /// The kernel's trace events of i915, as the same texts.
    I915,
    /// The kernel's list of mappings in debugfs. It is a state and no history.
    Gpuvas,
}

/// A line of a log.
#[derive(Clone, Copy)]
pub enum LogLine {
    Radv(RadvLine),
    Amdgpu(AmdgpuLine),
    /// Of xe or i915.
    Vma(VmaLine),
    Gpuvas(GpuvasLine),
}

impl LogLine {
    /// Whether it tells what is mapped, and not of an object or of an address space alone.
    pub fn is_of_mapping(&self) -> bool {
        match *self {
            LogLine::Radv(_) | LogLine::Gpuvas(GpuvasLine::Mapping(_)) => true,
            LogLine::Gpuvas(GpuvasLine::Head) => false,
            LogLine::Amdgpu(line) => line.event.is_of_mapping(),
            LogLine::Vma(line) => line.event.is_of_vma(),
        }
    }
}

impl Format {
    /// The line that a text is, if it is one of the format.
    pub fn parse(self, text: &[u8]) -> Option<LogLine> {
        match self {
            Format::Radv => Some(LogLine::Radv(RadvLine::parse(text)?)),
            Format::Gpuvas => Some(LogLine::Gpuvas(GpuvasLine::parse(text)?)),
            Format::Amdgpu => Driver::Amdgpu.find_event(text),
            Format::Xe => Driver::Xe.find_event(text),
            Format::I915 => Driver::I915.find_event(text),
        }
    }

    /// Whether no line tells how large an object is, so that `measure` has to read the log first.
    pub fn wants_sizes(self) -> bool {
        match self {
            Format::Radv | Format::Xe | Format::I915 => false,
            Format::Amdgpu | Format::Gpuvas => true,
        }
    }

    /// An address as the format writes it: RADV cuts it to 48 bits.
    pub fn address(self, addr: u64) -> u64 {
        match self {
            Format::Radv => low_48_bits(addr),
            Format::Amdgpu | Format::Xe | Format::I915 | Format::Gpuvas => addr,
        }
    }

    /// The number of an address space by its name, where the format has such names.
    pub fn space_number(self, name: &str) -> Option<u64> {
        match self {
            Format::Xe | Format::I915 => hex_of(name.as_bytes()),
            Format::Gpuvas => decimal_of(name.as_bytes()),
            Format::Radv | Format::Amdgpu => None,
        }
    }
}
