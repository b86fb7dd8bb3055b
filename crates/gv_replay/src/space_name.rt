//! What address spaces of a log are called.

use gv_logs::Format;
use std::alloc::AllocError;
use std::fmt::Write;

/// An address space of a log, by what its format tells.
#[derive(Clone, Copy)]
pub enum SpaceName {
    /// The number that the driver's events have for it, which is told in hexadecimal digits.
    Numbered(u64),
    /// A process, of which each has one.
    Process(u64),
    /// The head of a list, counted from 1.
    Head(u64),
}

impl SpaceName {
    /// The name that a number is in a format.
    pub fn of(format: Format, number: u64) -> SpaceName {
        match format {
            Format::Radv | Format::Xe | Format::I915 => SpaceName::Numbered(number),
            Format::Amdgpu => SpaceName::Process(number),
            Format::Gpuvas => SpaceName::Head(number),
        }
    }

    /// What it names.
    pub fn word(self) -> &'static str {
        match self {
            SpaceName::Numbered(_) | SpaceName::Head(_) => "space",
            SpaceName::Process(_) => "process",
        }
    }

    /// Writes the name, without what it names.
    pub fn write(self, out: &mut String) -> Result<(), AllocError> {
        match self {
            SpaceName::Numbered(number) => write!(out, "0x{number:x}"),
            SpaceName::Process(number) | SpaceName::Head(number) => write!(out, "{number}"),
        }
    }
}
