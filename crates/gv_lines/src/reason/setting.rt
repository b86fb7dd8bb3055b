//! Why a `space` or `limits` line is refused.
use std::fmt;

/// Why a `space` line or a `limits` line sets what cannot be set.
#[derive(Clone, Copy)]
pub enum Setting {
    /// This part of a `space` line is no multiple of 4,096.
    Unaligned { part: &'static str },
    /// The address space has no page.
    EmptySpace,
    /// The address space ends past 2^57.
    PastEnd,
    /// The reserved region has pages, and not all are in the address space.
    Outside,
    /// This part of a `limits` line is not from 1 to its greatest.
    OutOfRange { part: &'static str, most: u64 },
}

impl fmt::Display for Setting {
    fn fmt<W: fmt::Write>(&self, f: &mut fmt::Formatter<W>) -> fmt::Result {
        match *self {
            Setting::Unaligned { part } => write!(f, "{part} is a multiple of 4096"),
            Setting::EmptySpace => f.write_str("an address space has at least one page"),
            Setting::PastEnd => f.write_str("an address space ends at 2^57 or below"),
            Setting::Outside => f.write_str("the reserved region must be inside the address space"),
            Setting::OutOfRange { part, most } => write!(f, "{part} is from 1 to {most}"),
        }
    }
}
