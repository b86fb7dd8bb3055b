//! What is asked of a replay.

use crate::sizes::Sizes;
use gv_logs::Format;

/// What the flags of amdgpu's events mean, which changed between kernels.
#[derive(Clone, Copy, Debug, PartialEq, Eq)]
pub enum FlagBits {
    /// It isn't said: all is taken as writable.
    Unsaid,
    /// Bits of a page-table entry, as in Linux 6.12: writable is 0x40.
    Entry,
    /// Bits of the call, as in Linux 7.2: writable is 0x4.
    Call,
}

impl FlagBits {
    /// Whether pages with these flags can't be written.
    pub fn are_read_only(self, flags: u64) -> bool {
        match self {
            FlagBits::Unsaid => false,
            FlagBits::Entry => flags & 0x40 == 0,
            FlagBits::Call => flags & 0x4 == 0,
        }
    }
}

/// What is written of a replay.
#[derive(Clone, Copy, Debug, PartialEq, Eq)]
pub enum Form {
    /// The report as text.
    Report,
    /// The report as one object of JSON on one line.
    Json,
    /// The operations as a script, in place of the report.
    Script,
    /// The mappings at the end, as a script's line `map` tells them, in place of the report.
    Mappings,
    /// Nothing: a watcher tells it, as in a picture.
    Watched,
}

/// What is asked of a replay.
#[derive(Clone, Copy)]
pub struct Terms<'a> {
    pub format: Format,
    pub flag_bits: FlagBits,
    /// Of amdgpu's events those of this process or thread alone; of xe's and i915's those of the first address space in which it has
    /// a VMA.
    pub pid: Option<u64>,
    /// The address space that is taken: of xe's and i915's events its number in hexadecimal digits, with or without `0x`, and of a list
    /// the number of its head, counted from 1.
    pub space: Option<&'a str>,
    /// The addresses, in bytes, whose past is asked.
    pub addresses: &'a [u64],
    /// Each finding is told with all occurrences where it was made, and not with three.
    pub all: bool,
    pub form: Form,
    /// What `measure` gave for the log, if it was asked. Without it an object whose size no line tells is as large as can be.
    pub sizes: Option<&'a Sizes>,
}

impl<'a> Terms<'a> {
    /// Whether each address space of the log is taken, where the log tells them apart: none is asked, and all can be told.
    pub fn takes_each(&self) -> bool {
        let are_told = match self.form {
            Form::Report | Form::Json => true,
            Form::Script | Form::Mappings | Form::Watched => false,
        };
        are_told && self.pid.is_none() && self.space.is_none()
    }

    /// Whether each address space of the log is told by itself. Whether amdgpu's processes are, and the spaces of a list, `measure` tells.
    pub fn tells_each(&self) -> bool {
        let are_apart = match (self.format, self.sizes) {
            (Format::Radv, _) => false,
            (Format::Xe | Format::I915, _) => true,
            (Format::Amdgpu | Format::Gpuvas, Some(sizes)) => sizes.are_of_each(),
            (Format::Amdgpu | Format::Gpuvas, None) => false,
        };
        are_apart && self.takes_each()
    }

    /// The report of a log of this format, and nothing else.
    pub fn new(format: Format) -> Terms<'a> {
        Terms {
            format,
            flag_bits: FlagBits::Unsaid,
            pid: None,
            space: None,
            addresses: &[],
            all: false,
            form: Form::Report,
            sizes: None,
        }
    }

    /// The same, with what `measure` gave for the log.
    pub fn sized(self, sizes: &'a Sizes) -> Terms<'a> {
        let known = Some(sizes);
        Terms {
            format: self.format,
            flag_bits: self.flag_bits,
            pid: self.pid,
            space: self.space,
            addresses: self.addresses,
            all: self.all,
            form: self.form,
            sizes: known,
        }
    }
}
