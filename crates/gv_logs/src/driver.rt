//! Drivers whose trace events a log holds, as trace-cmd, perf and the kernel's own trace file write them.

use crate::amdgpu_line::{AmdgpuLine, parse_amdgpu};
use crate::event_head::EventHead;
use crate::format::LogLine;
use crate::i915_line::parse_i915;
use crate::vma_line::VmaLine;
use crate::xe_line::parse_xe;

/// Whose trace events they are.
#[derive(Clone, Copy)]
pub enum Driver {
    Amdgpu,
    Xe,
    I915,
}

impl Driver {
    /// The first event of the driver in a text that tells of memory, of VMAs or of address spaces.
    pub fn find_event(self, text: &[u8]) -> Option<LogLine> {
        let initial = self.initial();
        for (at, byte) in text.iter().enumerate() {
            if *byte != initial {
                continue;
            }
            let (before, event) = text.split_at(at);
            let found = self.parse_event(before, event);
            if found.is_some() {
                return found;
            }
        }
        None
    }

    /// The first byte of an event's name.
    fn initial(self) -> u8 {
        match self {
            Driver::Amdgpu => b'a',
            Driver::Xe => b'x',
            Driver::I915 => b'i',
        }
    }

    /// What perf writes before an event.
    fn system(self) -> &'static [u8] {
        match self {
            Driver::Amdgpu => b"amdgpu:",
            Driver::Xe => b"xe:",
            Driver::I915 => b"i915:",
        }
    }

    /// An event, from its name on, behind what stands before it.
    fn parse_event(self, before: &[u8], text: &[u8]) -> Option<LogLine> {
        let (space, event) = match self {
            Driver::Amdgpu => return self.parse_amdgpu(before, text),
            Driver::Xe => parse_xe(text)?,
            Driver::I915 => parse_i915(text)?,
        };
        Some(LogLine::Vma(VmaLine {
            head: EventHead::parse(before, self.system()),
            space,
            event,
        }))
    }

    fn parse_amdgpu(self, before: &[u8], text: &[u8]) -> Option<LogLine> {
        let (object, event) = parse_amdgpu(text)?;
        Some(LogLine::Amdgpu(AmdgpuLine {
            head: EventHead::parse(before, self.system()),
            object,
            event,
        }))
    }
}
