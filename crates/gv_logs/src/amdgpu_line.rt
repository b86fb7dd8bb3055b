//! Trace events of amdgpu, as trace-cmd, perf and the kernel's own trace file write them.

use crate::cursor::{Cursor, Field, Kind};
use crate::event_head::EventHead;

/// How many bytes a page of an event has.
const PAGE: u64 = 4096;

/// What an event of a mapping holds: the object's pointer, the first and the last page, both inside the range, and where in the object
/// it begins.
const MAPPING: [Field; 5] = [
    Field {
        before: "bo=",
        kind: Kind::Pointer,
    },
    Field {
        before: ", start=",
        kind: Kind::Hex,
    },
    Field {
        before: ", last=",
        kind: Kind::Hex,
    },
    Field {
        before: ", offset=",
        kind: Kind::Hex,
    },
    Field {
        before: ", flags=",
        kind: Kind::Hex,
    },
];

/// What one of a new object begins with.
const OBJECT: [Field; 2] = [
    Field {
        before: "bo=",
        kind: Kind::Pointer,
    },
    Field {
        before: ", pages=",
        kind: Kind::Decimal,
    },
];

/// What an event says, in bytes.
#[derive(Clone, Copy)]
pub enum AmdgpuEvent {
    /// The pointer is a new object of so many pages.
    Made {
        pages: u64,
    },
    Mapped {
        start: u64,
        len: u64,
        offset: u64,
        flags: u64,
    },
    Unmapped {
        start: u64,
        len: u64,
    },
}

/// An event: its object's pointer, which is 0 for none, its time in nanoseconds, and who it is of.
#[derive(Clone, Copy)]
pub struct AmdgpuLine {
    pub head: EventHead,
    pub object: u64,
    pub event: AmdgpuEvent,
}

impl AmdgpuEvent {
    /// Whether it tells of a mapping, and not of an object alone.
    pub fn is_of_mapping(&self) -> bool {
        match self {
            AmdgpuEvent::Mapped { .. } | AmdgpuEvent::Unmapped { .. } => true,
            AmdgpuEvent::Made { .. } => false,
        }
    }
}

/// An event and its object, from the event's name on, if it is one of those that make, map or unmap.
pub fn parse_amdgpu(text: &[u8]) -> Option<(u64, AmdgpuEvent)> {
    let mut cursor = Cursor::new(text.trim_ascii_end());
    cursor.expect_text(b"amdgpu_")?;
    let is_map = cursor.take_if(b"vm_bo_map:");
    if is_map || cursor.take_if(b"vm_bo_unmap:") {
        return parse_mapping(&mut cursor, is_map);
    }
    cursor.expect_text(b"bo_create:")?;
    cursor.spaces();
    let [object, pages] = cursor.numbers::<2>(&OBJECT)?;
    Some((object, AmdgpuEvent::Made { pages }))
}

/// The object and the range of a map or an unmap.
fn parse_mapping(cursor: &mut Cursor<'_>, is_map: bool) -> Option<(u64, AmdgpuEvent)> {
    cursor.spaces();
    let [object, first, last, offset, flags] = cursor.numbers::<5>(&MAPPING)?;
    let (start, len) = bytes_of(first, last)?;
    let event = if is_map {
        AmdgpuEvent::Mapped {
            start,
            len,
            offset,
            flags,
        }
    } else {
        AmdgpuEvent::Unmapped { start, len }
    };
    cursor.is_done().then_some((object, event))
}

/// The first byte and the bytes of a range of pages, if it has any.
fn bytes_of(first: u64, last: u64) -> Option<(u64, u64)> {
    let start = first.checked_mul(PAGE)?;
    let len = last.checked_add(1)?.checked_sub(first)?.checked_mul(PAGE)?;
    (len > 0).then_some((start, len))
}
