//! Lines of RADV's `bo_history.log`.

use crate::cursor::{Cursor, Field, Kind};

/// Addresses have 48 bits.
const ADDRESS_END: u64 = 1 << 48;

/// What each line begins with: its time, and its first byte and the one past its end.
const FRONT: [Field; 3] = [
    Field {
        before: "timestamp=",
        kind: Kind::Decimal,
    },
    Field {
        before: ", VA=",
        kind: Kind::Hex,
    },
    Field {
        before: "-",
        kind: Kind::Hex,
    },
];

/// Behind that and this, where a part of a sparse range is bound to.
const TARGET: [Field; 1] = [Field {
    before: "",
    kind: Kind::Hex,
}];

/// What only a line of such a part has.
const BOUND: &[u8] = b", mapped_to=";

/// Or whether memory goes, and whether it is a sparse range: each 0 or 1.
const STATE: [Field; 2] = [
    Field {
        before: ", destroyed=",
        kind: Kind::Decimal,
    },
    Field {
        before: ", is_virtual=",
        kind: Kind::Decimal,
    },
];

/// What a line says.
#[derive(Clone, Copy)]
pub enum RadvEvent {
    MemoryMade,
    MemoryFreed,
    SparseMade,
    SparseGone,
    /// A part of a sparse range was bound to what lies at this address.
    SparseBound { to: u64 },
    SparseUnbound,
}

/// A line: its time in nanoseconds, and the bytes that it is about.
#[derive(Clone, Copy)]
pub struct RadvLine {
    pub time: u64,
    pub start: u64,
    pub end: u64,
    pub event: RadvEvent,
}

impl RadvLine {
    /// The line that a text is, if it is one. A range that ends before it starts is none.
    pub fn parse(text: &[u8]) -> Option<RadvLine> {
        let mut cursor = Cursor::new(text.trim_ascii_end());
        let [time, start, end] = cursor.numbers::<3>(&FRONT)?;
        let event = parse_event(&mut cursor)?;
        let start = low_48_bits(start);
        let end = end_in_48_bits(start, end);
        (start <= end && cursor.is_done()).then_some(RadvLine {
            time,
            start,
            end,
            event,
        })
    }
}

/// An address as the log writes it.
pub fn low_48_bits(address: u64) -> u64 {
    address % ADDRESS_END
}

/// The end of a range, which is 0 there where it is the end of all addresses.
fn end_in_48_bits(start: u64, end: u64) -> u64 {
    match low_48_bits(end) {
        0 if start > 0 => ADDRESS_END,
        end => end,
    }
}

fn parse_event(cursor: &mut Cursor<'_>) -> Option<RadvEvent> {
    if cursor.take_if(BOUND) {
        let [to] = cursor.numbers::<1>(&TARGET)?;
        return Some(match low_48_bits(to) {
            0 => RadvEvent::SparseUnbound,
            to => RadvEvent::SparseBound { to },
        });
    }
    let [gone, sparse] = cursor.numbers::<2>(&STATE)?;
    match (gone, sparse) {
        (0, 0) => Some(RadvEvent::MemoryMade),
        (1, 0) => Some(RadvEvent::MemoryFreed),
        (0, 1) => Some(RadvEvent::SparseMade),
        (1, 1) => Some(RadvEvent::SparseGone),
        _ => None,
    }
}
