//! Lines of the kernel's list of mappings.

use crate::cursor::{Cursor, Field, Kind};

/// What the head of an address space begins with, before its name in parentheses.
pub const GPUVAS_HEAD: &str = "DRM GPU VA space";

/// One column of a row.
const CELL: Field = Field {
    before: "|",
    kind: Kind::Cell,
};

/// The columns of a row: start, length, end, object and offset.
const CELLS: [Field; 5] = [CELL; 5];

/// A mapping, in bytes. An object of 0 is none: the mapping is sparse.
#[derive(Clone, Copy)]
pub struct GpuvasRow {
    pub start: u64,
    pub len: u64,
    pub object: u64,
    pub offset: u64,
}

/// A line of the list.
#[derive(Clone, Copy)]
pub enum GpuvasLine {
    /// The head of an address space.
    Head,
    Mapping(GpuvasRow),
}

impl GpuvasLine {
    /// The line that a text is, if it is one, whose numbers have at most 16 digits.
    pub fn parse(text: &[u8]) -> Option<GpuvasLine> {
        let text = text.trim_ascii();
        if let Some(name) = text.strip_prefix(GPUVAS_HEAD.as_bytes()) {
            return name.starts_with(b" (").then_some(GpuvasLine::Head);
        }
        let row = parse_row(Cursor::new(text))?;
        Some(GpuvasLine::Mapping(row))
    }
}

impl GpuvasRow {
    /// The row that a text is, if it is one, whose numbers may begin with any zeros.
    pub fn parse(text: &[u8]) -> Option<GpuvasRow> {
        parse_row(Cursor::with_long_numbers(text.trim_ascii()))
    }
}

/// A row. One whose end isn't its start and its length is none.
fn parse_row(mut cursor: Cursor<'_>) -> Option<GpuvasRow> {
    let [start, len, end, object, offset] = cursor.numbers::<5>(&CELLS)?;
    let row = GpuvasRow {
        start,
        len,
        object,
        offset,
    };
    (start.checked_add(len) == Some(end) && cursor.is_done()).then_some(row)
}
