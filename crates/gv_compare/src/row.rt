//! A line of a list.

use crate::objects::Object;
use gv_lines::{Name, split_once};
use gv_logs::GpuvasRow;
use gv_types::{PAGE_BYTES, PageRange};

/// How many digits a number of a `map` has.
const DIGITS: usize = 16;

/// A mapping as a line tells it: its pages, what stands behind them (none: zeros), the page of it that they begin at, and
/// whether they may only be read, which a `gpuvas` doesn't tell.
#[derive(Debug, Drop)]
pub struct Row {
    pub range: PageRange,
    pub object: Option<Object>,
    pub page: u64,
    pub read_only: bool,
}

impl Row {
    /// The mapping of a line `FIRST END NAME OFFSET FLAGS`, or `FIRST END zero FLAGS`, as the line `map` is answered.
    pub fn of_map(line: &[u8]) -> Option<Row> {
        let (first, rest) = leading_digits(line)?;
        let (end, rest) = leading_digits(rest)?;
        let (name, rest) = split_once(rest, b' ')?;
        let range = pages_between(first, end)?;
        if name == b"zero".as_slice() {
            return Some(Row {
                range,
                object: None,
                page: 0,
                read_only: are_read_only(rest)?,
            });
        }
        let (offset, flags) = leading_digits(rest)?;
        Some(Row {
            range,
            object: Some(Object::Named(Name::from_word(name)?)),
            page: page_of(offset)?,
            read_only: are_read_only(flags)?,
        })
    }

    /// The mapping of a row of a `gpuvas`. An object of 0 is none.
    pub fn of_dump(line: &str) -> Option<Row> {
        let row = GpuvasRow::parse(line.as_bytes())?;
        let first = page_of(row.start)?;
        let page = page_of(row.offset)?;
        Some(Row {
            range: PageRange::new(first, page_of(row.len)?)?,
            object: (row.object != 0).then_some(Object::Address(row.object)),
            page: if row.object == 0 { 0 } else { page },
            read_only: false,
        })
    }
}

/// Whether the word for flags is that of pages that may only be read, if it is one.
fn are_read_only(flags: &[u8]) -> Option<bool> {
    match flags {
        b"ro" => Some(true),
        b"rw" => Some(false),
        _ => None,
    }
}

/// The number that a text begins with as a `map` writes it, and what stands behind the space that ends it.
fn leading_digits(text: &[u8]) -> Option<(u64, &[u8])> {
    let (digits, rest) = text.split_at_checked(DIGITS)?;
    let (space, rest) = rest.split_first()?;
    if *space != b' ' {
        return None;
    }
    let mut number = 0u64;
    for byte in digits {
        number = number << 4 | digit_value(*byte)?;
    }
    Some((number, rest))
}

/// The value of a hexadecimal digit of either case.
fn digit_value(byte: u8) -> Option<u64> {
    match byte {
        b'0'..=b'9' => Some(u64::from(byte - b'0')),
        b'a'..=b'f' => Some(u64::from(byte - b'a') + 10),
        b'A'..=b'F' => Some(u64::from(byte - b'A') + 10),
        _ => None,
    }
}

/// The page that begins at a byte, if one does.
fn page_of(byte: u64) -> Option<u64> {
    (byte % PAGE_BYTES == 0).then_some(byte / PAGE_BYTES)
}

/// The pages between two bytes, if they are pages of the address space.
fn pages_between(first: u64, end: u64) -> Option<PageRange> {
    let first = page_of(first)?;
    PageRange::new(first, page_of(end)?.checked_sub(first)?)
}
