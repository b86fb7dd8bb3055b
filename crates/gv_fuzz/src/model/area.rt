//! The bounds and limits as the documents say them. They stand beside what `gv_types` answers: where both differ, so do the replies.
use gv_model::range_of;
use gv_types::{Bounds, Fault, Op};

/// Bytes of a page.
const PAGE: u64 = 4_096;

/// The page past the last of the widest space.
const PAGES: u64 = 1 << 45;

/// The greatest numbers of buffers, mappings and items.
const MOST: [u64; 3] = [65_536, 1_048_576, 65_536];

/// Pages from `first` to before `end`, of which those from `reserved_first` to before `reserved_end` are reserved.
#[derive(Clone, Copy)]
pub struct Area {
    first: u64,
    end: u64,
    reserved_first: u64,
    reserved_end: u64,
}

impl Area {
    /// All pages, none of which is reserved.
    pub fn whole() -> Area {
        Area {
            first: 0,
            end: PAGES,
            reserved_first: 0,
            reserved_end: 0,
        }
    }

    /// The area of these bytes, if there is one.
    pub fn from_bytes(start: u64, len: u64, reserved: u64, reserved_len: u64) -> Option<Area> {
        let (first, end) = pages_of(start, len)?;
        let (reserved_first, reserved_end) = pages_of(reserved, reserved_len)?;
        let is_space = first < end && end <= PAGES;
        let is_empty = reserved_first == reserved_end;
        let lies_inside = first <= reserved_first && reserved_end <= end;
        (is_space && (is_empty || lies_inside)).then_some(Area {
            first,
            end,
            reserved_first,
            reserved_end,
        })
    }

    /// The pages of an operation, or its first fault.
    fn check(&self, addr: u64, len: u64, offset: u64) -> Result<(u64, u64), Fault> {
        let pages = pages_of(addr, len);
        let Some((first, end)) = pages.filter(|_| offset % PAGE == 0) else {
            return Err(Fault::Unaligned);
        };
        if first == end {
            return Err(Fault::Empty);
        }
        if first < self.first || end > self.end {
            return Err(Fault::OutOfSpace);
        }
        let is_reserved = first < self.reserved_end && self.reserved_first < end;
        if is_reserved && self.reserved_first < self.reserved_end {
            return Err(Fault::Reserved);
        }
        Ok((first, end))
    }

    /// Whether bounds answer of an operation what is said here.
    pub fn is_checked_alike(&self, bounds: &Bounds, op: &Op) -> bool {
        let wanted = match *op {
            Op::Map {
                addr,
                len,
                offset,
                ..
            } => self.check(addr, len, offset),
            Op::MapZero { addr, len, .. } | Op::Unmap { addr, len } => self.check(addr, len, 0),
            Op::UnmapBuffer { .. } => return true,
        };
        match (wanted, bounds.check(op)) {
            (Ok((first, end)), Ok(checked)) => match range_of(&checked) {
                Some(range) => range.first() == first && range.end() == end,
                None => false,
            },
            (Err(fault), Err(other)) => fault == other,
            _ => false,
        }
    }
}

/// The first page and the one past the last, where both numbers of bytes are whole pages.
fn pages_of(start: u64, len: u64) -> Option<(u64, u64)> {
    let is_aligned = start % PAGE == 0 && len % PAGE == 0;
    let first = start / PAGE;
    is_aligned.then_some((first, first.saturating_add(len / PAGE)))
}

/// Whether there may be so many buffers, mappings and items.
pub fn are_limits(numbers: [u64; 3]) -> bool {
    numbers
        .iter()
        .zip(&MOST)
        .all(|(number, most)| 0 < *number && number <= most)
}
