//! What happened to an address space, row by row.

use crate::boxes::PastMapping;
use crate::choice::{CHOOSE_AT, IDLE_RANK, PAGE_RANK, PLAIN_RANK, SPECIAL_RANK, choose};
use crate::piece::Piece;
use crate::row::{Row, RowContent, RowKind};
use gv_ranges::RangeList;
use gv_space::Space;
use gv_types::{Backing, BufferId, OutOfMemory, PAGE_BYTES, PageRange, SPACE_PAGES};
use std::alloc::Global;
use std::collections::BTreeMap;

/// How many pages on each side of an address are near it: 1.25 MiB.
const NEAR: u64 = 320;

/// How often the range of a change is widened at most: twice for each operation of the longest request, and some more.
const WIDENINGS: u64 = 1024;

/// A mapping that stands, and the row that it came with.
#[derive(Clone, Copy)]
pub(crate) struct CurrentMapping {
    pub piece: Piece,
    pub from: u64,
}

/// The rows of a history that matter, and the mappings that stood. What it holds grows with the mappings that stand and with
/// the rows that are kept, not with all rows.
#[derive(Drop)]
pub struct History {
    pub(crate) at: Option<u64>,
    low: u64,
    high: u64,
    pub(crate) names: BTreeMap<u64, String>,
    pub(crate) current: BTreeMap<u64, CurrentMapping>,
    pub(crate) stood: Vec<PastMapping>,
    pub(crate) rows: Vec<Row>,
    pub(crate) serial: u64,
    pages: u64,
}

impl History {
    /// The history of an empty address space. With an address, in bytes, only what lies near it is looked at.
    pub fn new(alloc: Global, at: Option<u64>) -> History {
        let (low, high) = match at {
            Some(addr) => near(addr / PAGE_BYTES),
            None => (0, SPACE_PAGES),
        };
        History {
            at,
            low,
            high,
            names: BTreeMap::new(alloc),
            current: BTreeMap::new(alloc),
            stood: Vec::new(alloc),
            rows: Vec::new(alloc),
            serial: 0,
            pages: 0,
        }
    }

    /// Names a buffer. One that isn't named is shown by the number of buffers that were made before it.
    pub fn name(&mut self, alloc: Global, id: BufferId, name: &str) -> Result<(), OutOfMemory> {
        let name = String::from_str(alloc, name)?;
        self.names.insert(id.generation.get(), name)?;
        Ok(())
    }

    /// Adds a row: its content, the ranges in which it may have changed mappings, and the address space after it. Around
    /// an address a row is left out that changed nothing near it.
    pub fn add(
        &mut self,
        alloc: Global,
        content: RowContent,
        ranges: &[PageRange],
        space: &Space,
    ) -> Result<(), OutOfMemory> {
        let mut changed = IDLE_RANK;
        for range in ranges {
            changed = changed.max(self.renew(alloc, *range, space.list())?);
        }
        if self.at.is_some() && changed == IDLE_RANK {
            return Ok(());
        }
        let rank = match (self.at, content.kind) {
            (Some(_), _) | (None, RowKind::Change) => changed,
            (None, _) => SPECIAL_RANK,
        };
        self.rows.push(Row {
            content,
            serial: self.serial,
            rank,
            mappings: self.current.len() as u64,
            pages: self.pages,
            tables: space.tables(),
        })?;
        self.serial = self.serial.saturating_add(1);
        if self.rows.len() >= CHOOSE_AT {
            choose(alloc, &mut self.rows, &mut self.stood)?;
        }
        Ok(())
    }

    /// How many rows there were.
    pub fn len(&self) -> u64 {
        self.serial
    }

    /// What of a range is near, with the mappings before or after that reach out of it.
    fn near(&self, range: PageRange, list: &RangeList) -> Option<PageRange> {
        let mut low = range.first().max(self.low);
        let mut high = range.end().min(self.high);
        if low >= high {
            return None;
        }
        for _ in 0..WIDENINGS {
            let (first, end) = self.reach(low, high, list);
            if first == low && end == high {
                break;
            }
            low = first;
            high = end;
        }
        PageRange::new(low, high.saturating_sub(low))
    }

    /// Brings what stands in a range, and in the mappings that reach out of it, up to the list. It answers how much the change
    /// matters.
    fn renew(
        &mut self,
        alloc: Global,
        range: PageRange,
        list: &RangeList,
    ) -> Result<u8, OutOfMemory> {
        let Some(range) = self.near(range, list) else {
            return Ok(IDLE_RANK);
        };
        let before = self.current_in(alloc, range)?;
        let now = self.mapped_in(alloc, range, list)?;
        let gone = self.take_out(&before, &now)?;
        let came = self.put_in(&before, &now)?;
        Ok(gone.max(came))
    }

    /// What stood before and begins in a range.
    fn current_in(
        &self,
        alloc: Global,
        range: PageRange,
    ) -> Result<Vec<CurrentMapping>, OutOfMemory> {
        let mut before = Vec::new(alloc);
        for (_, current) in self.current.range(range.first()..range.end()) {
            before.push(*current)?;
        }
        Ok(before)
    }

    /// What the list maps in a range, as far as it is near: it stands from this row on, if it didn't before.
    fn mapped_in(
        &self,
        alloc: Global,
        range: PageRange,
        list: &RangeList,
    ) -> Result<Vec<CurrentMapping>, OutOfMemory> {
        // The borrow checker proves this only where the function names the types inside the mapping.
        let _backing = Backing::Zero;
        let (index, count) = list.overlapping(range);
        let mut now = Vec::new(alloc);
        for mapping in list.run(index, count) {
            if let Some(piece) = Piece::of(mapping, self.low, self.high) {
                let from = self.serial;
                now.push(CurrentMapping { piece, from })?;
            }
        }
        Ok(now)
    }

    /// A range with the mappings that meet its first and last pages, before and after.
    fn reach(&self, low: u64, high: u64, list: &RangeList) -> (u64, u64) {
        let last = high.saturating_sub(1);
        let mut first = low;
        let mut end = high;
        for piece in [
            self.current_at(low),
            self.current_at(last),
            self.mapped_at(low, list),
            self.mapped_at(last, list),
        ] {
            if let Some(piece) = piece {
                first = first.min(piece.first);
                end = end.max(piece.end);
            }
        }
        (first, end)
    }

    /// What stood at a page before.
    fn current_at(&self, page: u64) -> Option<Piece> {
        let past = page.saturating_add(1);
        let (_, current) = self.current.range(0..past).next_back()?;
        (page < current.piece.end).then_some(current.piece)
    }

    /// What the list maps at a page.
    fn mapped_at(&self, page: u64, list: &RangeList) -> Option<Piece> {
        let (index, count) = list.overlapping(PageRange::new(page, 1)?);
        if count == 0 {
            return None;
        }
        Piece::of(list.get(index), self.low, self.high)
    }

    /// Takes out what stood before and doesn't now, and answers how much that matters.
    fn take_out(
        &mut self,
        before: &[CurrentMapping],
        now: &[CurrentMapping],
    ) -> Result<u8, OutOfMemory> {
        let mut rank = IDLE_RANK;
        for current in before {
            let piece = current.piece;
            if !has(now, &piece) {
                let _ = self.current.remove(&piece.first);
                self.pages = self.pages.saturating_sub(piece.pages());
                rank = rank.max(self.rank_of(&piece));
                self.end_of(current)?;
            }
        }
        Ok(rank)
    }

    /// Notes that a mapping stood until now, if any row saw it.
    fn end_of(&mut self, current: &CurrentMapping) -> Result<(), OutOfMemory> {
        if current.from < self.serial {
            self.stood.push(PastMapping {
                piece: current.piece,
                from: current.from,
                to: self.serial,
            })?;
        }
        Ok(())
    }

    /// Puts in what stands now and didn't before, and answers how much that matters.
    fn put_in(
        &mut self,
        before: &[CurrentMapping],
        now: &[CurrentMapping],
    ) -> Result<u8, OutOfMemory> {
        let mut rank = IDLE_RANK;
        for current in now {
            let piece = current.piece;
            if !has(before, &piece) {
                self.current.insert(piece.first, *current)?;
                self.pages = self.pages.saturating_add(piece.pages());
                rank = rank.max(self.rank_of(&piece));
            }
        }
        Ok(rank)
    }

    /// How much it matters to change these pages.
    fn rank_of(&self, piece: &Piece) -> u8 {
        match self.at {
            Some(addr) if piece.first <= addr / PAGE_BYTES && addr / PAGE_BYTES < piece.end => {
                PAGE_RANK
            }
            _ => PLAIN_RANK,
        }
    }
}

/// The pages near a page: from the one to the other, without that.
fn near(page: u64) -> (u64, u64) {
    let page = page.min(SPACE_PAGES - 1);
    let low = page.saturating_sub(NEAR);
    (low, page.saturating_add(NEAR).min(SPACE_PAGES))
}

/// Whether a mapping is among ascending ones.
fn has(current: &[CurrentMapping], piece: &Piece) -> bool {
    let index = current.partition_point(|current| current.piece.first < piece.first);
    match current.get(index) {
        Some(current) => current.piece == *piece,
        None => false,
    }
}
