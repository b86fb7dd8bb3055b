//! Boxes: each is a mapping, from the row that made it to the row without it.

use crate::choice::rows_before;
use crate::history::History;
use crate::piece::Piece;
use gv_types::{Backing, OutOfMemory};
use std::alloc::Global;

/// How many boxes a picture has at most.
const MOST: usize = 4000;

/// From how many boxes on those that no row changes are drawn together.
const MANY: usize = 60;

/// How many boxes side by side are drawn together at least.
const TOGETHER: u64 = 3;

/// A mapping that stood from one row, by its serial number, to the one without it.
#[derive(Clone, Copy)]
pub struct PastMapping {
    pub piece: Piece,
    pub from: u64,
    pub to: u64,
}

/// A box: a mapping at the rows from `top` to `bottom`, without that. One of several mappings that no row changes has
/// their number, from the first to the last of them.
#[derive(Clone, Copy)]
pub struct Boxed {
    pub piece: Piece,
    pub top: usize,
    pub bottom: usize,
    pub count: u64,
}

/// The boxes of a picture in order of their addresses, and how many are left out.
#[derive(Drop)]
pub struct Boxes {
    pub items: Vec<Boxed>,
    pub left_out: u64,
}

impl Boxes {
    /// The boxes of the rows that a history shows.
    pub fn of(alloc: Global, history: &History) -> Result<Boxes, OutOfMemory> {
        let mut boxes = Boxes {
            items: Vec::new(alloc),
            left_out: 0,
        };
        for stood in &history.stood {
            boxes.add(history, &stood.piece, stood.from, stood.to)?;
        }
        for (_, current) in &history.current {
            boxes.add(history, &current.piece, current.from, u64::MAX)?;
        }
        boxes
            .items
            .sort_unstable_by_key(|item| (item.piece.first, item.top));
        if boxes.items.len() > MANY {
            boxes.items = together(alloc, &boxes.items, history.rows.len())?;
        }
        boxes.left_out = boxes.items.len().saturating_sub(MOST) as u64;
        boxes.items.truncate(MOST);
        Ok(boxes)
    }

    /// Adds a mapping that stood, if a row saw it.
    fn add(
        &mut self,
        history: &History,
        piece: &Piece,
        from: u64,
        to: u64,
    ) -> Result<(), OutOfMemory> {
        let top = rows_before(&history.rows, from);
        let bottom = rows_before(&history.rows, to);
        if top < bottom {
            self.items.push(Boxed {
                piece: *piece,
                top,
                bottom,
                count: 1,
            })?;
        }
        Ok(())
    }
}

/// Puts together boxes side by side that stand at all rows: from the third on, one box replaces those before it.
fn together(alloc: Global, items: &[Boxed], rows: usize) -> Result<Vec<Boxed>, OutOfMemory> {
    let mut kept = Vec::new(alloc);
    let mut first: u64 = 0;
    let mut count: u64 = 0;
    for item in items {
        let mut shown = *item;
        if item.top > 0 || item.bottom < rows {
            count = 0;
        } else {
            count = count.saturating_add(1);
            if count == 1 {
                first = item.piece.first;
            }
            if count >= TOGETHER {
                let replaced = if count == TOGETHER { 2 } else { 1 };
                kept.truncate(kept.len().saturating_sub(replaced));
                shown.piece.first = first;
                shown.piece.backing = Backing::Zero;
                shown.piece.read_only = false;
                shown.count = count;
            }
        }
        kept.push(shown)?;
    }
    Ok(kept)
}
