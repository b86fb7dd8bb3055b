//! The rows of a picture: where they stand, and their backgrounds.

use crate::history::History;
use crate::pen::{Area, Pen};
use crate::pixels::{Tenths, width_of};
use crate::row::Row;
use crate::texts::{write_tables, write_usage};
use gv_types::OutOfMemory;
use std::alloc::Global;

/// Up to how many rows each has room for two lines of text.
const ROOMY: usize = 40;

/// How high a note of rows left out is.
const NOTE: Tenths = Tenths(180);

/// The attributes of the ground of every second row that has none of its own.
const STRIPE: &str = "fill=\"#f7f9fb\"";

/// Where rows stand: their tops, how high each is, how far below its top a text in its middle is, and the lowest end. Roomy
/// ones have room for two lines of text, and these for the counts of tables, if there are any.
#[derive(Drop)]
pub struct Rows {
    tops: Vec<Tenths>,
    height: Tenths,
    pub middle: Tenths,
    pub is_roomy: bool,
    pub has_tables: bool,
    pub top: Tenths,
    pub bottom: Tenths,
}

impl Rows {
    /// The rows of a history from a place down. Above each row behind which others are left out there is room for a note of it.
    pub fn new(alloc: Global, history: &History, top: Tenths) -> Result<Rows, OutOfMemory> {
        let is_roomy = history.rows.len() <= ROOMY;
        let height = if is_roomy { Tenths(400) } else { Tenths(240) };
        let mut tops = Vec::new(alloc);
        let mut y = top;
        let mut next: u64 = 0;
        for row in &history.rows {
            if row.serial > next {
                y = y.plus(NOTE);
            }
            tops.push(y)?;
            y = y.plus(height);
            next = row.serial.saturating_add(1);
        }
        Ok(Rows {
            tops,
            height,
            middle: Tenths(height.0 / 2).plus(Tenths(40)),
            is_roomy,
            has_tables: is_roomy && history.at.is_none(),
            top,
            bottom: y,
        })
    }

    /// The top of a row.
    pub fn top_of(&self, row: usize) -> Tenths {
        self.tops.get(row).copied().unwrap_or(self.top)
    }

    /// The lower end of the row before one.
    pub fn bottom_before(&self, row: usize) -> Tenths {
        self.top_of(row.saturating_sub(1)).plus(self.height)
    }

    /// Writes what stands behind the rows, from the left to the right end.
    pub fn write_grounds(&self, pen: &mut Pen<'_>, rows: &[Row], width: Tenths) {
        for (place, row) in rows.iter().enumerate() {
            let area = Area {
                x: Tenths(0),
                y: self.top_of(place),
                width,
                height: self.height,
            };
            let ground = row.content.kind.look().ground;
            if !ground.is_empty() {
                pen.rect(&area, ground);
            } else if place % 2 == 1 {
                pen.rect(&area, STRIPE);
            }
        }
    }
}

/// The width of a character of what stood after a row, in tenths of a pixel.
const COUNT_EACH: u64 = 75;

/// The width of a character of its tables, in tenths of a pixel.
const TABLES_EACH: u64 = 66;

/// How much room what stood after the rows takes, with some behind it: the counts of tables only where rows have room for them.
pub fn counts_width(alloc: Global, history: &History) -> Result<Tenths, OutOfMemory> {
    let has_tables = history.at.is_none() && history.rows.len() <= ROOMY;
    let mut most: u64 = 0;
    for row in &history.rows {
        let mut text = String::new(alloc);
        let mut pen = Pen::on(&mut text);
        write_usage(&mut pen, row);
        pen.push("\n");
        if has_tables {
            write_tables(&mut pen, row);
        }
        pen.end()?;
        if let Some((stood, tables)) = text.as_str().split_once("\n") {
            most = most.max(width_of(stood, COUNT_EACH).0);
            most = most.max(width_of(tables, TABLES_EACH).0);
        }
    }
    // Whole pixels.
    Ok(Tenths((most / 10).saturating_add(8).saturating_mul(10)))
}
