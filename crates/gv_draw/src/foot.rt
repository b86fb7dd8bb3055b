//! What is below the rows of a picture.

use crate::history::History;
use crate::lines::{Block, write_lines};
use crate::pen::Pen;
use crate::pixels::Tenths;
use crate::row::{Row, RowKind};
use crate::rows::Rows;
use crate::sizes::write_count;
use gv_types::OutOfMemory;
use std::alloc::Global;

/// How far below the rows the first line is.
const BELOW_ROWS: Tenths = Tenths(460);

/// How far above the lower end of the picture the last line is.
const ABOVE_END: Tenths = Tenths(160);

/// What is below the rows: what signs mean, and how many boxes and rows are left out.
pub fn foot_of(
    alloc: Global,
    history: &History,
    boxes_left_out: u64,
    rows: &Rows,
    width: Tenths,
) -> Result<Block, OutOfMemory> {
    let mut notes = String::new(alloc);
    let mut pen = Pen::on(&mut notes);
    write_notes(&mut pen, history, boxes_left_out, rows.has_tables);
    pen.end()?;
    let mut svg = String::new(alloc);
    let mut pen = Pen::on(&mut svg);
    let y = rows.bottom.plus(BELOW_ROWS);
    let y = write_lines(&mut pen, notes.as_str(), width, y, "class=\"foot\"");
    pen.end()?;
    Ok(Block {
        svg,
        bottom: y.plus(ABOVE_END),
    })
}

/// Writes what the signs mean, and how many boxes and rows are left out, as text.
fn write_notes(pen: &mut Pen<'_>, history: &History, boxes_left_out: u64, has_tables: bool) {
    let shown = history.rows.len() as u64;
    if shown == 0 {
        return pen.push(match history.at {
            Some(_) => "No request changed anything near the address.",
            None => "The script has no request.",
        });
    }
    if history.at.is_none() {
        pen.push("A number is the journal's entry. ");
    }
    pen.push("A seam between boxes of one colour is a split: nothing is joined to a neighbour. ");
    pen.push(if has_freed(&history.rows) {
        "Yellow rows take something back, red ones are refused or free memory. "
    } else {
        "Yellow rows take something back, red ones are refused. "
    });
    if has_tables {
        pen.push("tables: how many of the levels 4 to 0. ");
    }
    let left_out = history.len().saturating_sub(shown);
    if left_out > 0 {
        pen.number(shown);
        pen.push(" of ");
        pen.number(history.len());
        pen.push(" rows are shown, those that matter most: ");
        pen.number(left_out);
        pen.push(" are left out. ");
    }
    if boxes_left_out > 0 {
        write_count(pen, boxes_left_out, "box");
        pen.push("es are left out. ");
    }
}

/// Whether some row shows memory that was freed.
fn has_freed(rows: &[Row]) -> bool {
    for row in rows {
        if let RowKind::Freed = row.content.kind {
            return true;
        }
    }
    false
}
