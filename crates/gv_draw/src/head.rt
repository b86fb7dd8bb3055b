//! What is above the rows of a picture.

use crate::history::History;
use crate::legend::Legend;
use crate::lines::{Block, MARGIN, write_lines};
use crate::pen::Pen;
use crate::picture::Across;
use crate::pixels::{Tenths, address_width, width_of};
use gv_types::OutOfMemory;
use std::alloc::Global;

/// The base line of the heading.
const HEADING: Tenths = Tenths(400);

/// The base line of the legend's first line.
const LEGEND: Tenths = Tenths(390);

/// The base line of the first line below the heading.
const UNDER: Tenths = Tenths(620);

/// How far below the last of those lines the second one of the legend is.
const BELOW_UNDER: Tenths = Tenths(220);

/// How far above the rows a further line of the legend would be.
const ABOVE_ROWS: Tenths = Tenths(780);

/// The width of a character of the heading, in tenths of a pixel.
const EACH: u64 = 132;

/// What is above the rows: the heading, the legend beside it, and a line below, each in as many lines as it takes.
pub fn head_of(
    alloc: Global,
    history: &History,
    across: &Across,
    width: Tenths,
) -> Result<Block, OutOfMemory> {
    let mut under = String::new(alloc);
    let mut pen = Pen::on(&mut under);
    write_under(&mut pen, history.at, across.axis.is_to_scale);
    pen.end()?;
    let mut svg = String::new(alloc);
    let mut pen = Pen::on(&mut svg);
    let x = write_heading(&mut pen, history.at);
    let y = write_lines(&mut pen, under.as_str(), width, UNDER, "class=\"under\"");
    let mut legend = Legend {
        x,
        y: LEGEND,
        below: y.plus(BELOW_UNDER),
        right: width.minus(MARGIN),
    };
    legend.write(alloc, &mut pen, history, &across.colours);
    pen.end()?;
    Ok(Block {
        svg,
        bottom: legend.below.plus(ABOVE_ROWS),
    })
}

/// Writes the heading, and answers where the legend begins beside it.
fn write_heading(pen: &mut Pen<'_>, at: Option<u64>) -> Tenths {
    let (words, addr_width) = match at {
        Some(addr) => ("Around ", address_width(addr, EACH)),
        None => ("One address space over time", Tenths(0)),
    };
    pen.begin_text(MARGIN, HEADING, "class=\"heading\"");
    pen.push(words);
    if let Some(addr) = at {
        pen.address(addr);
    }
    pen.end_text();
    Tenths(600).plus(width_of(words, EACH)).plus(addr_width)
}

/// Writes what the rows and what their places across mean, as text.
fn write_under(pen: &mut Pen<'_>, at: Option<u64>, is_to_scale: bool) {
    match at {
        Some(addr) => {
            pen.push("Down: each request that changed a page near ");
            pen.address(addr);
            pen.push(", and what is mapped near it afterwards. ");
        }
        None => pen.push("Down: each request, and what is mapped after it. "),
    }
    pen.push(if is_to_scale {
        "Across: addresses, pages to scale, unused gaps cut out."
    } else {
        "Across: addresses, not to scale: widths grow with the logarithm of sizes; unused gaps cut out."
    });
}
