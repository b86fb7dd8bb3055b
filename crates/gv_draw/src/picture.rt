//! A whole picture.

use crate::axis::Axis;
use crate::boxes::Boxes;
use crate::choice::choose;
use crate::colours::Colours;
use crate::foot::foot_of;
use crate::head::head_of;
use crate::history::History;
use crate::lines::Block;
use crate::options::Options;
use crate::pen::{Area, Pen};
use crate::pixels::Tenths;
use crate::rows::{Rows, counts_width};
use crate::style::{PATTERNS, STYLE};
use gv_types::OutOfMemory;
use std::alloc::Global;

/// Where the axis begins.
const LEFT: Tenths = Tenths(3920);

/// How much room there is right of it at least.
const RIGHT: Tenths = Tenths(2000);

/// How far the counts are from it.
const COUNTS: Tenths = Tenths(240);

/// Writes the picture of a history as an SVG: addresses across, rows down. At most 200 rows are shown, those that matter
/// most, and how many are left out.
pub fn write_picture(
    alloc: Global,
    history: &mut History,
    options: &Options,
    out: &mut String,
) -> Result<(), OutOfMemory> {
    choose(alloc, &mut history.rows, &mut history.stood)?;
    write_chosen(alloc, history, options, out)
}

/// Writes the picture of the rows that are chosen.
fn write_chosen(
    alloc: Global,
    history: &History,
    options: &Options,
    out: &mut String,
) -> Result<(), OutOfMemory> {
    let picture = Picture::of(alloc, history, Tenths(options.pixels().saturating_mul(10)))?;
    let mut pen = Pen::on(out);
    picture.write(&mut pen);
    pen.end()?;
    Ok(())
}

/// What a picture shows across: boxes, where addresses are, the colours of buffers, and where the counts begin.
#[derive(Drop)]
pub struct Across {
    pub boxes: Boxes,
    pub axis: Axis,
    pub colours: Colours,
    pub counts: Tenths,
}

impl Across {
    /// Those of a history in a picture of this width.
    fn of(alloc: Global, history: &History, width: Tenths) -> Result<Across, OutOfMemory> {
        let counts = counts_width(alloc, history)?;
        let right = width.minus(Tenths(COUNTS.plus(counts).0.max(RIGHT.0)));
        let boxes = Boxes::of(alloc, history)?;
        let axis = Axis::new(alloc, &boxes, history.at, LEFT, right)?;
        let colours = Colours::of(alloc, &boxes.items)?;
        Ok(Across {
            boxes,
            axis,
            colours,
            counts: right.plus(COUNTS),
        })
    }
}

/// All that a picture of a history shows, and where it stands.
#[derive(Drop)]
pub struct Picture<'a> {
    pub alloc: Global,
    pub history: &'a History,
    pub across: Across,
    pub rows: Rows,
    width: Tenths,
    head: Block,
    foot: Block,
}

impl<'a> Picture<'a> {
    /// That of a history, in a picture of this width.
    fn of(alloc: Global, history: &'a History, width: Tenths) -> Result<Picture<'a>, OutOfMemory> {
        let across = Across::of(alloc, history, width)?;
        let head = head_of(alloc, history, &across, width)?;
        let rows = Rows::new(alloc, history, head.bottom)?;
        let foot = foot_of(alloc, history, across.boxes.left_out, &rows, width)?;
        Ok(Picture {
            alloc,
            history,
            across,
            rows,
            width,
            head,
            foot,
        })
    }

    /// Writes the picture.
    fn write(&self, pen: &mut Pen<'_>) {
        let area = Area {
            x: Tenths(0),
            y: Tenths(0),
            width: self.width,
            height: self.foot.bottom,
        };
        pen.push("<svg xmlns=\"http://www.w3.org/2000/svg\"");
        pen.length(" width=\"", area.width);
        pen.length("\" height=\"", area.height);
        pen.length("\" viewBox=\"0 0 ", area.width);
        pen.length(" ", area.height);
        pen.push("\">\n");
        pen.push(STYLE);
        pen.push(PATTERNS);
        pen.rect(&area, "fill=\"#ffffff\"");
        pen.push(self.head.svg.as_str());
        self.rows.write_grounds(pen, &self.history.rows, self.width);
        self.write_boundaries(pen);
        for item in &self.across.boxes.items {
            self.write_box(pen, item);
        }
        self.write_cuts(pen);
        self.write_addresses(pen);
        self.write_texts(pen);
        if let Some(addr) = self.history.at {
            self.write_at(pen, addr);
        }
        pen.push(self.foot.svg.as_str());
        pen.push("</svg>\n");
    }
}
