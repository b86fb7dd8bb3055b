//! Boxes as they are drawn.

use crate::boxes::Boxed;
use crate::colours::{Look, MANY, ZERO};
use crate::names::name_of;
use crate::pen::{Area, Pen};
use crate::picture::Picture;
use crate::pixels::{Tenths, address_width, width_of};
use gv_types::{Backing, PAGE_BYTES};
use std::alloc::AllocError;

/// The width of a character of a box's text, in tenths of a pixel.
const EACH: u64 = 72;

/// How far a box's text is from its left side, and from both sides together.
const INSET: Tenths = Tenths(70);

const INSETS: Tenths = Tenths(100);

/// From this height on a box has room for two lines of text, and from the other on for two that are further apart.
const HIGH: u64 = 440;

/// What a box shows: its look, its name, and the byte of its buffer that it begins at.
#[derive(Drop)]
struct Face {
    look: &'static Look,
    name: String,
    start: Option<u64>,
}

/// Words of a box's text: a name, and the byte that a box begins at.
#[derive(Clone, Copy)]
struct Words<'a> {
    name: &'a str,
    start: Option<u64>,
}

impl<'a> Picture<'a> {
    /// What a box shows.
    fn face(&self, item: &Boxed) -> Result<Face, AllocError> {
        let mut start = None;
        let mut look = &ZERO;
        let name = match item.piece.backing {
            _ if item.count > 1 => {
                let count = item.count;
                look = &MANY;
                format!(in self.alloc; "{count} mappings")?
            }
            Backing::Buffer { id, page } => {
                let buffer = id.generation.get();
                look = self.across.colours.look(buffer);
                start = Some(page.saturating_mul(PAGE_BYTES));
                name_of(self.alloc, self.history, buffer)?
            }
            Backing::Zero => String::from_str(self.alloc, "zero")?,
        };
        Ok(Face { look, name, start })
    }

    /// Where a box stands.
    fn area(&self, item: &Boxed) -> Area {
        let x = self.across.axis.x_of(item.piece.first);
        let y = self.rows.top_of(item.top).plus(Tenths(20));
        let bottom = self.rows.bottom_before(item.bottom).minus(Tenths(20));
        let width = self.across.axis.x_of(item.piece.end).minus(x);
        Area {
            x,
            y,
            width: if width.0 > 20 {
                width.minus(Tenths(8))
            } else {
                width
            },
            height: bottom.minus(y),
        }
    }

    /// Writes a box: its area, dots where it is read-only, its text, and more text for who points at it.
    pub fn write_box(&self, pen: &mut Pen<'_>, item: &Boxed) {
        let Ok(face) = self.face(item) else {
            return pen.stop();
        };
        let area = self.area(item);
        write_tip(pen, item, &face);
        pen.rect(&area, face.look.shape);
        if item.piece.read_only {
            pen.rect(&area, "rx=\"3\" fill=\"url(#dots)\"");
        }
        self.write_caption(pen, &area, &face);
        pen.push("</g>\n");
    }

    /// Writes a box's name, and the byte of it that it begins at, as far as there is room.
    fn write_caption(&self, pen: &mut Pen<'_>, area: &Area, face: &Face) {
        let room = area.width.minus(INSETS).0;
        let y = area
            .y
            .plus(Tenths(if self.rows.is_roomy { 220 } else { 140 }));
        let name = face.name.as_str();
        let start = face.start;
        let whole = Words { name, start };
        if whole.width().0 <= room {
            return whole.write(pen, face.look, area.x, y);
        }
        let name = Words { name, start: None };
        if name.width().0 > room {
            return;
        }
        name.write(pen, face.look, area.x, y);
        let is_high = area.height.0 >= HIGH;
        let start = Words { name: "", start };
        if (is_high || self.rows.is_roomy) && start.width().0 <= room {
            let y = y.plus(Tenths(if is_high { 160 } else { 120 }));
            start.write(pen, face.look, area.x, y);
        }
    }
}

/// Writes all that a box shows, in one line, as the title of the group of its parts, which begins.
fn write_tip(pen: &mut Pen<'_>, item: &Boxed, face: &Face) {
    pen.push("<g><title>");
    pen.address(item.piece.first.saturating_mul(PAGE_BYTES));
    pen.push(" ");
    pen.address(item.piece.end.saturating_mul(PAGE_BYTES));
    pen.push(" ");
    pen.text(face.name.as_str());
    if let Some(byte) = face.start {
        pen.push(" ");
        pen.address(byte);
    }
    if item.count == 1 {
        pen.push(if item.piece.read_only { " ro" } else { " rw" });
    }
    pen.push("</title>\n");
}

impl<'a> Words<'a> {
    fn width(&self) -> Tenths {
        let name = width_of(self.name, EACH);
        match self.start {
            Some(byte) => name.plus(address_width(byte, EACH)).plus(Tenths(EACH)),
            None => name,
        }
    }

    /// Writes them in a box that begins at a place, on a ground of its colour.
    fn write(&self, pen: &mut Pen<'_>, look: &Look, left: Tenths, y: Tenths) {
        let x = left.plus(INSET);
        let ground = Area {
            x: x.minus(Tenths(20)),
            y: y.minus(Tenths(110)),
            width: self.width().plus(Tenths(30)),
            height: Tenths(150),
        };
        pen.push(look.ground);
        pen.rect(&ground, "rx=\"2\"");
        pen.push(look.text);
        pen.begin_text(x, y, "class=\"box\"");
        pen.text(self.name);
        if let Some(byte) = self.start {
            pen.push("@");
            pen.address(byte);
        }
        pen.end_text();
        pen.push("</g>\n");
    }
}
