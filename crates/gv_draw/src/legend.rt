//! What colours stand for.

use crate::colours::{COLOURS, Colours, ZERO};
use crate::history::History;
use crate::lines::MARGIN;
use crate::names::name_of;
use crate::pen::{Area, Pen};
use crate::pixels::{Tenths, width_of};
use std::alloc::Global;

/// The width of a character, in tenths of a pixel.
const EACH: u64 = 78;

/// How far words are from the left side of their sign, and the next sign from them.
const BESIDE: Tenths = Tenths(220);

/// How far apart lines are.
const LINE: Tenths = Tenths(220);

/// A legend as it is written: where the next sign is, the base line of the next line, and the right end of all.
#[derive(Clone, Copy)]
pub struct Legend {
    pub x: Tenths,
    pub y: Tenths,
    pub below: Tenths,
    pub right: Tenths,
}

impl Legend {
    /// Writes the colours of the first buffers, and the signs of zeros and of read-only pages where there are any.
    pub fn write(
        &mut self,
        alloc: Global,
        pen: &mut Pen<'_>,
        history: &History,
        colours: &Colours,
    ) {
        for buffer in colours.order.iter().take(COLOURS) {
            match name_of(alloc, history, *buffer) {
                Ok(name) => self.add(pen, "", colours.look(*buffer).sign, name.as_str()),
                Err(_) => pen.stop(),
            }
        }
        let more = colours.order.len().saturating_sub(COLOURS);
        if more > 0 {
            match format!(in alloc; "and {more} more, in these colours again") {
                Ok(words) => self.add(pen, "", "rx=\"3\" fill=\"none\"", words.as_str()),
                Err(_) => pen.stop(),
            }
        }
        if colours.has_zero {
            self.add(pen, "", ZERO.sign, "zero: no buffer");
        }
        if colours.has_read_only {
            let ground = "rx=\"3\" fill=\"#7c8898\"";
            self.add(pen, ground, "rx=\"3\" fill=\"url(#dots)\"", "read-only");
        }
    }

    /// Writes a sign, on a ground where that has attributes, and its words: in a further line where there is no room for them in
    /// this one, and shortened where a whole line has none.
    fn add(&mut self, pen: &mut Pen<'_>, ground: &str, sign: &str, words: &str) {
        let end = self.x.plus(BESIDE).plus(width_of(words, EACH));
        if end.0 > self.right.0 {
            self.x = MARGIN;
            self.y = self.below;
            self.below = self.below.plus(LINE);
        }
        let area = Area {
            x: self.x,
            y: self.y.minus(Tenths(120)),
            width: Tenths(150),
            height: Tenths(140),
        };
        if !ground.is_empty() {
            pen.rect(&area, ground);
        }
        pen.rect(&area, sign);
        let x = self.x.plus(BESIDE);
        let room = self.right.minus(x).0 / EACH;
        pen.begin_text(x, self.y, "class=\"legend\"");
        let shown = pen.shortened(words, room as usize);
        pen.end_text();
        self.x = x.plus(Tenths(shown.saturating_mul(EACH))).plus(BESIDE);
    }
}
