//! Boundaries, cuts and addresses as they are drawn.

use crate::axis::{Kind, Segment};
use crate::pen::Pen;
use crate::picture::Picture;
use crate::pixels::{Tenths, width_of};
use crate::sizes::write_size;
use gv_types::PAGE_BYTES;

/// From this width on each page has a line, in tenths of a pixel.
const PAGE_LINES: u64 = 180;

/// How far apart the lines of boundaries are at least.
const LINES_APART: Tenths = Tenths(80);

/// The width of a character of a cut's size, in tenths of a pixel.
const CUT_EACH: u64 = 64;

/// How far apart addresses are at least.
const APART: Tenths = Tenths(130);

/// How far above the rows the line at an address begins.
const TICK: Tenths = Tenths(80);

impl<'a> Picture<'a> {
    /// Writes the line at each boundary, and at each page where pages are wide.
    pub fn write_boundaries(&self, pen: &mut Pen<'_>) {
        let mut next = Tenths(0);
        for segment in &self.across.axis.segments {
            if segment.kind != Kind::Cut && segment.x.0 >= next.0 {
                self.write_upright(pen, segment.x);
                self.write_upright(pen, segment.x.plus(segment.width));
                self.write_pages(pen, segment);
                next = segment.x.plus(LINES_APART);
            }
        }
    }

    /// Writes a line at each page of a segment in which pages are wide.
    fn write_pages(&self, pen: &mut Pen<'_>, segment: &Segment) {
        let pages = segment.end.saturating_sub(segment.first);
        let is_wide = segment.width.0 / pages.max(1) >= PAGE_LINES;
        if pages > 1 && is_wide && self.across.axis.is_to_scale {
            for page in segment.first..segment.end {
                self.write_upright(pen, self.across.axis.x_of(page));
            }
        }
    }

    fn write_upright(&self, pen: &mut Pen<'_>, x: Tenths) {
        pen.upright(x, self.rows.top, self.rows.bottom, "class=\"grid\"");
    }

    /// Writes the cuts.
    pub fn write_cuts(&self, pen: &mut Pen<'_>) {
        let mut last = Tenths(0);
        for segment in &self.across.axis.segments {
            if segment.kind == Kind::Cut {
                last = self.write_cut(pen, segment, last);
            }
        }
    }

    /// Writes a cut: a zigzag down, and below it how much is cut out, if that isn't before a place. It answers where the next
    /// text may begin.
    fn write_cut(&self, pen: &mut Pen<'_>, segment: &Segment, last: Tenths) -> Tenths {
        let middle = segment.x.plus(Tenths(segment.width.0 / 2));
        self.write_zigzag(pen, middle);
        let mut size = String::new(self.alloc);
        let mut words = Pen::on(&mut size);
        write_size(&mut words, segment.end.saturating_sub(segment.first));
        if words.end().is_err() {
            pen.stop();
        }
        let half = Tenths(width_of(size.as_str(), CUT_EACH).0 / 2);
        if middle.0 < last.plus(half).0 {
            return last;
        }
        let y = self.rows.bottom.plus(Tenths(160));
        pen.begin_text(middle, y, "class=\"cut\" text-anchor=\"middle\"");
        pen.push(size.as_str());
        pen.end_text();
        middle.plus(half).plus(Tenths(60))
    }

    fn write_zigzag(&self, pen: &mut Pen<'_>, middle: Tenths) {
        let turns = self.rows.bottom.minus(self.rows.top).0 / 60;
        pen.length("<path d=\"M", middle);
        pen.length(" ", self.rows.top);
        for turn in 0..turns {
            pen.push(if turn % 2 == 0 { "l4 6" } else { "l-4 6" });
        }
        pen.push("\" class=\"zigzag\"/>\n");
    }

    /// Writes the addresses of boundaries, as many as there is room for.
    pub fn write_addresses(&self, pen: &mut Pen<'_>) {
        let mut next = Tenths(0);
        for segment in &self.across.axis.segments {
            if segment.kind != Kind::Cut {
                next = self.write_address(pen, segment.x, next, segment.first);
                let end = segment.x.plus(segment.width);
                next = self.write_address(pen, end, next, segment.end);
            }
        }
    }

    /// Writes a page's address where it stands, if that isn't before a place, and answers where the next one may stand.
    fn write_address(&self, pen: &mut Pen<'_>, x: Tenths, next: Tenths, page: u64) -> Tenths {
        if x.0 < next.0 {
            return next;
        }
        let top = self.rows.top;
        pen.upright(x, top.minus(TICK), top, "class=\"tick\"");
        pen.push("<text class=\"addr\"");
        pen.length(" transform=\"translate(", x.plus(Tenths(40)));
        pen.length(" ", top.minus(Tenths(110)));
        pen.push(") rotate(-50)\">");
        pen.address(page.saturating_mul(PAGE_BYTES));
        pen.end_text();
        x.plus(APART)
    }

    /// Writes the red line at the address around which the picture is drawn, and that address below it.
    pub fn write_at(&self, pen: &mut Pen<'_>, addr: u64) {
        let x = self.across.axis.x_of_byte(addr);
        let top = self.rows.top;
        let bottom = self.rows.bottom.plus(Tenths(60));
        let stroke = "stroke=\"#c8102e\" stroke-width=\"2\"";
        pen.upright(x, top.minus(TICK), bottom, stroke);
        pen.length("<path d=\"M", x);
        pen.length(" ", top.minus(Tenths(100)));
        pen.push("l-6 -9h12z\" fill=\"#c8102e\"/>\n");
        let attributes =
            "class=\"legend\" text-anchor=\"middle\" style=\"fill:#c8102e;font-weight:bold\"";
        pen.begin_text(x, bottom.plus(Tenths(160)), attributes);
        pen.address(addr);
        pen.end_text();
    }
}
