//! The horizontal axis: where each page is drawn, and which gaps are cut out.

use crate::boxes::{Boxed, Boxes};
use crate::pixels::{Tenths, share};
use gv_types::{OutOfMemory, PAGE_BYTES};
use std::alloc::Global;

/// The greatest width of a cut, in tenths of a pixel.
const CUT: u64 = 340;

/// The greatest width of mappings that are drawn together, in tenths of a pixel.
const MANY: u64 = 900;

/// Where mapped pages would be narrower, in tenths of a pixel, the picture isn't to scale.
const LEAST: u64 = 40;

/// What stands at pages across.
#[derive(Clone, Copy, PartialEq, Eq)]
pub enum Kind {
    /// Something is mapped there at some row.
    Used,
    /// Nothing is, and it is short enough to be drawn.
    Open,
    /// Nothing is, and it is cut out.
    Cut,
    /// Mappings that no row changes, drawn together.
    Many,
}

/// Pages between two boundaries, and where they stand.
#[derive(Clone, Copy)]
pub struct Segment {
    pub first: u64,
    pub end: u64,
    pub kind: Kind,
    pub x: Tenths,
    pub width: Tenths,
}

/// The widths of a cut and of mappings drawn together; what is left for all others, and the sum of their weights.
#[derive(Clone, Copy)]
struct Scale {
    cut: u64,
    many: u64,
    rest: u64,
    weights: u64,
    is_linear: bool,
}

/// Where addresses stand across: from the left to the right end, in tenths of a pixel, or to where the last segment ends.
#[derive(Drop)]
pub struct Axis {
    pub segments: Vec<Segment>,
    left: u64,
    right: u64,
    end: u64,
    pub is_to_scale: bool,
}

impl Segment {
    fn pages(&self) -> u64 {
        self.end.saturating_sub(self.first)
    }
}

impl Scale {
    /// The width that a segment has whatever others weigh, and what it weighs: its pages, or where the picture isn't to scale,
    /// their logarithm.
    fn parts(&self, segment: &Segment) -> (u64, u64) {
        match segment.kind {
            Kind::Cut => (self.cut, 0),
            Kind::Many => (self.many, 0),
            _ if self.is_linear => (0, segment.pages()),
            _ => {
                let doublings = segment.pages().max(1).ilog2();
                (0, u64::from(doublings).saturating_mul(2).saturating_add(3))
            }
        }
    }

    /// The width of what weighs so much.
    fn width(&self, weight: u64) -> u64 {
        share(self.rest, weight, self.weights)
    }
}

impl Axis {
    /// The axis of these boxes between two places in tenths of a pixel. With an address, in bytes, its page stands there
    /// whatever is mapped.
    pub fn new(
        alloc: Global,
        boxes: &Boxes,
        at: Option<u64>,
        left: Tenths,
        right: Tenths,
    ) -> Result<Axis, OutOfMemory> {
        let mut axis = Axis {
            segments: segments_of(alloc, &boxes.items, at)?,
            left: left.0,
            right: right.0,
            end: left.0,
            is_to_scale: true,
        };
        axis.open_gaps();
        axis.is_to_scale = axis.are_wide();
        axis.place();
        Ok(axis)
    }

    /// How wide the segments become, as they are.
    fn scale(&self) -> Scale {
        let area = self.right.saturating_sub(self.left);
        let mut scale = Scale {
            cut: CUT.min(area / 4 / self.count(Kind::Cut).max(1)),
            many: MANY.min(area / 3 / self.count(Kind::Many).max(1)),
            rest: area,
            weights: 0,
            is_linear: self.is_to_scale,
        };
        for segment in &self.segments {
            let (fixed, weight) = scale.parts(segment);
            scale.rest = scale.rest.saturating_sub(fixed);
            scale.weights = scale.weights.saturating_add(weight);
        }
        scale
    }

    fn count(&self, kind: Kind) -> u64 {
        let mut count: u64 = 0;
        for segment in &self.segments {
            if segment.kind == kind {
                count = count.saturating_add(1);
            }
        }
        count
    }

    /// Opens the gaps that to scale would take no more than a cut.
    fn open_gaps(&mut self) {
        let scale = self.scale();
        for segment in self.segments.iter_mut() {
            if segment.kind == Kind::Cut && scale.width(segment.pages()) <= scale.cut {
                segment.kind = Kind::Open;
            }
        }
    }

    /// Whether to scale all segments are wide enough at which something is mapped.
    fn are_wide(&self) -> bool {
        let scale = self.scale();
        for segment in &self.segments {
            if segment.kind == Kind::Used && scale.width(segment.pages()) < LEAST {
                return false;
            }
        }
        true
    }

    /// Gives each segment its place.
    fn place(&mut self) {
        let scale = self.scale();
        let mut fixed = self.left;
        let mut weights: u64 = 0;
        let mut x = self.left;
        for segment in self.segments.iter_mut() {
            let (more, weight) = scale.parts(segment);
            fixed = fixed.saturating_add(more);
            weights = weights.saturating_add(weight);
            let end = fixed.saturating_add(scale.width(weights));
            segment.x = Tenths(x);
            segment.width = Tenths(end.saturating_sub(x));
            x = end;
        }
        self.end = x;
    }

    /// Where a page begins.
    pub fn x_of(&self, page: u64) -> Tenths {
        self.x_of_byte(page.saturating_mul(PAGE_BYTES))
    }

    /// Where a byte stands.
    pub fn x_of_byte(&self, byte: u64) -> Tenths {
        let page = byte / PAGE_BYTES;
        let place = self.segments.partition_point(|segment| segment.end <= page);
        let Some(segment) = self.segments.get(place) else {
            return Tenths(self.end);
        };
        let pages = page.saturating_sub(segment.first);
        let within = share(segment.width.0, pages, segment.pages());
        let next = share(segment.width.0, pages.saturating_add(1), segment.pages());
        let part = share(next.saturating_sub(within), byte % PAGE_BYTES, PAGE_BYTES);
        segment.x.plus(Tenths(within)).plus(Tenths(part))
    }
}

/// The segments between the boundaries of boxes, and of the page of an address.
fn segments_of(
    alloc: Global,
    boxes: &[Boxed],
    at: Option<u64>,
) -> Result<Vec<Segment>, OutOfMemory> {
    let points = points_of(alloc, boxes, at)?;
    let mut segments = Vec::new(alloc);
    let mut first = u64::MAX;
    let mut used: u64 = 0;
    let mut is_many = false;
    for (place, end, begins_many) in &points {
        if first < *place {
            segments.push(Segment {
                first,
                end: *place,
                kind: if is_many {
                    Kind::Many
                } else if first < used {
                    Kind::Used
                } else {
                    Kind::Cut
                },
                x: Tenths(0),
                width: Tenths(0),
            })?;
            is_many = false;
        }
        first = *place;
        used = used.max(*end);
        is_many |= *begins_many;
    }
    Ok(segments)
}

/// The boundaries of boxes and of a page, ascending, each with the end of what begins there, and whether that is mappings
/// drawn together.
fn points_of(
    alloc: Global,
    boxes: &[Boxed],
    at: Option<u64>,
) -> Result<Vec<(u64, u64, bool)>, OutOfMemory> {
    let mut points = Vec::new(alloc);
    for item in boxes {
        points.push((item.piece.first, item.piece.end, item.count > 1))?;
        points.push((item.piece.end, 0, false))?;
    }
    if let Some(addr) = at {
        let page = addr / PAGE_BYTES;
        points.push((page, page.saturating_add(1), false))?;
        points.push((page.saturating_add(1), 0, false))?;
    }
    points.sort_unstable();
    Ok(points)
}
