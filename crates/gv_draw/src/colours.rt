//! How boxes look. The colours of buffers are those of Okabe and Ito, which the colour-blind tell apart.

use crate::boxes::Boxed;
use gv_types::{Backing, OutOfMemory};
use std::alloc::Global;
use std::collections::BTreeMap;

/// How a box looks, as parts of an SVG.
#[derive(Clone, Copy)]
pub struct Look {
    /// The attributes of its sign in the legend.
    pub sign: &'static str,
    /// Its own attributes.
    pub shape: &'static str,
    /// What comes before the ground of its text, before its text, and after it.
    pub ground: &'static str,
    pub text: &'static str,
}

/// The look of a box with this filling, this edge, this ground of its text, and this colour of its text.
macro_rules! look {
    ($fill:literal, $edge:literal, $ground:literal, $text:literal) => {
        Look {
            sign: concat!("rx=\"3\" fill=\"", $fill, "\""),
            shape: concat!("rx=\"3\" fill=\"", $fill, "\" stroke=\"", $edge, "\""),
            ground: concat!("<g fill=\"", $ground, "\">"),
            text: concat!("</g><g fill=\"", $text, "\">"),
        }
    };
}

/// Zeros.
pub static ZERO: Look = look!("url(#zero)", "#9aa6b5", "#eef1f4", "#3b4654");

/// Mappings that are drawn together.
pub static MANY: Look = look!("#d5dbe3", "#9aa6b5", "#d5dbe3", "#3b4654");

/// How many colours there are before they come again.
pub const COLOURS: usize = 7;

/// Buffers, in the order in which they come.
static LOOKS: [Look; COLOURS] = [
    look!("#0072b2", "none", "#0072b2", "#ffffff"),
    look!("#e69f00", "none", "#e69f00", "#1b2430"),
    look!("#009e73", "none", "#009e73", "#ffffff"),
    look!("#cc79a7", "none", "#cc79a7", "#1b2430"),
    look!("#56b4e9", "none", "#56b4e9", "#1b2430"),
    look!("#d55e00", "none", "#d55e00", "#ffffff"),
    look!("#5b6675", "none", "#5b6675", "#ffffff"),
];

/// The buffers of a picture in the order in which they come, each with its index in it, and whether the picture has zeros and
/// read-only pages.
#[derive(Drop)]
pub struct Colours {
    indices: BTreeMap<u64, usize>,
    pub order: Vec<u64>,
    pub has_zero: bool,
    pub has_read_only: bool,
}

impl Colours {
    /// Those of these boxes, from the top row down and from the lowest address up.
    pub fn of(alloc: Global, boxes: &[Boxed]) -> Result<Colours, OutOfMemory> {
        let mut colours = Colours {
            indices: BTreeMap::new(alloc),
            order: Vec::new(alloc),
            has_zero: false,
            has_read_only: false,
        };
        let mut seen = Vec::new(alloc);
        for item in boxes {
            colours.has_read_only |= item.piece.read_only;
            match item.piece.backing {
                Backing::Buffer { id, .. } => {
                    seen.push((item.top, item.piece.first, id.generation.get()))?;
                }
                Backing::Zero => colours.has_zero |= item.count == 1,
            }
        }
        seen.sort_unstable();
        for (_, _, buffer) in &seen {
            colours.add(*buffer)?;
        }
        Ok(colours)
    }

    fn add(&mut self, buffer: u64) -> Result<(), OutOfMemory> {
        if !self.indices.contains_key(&buffer) {
            self.indices.insert(buffer, self.order.len())?;
            self.order.push(buffer)?;
        }
        Ok(())
    }

    /// The look of a buffer.
    pub fn look(&self, buffer: u64) -> &'static Look {
        let index = self.indices.get(&buffer).copied().unwrap_or(0);
        &LOOKS[index % COLOURS]
    }
}
