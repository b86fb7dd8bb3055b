//! Breaks texts into lines that fit the width of a picture.

use crate::pen::Pen;
use crate::pixels::Tenths;

/// How far texts stay from both sides.
pub const MARGIN: Tenths = Tenths(280);

/// How far apart lines are.
const LINE: Tenths = Tenths(180);

/// The width of a character, in tenths of a pixel.
const EACH: u64 = 70;

/// Lines of a picture as an SVG, and where what is below them begins.
#[derive(Drop)]
pub struct Block {
    pub svg: String,
    pub bottom: Tenths,
}

/// Writes a text in lines, cut at its spaces, as a picture of this width has room for them. The first one has this base line;
/// the answer is that of the last one.
pub fn write_lines(
    pen: &mut Pen<'_>,
    words: &str,
    width: Tenths,
    first: Tenths,
    attributes: &str,
) -> Tenths {
    let room = width.minus(MARGIN).minus(MARGIN).0 / EACH;
    let mut y = first;
    let mut used: u64 = 0;
    pen.begin_text(MARGIN, y, attributes);
    for word in words.split(' ') {
        let count = word.chars().count() as u64;
        if used > 0 {
            let wider = used.saturating_add(1).saturating_add(count);
            if wider <= room {
                pen.push(" ");
                used = used.saturating_add(1);
            } else {
                pen.end_text();
                y = y.plus(LINE);
                pen.begin_text(MARGIN, y, attributes);
                used = 0;
            }
        }
        pen.text(word);
        used = used.saturating_add(count);
    }
    pen.end_text();
    y
}
