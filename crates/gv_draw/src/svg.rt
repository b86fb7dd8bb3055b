//! Text in an SVG.

use crate::pen::Pen;
use std::alloc::AllocError;

/// Writes text so that it is text in an SVG: what would be markup is escaped, and characters that XML has not are left out.
pub fn write_escaped(out: &mut String, text: &str) -> Result<(), AllocError> {
    let mut pen = Pen::on(out);
    pen.text(text);
    pen.end()
}
