//! A pen, which writes an SVG.

use crate::pixels::Tenths;
use std::alloc::AllocError;
use std::fmt::Write;

/// A place and an extent.
#[derive(Clone, Copy)]
pub struct Area {
    pub x: Tenths,
    pub y: Tenths,
    pub width: Tenths,
    pub height: Tenths,
}

/// A pen writes at the end of a string. Out of memory, it writes nothing more, and `end` reports that: the compiler rejects a
/// pen that is never ended.
pub struct Pen<'a> {
    out: &'a mut String,
    is_spent: bool,
}

impl<'a> Pen<'a> {
    /// A pen for a string.
    pub fn on(out: &'a mut String) -> Pen<'a> {
        Pen {
            out,
            is_spent: false,
        }
    }

    /// Ends it: an error where it ran out of memory.
    pub fn end(self) -> Result<(), AllocError> {
        let Pen { out: _, is_spent } = self;
        if is_spent { Err(AllocError) } else { Ok(()) }
    }

    /// Has it write nothing more, as there was no memory for what it is to write.
    pub fn stop(&mut self) {
        self.is_spent = true;
    }

    /// Writes markup.
    pub fn push(&mut self, markup: &str) {
        if !self.is_spent {
            self.is_spent = self.out.push_str(markup).is_err();
        }
    }

    /// Writes a number.
    pub fn number(&mut self, number: u64) {
        if !self.is_spent {
            self.is_spent = write!(self.out, "{number}").is_err();
        }
    }

    /// Writes an address in hexadecimal digits.
    pub fn address(&mut self, addr: u64) {
        if !self.is_spent {
            self.is_spent = write!(self.out, "{addr:#x}").is_err();
        }
    }

    /// Writes markup, and after it a length in pixels.
    pub fn length(&mut self, markup: &str, length: Tenths) {
        self.push(markup);
        self.number(length.0 / 10);
        let tenths = length.0 % 10;
        if tenths > 0 {
            self.push(".");
            self.number(tenths);
        }
    }

    /// Writes text: markup in it is escaped, and a space replaces a character that XML has not.
    pub fn text(&mut self, text: &str) {
        for c in text.chars() {
            self.character(c);
        }
    }

    /// Writes a character of text.
    fn character(&mut self, c: char) {
        match c {
            '<' => self.push("&lt;"),
            '>' => self.push("&gt;"),
            '&' => self.push("&amp;"),
            '"' => self.push("&quot;"),
            '\u{0}'..='\u{1f}' | '\u{fffe}' | '\u{ffff}' => self.push(" "),
            _ if self.is_spent => {}
            _ => self.is_spent = self.out.push(c).is_err(),
        }
    }

    /// Writes text of at most this many characters, of a longer one the first and a sign that there are more, and answers how
    /// many it wrote.
    pub fn shortened(&mut self, text: &str, room: usize) -> u64 {
        let count = text.chars().count();
        if count <= room {
            self.text(text);
            return count as u64;
        }
        for c in text.chars().take(room.saturating_sub(1)) {
            self.character(c);
        }
        self.push("…");
        room.max(1) as u64
    }

    /// Writes a rectangle with these further attributes.
    pub fn rect(&mut self, area: &Area, attributes: &str) {
        self.length("<rect x=\"", area.x);
        self.length("\" y=\"", area.y);
        self.length("\" width=\"", area.width);
        self.length("\" height=\"", area.height);
        self.push("\" ");
        self.push(attributes);
        self.push("/>\n");
    }

    /// Writes a line down.
    pub fn upright(&mut self, x: Tenths, top: Tenths, bottom: Tenths, attributes: &str) {
        self.length("<line x1=\"", x);
        self.length("\" y1=\"", top);
        self.length("\" x2=\"", x);
        self.length("\" y2=\"", bottom);
        self.push("\" ");
        self.push(attributes);
        self.push("/>\n");
    }

    /// Begins a text at its left end, or where the attributes say so at its middle or its right end.
    pub fn begin_text(&mut self, x: Tenths, y: Tenths, attributes: &str) {
        self.length("<text x=\"", x);
        self.length("\" y=\"", y);
        self.push("\" ");
        self.push(attributes);
        self.push(">");
    }

    /// Ends a text.
    pub fn end_text(&mut self) {
        self.push("</text>\n");
    }
}
