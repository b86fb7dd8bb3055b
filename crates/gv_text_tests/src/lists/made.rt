//! Texts by chance, from a seed: lists of both kinds, some of them out of order, and some with lines that are no mappings.

use gv_lines::write_hex;
use gv_model::Random;
use std::alloc::{AllocError, Global};

/// Some texts, one of which is drawn.
type Words = &'static [&'static str];

/// A part of a line.
#[derive(Clone, Copy)]
enum Part {
    /// The first byte of a mapping.
    First,
    /// The byte past it.
    End,
    /// How many bytes it has.
    Len,
    /// One of the first texts, or where the choice is odd one of the others.
    Word(Words, Words),
}

/// Names of buffers.
const NAME: Part = Part::Word(
    &["a ", "ring_2 ", "sixteen_letters_ "],
    &[
        "zero ",
        "seventeen_letters ",
        "zero0 ",
        "Zero ",
        "Ring ",
        "_a ",
        " ",
        "7 ",
    ],
);

/// The name of zeros, and others that may have no offset.
const ZERO: Part = Part::Word(&["zero "], &["a ", "Zero ", "zero  ", "zero"]);

const FLAGS: Part = Part::Word(&["rw", "ro"], &["rx", "RW", "rw\r", "ro ", "r", ""]);

/// Bytes at which pages of each buffer begin; the last page that a buffer may have, the two behind it, and bytes at which no page begins.
const OFFSET: Part = Part::Word(
    &[
        "0000000000000000 ",
        "0000000000001000 ",
        "0000000000007000 ",
    ],
    &[
        "0000fffffffff000 ",
        "0001000000000000 ",
        "0001000000001000 ",
        "0000000000001001 ",
        "ffffffffffffffff ",
    ],
);

/// What a row of a `gpuvas` begins with.
const LEAD: Part = Part::Word(
    &["| 0x", "     | 0x", "\t| 0x", " \x0c| 0x", "\r| 0x"],
    &["\x0b| 0x", "x| 0x", "\u{a0}| 0x"],
);

const BAR: Part = Part::Word(&["| 0x"], &["| 0x"]);

/// The addresses of objects.
const OBJECT: Part = Part::Word(
    &[
        "| 0x0000000000000000 ",
        "| 0xffff9d4a89852000 ",
        "| 0xffff3a95130a4000 ",
        "| 0xfffed7df9c8f6000 ",
    ],
    &["| 0x0000000000000000 ", "| 0xffff9d4a89852000 "],
);

const MAPPING: &[Part] = &[Part::First, Part::End, NAME, OFFSET, FLAGS];

const ZEROS: &[Part] = &[Part::First, Part::End, ZERO, FLAGS];

const ROW: &[Part] = &[
    LEAD,
    Part::First,
    BAR,
    Part::Len,
    BAR,
    Part::End,
    OBJECT,
    BAR,
    OFFSET,
];

/// Lines of a `map` that are no mappings.
const NO_MAPPING: &[Part] = &[Part::Word(
    &["empty"],
    &["", " empty", "zero", "DRM GPU VA spice", "Dr"],
)];

/// Lines of a `gpuvas` that are no mappings.
const NO_ROW: &[Part] = &[Part::Word(
    &[
        "\x0c DRM GPU VA space (vm) [0x0;0x1000]",
        " VAs | start | range",
        "Kernel reserved",
        "\t",
    ],
    &["DRM GPU VA", "|", "empty"],
)];

/// How many kinds of lines each of the two lists has.
const KINDS: u64 = 10;

/// The kinds of lines of a `map`, and behind them those of a `gpuvas`.
const LINES: [&[Part]; 20] = [
    MAPPING, MAPPING, MAPPING, MAPPING, MAPPING, MAPPING, MAPPING, ZEROS, ZEROS, NO_MAPPING, ROW,
    ROW, ROW, ROW, ROW, ROW, ROW, ROW, ROW, NO_ROW,
];

/// Lengths of pages.
const LENS: [u64; 3] = [0x1000, 0x2000, 0x5000];

/// Lengths of no pages.
const ODD_LENS: [u64; 4] = [0, 0x800, 0x0200_0000_0000_0000, 0xffff_ffff_ffff_f000];

/// Bytes that may come between others.
const BYTES: &[u8; 16] = b"gAF+- \t\r0z_|D\x0c\x80\xff";

/// How rare what is odd may be.
const ODD: [u64; 4] = [u64::MAX, 200, 60, 12];

/// How rare what is out of order may be.
const ASTRAY: [u64; 4] = [u64::MAX, 24, 6, 3];

/// Texts by chance. Of a text's choices one in `odd` is odd, and of its mappings one in `astray` out of order.
#[derive(Drop)]
pub struct RandomLists {
    random: Random,
    odd: u64,
    astray: u64,
    // Where the newest mapping begins and ends.
    first: u64,
    end: u64,
}

impl RandomLists {
    /// The texts that a seed begins.
    pub fn new(seed: u64) -> RandomLists {
        RandomLists {
            random: Random::new(seed),
            odd: 12,
            astray: 12,
            first: 0,
            end: 0,
        }
    }

    /// Whether the next choice is an odd one.
    fn is_odd(&mut self) -> bool {
        let odd = self.odd.max(1);
        self.random.is_one_in(odd)
    }

    /// One of the fair texts, or where the choice is odd one of the others.
    fn word(&mut self, fair: Words, others: Words) -> &'static str {
        let words = if self.is_odd() { others } else { fair };
        let place = self.random.below((words.len() as u64).max(1));
        words.get(place as usize).copied().unwrap_or("")
    }

    /// Puts the next mapping at most two pages behind the one before it, unless it is out of order.
    fn place(&mut self) {
        let astray = self.astray.max(1);
        let from = if self.random.is_one_in(astray) {
            self.random.below(62).wrapping_mul(0x1000)
        } else {
            self.end % 0x1000_0000_0000
        };
        let len = if self.is_odd() {
            self.random.among(&ODD_LENS)
        } else {
            self.random.among(&LENS)
        };
        let between = self.random.below(3).wrapping_mul(0x1000);
        self.first = from.wrapping_add(between);
        self.end = self.first.wrapping_add(len);
    }

    /// Adds a part of a line.
    fn push_part(&mut self, line: &mut String, part: Part) -> Result<(), AllocError> {
        let number = match part {
            Part::First => self.first,
            Part::End => self.end,
            Part::Len => self.end.wrapping_sub(self.first),
            Part::Word(fair, others) => return line.push_str(self.word(fair, others)),
        };
        write_hex(line, number)?;
        line.push_str(" ")
    }

    /// A line of either kind of list.
    fn line(&mut self, alloc: Global, is_dump: bool) -> Result<String, AllocError> {
        self.place();
        let kinds = if is_dump != self.is_odd() { KINDS } else { 0 };
        let kind = self.random.below(KINDS).saturating_add(kinds);
        let mut line = String::new(alloc);
        for part in LINES.get(kind as usize).copied().unwrap_or(MAPPING) {
            self.push_part(&mut line, *part)?;
        }
        Ok(line)
    }

    /// Adds a line; where the choice is odd, a byte of it is lost, or one comes between, or both.
    pub fn push_line(
        &mut self,
        alloc: Global,
        text: &mut Vec<u8>,
        is_dump: bool,
    ) -> Result<(), AllocError> {
        let line = self.line(alloc, is_dump)?;
        let line = line.as_bytes();
        if !self.is_odd() {
            return text.extend_from_slice(line);
        }
        let place = self.random.below((line.len() as u64).max(1));
        let (head, tail) = line.split_at_checked(place as usize).unwrap_or((line, b""));
        let byte = self.random.below(24) as usize;
        let lost = self.random.below(2) as usize;
        text.extend_from_slice(head)?;
        text.extend_from_slice(BYTES.get(byte..byte + 1).unwrap_or(b""))?;
        text.extend_from_slice(tail.get(lost..).unwrap_or(b""))
    }

    /// A text, mostly a list of one kind.
    pub fn text(&mut self, alloc: Global) -> Result<Vec<u8>, AllocError> {
        self.odd = self.random.among(&ODD);
        self.astray = self.random.among(&ASTRAY);
        self.end = 0;
        let is_dump = self.random.is_one_in(2);
        let mut text = Vec::new(alloc);
        for _ in 0..self.random.below(14) {
            self.push_line(alloc, &mut text, is_dump)?;
            text.push(b'\n')?;
        }
        if self.random.is_one_in(4) {
            text.pop();
        }
        Ok(text)
    }
}
