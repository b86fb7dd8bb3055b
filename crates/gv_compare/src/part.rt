//! The address space of a list that is taken, where a kernel's `gpuvas` has several.

use crate::fault::{CompareFault, Which};
use gv_lines::{number_of, split_once};
use gv_logs::GPUVAS_HEAD;

/// The byte that each head begins with. Nearly no `map` has it, so its lines aren't gone through for heads.
const HEAD_BYTE: u8 = b'D';

/// A part of a text, and how many lines stand before it.
#[derive(Clone, Copy, Debug, PartialEq, Eq)]
pub struct Part<'a> {
    pub text: &'a [u8],
    pub lines: u64,
}

impl<'a> Part<'a> {
    /// The part of a list that is of one address space: that of this name, or the only one that has rows. A name is what stands in
    /// parentheses in the head, or the head's number, counted from 1. A list without heads is one whole.
    pub fn of(text: &'a [u8], list: Which, space: Option<&str>) -> Result<Part<'a>, CompareFault> {
        let whole = Part { text, lines: 0 };
        if !text.contains(&HEAD_BYTE) {
            return Ok(whole);
        }
        let mut rest = whole;
        let mut heads = 0u64;
        let mut taken = None;
        for _parts in 0..u64::MAX {
            if rest.text.is_empty() {
                break;
            }
            let (part, behind) = rest.split();
            heads = heads.saturating_add(u64::from(is_head(part.text)));
            if part.is_taken(heads, space) {
                if taken.is_some() {
                    return Err(CompareFault::ManySpaces { list });
                }
                taken = Some(part);
            }
            rest = behind;
        }
        match (taken, space) {
            (Some(part), Some(_)) if heads > 0 => Ok(part),
            (None, Some(_)) if heads > 0 => Err(CompareFault::NoSpace { list }),
            _ => Ok(whole),
        }
    }

    /// What stands up to the next head, and from there on.
    fn split(self) -> (Part<'a>, Part<'a>) {
        let mut end = 0usize;
        let mut lines = 0u64;
        let mut rest = self.text;
        for _lines in 0..u64::MAX {
            let (line, behind) = split_once(rest, b'\n').unwrap_or((rest, &[]));
            let len = rest.len().saturating_sub(behind.len());
            if rest.is_empty() || end > 0 && is_head(line) {
                break;
            }
            end = end.saturating_add(len);
            lines = lines.saturating_add(1);
            rest = behind;
        }
        let (text, behind) = self.text.split_at_checked(end).unwrap_or((self.text, &[]));
        let before = Part {
            text,
            lines: self.lines,
        };
        let after = Part {
            text: behind,
            lines: self.lines.saturating_add(lines),
        };
        (before, after)
    }

    /// Whether it is taken: it has this name or number, or where none is asked a row.
    fn is_taken(&self, number: u64, space: Option<&str>) -> bool {
        match space {
            Some(name) => {
                let head = self.text.trim_ascii_start();
                is_head(head)
                    && (is_named(head, name.as_bytes())
                        || number_of(name.as_bytes()) == Some(number))
            }
            None => self
                .text
                .split(|byte| *byte == b'\n')
                .any(|line| line.trim_ascii_start().starts_with(b"|")),
        }
    }
}

/// Whether a line, or a text, begins with the head of an address space.
fn is_head(line: &[u8]) -> bool {
    line.trim_ascii_start().starts_with(GPUVAS_HEAD.as_bytes())
}

/// Whether a head has this name.
fn is_named(head: &[u8], name: &[u8]) -> bool {
    match head
        .strip_prefix(GPUVAS_HEAD.as_bytes())
        .and_then(|rest| rest.strip_prefix(b" ("))
    {
        Some(rest) => rest
            .strip_prefix(name)
            .is_some_and(|behind| behind.starts_with(b")")),
        None => false,
    }
}
