//! The keywords, and which of them a misspelt word was meant to be.
use std::alloc::Global;
use std::str;
use strsim::osa_distance;

/// The first words of the lines.
pub const LINES: [&str; 20] = [
    "space", "limits", "buffer", "destroy", "uses", "timeline", "raise", "value", "bind", "plan",
    "map", "at", "tables", "rewind", "journal", "withdraw", "settle", "told", "job", "end",
];

/// The first words of the lines that only a dialogue has.
pub const SERVE_LINES: [&str; 7] = ["put", "turn", "giveup", "forget", "trim", "show", "past"];

/// The first words of clauses.
pub const CLAUSES: [&str; 7] = [
    "map", "zero", "unmap", "unmapall", "wait", "signal", "queue",
];

/// The first words of operations on a range.
pub const OPERATIONS: [&str; 3] = ["map", "zero", "unmap"];

/// The first words of accesses.
pub const ACCESSES: [&str; 2] = ["read", "write"];

/// A word of more bytes is like none of these.
const LONGEST: usize = 12;

/// The text to which the fewest edits lead from a word, in whatever case it is written: one edit of a short text, two of a
/// longer one. None also if out of memory.
pub fn meant(alloc: Global, word: &[u8], texts: &[&'static str]) -> Option<&'static str> {
    if word.len() > LONGEST {
        return None;
    }
    let word = str::from_utf8(word).ok()?.to_ascii_lowercase(alloc).ok()?;
    let mut least = 3;
    let mut found = None;
    for text in texts {
        let edits = osa_distance(alloc, word.as_str(), text).ok()?;
        if edits < least && edits <= most_edits(text) {
            least = edits;
            found = Some(*text);
        }
    }
    found
}

fn most_edits(text: &str) -> usize {
    if text.len() < 5 { 1 } else { 2 }
}
