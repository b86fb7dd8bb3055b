//! The names in a line.
use super::cursor::{Found, WordCursor};
use super::pattern::{Item, Pattern, Shape};
use super::{Language, shape_of};
use crate::reason::NameSet;
use crate::words::Words;

/// A name, and the position of its first byte in its line, counted from 1.
#[derive(Clone, Copy)]
pub struct Mention<'a> {
    pub set: NameSet,
    pub name: &'a [u8],
    pub column: u64,
}

/// What the next word of a line is.
#[derive(Clone, Copy)]
enum WordRole {
    /// The first of the line.
    Line,
    /// The first of a clause.
    Clause,
    /// A part of a form.
    Part,
}

/// What the words of a line that are left are: the parts of a form that are left, with the set of its names.
#[derive(Drop)]
struct Next {
    role: WordRole,
    parts: Words<'static>,
    set: NameSet,
}

/// The names in a line of the language that are left.
#[derive(Drop)]
pub struct Mentions<'a> {
    cursor: WordCursor<'a>,
    next: Next,
}

impl<'a> Mentions<'a> {
    /// All names of a line.
    pub fn new(text: &'a [u8]) -> Self {
        Mentions {
            cursor: WordCursor::new(text),
            next: Next::new(),
        }
    }

    /// The next name, if one is left.
    pub fn take(&mut self) -> Option<Mention<'a>> {
        while let Some(found) = self.cursor.take() {
            if self.next.read(found.word) == Some(b"NAME".as_slice()) {
                return Some(Mention {
                    set: self.next.set,
                    name: found.word,
                    column: found.column,
                });
            }
        }
        None
    }
}

impl Next {
    fn new() -> Self {
        Next {
            role: WordRole::Line,
            parts: Words::new(b""),
            set: NameSet::Buffers,
        }
    }

    /// Reads a word. What part of a form it is, if it is one.
    fn read(&mut self, word: &[u8]) -> Option<&'static [u8]> {
        if word == b";".as_slice() {
            self.role = WordRole::Clause;
            return None;
        }
        match self.role {
            WordRole::Line => {
                self.begin_line(word);
                None
            }
            WordRole::Clause => {
                self.begin_clause(word);
                None
            }
            WordRole::Part => self.parts.take_word(),
        }
    }

    fn begin_line(&mut self, word: &[u8]) {
        match shape_of(Language::Serve, word) {
            Some(Shape::Words { pattern }) => self.begin(pattern),
            _ => self.role = WordRole::Clause,
        }
    }

    fn begin_clause(&mut self, word: &[u8]) {
        if let Some(pattern) = Item::Clause.pattern(word) {
            self.begin(pattern);
        }
    }

    fn begin(&mut self, pattern: Pattern) {
        let mut parts = Words::new(pattern.text.as_bytes());
        let _first = parts.take_word();
        self.role = WordRole::Part;
        self.parts = parts;
        self.set = pattern.names;
    }
}

/// The word of a line of the language by which it names a queue, if it does.
pub fn queue_in(text: &[u8]) -> Option<Found<'_>> {
    let mut cursor = WordCursor::new(text);
    let mut next = Next::new();
    while let Some(found) = cursor.take() {
        let part = next.read(found.word);
        if part == Some(b"Q".as_slice()) || part == Some(b"QUEUE".as_slice()) {
            return Some(found);
        }
    }
    None
}
