//! The words of a line with their places.
ghost use Rattle.std.specs.Prelude.{◌≡◌, ◌∷◌, [], MatchOption};

use crate::words::Words;

/// Words that are left, and the position of the next one.
#[derive(Drop)]
pub struct WordCursor<'a> {
    pub words: Words<'a>,
    pub column: u64,
}

/// A word, and the position of its first byte in its line, counted from 1.
#[derive(Clone, Copy)]
pub struct Found<'a> {
    pub word: &'a [u8],
    pub column: u64,
}

impl<'a> WordCursor<'a> {
    /// All words of a line.
    pub fn new(text: &'a [u8]) -> Self {
        WordCursor {
            words: Words::new(text),
            column: 1,
        }
    }

    /// The next word, if one is left.
    pub fn take(&mut self) -> Option<Found<'a>>
        ensures { MatchOption result (self.old.words ≡ []) (λ found. self.old.words ≡ found.word.now ∷ self.new.words) }
    {
        let column = self.column;
        let word = self.words.take_word()?;
        self.column = past(column, word.len()).saturating_add(1);
        Some(Found { word, column })
    }

    /// Whether the next word is this one.
    pub fn begins_with(&self, text: &[u8]) -> bool {
        match self.words.again().take_word() {
            Some(word) => word == text,
            None => false,
        }
    }
}

/// The position this many bytes after another.
pub fn past(column: u64, bytes: usize) -> u64 {
    column.saturating_add(bytes as u64)
}

/// The word of a line with this number, counted from 0.
pub fn word_at(text: &[u8], position: usize) -> Option<Found<'_>> {
    let mut cursor = WordCursor::new(text);
    for _ in 0..position {
        cursor.take()?;
    }
    cursor.take()
}
