//! A line cut into words.
ghost use Rattle.std.specs.Prelude.{◌≡◌, ◌∷◌, [], List, ℕ, None, Some, MatchOption, IsTrue, ◌↔◌};
ghost use Rattle.std.specs.Prelude.{◌==◌, ◌<◌, length, position, IfSome, bytes_eq};
ghost use Rattle.std.specs.List.{list_any};
ghost use Rattle.gv_lines.specs.Words.{words, clauses, parts};
ghost use Rattle.gv_lines.specs.Words.{first_name, first_number, first_queue, queue_of};

use super::name::Name;
use super::number::{decimal_of, number_of};
use std::marker::Model;

/// How many queues there are.
pub const QUEUES: u64 = 16;

/// Words that are left: those of the text, but no more than the limit, which is 0 once the last one is taken. No flag says that:
/// a line's value is copied from call to call, and a byte with a gap behind it would be copied by parts that wait for one another.
#[derive(Drop, Debug)]
pub struct Words<'a> {
    rest: &'a [u8],
    limit: usize,
}

impl<'a> Model for Words<'a> {
    ghost use Rattle.std.specs.Prelude.{List, ℕ, take, ◌<◌, ◌^◌};
    ghost use Rattle.gv_lines.specs.Words.{words};

    ghost Value = { List (List ℕ) };

    ghost view = { λ left. take left.limit (words left.rest.now) };

    ghost invariant = { λ left. left.limit < 2 ^ 64 };
}

impl<'a> Words<'a> {
    /// All words of a line.
    pub fn new(line: &'a [u8]) -> Self
        ensures { result ≡ words line.entry.now }
    {
        Words {
            rest: line,
            limit: line.len() + 1,
        }
    }

    /// No word.
    pub fn none() -> Self
        ensures { result ≡ [] }
    {
        Words {
            rest: &[],
            limit: 0,
        }
    }

    /// The next word, if one is left.
    pub fn take_word(&mut self) -> Option<&'a [u8]>
        ensures { MatchOption result ((self.old ≡ []) × (self.new ≡ []))
            (λ word. self.old ≡ word.now ∷ self.new) }
    {
        if self.limit == 0 {
            return None;
        }
        let text = self.rest;
        match split_once(text, b' ') {
            Some((word, rest)) => {
                self.rest = rest;
                self.limit -= 1;
                Some(word)
            }
            None => {
                self.limit = 0;
                Some(text)
            }
        }
    }

    /// The next word, which has to be a name.
    pub fn take_name(&mut self) -> Option<Name>
        ensures { MatchOption result (first_name self.old ≡ None)
            (λ name. first_name self.old ≡ Some (name, self.new)) }
    {
        Name::from_word(self.take_word()?)
    }

    /// The next word, which has to be a number.
    pub fn take_number(&mut self) -> Option<u64>
        ensures { MatchOption result (first_number self.old ≡ None)
            (λ number. first_number self.old ≡ Some (number, self.new)) }
    {
        number_of(self.take_word()?)
    }

    /// The next word, which has to name a queue.
    pub fn take_queue(&mut self) -> Option<u64>
        ensures { MatchOption result (first_queue self.old ≡ None)
            (λ queue. first_queue self.old ≡ Some (queue, self.new)) }
    {
        queue_of(decimal_of(self.take_word()?)?)
    }

    /// Whether no word is left.
    pub fn is_done(&self) -> bool
        ensures { IsTrue result ↔ (self.now ≡ []) }
    {
        self.limit == 0
    }

    /// The same words.
    pub fn again(&self) -> Words<'a>
        ensures { result ≡ self.now }
    {
        Words {
            rest: self.rest,
            limit: self.limit,
        }
    }

    /// Whether no byte that is left is a semicolon, so that no word separates others. A look at many bytes at once, on a hot path.
    pub fn are_one_clause(&self) -> bool
        ensures { IsTrue result → clauses self.now ≡ self.now ∷ [] }
    {
        !has_byte(self.rest, b';')
    }

    /// The words before the first separator, and where there is one, those behind it.
    pub fn split(self) -> (Words<'a>, Option<Words<'a>>)
        ensures { MatchOption result.1 (clauses self.entry ≡ result.0 ∷ [])
            (λ more. clauses self.entry ≡ result.0 ∷ clauses more) }
    {
        let rest = self.rest;
        let limit = self.limit;
        let mut left = Words { rest, limit };
        let mut before: usize = 0;
        while let Some(word) = left.take_word() {
            if word == b";".as_slice() {
                return (
                    Words {
                        rest,
                        limit: before,
                    },
                    Some(left),
                );
            }
            before += 1;
        }
        (Words { rest, limit }, None)
    }
}

/// Whether a word is this one. Inlined, so that its length and bytes are known where it is looked for.
#[inline(always)]
pub fn is_word(word: &[u8], text: &[u8]) -> bool
    ensures { result ≡ bytes_eq word.now text.now }
{
    word == text
}

/// The queue of a number, if there is one.
pub fn queue_of(number: u64) -> Option<u64>
    ensures { result ≡ queue_of number }
{
    (number < QUEUES).then_some(number)
}

/// The text before the first such byte and the text behind that byte, if there is one.
pub fn split_once(text: &[u8], byte: u8) -> Option<(&[u8], &[u8])>
    ensures parts { MatchOption result (parts byte text.now ≡ text.now ∷ [])
        (λ found. parts byte text.now ≡ found.0.now ∷ parts byte found.1.now) }
    ensures shorter { IfSome result (λ found. length found.1.now < length text.now) }
{
    let at = position_of(text, byte)?;
    Some((&text[..at], &text[at + 1..]))
}

fn has_byte(text: &[u8], byte: u8) -> bool
    ensures { result ≡ list_any (λ b. b == byte) text.now }
{
    text.contains(&byte)
}

fn position_of(text: &[u8], byte: u8) -> Option<usize>
    ensures { result ≡ position (λ b. b == byte) text.now }
{
    text.iter().position(|b| *b == byte)
}
