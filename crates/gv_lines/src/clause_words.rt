//! Words cut into clauses.
ghost use Rattle.std.specs.Prelude.{◌≡◌, ◌∷◌, [], MatchOption};
ghost use Rattle.gv_lines.specs.Words.{clauses};
ghost use Rattle.gv_lines.specs.ClauseWords.{clauses_left};

use super::words::Words;
use std::marker::Model;

/// No clause is left.
const NONE: usize = 0;

/// One clause is left, as a look for a semicolon told: it is given without a walk over its words. Most lines have no other.
const ONE: usize = 1;

/// One clause is left, or more.
const MORE: usize = 2;

/// The clauses of some words that are left. How many is a number as wide as what stands beside it, as `Words` says why.
#[derive(Drop, Debug)]
pub struct ClauseWords<'a> {
    words: Words<'a>,
    left: usize,
}

impl<'a> Model for ClauseWords<'a> {
    ghost use Rattle.std.specs.Prelude.{List, ℕ};
    ghost use Rattle.gv_lines.specs.ClauseWords.{clauses_left};

    ghost Value = { List (List (List ℕ)) };

    ghost view = { λ clauses. clauses_left clauses.left clauses.words };
}

impl<'a> ClauseWords<'a> {
    /// All clauses of some words, at least one.
    pub fn new(words: Words<'a>) -> Self
        ensures { result ≡ clauses words.entry }
    {
        let left = if words.are_one_clause() { ONE } else { MORE };
        ClauseWords { words, left }
    }

    /// No clause.
    pub fn none() -> Self
        ensures { result ≡ [] }
    {
        ClauseWords {
            words: Words::none(),
            left: NONE,
        }
    }

    /// The same clauses.
    pub fn again(&self) -> ClauseWords<'a>
        ensures { result ≡ self.now }
    {
        ClauseWords {
            words: self.words.again(),
            left: self.left,
        }
    }

    /// The words of the next clause, if one is left. Inlined without the split, as `ClauseList::take` is.
    #[inline(always)]
    pub fn take_clause(&mut self) -> Option<Words<'a>>
        ensures { MatchOption result ((self.old ≡ []) × (self.new ≡ []))
            (λ clause. self.old ≡ clause ∷ self.new) }
    {
        if self.left == NONE {
            return None;
        }
        let words = self.words.again();
        if self.left == ONE {
            self.left = NONE;
            return Some(words);
        }
        let (clause, rest) = words.split();
        match rest {
            Some(more) => {
                *self = ClauseWords {
                    words: more,
                    left: MORE,
                }
            }
            None => self.left = NONE,
        }
        Some(clause)
    }
}
