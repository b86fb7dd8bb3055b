//! The clauses of a bind line as a list.
ghost use Rattle.std.specs.Prelude.{◌≡◌, ◌∷◌, [], MatchOption};
ghost use Rattle.gv_lines.specs.Clause.{clause_of};

use super::clause::Clause;
use super::clause_words::ClauseWords;
use super::words::Words;
use std::marker::Model;

/// The clause that some words say, for whoever keeps it.
#[inline(never)]
fn clause_said(words: Words<'_>) -> Option<Clause>
    ensures { result ≡ clause_of words.entry }
{
    Clause::from_words(words)
}

/// The clauses that are left, in the order of their line.
#[derive(Drop, Debug)]
pub struct ClauseList<'a> {
    parts: ClauseWords<'a>,
}

impl<'a> Model for ClauseList<'a> {
    ghost use Rattle.std.specs.Prelude.{List, [], IsSome, unwrap_or};
    ghost use Rattle.gv_lines.specs.OptionSteps.{all_read};
    ghost use Rattle.gv_lines.specs.Clause.{clause_of};
    ghost use Rattle.gv_lines.specs.declared.clause.Clause.{Clause};

    ghost Value = { List Clause };

    ghost view = { λ list. unwrap_or (all_read clause_of list.parts) [] };

    ghost invariant = { λ list. IsSome (all_read clause_of list.parts) };
}

impl<'a> ClauseList<'a> {
    ghost use Rattle.gv_lines.specs.Clause.{clauses_read, queue_asked};

    /// No clause.
    pub fn none() -> Self
        ensures { result ≡ [] }
    {
        ClauseList {
            parts: ClauseWords::none(),
        }
    }

    /// The clauses that some words say, where each is of the language and at most one names a queue.
    pub fn from_parts(parts: ClauseWords<'a>) -> Option<ClauseList<'a>>
        ensures { result ≡ clauses_read parts.entry }
    {
        let mut left = parts.again();
        let mut has_queue = false;
        while let Some(words) = left.take_clause() {
            if let Clause::Queue { queue: _ } = Clause::from_words(words)? {
                if has_queue {
                    return None;
                }
                has_queue = true;
            }
        }
        Some(ClauseList { parts })
    }

    /// The next clause, if one is left. Inlined without the reading of a clause, so that the end of a list costs no call.
    #[inline(always)]
    pub fn take(&mut self) -> Option<Clause>
        ensures { MatchOption result ((self.old ≡ []) × (self.new ≡ []))
            (λ clause. self.old ≡ clause ∷ self.new) }
    {
        clause_said(self.parts.take_clause()?)
    }

    /// The same clauses.
    pub fn again(&self) -> ClauseList<'a>
        ensures { result ≡ self.now }
    {
        ClauseList {
            parts: self.parts.again(),
        }
    }

    /// The number of the queue that they name, or else 0.
    pub fn queue(&self) -> u64
        ensures { result ≡ queue_asked self.now }
    {
        let mut left = self.again();
        while let Some(clause) = left.take() {
            if let Clause::Queue { queue } = clause {
                return queue;
            }
        }
        0
    }
}
