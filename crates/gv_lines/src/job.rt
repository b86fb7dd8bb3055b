//! The accesses of jobs.
ghost use Rattle.std.specs.Prelude.{◌≡◌, ◌∷◌, [], MatchOption};

use super::clause_words::ClauseWords;
use super::words::{Words, is_word};
use std::marker::Model;

/// An access of a job to an address in bytes.
#[derive(Clone, Copy, Debug)]
pub enum Access {
    /// `read NUM`
    Read { addr: u64 },
    /// `write NUM`
    Write { addr: u64 },
}

impl Access {
    ghost use Rattle.gv_lines.specs.Job.{access_of, read_access, write_access};

    /// The access that some words say.
    pub fn from_words(mut words: Words<'_>) -> Option<Access>
        ensures { result ≡ access_of words.entry }
    {
        let first = words.take_word()?;
        if is_word(first, b"read") {
            Access::read(words)
        } else if is_word(first, b"write") {
            Access::write(words)
        } else {
            None
        }
    }

    fn read(mut words: Words<'_>) -> Option<Access>
        ensures { result ≡ read_access words.entry }
    {
        let addr = words.take_number()?;
        words.is_done().then_some(Access::Read { addr })
    }

    fn write(mut words: Words<'_>) -> Option<Access>
        ensures { result ≡ write_access words.entry }
    {
        let addr = words.take_number()?;
        words.is_done().then_some(Access::Write { addr })
    }
}

/// Accesses of a job that are left, in the order of their line.
#[derive(Drop, Debug)]
pub struct AccessList<'a> {
    parts: ClauseWords<'a>,
}

impl<'a> Model for AccessList<'a> {
    ghost use Rattle.std.specs.Prelude.{List, [], IsSome, unwrap_or};
    ghost use Rattle.gv_lines.specs.Job.{accesses_read};
    ghost use Rattle.gv_lines.specs.declared.job.Access.{Access};

    ghost Value = { List Access };

    ghost view = { λ list. unwrap_or (accesses_read list.parts) [] };

    ghost invariant = { λ list. IsSome (accesses_read list.parts) };
}

impl<'a> AccessList<'a> {
    ghost use Rattle.gv_lines.specs.Job.{accesses_read};

    /// The accesses that some words say, where each is of the language.
    pub fn from_parts(parts: ClauseWords<'a>) -> Option<AccessList<'a>>
        ensures { result ≡ accesses_read parts.entry }
    {
        let mut left = parts.again();
        while let Some(words) = left.take_clause() {
            Access::from_words(words)?;
        }
        Some(AccessList { parts })
    }

    /// The next access, if one is left.
    pub fn take(&mut self) -> Option<Access>
        ensures { MatchOption result ((self.old ≡ []) × (self.new ≡ []))
            (λ access. self.old ≡ access ∷ self.new) }
    {
        Access::from_words(self.parts.take_clause()?)
    }

    /// The same accesses.
    pub fn again(&self) -> AccessList<'a>
        ensures { result ≡ self.now }
    {
        AccessList {
            parts: self.parts.again(),
        }
    }
}
