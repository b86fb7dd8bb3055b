//! The clauses of bind lines.
ghost use Rattle.std.specs.Prelude.{◌≡◌};

use super::operation::{Operation, range_operation, unmapall_operation};
use super::point::NamedPoint;
use super::words::{Words, is_word};

/// What stands between two separators of a bind line.
#[derive(Drop)]
pub enum Clause {
    /// An operation.
    Change { operation: Operation },
    /// `wait NAME NUM`: the operations start once the timeline has reached the number.
    Wait { point: NamedPoint },
    /// `signal NAME NUM`: at their end the timeline is raised to the number.
    Signal { point: NamedPoint },
    /// `queue Q`: the queue that the request is put in, 0 to 15.
    Queue { queue: u64 },
}

impl Clause {
    ghost use Rattle.gv_lines.specs.Clause.{clause_of, wait_clause, signal_clause};
    ghost use Rattle.gv_lines.specs.Clause.{queue_clause, change_clause};

    /// The clause that some words say. Inlined, since the check of a line drops the clause, and then no byte of it is written.
    #[inline(always)]
    pub fn from_words(mut words: Words<'_>) -> Option<Clause>
        ensures { result ≡ clause_of words.entry }
    {
        let first = words.take_word()?;
        if is_word(first, b"wait") {
            Clause::wait(words)
        } else if is_word(first, b"signal") {
            Clause::signal(words)
        } else if is_word(first, b"queue") {
            Clause::queue(words)
        } else {
            Clause::change(first, words)
        }
    }

    fn wait(words: Words<'_>) -> Option<Clause>
        ensures { result ≡ wait_clause words.entry }
    {
        let point = NamedPoint::from_words(words)?;
        Some(Clause::Wait { point })
    }

    fn signal(words: Words<'_>) -> Option<Clause>
        ensures { result ≡ signal_clause words.entry }
    {
        let point = NamedPoint::from_words(words)?;
        Some(Clause::Signal { point })
    }

    fn queue(mut words: Words<'_>) -> Option<Clause>
        ensures { result ≡ queue_clause words.entry }
    {
        let queue = words.take_queue()?;
        words.is_done().then_some(Clause::Queue { queue })
    }

    #[inline(always)]
    fn change(first: &[u8], more: Words<'_>) -> Option<Clause>
        ensures { result ≡ change_clause first.now more.entry }
    {
        let operation = if is_word(first, b"unmapall") {
            unmapall_operation(more)?
        } else {
            range_operation(first, more)?
        };
        Some(Clause::Change { operation })
    }
}
