//! What stands beside each item of a journal: which withdrawal names it.
ghost use Rattle.std.specs.Prelude.{◌≡◌, ◌<◌, ◌-◌, ◌^◌, IfSome, None, is_some};

use std::marker::Model;

/// No withdrawal has this number.
const NONE: u64 = u64::MAX;

/// The number of the withdrawal that names the item, if one does. It is a plain number, since those of many items are read at
/// once.
#[derive(Drop)]
pub struct Note {
    withdrawal: u64,
}

impl Model for Note {
    ghost use Rattle.std.specs.Prelude.{ℕ, Option};
    ghost use Rattle.gv_journal.specs.Note.{noted};

    ghost Value = { Option ℕ };

    ghost view = { noted };
}

impl Note {
    /// Of an item that nothing withdraws.
    pub fn new() -> Note
        ensures { result ≡ None }
    {
        Note { withdrawal: NONE }
    }

    /// Whether a withdrawal names the item.
    pub fn is_withdrawn(&self) -> bool
        ensures { result ≡ is_some self.now }
    {
        self.withdrawal != NONE
    }

    /// The number of the withdrawal that names the item.
    pub fn withdrawal(&self) -> Option<u64>
        ensures { result ≡ self.now }
    {
        if self.withdrawal == NONE {
            None
        } else {
            Some(self.withdrawal)
        }
    }

    /// Writes which withdrawal names the item.
    pub fn mark(&mut self, withdrawal: Option<u64>)
        requires { IfSome withdrawal (λ number. number < 2 ^ 64 - 1) }
        ensures { self.new ≡ withdrawal }
    {
        self.withdrawal = match withdrawal {
            Some(number) => number,
            None => NONE,
        };
    }
}
