//! What looks at a space between its changes.
ghost use Rattle.std.specs.Prelude.{◌≡◌};

use crate::asking::ask;
use crate::edits::follow;
use crate::judge::Judge;
use crate::operations::id_of;
use crate::text::{add, tell_refusal};
use crate::words::{Clause, Clauses, NOTHING, Verb, clauses_of};
use gv_model::{Edit, PlainList};
use gv_space::Space;
use gv_types::{BufferId, Fault, PageRange};
use std::alloc::{AllocError, Global};

/// What is played, and what is seen and answered.
pub type Row = (&'static str, &'static str);

/// The buffers made so far, what each look asks, and what was answered so far.
#[derive(Drop)]
pub struct Watch {
    pub ids: Vec<BufferId>,
    pub asked: Clause,
    /// The answer to the row that is played.
    pub text: String,
    /// The rows with another answer than they have to have, a line each.
    pub wrong: String,
    /// The pages of the newest change: the first, and the one past their end.
    pub changed: (u64, u64),
    pub judge: Judge,
    /// A list that has each edit, also those that the space takes back; and one that has those of whole batches.
    pub all_edits: PlainList,
    pub whole_batches: PlainList,
    /// How many comparisons with the model were right.
    pub right_count: u64,
}

impl Watch {
    /// What asks nothing and has no buffers.
    pub fn new(alloc: Global) -> Watch {
        Watch {
            ids: Vec::new(alloc),
            asked: NOTHING,
            text: String::new(alloc),
            wrong: String::new(alloc),
            changed: (0, 0),
            judge: Judge::new(alloc),
            all_edits: PlainList::new(alloc),
            whole_batches: PlainList::new(alloc),
            right_count: 0,
        }
    }

    /// The clauses of a row, whose answer begins. A row with an unknown word has no right answer.
    pub fn begin(&mut self, alloc: Global, row: &Row) -> Clauses {
        self.text = String::new(alloc);
        let clauses = clauses_of(row.0);
        if clauses
            .iter()
            .any(|clause| matches!(clause.verb, Verb::Unknown))
        {
            add(&mut self.text, "unknown ");
        }
        clauses
    }

    /// Adds a row to the wrong ones, where the answer is another.
    pub fn check(&mut self, row: &Row) -> Result<(), AllocError> {
        let (text, wanted) = *row;
        let answer = self.text.as_str();
        if answer == wanted {
            return Ok(());
        }
        write!(self.wrong, "{text}: {answer}\n")
    }

    pub fn count(&mut self, is_right: bool) {
        if is_right {
            self.right_count = self.right_count.saturating_add(1);
        }
    }

    /// Compares an edit, which was applied to these pages of a space, and looks.
    pub fn after_edit(&mut self, alloc: Global, space: &mut Space, edit: &Edit, range: PageRange)
        ensures { space.new ≡ space.old }
    {
        self.changed = (range.first(), range.end());
        let said = match self.asked.verb {
            Verb::Judge => self.judge.edit(alloc, edit),
            Verb::Beside => follow(space, &mut self.all_edits, edit, self.right_count),
            _ => Ok(false),
        };
        self.count(said.unwrap_or(false));
        self.see(alloc, space);
    }

    /// The same, where a range was restored.
    pub fn after_restore(&mut self, alloc: Global, space: &mut Space, range: PageRange)
        ensures { space.new ≡ space.old }
    {
        self.changed = (range.first(), range.end());
        if let Verb::Judge = self.asked.verb {
            let said = self.judge.restore(alloc, range);
            self.count(said.unwrap_or(false));
        }
        self.see(alloc, space);
    }

    /// Looks once the undo value of the newest change is spent.
    pub fn undo_spent(&mut self, alloc: Global, space: &mut Space, stays: bool)
        ensures { space.new ≡ space.old }
    {
        self.judge.end_newest(stays);
        self.see(alloc, space);
    }

    /// Looks at a space.
    fn see(&mut self, alloc: Global, space: &mut Space)
        ensures { space.new ≡ space.old }
    {
        let asked = self.asked;
        let said = match asked.verb {
            Verb::Nothing | Verb::Beside => return,
            Verb::Judge => {
                let said = self.judge.agrees(alloc, space, &self.ids);
                return self.count(said.unwrap_or(false));
            }
            Verb::Destroy => refusal(space, &id_of(&self.ids, asked.numbers[0])),
            _ => ask(alloc, space, &self.ids, &asked, &NOTHING, &mut self.text),
        };
        tell_refusal(&mut self.text, said);
        add(&mut self.text, " | ");
    }
}

/// Why a buffer that undo values keep can't be destroyed. It is not tried where they keep nothing of it.
fn refusal(space: &mut Space, id: &BufferId) -> Result<(), Fault>
    ensures { space.new ≡ space.old }
{
    match space.kept(*id) {
        Some(kept) if kept > 0 => space.destroy(*id),
        _ => Ok(()),
    }
}
