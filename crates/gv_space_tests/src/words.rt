//! Rows of text: what is played, in words and numbers.

/// What a clause has a space do, or asks of it.
#[derive(Clone, Copy)]
pub enum Verb {
    Nothing,
    /// A word that is no verb.
    Unknown,
    Create,
    Destroy,
    Read,
    Write,
    Leave,
    Map,
    MapBytes,
    Zero,
    ZeroRo,
    Unmap,
    UnmapAll,
    Stay,
    Restore,
    Range,
    Stays,
    Bind,
    Many,
    Rewind,
    Withdraw,
    Settle,
    List,
    Look,
    Tables,
    Count,
    Page,
    Plan,
    Ranges,
    Limits,
    Check,
    Rounds,
    Edits,
    Turns,
    /// A look compares the space with the lists of the model.
    Judge,
    /// Each edit compares the space with a plain list.
    Beside,
}

/// The words that verbs are written as.
const VERBS: [(&str, Verb); 33] = [
    // a buffer of so many pages; and of those that were made, in order, the one with this number
    ("create", Verb::Create),
    ("destroy", Verb::Destroy),
    // a buffer, and the job that uses it
    ("read", Verb::Read),
    ("write", Verb::Write),
    ("leave", Verb::Leave),
    // an operation for good: a first page, a count of pages, a buffer, and its page
    ("map", Verb::Map),
    // the same in bytes
    ("map-bytes", Verb::MapBytes),
    ("zero", Verb::Zero),
    ("zero-ro", Verb::ZeroRo),
    ("unmap", Verb::Unmap),
    ("unmapall", Verb::UnmapAll),
    // what each look asks, then operations: all are undone, or so many stay. A look comes after each, and after each undo value is spent
    ("undo", Verb::Stay),
    ("stay", Verb::Stay),
    // the same, with two operations that stay, and ranges that are restored from the undo value of the first, each undone or for good
    ("restore", Verb::Restore),
    ("range", Verb::Range),
    ("stays", Verb::Stays),
    // calls on a journal: a request of the operations after it, or of so many maps of a page
    ("bind", Verb::Bind),
    ("many", Verb::Many),
    ("rewind", Verb::Rewind),
    ("withdraw", Verb::Withdraw),
    ("settle", Verb::Settle),
    // what is asked of a space
    ("list", Verb::List),
    ("look", Verb::Look),
    ("tables", Verb::Tables),
    ("count", Verb::Count),
    ("page", Verb::Page),
    ("plan", Verb::Plan),
    ("ranges", Verb::Ranges),
    ("limits", Verb::Limits),
    ("check", Verb::Check),
    // operations by chance: on places from a page on, of so many pages each; around so many mappings; on a journal, by a seed
    ("rounds", Verb::Rounds),
    ("edits", Verb::Edits),
    ("turns", Verb::Turns),
];

/// A verb, and the numbers after it.
#[derive(Clone, Copy)]
pub struct Clause {
    pub verb: Verb,
    pub numbers: [u64; 4],
}

/// The clauses of a row, of which no row has more.
pub type Clauses = [Clause; 8];

/// What does nothing, and asks nothing.
pub const NOTHING: Clause = Clause {
    verb: Verb::Nothing,
    numbers: [0; 4],
};

fn verb_of(word: &str) -> Verb {
    for (name, verb) in &VERBS {
        if *name == word {
            return *verb;
        }
    }
    Verb::Unknown
}

/// The clause that a text is.
fn clause_of(text: &str) -> Clause {
    let mut words = text.split_whitespace();
    let verb = verb_of(words.next().unwrap_or(""));
    let mut numbers = [0; 4];
    for (number, word) in numbers.iter_mut().zip(words) {
        *number = word.parse().unwrap_or(u64::MAX);
    }
    Clause { verb, numbers }
}

/// The clauses of a row, which stand between slashes.
pub fn clauses_of(text: &str) -> Clauses {
    let mut clauses = [NOTHING; 8];
    for (clause, part) in clauses.iter_mut().zip(text.split('/')) {
        *clause = clause_of(part);
    }
    clauses
}
