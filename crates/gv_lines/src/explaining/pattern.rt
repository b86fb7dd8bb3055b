//! The forms of lines, clauses and accesses.
use crate::reason::NameSet;

/// A row of words: the first word, and a part for each word after it. NAME is a name of this set, QUEUE the number of a queue,
/// Q the same in decimal, and any other part a number. `ro` may follow, if `may_be_read_only`.
#[derive(Clone, Copy)]
pub struct Pattern {
    pub text: &'static str,
    pub names: NameSet,
    pub may_be_read_only: bool,
}

/// What follows the first word of a line.
#[derive(Clone, Copy)]
pub enum Shape {
    Words { pattern: Pattern },
    /// Clauses, if any.
    Clauses,
    Accesses,
    Operation,
}

/// What has a pattern by its first word.
#[derive(Clone, Copy)]
pub enum Item {
    Clause,
    Operation,
    Access,
}

/// A first word, and the fields of the `Pattern` that it begins.
type Row = (&'static [u8], &'static str, NameSet, bool);

/// The lines of scripts that are rows of words.
#[rattlefmt::skip]
const LINES: [Row; 17] = [
    (b"space", "space START LEN RSTART RLEN", NameSet::Buffers, false),
    (b"limits", "limits BUFFERS MAPPINGS ITEMS", NameSet::Buffers, false),
    (b"buffer", "buffer NAME PAGES", NameSet::Buffers, false),
    (b"destroy", "destroy NAME", NameSet::Buffers, false),
    (b"uses", "uses NAME", NameSet::Buffers, false),
    (b"timeline", "timeline NAME", NameSet::Timelines, false),
    (b"raise", "raise NAME NUM", NameSet::Timelines, false),
    (b"value", "value NAME", NameSet::Timelines, false),
    (b"map", "map", NameSet::Buffers, false),
    (b"at", "at ADDR", NameSet::Buffers, false),
    (b"tables", "tables", NameSet::Buffers, false),
    (b"rewind", "rewind", NameSet::Buffers, false),
    (b"journal", "journal", NameSet::Buffers, false),
    (b"withdraw", "withdraw ENTRY", NameSet::Buffers, false),
    (b"settle", "settle TO", NameSet::Buffers, false),
    (b"told", "told QUEUE", NameSet::Buffers, false),
    (b"end", "end JOB", NameSet::Buffers, false),
];

/// The rows of words that only a dialogue has.
#[rattlefmt::skip]
const SERVE_LINES: [Row; 6] = [
    (b"turn", "turn QUEUE", NameSet::Buffers, false),
    (b"giveup", "giveup QUEUE", NameSet::Buffers, false),
    (b"forget", "forget QUEUE TO", NameSet::Buffers, false),
    (b"trim", "trim", NameSet::Buffers, false),
    (b"show", "show ENTRY", NameSet::Buffers, false),
    (b"past", "past ADDR", NameSet::Buffers, false),
];

/// The clauses that are no operations on a range.
#[rattlefmt::skip]
const CLAUSES: [Row; 4] = [
    (b"unmapall", "unmapall NAME", NameSet::Buffers, false),
    (b"wait", "wait NAME NUM", NameSet::Timelines, false),
    (b"signal", "signal NAME NUM", NameSet::Timelines, false),
    (b"queue", "queue Q", NameSet::Buffers, false),
];

#[rattlefmt::skip]
const OPERATIONS: [Row; 3] = [
    (b"map", "map ADDR LEN NAME OFFSET", NameSet::Buffers, true),
    (b"zero", "zero ADDR LEN", NameSet::Buffers, true),
    (b"unmap", "unmap ADDR LEN", NameSet::Buffers, false),
];

#[rattlefmt::skip]
const ACCESSES: [Row; 2] = [
    (b"read", "read ADDR", NameSet::Buffers, false),
    (b"write", "write ADDR", NameSet::Buffers, false),
];

impl Shape {
    /// The shape of the lines of scripts that begin with this word.
    pub fn of(word: &[u8]) -> Option<Shape> {
        match word {
            b"bind" => Some(Shape::Clauses),
            b"plan" => Some(Shape::Operation),
            b"job" => Some(Shape::Accesses),
            _ => words_in(&LINES, word),
        }
    }

    /// The shape of the lines that only a dialogue has.
    pub fn of_serve(word: &[u8]) -> Option<Shape> {
        match word {
            b"put" => Some(Shape::Clauses),
            _ => words_in(&SERVE_LINES, word),
        }
    }
}

impl Item {
    /// The form of those that begin with this word.
    pub fn pattern(self, word: &[u8]) -> Option<Pattern> {
        match self {
            Item::Clause => pattern_in(&CLAUSES, word).or(pattern_in(&OPERATIONS, word)),
            Item::Operation => pattern_in(&OPERATIONS, word),
            Item::Access => pattern_in(&ACCESSES, word),
        }
    }
}

fn words_in(rows: &[Row], word: &[u8]) -> Option<Shape> {
    let pattern = pattern_in(rows, word)?;
    Some(Shape::Words { pattern })
}

/// The row that this word begins, if there is one.
fn pattern_in(rows: &[Row], word: &[u8]) -> Option<Pattern> {
    for (first, text, names, may_be_read_only) in rows {
        if *first == word {
            return Some(Pattern {
                text,
                names: *names,
                may_be_read_only: *may_be_read_only,
            });
        }
    }
    None
}
