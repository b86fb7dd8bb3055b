//! The forms of lines, clauses and accesses: each keyword, and what the words behind it are.

/// What a keyword stands for.
#[derive(Clone, Copy)]
pub enum Verb {
    Space,
    Limits,
    Buffer,
    Timeline,
    Destroy,
    Uses,
    Raise,
    Value,
    Bind,
    Map,
    Tables,
    Rewind,
    Journal,
    At,
    Withdraw,
    Settle,
    Told,
    End,
    MapBuffer,
    MapZero,
    Unmap,
    UnmapAll,
    Wait,
    Signal,
    Queue,
    Read,
    Write,
}

/// A keyword, a letter for each word behind it, and what it stands for. The letters: `n` a number, `q` the number of a queue, `d` that
/// in decimal digits, `b` a declared buffer, `t` a declared timeline, `w` a name, `r` the word `ro` or none.
pub type Form = (&'static str, &'static str, Verb);

pub const LINES: [Form; 18] = [
    ("space", "nnnn", Verb::Space),
    ("limits", "nnn", Verb::Limits),
    ("buffer", "wn", Verb::Buffer),
    ("timeline", "w", Verb::Timeline),
    ("destroy", "b", Verb::Destroy),
    ("uses", "b", Verb::Uses),
    ("raise", "tn", Verb::Raise),
    ("value", "t", Verb::Value),
    ("bind", "", Verb::Bind),
    ("map", "", Verb::Map),
    ("tables", "", Verb::Tables),
    ("rewind", "", Verb::Rewind),
    ("journal", "", Verb::Journal),
    ("at", "n", Verb::At),
    ("withdraw", "n", Verb::Withdraw),
    ("settle", "n", Verb::Settle),
    ("told", "q", Verb::Told),
    ("end", "n", Verb::End),
];

/// Those that `plan` has behind it.
pub const RANGES: [Form; 3] = [
    ("map", "nnbnr", Verb::MapBuffer),
    ("zero", "nnr", Verb::MapZero),
    ("unmap", "nn", Verb::Unmap),
];

pub const CLAUSES: [Form; 7] = [
    ("map", "nnbnr", Verb::MapBuffer),
    ("zero", "nnr", Verb::MapZero),
    ("unmap", "nn", Verb::Unmap),
    ("unmapall", "b", Verb::UnmapAll),
    ("wait", "tn", Verb::Wait),
    ("signal", "tn", Verb::Signal),
    ("queue", "d", Verb::Queue),
];

pub const ACCESSES: [Form; 2] = [("read", "n", Verb::Read), ("write", "n", Verb::Write)];
