//! What chance writes: patterns with their weights. A `$` and a letter stand for something by chance.
//!
//! Behind a space, a number of either form: `$a` an address, `$f` an offset, `$e` an entry, `$j` a job, `$q` a queue, `$v` a timeline's
//! number, `$s` a buffer's pages, `$l` and `$m` limits; and `$r` an address and a length. Names: `$b` and `$t` of a declared buffer and
//! timeline, `$B` and `$T` of new ones, `$N` any. Numbers of replies: `$n` in decimal digits, `$x` and `$h` in hexadecimal ones.
//! Words: `$w` and `$W` the one for read-only pages or none, `$R` flags, `$L` a state, `$F` a fault.

/// A weight and a pattern.
pub type Row = (u64, &'static str);

/// Lines. Behind `bind`, `job` and `plan` come further parts.
pub const LINES: [Row; 20] = [
    (630, "bind"),
    (36, "timeline $T"),
    (72, "buffer $B$s"),
    (78, "destroy $b"),
    (78, "uses $b"),
    (78, "plan"),
    (63, "raise $t$v"),
    (63, "value $t"),
    (108, "rewind"),
    (180, "withdraw$e"),
    (36, "settle$e"),
    (72, "job"),
    (36, "end$j"),
    (108, "at$a"),
    (36, "told$q"),
    (56, "map"),
    (28, "tables"),
    (14, "journal"),
    (14, "# said to nobody"),
    (14, ""),
];

/// Operations on ranges.
pub const OPERATIONS: [Row; 3] = [(3, "unmap$r"), (2, "zero$r$w"), (5, "map$r $b$f$w")];

/// Clauses of a request.
pub const CLAUSES: [Row; 6] = [
    (27, "unmap$r"),
    (18, "zero$r$w"),
    (45, "map$r $b$f$w"),
    (10, "wait $t$v"),
    (10, "signal $t$v"),
    (10, "unmapall $b"),
];

pub const ACCESSES: [Row; 2] = [(1, "write$a"), (2, "read$a")];

/// What stands for a line, or for an operation or clause, that names a buffer or timeline where there is none.
pub const OTHER_LINE: &str = "map";

pub const OTHER_CLAUSE: &str = "zero$r$w";

pub const LIMITS: &str = "limits$l$m$m";

/// Words of which one stands for a letter.
pub const MAYBE_READ_ONLY: [&str; 4] = ["", "", "", " ro"];

pub const READ_ONLY: [&str; 2] = ["", " ro"];

pub const FLAGS: [&str; 2] = ["ro", "rw"];

pub const STATES: [&str; 2] = ["live", "withdrawn"];

/// Names that words of a reply are called like, too.
pub const NAMES: [&str; 6] = ["b", "none", "ro", "live", "refused", "under"];

pub const FAULTS: [&str; 6] = [
    "QueueFull",
    "NoEntry",
    "NoOutcome",
    "Held 3",
    "Conflict 7",
    "Touched 18446744073709551615",
];

/// Replies to the lines of a dialogue that begin with a word: what they are, or rows where that is nothing, and an end behind the rows.
#[derive(Clone, Copy)]
pub struct Replies {
    pub word: &'static str,
    pub heads: &'static [Row],
    pub least_rows: u64,
    pub rows: &'static [Row],
    pub ends: &'static [Row],
}

const REFUSALS: Row = (1, "refused $F\n");

pub const REPLIES: [Replies; 7] = [
    Replies {
        word: "put",
        heads: &[REFUSALS, (2, "put $n\n")],
        least_rows: 0,
        rows: &[],
        ends: &[],
    },
    Replies {
        word: "turn",
        heads: &[
            (1, "idle\n"),
            (1, "accepted $n\n"),
            (1, "refused $n $F\n"),
            (1, "waits $N $n have $n\n"),
        ],
        least_rows: 0,
        rows: &[],
        ends: &[],
    },
    Replies {
        word: "giveup",
        heads: &[(1, "idle\n"), (1, "notready $N $n have $n\n")],
        least_rows: 0,
        rows: &[],
        ends: &[],
    },
    Replies {
        word: "forget",
        heads: &[REFUSALS, (2, "forgot $n\n")],
        least_rows: 0,
        rows: &[],
        ends: &[],
    },
    Replies {
        word: "trim",
        heads: &[(1, "refused Held $n\n"), (1, "trimmed\n")],
        least_rows: 0,
        rows: &[],
        ends: &[],
    },
    Replies {
        word: "show",
        heads: &[
            (1, "empty\n"),
            (1, "withdrawal of $n\n"),
            (1, "refused NoEntry\n"),
            (5, ""),
        ],
        least_rows: 1,
        rows: &[
            (1, "map $x $x $N $x$W\n"),
            (1, "zero $x $x$W\n"),
            (1, "unmap $x $x\n"),
            (1, "unmapall $N\n"),
        ],
        ends: &[],
    },
    Replies {
        word: "past",
        heads: &[(1, "")],
        least_rows: 0,
        rows: &[
            (1, "$n $L none\n"),
            (1, "$n $L zero $R\n"),
            (1, "$n $L $N $h $R\n"),
        ],
        ends: &[
            (1, "under none\n"),
            (1, "under zero $R\n"),
            (1, "under $N $h $R\n"),
        ],
    },
];
