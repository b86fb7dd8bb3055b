//! A row for each argument: its name, its help, its kind and its range.

use crate::args::{Argument, Kind, Numbers};
use crate::help;

/// The greatest number of queues.
pub const MAX_QUEUES: u64 = 16;

/// The greatest number of turns that a request may wait.
pub const MAX_TURNS: u64 = 1_000_000_000;

/// The greatest width of a picture, in pixels.
pub const MAX_WIDTH: u64 = 16_384;

/// The greatest number of a process.
const MAX_PID: u64 = 4_294_967_295;

/// The file that is read instead of standard input.
pub const FILE: Argument = Argument {
    name: "file",
    help: help::FILE,
    kind: Kind::Positional("FILE"),
    needed: false,
};

/// The first list of a comparison.
pub const FIRST: Argument = Argument {
    name: "first",
    help: help::LIST,
    kind: Kind::Positional("A"),
    needed: true,
};

/// The second list of a comparison.
pub const SECOND: Argument = Argument {
    name: "second",
    help: help::LIST,
    kind: Kind::Positional("B"),
    needed: true,
};

/// The number of queues.
pub const QUEUES: Argument = Argument {
    name: "queues",
    help: help::QUEUES,
    kind: Kind::Number(
        "N",
        Numbers {
            least: 1,
            most: MAX_QUEUES,
            defaults: &[],
        },
    ),
    needed: true,
};

/// After how many turns a request that waits is given up.
pub const TURNS: Argument = Argument {
    name: "turns",
    help: help::TURNS,
    kind: Kind::Number(
        "T",
        Numbers {
            least: 1,
            most: MAX_TURNS,
            defaults: &["100000"],
        },
    ),
    needed: false,
};

/// The format of a log.
pub const FORMAT: Argument = Argument {
    name: "format",
    help: help::FORMAT,
    kind: Kind::Text("FORMAT"),
    needed: true,
};

/// The format of the second file, if it is a log.
pub const LOG_FORMAT: Argument = Argument {
    name: "format",
    help: help::LOG_FORMAT,
    kind: Kind::Text("FORMAT"),
    needed: false,
};

/// Addresses whose past the report gives.
pub const ADDRESSES: Argument = Argument {
    name: "at",
    help: help::ADDRESSES,
    kind: Kind::Texts("ADDR"),
    needed: false,
};

/// The address around which the picture is drawn.
pub const AT: Argument = Argument {
    name: "at",
    help: help::AT,
    kind: Kind::Text("ADDR"),
    needed: false,
};

/// What the flags of a log mean.
pub const FLAGS: Argument = Argument {
    name: "flags",
    help: help::FLAGS,
    kind: Kind::Text("BITS"),
    needed: false,
};

/// The process whose events, or whose address space, a report takes.
pub const PID: Argument = Argument {
    name: "pid",
    help: help::PID,
    kind: Kind::Number(
        "N",
        Numbers {
            least: 0,
            most: MAX_PID,
            defaults: &[],
        },
    ),
    needed: false,
};

/// The address space that a report or a comparison takes.
pub const SPACE: Argument = Argument {
    name: "space",
    help: help::SPACE,
    kind: Kind::Text("NAME"),
    needed: false,
};

/// The width of a picture.
pub const WIDTH: Argument = Argument {
    name: "width",
    help: help::WIDTH,
    kind: Kind::Number(
        "N",
        Numbers {
            least: 1,
            most: MAX_WIDTH,
            defaults: &["1600"],
        },
    ),
    needed: false,
};

/// No progress is shown.
pub const QUIET: Argument = Argument {
    name: "quiet",
    help: help::QUIET,
    kind: Kind::Flag,
    needed: false,
};

/// The program says why a line is bad.
pub const EXPLAIN: Argument = Argument {
    name: "explain",
    help: help::EXPLAIN,
    kind: Kind::Flag,
    needed: false,
};

/// Replies are JSON.
pub const JSON: Argument = Argument {
    name: "json",
    help: help::JSON,
    kind: Kind::Flag,
    needed: false,
};

/// The report is JSON.
pub const AS_JSON: Argument = Argument {
    name: "json",
    help: help::AS_JSON,
    kind: Kind::Flag,
    needed: false,
};

/// A script is written instead of the report.
pub const AS_SCRIPT: Argument = Argument {
    name: "script",
    help: help::AS_SCRIPT,
    kind: Kind::Flag,
    needed: false,
};

/// A picture is written instead of the report.
pub const AS_PICTURE: Argument = Argument {
    name: "draw",
    help: help::AS_PICTURE,
    kind: Kind::Flag,
    needed: false,
};

/// The report has all places of a finding.
pub const ALL: Argument = Argument {
    name: "all",
    help: help::ALL,
    kind: Kind::Flag,
    needed: false,
};
