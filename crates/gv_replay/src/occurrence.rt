//! Places where findings were made.

use crate::act::{Act, Moment};
use gv_types::{BufferId, Fault};

/// What was done at an occurrence, or when alone.
#[derive(Clone, Copy)]
pub enum Head {
    Act { act: Act },
    Moment { moment: Moment },
    Buffer { moment: Moment, buffer: BufferId },
}

/// How a number is told.
#[derive(Clone, Copy)]
pub enum Digits {
    /// A number of bytes, or an address.
    Hex,
    Decimal,
    /// How many there are of what the text behind it names.
    Counted,
}

impl Digits {
    /// What ends the word behind a number.
    pub fn plural(self, number: u64) -> &'static str {
        match self {
            Digits::Counted if number != 1 => "s",
            Digits::Hex | Digits::Decimal | Digits::Counted => "",
        }
    }
}

/// A number that is told of an occurrence: its key in JSON, what stands before and behind it in text, and its digits.
#[derive(Clone, Copy)]
pub struct Field {
    pub key: &'static str,
    pub before: &'static str,
    pub digits: Digits,
    pub after: &'static str,
}

const LEN: Field = Field {
    key: "len",
    before: " ",
    digits: Digits::Hex,
    after: "",
};

const MAPPINGS: Field = Field {
    key: "mappings",
    before: ": ",
    digits: Digits::Counted,
    after: " mapping",
};

const OVER: &[Field] = &[MAPPINGS];

const ELSEWHERE: &[Field] = &[
    Field {
        key: "addr",
        before: ": at ",
        digits: Digits::Hex,
        after: "",
    },
    LEN,
    Field {
        key: "made_at",
        before: ", line ",
        digits: Digits::Decimal,
        after: "",
    },
];

const NOT_ALIVE: &[Field] = &[
    Field {
        key: "addr",
        before: "free ",
        digits: Digits::Hex,
        after: "",
    },
    Field {
        key: "len",
        before: " ",
        digits: Digits::Hex,
        after: ", where no memory is known",
    },
];

const REACHED: &[Field] = &[
    Field {
        key: "made_at",
        before: ", made at line ",
        digits: Digits::Decimal,
        after: "",
    },
    Field {
        key: "pages",
        before: ", ",
        digits: Digits::Counted,
        after: " page",
    },
    MAPPINGS,
];

const NOWHERE: &[Field] = &[
    Field {
        key: "addr",
        before: "bind ",
        digits: Digits::Hex,
        after: "",
    },
    LEN,
    Field {
        key: "to",
        before: " to ",
        digits: Digits::Hex,
        after: "",
    },
];

const NOT_MADE: &[Field] = &[Field {
    key: "pages",
    before: "buffer of ",
    digits: Digits::Counted,
    after: " page",
}];

/// What kind of occurrence it is: which numbers are told of it.
#[derive(Clone, Copy)]
pub enum Kind {
    /// The operation alone.
    Plain,
    Over,
    Elsewhere,
    NotAlive,
    Reached,
    Nowhere,
    NotMade,
}

impl Kind {
    /// The numbers that are told, in order.
    pub fn fields(self) -> &'static [Field] {
        match self {
            Kind::Plain => &[],
            Kind::Over => OVER,
            Kind::Elsewhere => ELSEWHERE,
            Kind::NotAlive => NOT_ALIVE,
            Kind::Reached => REACHED,
            Kind::Nowhere => NOWHERE,
            Kind::NotMade => NOT_MADE,
        }
    }
}

/// One occurrence where a finding was made: what was done, the numbers that are told of it, as many as its kind has, and the refusal if it
/// is one.
#[derive(Clone, Copy)]
pub struct Occurrence {
    pub head: Head,
    pub kind: Kind,
    pub numbers: [u64; 3],
    pub fault: Option<Fault>,
}

impl Occurrence {
    /// An operation, and how many live mappings its range met.
    pub fn over(act: &Act, mappings: u64) -> Occurrence {
        Occurrence::of_act(act, Kind::Over, [mappings, 0, 0])
    }

    /// An unmap of a range in which nothing was mapped.
    pub fn nothing(act: &Act) -> Occurrence {
        Occurrence::of_act(act, Kind::Plain, [0, 0, 0])
    }

    /// The unbind of a VMA that a line bound at other bytes: where, how many, and that line.
    pub fn elsewhere(act: &Act, numbers: [u64; 3]) -> Occurrence {
        Occurrence::of_act(act, Kind::Elsewhere, numbers)
    }

    /// Memory, in bytes, that was freed and isn't known to live.
    pub fn not_alive(moment: Moment, addr: u64, len: u64) -> Occurrence {
        Occurrence::of_moment(moment, Kind::NotAlive, [addr, len, 0])
    }

    /// A bind of a range of bytes to an address where no memory lives.
    pub fn nowhere(moment: Moment, numbers: [u64; 3]) -> Occurrence {
        Occurrence::of_moment(moment, Kind::Nowhere, numbers)
    }

    /// A buffer that was freed while other mappings of it were alive: the line that made it, its pages, and how many mappings.
    pub fn reached(moment: Moment, buffer: BufferId, numbers: [u64; 3]) -> Occurrence {
        Occurrence {
            head: Head::Buffer { moment, buffer },
            kind: Kind::Reached,
            numbers,
            fault: None,
        }
    }

    /// An operation that was refused.
    pub fn refused(act: &Act, fault: Fault) -> Occurrence {
        Occurrence {
            head: Head::Act { act: *act },
            kind: Kind::Plain,
            numbers: [0, 0, 0],
            fault: Some(fault),
        }
    }

    /// No buffer of so many pages could be made.
    pub fn not_made(moment: Moment, pages: u64, fault: Fault) -> Occurrence {
        Occurrence {
            head: Head::Moment { moment },
            kind: Kind::NotMade,
            numbers: [pages, 0, 0],
            fault: Some(fault),
        }
    }

    fn of_act(act: &Act, kind: Kind, numbers: [u64; 3]) -> Occurrence {
        Occurrence {
            head: Head::Act { act: *act },
            kind,
            numbers,
            fault: None,
        }
    }

    fn of_moment(moment: Moment, kind: Kind, numbers: [u64; 3]) -> Occurrence {
        Occurrence {
            head: Head::Moment { moment },
            kind,
            numbers,
            fault: None,
        }
    }
}
