//! The forms of replies' lines.
use Kind::{
    Address, Close, Given, Live, Mapping, Number, NumberIfAny, Object, ObjectOrNull, Place, Tables,
    Text, True, Word,
};

/// What a part of a form says of a line's words.
#[derive(Clone, Copy)]
pub enum Kind {
    /// The part's word, which is no member.
    Word,
    /// A number.
    Number,
    /// A number, or nothing, which is no member.
    NumberIfAny,
    /// A word.
    Text,
    /// A hexadecimal number behind `0x`.
    Address,
    /// Nothing. The member is true.
    True,
    /// The member's key, or nothing: true or false.
    Given,
    /// `live` or `withdrawn`: true or false.
    Live,
    /// `zero`, or a buffer's name and an offset, and then `ro` or `rw`. The members have keys of their own.
    Place,
    /// The addresses where a mapping begins and ends, and its place. The members have keys of their own.
    Mapping,
    /// The number of tables at each of five levels.
    Tables,
    /// An object of the parts up to `Close`.
    Object,
    /// Such an object, or `none`, which is null.
    ObjectOrNull,
    Close,
}

/// A kind with the key of the member, or the word.
pub type Part = (Kind, &'static str);

/// The parts of a line.
pub type Form = &'static [Part];

/// What a line did.
pub const OUTCOME: &[Form] = &[
    &[(Word, "ok"), (True, "ok")],
    &[(Word, "idle"), (True, "idle")],
    &[(Word, "trimmed"), (True, "trimmed")],
    &[(Word, "accepted"), (Number, "accepted")],
    &[(Word, "put"), (Number, "put")],
    &[(Word, "rewound"), (Number, "rewound")],
    &[(Word, "settled"), (Number, "settled")],
    &[(Word, "forgot"), (Number, "forgot")],
    &[(Word, "ended"), (Number, "ended")],
    &[
        (Word, "uses"),
        (Number, "uses"),
        (Word, "kept"),
        (Number, "kept"),
    ],
    &[
        (Word, "withdrawn"),
        (Number, "withdrawn"),
        (Word, "as"),
        (Number, "as"),
    ],
    &[
        (Word, "refused"),
        (Object, "refused"),
        (NumberIfAny, "op"),
        (Text, "fault"),
        (NumberIfAny, "number"),
        (Close, ""),
    ],
    &[
        (Word, "notready"),
        (Object, "notready"),
        (Text, "timeline"),
        (Number, "value"),
        (Word, "have"),
        (Number, "have"),
        (Close, ""),
    ],
    &[
        (Word, "waits"),
        (Object, "waits"),
        (Text, "timeline"),
        (Number, "value"),
        (Word, "have"),
        (Number, "have"),
        (Close, ""),
    ],
];

/// What is mapped at an address.
pub const REACHED: &[Form] = &[&[(ObjectOrNull, "place"), (Place, ""), (Close, "")]];

/// A timeline and its number.
pub const VALUE: &[Form] = &[&[(Text, "timeline"), (Number, "value")]];

pub const TABLES: &[Form] = &[&[(Tables, "tables")]];

/// The item that an item withdrew.
pub const WITHDRAWAL: &[Form] = &[&[(Word, "withdrawal"), (Word, "of"), (Number, "withdrawal")]];

/// The first line of the reply to `job`.
pub const JOB: &[Form] = &[&[(Word, "job"), (Number, "job")]];

/// The last line of the reply to `past`.
pub const UNDER: &[Form] = &[&[
    (Word, "under"),
    (ObjectOrNull, "under"),
    (Place, ""),
    (Close, ""),
]];

/// Lines that stand in a list.
#[derive(Clone, Copy)]
pub struct Rows {
    /// The list's key.
    pub key: &'static str,
    /// The key of the number that each line begins with, if it begins with one.
    pub number: Option<&'static str>,
    /// The forms that a line may have.
    pub forms: &'static [Form],
}

pub const MAPPINGS: Rows = Rows {
    key: "mappings",
    number: None,
    forms: &[&[(Mapping, "")]],
};

/// Items of the journal.
pub const ITEMS: Rows = Rows {
    key: "items",
    number: Some("item"),
    forms: &[
        &[
            (Word, "bind"),
            (Number, "queue"),
            (Number, "number"),
            (Live, "live"),
        ],
        &[(Word, "withdrawal"), (Word, "of"), (Number, "withdrawal")],
    ],
};

/// What a queue was told.
pub const OUTCOMES: Rows = Rows {
    key: "outcomes",
    number: Some("number"),
    forms: OUTCOME,
};

/// Split steps. One that takes a mapping out has its rests, and whether it is kept.
pub const STEPS: Rows = Rows {
    key: "steps",
    number: None,
    forms: &[
        &[(Word, "map"), (Object, "map"), (Mapping, ""), (Close, "")],
        &[
            (Word, "unmap"),
            (Object, "unmap"),
            (Mapping, ""),
            (Close, ""),
            (Given, "keep"),
        ],
        &[
            (Word, "remap"),
            (Object, "remap"),
            (Mapping, ""),
            (Close, ""),
            (Word, "prev"),
            (ObjectOrNull, "prev"),
            (Mapping, ""),
            (Close, ""),
            (Word, "next"),
            (ObjectOrNull, "next"),
            (Mapping, ""),
            (Close, ""),
            (Given, "keep"),
        ],
    ],
};

/// Operations as `bind` reads them.
pub const OPERATIONS: Rows = Rows {
    key: "operations",
    number: None,
    forms: &[
        &[
            (Word, "map"),
            (Object, "map"),
            (Address, "addr"),
            (Address, "len"),
            (Text, "buffer"),
            (Address, "offset"),
            (Given, "ro"),
            (Close, ""),
        ],
        &[
            (Word, "zero"),
            (Object, "zero"),
            (Address, "addr"),
            (Address, "len"),
            (Given, "ro"),
            (Close, ""),
        ],
        &[
            (Word, "unmap"),
            (Object, "unmap"),
            (Address, "addr"),
            (Address, "len"),
            (Close, ""),
        ],
        &[(Word, "unmapall"), (Text, "unmapall")],
    ],
};

/// Where a job's accesses lead.
pub const PLACES: Rows = Rows {
    key: "places",
    number: None,
    forms: &[&[(Place, "")]],
};

/// What items say of an address.
pub const PAST: Rows = Rows {
    key: "past",
    number: Some("item"),
    forms: &[&[
        (Live, "live"),
        (ObjectOrNull, "place"),
        (Place, ""),
        (Close, ""),
    ]],
};
