//! The rows of a history.

/// What a row shows.
#[derive(Clone, Copy, Debug, PartialEq, Eq)]
pub enum RowKind {
    /// A request that was carried out.
    Change,
    /// An older request taken back, newest first or not.
    TakesBack,
    /// Something that was asked for and refused.
    Refused,
    /// Memory that was freed, with all that was mapped of it.
    Freed,
}

/// How a row looks, as parts of an SVG: the attributes of its ground, if it has one, of its number and of its answer, and the
/// sign that replaces its number, if one does.
pub(crate) struct RowLook {
    pub ground: &'static str,
    pub number: &'static str,
    pub sign: &'static str,
    pub answer: &'static str,
}

static CHANGE: RowLook = RowLook {
    ground: "",
    number: "class=\"number\" text-anchor=\"end\"",
    sign: "",
    answer: "class=\"answer\" style=\"fill:#5b6675\"",
};

static TAKES_BACK: RowLook = RowLook {
    ground: "fill=\"#fff3d6\"",
    number: "class=\"number\" text-anchor=\"end\"",
    sign: "↶",
    answer: "class=\"answer\" style=\"fill:#8a6100\"",
};

static REFUSED: RowLook = RowLook {
    ground: "fill=\"#fde8e8\"",
    number: "class=\"number\" text-anchor=\"end\" style=\"fill:#b3261e\"",
    sign: "✗",
    answer: "class=\"answer\" style=\"fill:#b3261e\"",
};

static FREED: RowLook = RowLook {
    ground: "fill=\"#fde8e8\"",
    number: "class=\"number\" text-anchor=\"end\"",
    sign: "",
    answer: "class=\"answer\" style=\"fill:#b3261e\"",
};

impl RowKind {
    /// How a row of this kind looks.
    pub(crate) fn look(self) -> &'static RowLook {
        match self {
            RowKind::Change => &CHANGE,
            RowKind::TakesBack => &TAKES_BACK,
            RowKind::Refused => &REFUSED,
            RowKind::Freed => &FREED,
        }
    }
}

/// What a row shows: the number of the journal's entry, where it became one, what was asked, and the answer where that
/// is worth showing.
#[derive(Debug, Drop)]
pub struct RowContent {
    pub number: Option<u64>,
    pub label: String,
    pub answer: String,
    pub kind: RowKind,
}

/// A row that is kept: its place among all rows, how much it matters, and what stood after it.
#[derive(Drop)]
pub(crate) struct Row {
    pub content: RowContent,
    pub serial: u64,
    pub rank: u8,
    pub mappings: u64,
    pub pages: u64,
    pub tables: [u64; 5],
}
