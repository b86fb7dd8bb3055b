//! Why a line is bad.
mod beginning;
mod form;
mod layout;
mod misplacement;
mod name_slip;
mod number_slip;
mod setting;
mod shown;

pub use beginning::Beginning;
pub use form::Form;
pub use layout::{LINE_LIMIT, Layout};
pub use misplacement::{Misplacement, NameSet};
pub use name_slip::NameSlip;
pub use number_slip::NumberSlip;
pub use setting::Setting;
use shown::write_slip;
use std::fmt;

/// Where a line is bad first, and why. Its text says what was found, where, and what is wanted, in one line of ASCII.
#[derive(Clone, Copy)]
pub struct Slip<'a> {
    /// The place in the line of what was found, in bytes, counted from 1.
    pub column: u64,
    pub reason: Reason<'a>,
}

/// Why a line is bad. Words are those of the line.
#[derive(Clone, Copy)]
pub enum Reason<'a> {
    /// Its bytes are not words with one space between them.
    Layout(Layout),
    /// The first word of the line, or of a clause, begins none.
    Beginning { word: &'a [u8], slip: Beginning },
    /// The words are not of a form, or the clauses not of a line.
    Form(Form<'a>),
    /// A word is no name.
    Name { word: &'a [u8], slip: NameSlip },
    /// A word is no number, or none that is allowed there.
    Number { word: &'a [u8], slip: NumberSlip },
    /// The line is of the language, and not at its place.
    Misplacement(Misplacement<'a>),
    /// The line sets what cannot be set.
    Setting { word: &'a [u8], setting: Setting },
}

impl<'a> Slip<'a> {
    /// A line of over `LINE_LIMIT` bytes.
    pub fn too_long() -> Self {
        Slip {
            column: LINE_LIMIT as u64 + 1,
            reason: Reason::Layout(Layout::TooLong),
        }
    }

    /// A script whose last line has `bytes` bytes and no line end.
    pub fn no_line_end(bytes: usize) -> Self {
        Slip {
            column: (bytes as u64).saturating_add(1),
            reason: Reason::Layout(Layout::NoLineEnd),
        }
    }

    /// The column, if the text has it.
    pub fn shown_column(&self) -> Option<u64> {
        self.reason.has_column().then_some(self.column)
    }
}

impl Reason<'_> {
    /// Whether the text has the column.
    fn has_column(&self) -> bool {
        !matches!(
            self,
            Reason::Layout(Layout::TooLong | Layout::NoLineEnd)
                | Reason::Beginning {
                    slip: Beginning::NoSuchLine { .. } | Beginning::ServeAlone,
                    ..
                }
                | Reason::Misplacement(_)
        )
    }
}

impl fmt::Display for Slip<'_> {
    fn fmt<W: fmt::Write>(&self, f: &mut fmt::Formatter<W>) -> fmt::Result {
        if let Some(column) = self.shown_column() {
            write!(f, "column {column}: ")?;
        }
        let reason = &self.reason;
        write!(f, "{reason}")
    }
}

impl fmt::Display for Reason<'_> {
    fn fmt<W: fmt::Write>(&self, f: &mut fmt::Formatter<W>) -> fmt::Result {
        match *self {
            Reason::Layout(layout) => write!(f, "{layout}"),
            Reason::Beginning { word, slip } => slip.write(f, word),
            Reason::Form(form) => write!(f, "{form}"),
            Reason::Name { word, slip } => write_slip(f, word, slip),
            Reason::Number { word, slip } => write_slip(f, word, slip),
            Reason::Misplacement(misplacement) => write!(f, "{misplacement}"),
            Reason::Setting { word, setting } => write_slip(f, word, setting),
        }
    }
}
