//! First words that begin nothing.
use super::shown::{Shown, write_word};
use std::fmt;

/// Why a first word begins no line, or no clause. `meant` is one that is much like it.
#[derive(Clone, Copy)]
pub enum Beginning {
    NoSuchLine { meant: Option<&'static str> },
    /// Only a dialogue has such a line.
    ServeAlone,
    NoSuchClause { meant: Option<&'static str> },
    NoSuchOperation { meant: Option<&'static str> },
    NoSuchAccess { meant: Option<&'static str> },
    /// It begins a clause, but no operation on a range, as a plan has.
    NotPlanned,
}

impl Beginning {
    /// Writes the word and the reason.
    pub fn write<W: fmt::Write>(self, f: &mut fmt::Formatter<W>, word: &[u8]) -> fmt::Result {
        let (kind, meant) = match self {
            Beginning::NoSuchLine { meant } => ("line", meant),
            Beginning::NoSuchClause { meant } => ("clause", meant),
            Beginning::NoSuchOperation { meant } => ("operation", meant),
            Beginning::NoSuchAccess { meant } => ("access", meant),
            Beginning::ServeAlone => return write_word(f, word, " is a line of vmbind serve only"),
            Beginning::NotPlanned => return write_word(f, word, "; a plan has map, zero or unmap"),
        };
        write_unknown(f, kind, word, meant)
    }
}

/// Nothing begins with this word, but perhaps something with a word that is much like it.
fn write_unknown<W: fmt::Write>(
    f: &mut fmt::Formatter<W>,
    kind: &str,
    word: &[u8],
    meant: Option<&'static str>,
) -> fmt::Result {
    let word = Shown(word);
    write!(f, "no such {kind}: {word}")?;
    match meant {
        Some(meant) => write!(f, "; did you mean {meant}?"),
        None => Ok(()),
    }
}
