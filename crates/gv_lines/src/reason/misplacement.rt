//! Lines of the language that are not at their place.
use super::shown::{Shown, write_word};
use std::fmt;

/// The two sets of names.
#[derive(Clone, Copy, PartialEq, Eq)]
pub enum NameSet {
    Buffers,
    Timelines,
}

impl fmt::Display for NameSet {
    fn fmt<W: fmt::Write>(&self, f: &mut fmt::Formatter<W>) -> fmt::Result {
        f.write_str(match self {
            NameSet::Buffers => "buffer",
            NameSet::Timelines => "timeline",
        })
    }
}

/// Why a line of the language is not allowed at its place in its script.
#[derive(Clone, Copy)]
pub enum Misplacement<'a> {
    /// It uses a name that is not declared.
    Undeclared { set: NameSet, name: &'a [u8] },
    /// It declares a name that is declared already.
    Declared { set: NameSet, name: &'a [u8] },
    /// All 64 timelines are declared.
    ManyTimelines,
    /// A `space` line that is not the first.
    SpaceFirst,
    /// A `limits` line after another line than `space`.
    LimitsFirst,
    /// No threads script has a line that begins with this word.
    NotInThreads { word: &'a [u8] },
    /// In a threads script it comes before all `bind` lines and questions.
    FirstPart { word: &'a [u8] },
    /// In a threads script a `bind` line comes before all questions.
    SecondPart,
    /// In a dialogue a `bind` line comes when no request waits on its queue.
    Busy { queue: u64 },
}

impl fmt::Display for Misplacement<'_> {
    fn fmt<W: fmt::Write>(&self, f: &mut fmt::Formatter<W>) -> fmt::Result {
        match *self {
            Misplacement::Undeclared { set, name } => write_named(f, set, name, "not declared"),
            Misplacement::Declared { set, name } => write_named(f, set, name, "declared already"),
            Misplacement::ManyTimelines => f.write_str("a 65th timeline; there are at most 64"),
            Misplacement::SpaceFirst => f.write_str("space comes before all other lines"),
            Misplacement::LimitsFirst => f.write_str(
                "limits comes before all other lines but space",
            ),
            Misplacement::NotInThreads { word } => write_word(
                f,
                word,
                " is no line of a threads script",
            ),
            Misplacement::FirstPart { word } => {
                write_word(f, word, " comes before all bind lines and questions")
            }
            Misplacement::SecondPart => f.write_str("bind comes before all questions"),
            Misplacement::Busy { queue } => write!(
                f,
                "requests wait on queue {queue}; turn {queue} serves them"
            ),
        }
    }
}

/// A name of this set is so.
fn write_named<W: fmt::Write>(
    f: &mut fmt::Formatter<W>,
    set: NameSet,
    name: &[u8],
    so: &str,
) -> fmt::Result {
    let name = Shown(name);
    write!(f, "{set} {name} is {so}")
}
