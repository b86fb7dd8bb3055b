//! Numbers on named timelines.
ghost use Rattle.std.specs.Prelude.{◌≡◌};

use super::name::Name;
use super::words::Words;

/// A number on a timeline that has a name.
#[derive(Drop, Debug)]
pub struct NamedPoint {
    pub timeline: Name,
    pub value: u64,
}

impl NamedPoint {
    ghost use Rattle.gv_lines.specs.Clause.{point_of};

    /// The point that the words `NAME NUM` say.
    pub fn from_words(mut words: Words<'_>) -> Option<NamedPoint>
        ensures { result ≡ point_of words.entry }
    {
        let timeline = words.take_name()?;
        let value = words.take_number()?;
        words.is_done().then_some(NamedPoint { timeline, value })
    }
}
