//! Why a line of a script is bad.
use crate::buffer_names::BufferNames;
use crate::session::Session;
use crate::stage::Stage;
use crate::timeline_names::TimelineNames;
use gv_lines::{
    Found, Line, Mention, Mentions, Misplacement, Name, NameSet, Reason, Setting, Slip, explain,
    no_such_line, parse_line, word_at,
};
use gv_types::{Bounds, MAX_BUFFERS, MAX_ITEMS, MAX_MAPPINGS, PAGE_BYTES};
use std::alloc::Global;
use std::fmt::Write;

/// The names that are declared. Where those of buffers are not known yet, each is taken as it should be.
#[derive(Clone, Copy)]
pub struct Declared<'n> {
    pub buffers: Option<&'n BufferNames>,
    pub timelines: &'n TimelineNames,
}

/// Where a line of a script, given without its line end, is bad first on this session, and why. It has to be bad there.
pub fn why_bad<'a>(alloc: Global, session: &Session, text: &'a [u8]) -> Slip<'a> {
    match explain(alloc, text) {
        Some(slip) => slip,
        None => why_misplaced(session, text),
    }
}

/// Why a line of the language, or of a dialogue, is not allowed on this session.
pub fn why_misplaced<'a>(session: &Session, text: &'a [u8]) -> Slip<'a> {
    if let Some(slip) = why_not_set(session.stage(), text) {
        return slip;
    }
    let declared = Declared {
        buffers: Some(session.buffers()),
        timelines: session.timelines(),
    };
    why_not_named(declared, text).unwrap_or(no_such_line(text))
}

/// Replaces the text by why a line is bad. The text is empty if out of memory.
pub fn write_why(why: &mut String, slip: &Slip<'_>) {
    why.clear();
    if write!(why, "{slip}").is_err() {
        why.clear();
    }
}

/// Why a `space` line or a `limits` line is not allowed at this stage. None for another line.
pub fn why_not_set(stage: Stage, text: &[u8]) -> Option<Slip<'_>> {
    match parse_line(text)? {
        Line::Space {
            start,
            len,
            reserved_start,
            reserved_len,
        } => Some(if stage == Stage::Fresh {
            space_slip(text, [start, len, reserved_start, reserved_len])
        } else {
            at_first_word(Misplacement::SpaceFirst)
        }),
        Line::Limits {
            buffers,
            mappings,
            items,
        } => Some(if stage == Stage::Begun {
            at_first_word(Misplacement::LimitsFirst)
        } else {
            limits_slip(text, [buffers, mappings, items])
        }),
        _ => None,
    }
}

/// A line is not allowed at its position.
pub fn at_first_word(misplacement: Misplacement<'_>) -> Slip<'_> {
    Slip {
        column: 1,
        reason: Reason::Misplacement(misplacement),
    }
}

/// What of a `space` line cannot be set.
fn space_slip(text: &[u8], numbers: [u64; 4]) -> Slip<'_> {
    let [start, len, reserved_start, reserved_len] = numbers;
    let unaligned = if start % PAGE_BYTES != 0 {
        Some((1, "START"))
    } else if len % PAGE_BYTES != 0 {
        Some((2, "LEN"))
    } else if reserved_start % PAGE_BYTES != 0 {
        Some((3, "RSTART"))
    } else if reserved_len % PAGE_BYTES != 0 {
        Some((4, "RLEN"))
    } else {
        None
    };
    let (position, setting) = if let Some((position, part)) = unaligned {
        (position, Setting::Unaligned { part })
    } else if len == 0 {
        (2, Setting::EmptySpace)
    } else if Bounds::from_bytes(start, len, 0, 0).is_none() {
        (2, Setting::PastEnd)
    } else {
        (3, Setting::Outside)
    };
    at_word(text, position, setting)
}

/// What of a `limits` line cannot be set.
fn limits_slip(text: &[u8], numbers: [u64; 3]) -> Slip<'_> {
    let [buffers, mappings, _] = numbers;
    let (position, part, most) = if buffers == 0 || buffers > MAX_BUFFERS {
        (1, "BUFFERS", MAX_BUFFERS)
    } else if mappings == 0 || mappings > MAX_MAPPINGS {
        (2, "MAPPINGS", MAX_MAPPINGS)
    } else {
        (3, "ITEMS", MAX_ITEMS)
    };
    at_word(text, position, Setting::OutOfRange { part, most })
}

fn at_word(text: &[u8], position: usize, setting: Setting) -> Slip<'_> {
    match word_at(text, position) {
        Some(Found { word, column }) => Slip {
            column,
            reason: Reason::Setting { word, setting },
        },
        None => no_such_line(text),
    }
}

/// The first name of a line of the language that is not declared, or that is declared already where the line declares one. None
/// where each is as it should be.
pub fn why_not_named<'a>(declared: Declared<'_>, text: &'a [u8]) -> Option<Slip<'a>> {
    let declares = matches!(
        parse_line(text),
        Some(Line::Buffer { .. } | Line::Timeline { .. })
    );
    let mut mentions = Mentions::new(text);
    for _ in 0..text.len() {
        let Mention { set, name, column } = mentions.take()?;
        let misplacement = if declares {
            declared.why_not_declared(set, name)
        } else {
            declared.why_not_used(set, name)
        };
        if let Some(misplacement) = misplacement {
            return Some(Slip {
                column,
                reason: Reason::Misplacement(misplacement),
            });
        }
    }
    None
}

impl Declared<'_> {
    /// Whether a name is declared, if that is known.
    fn has(self, set: NameSet, word: &[u8]) -> Option<bool> {
        let name = Name::from_word(word)?;
        match set {
            NameSet::Buffers => Some(self.buffers?.id_of(&name).is_some()),
            NameSet::Timelines => Some(self.timelines.index_of(&name).is_some()),
        }
    }

    fn why_not_used<'a>(self, set: NameSet, name: &'a [u8]) -> Option<Misplacement<'a>> {
        (!self.has(set, name)?).then_some(Misplacement::Undeclared { set, name })
    }

    fn why_not_declared<'a>(self, set: NameSet, name: &'a [u8]) -> Option<Misplacement<'a>> {
        if self.has(set, name)? {
            Some(Misplacement::Declared { set, name })
        } else if set == NameSet::Timelines {
            Some(Misplacement::ManyTimelines)
        } else {
            None
        }
    }
}
