//! The texts of places, mappings, faults and replies.
use super::names::{Names, name_at};
use gv_types::{Backing, Fault, Flags, Mapping, PAGE_BYTES};
use gv_vm::{Outcome, Place, Reply, Target};
use std::alloc::{AllocError, Global};
use std::fmt::Write;

/// What a page number comes to in bytes.
fn bytes(pages: u64) -> u64 {
    pages.saturating_mul(PAGE_BYTES)
}

/// Writes where an address leads.
fn write_place(out: &mut String, names: &Names, place: Option<Place>) -> Result<(), AllocError> {
    match &place {
        Some(place) => write_reached(out, names, place),
        None => out.push_str("none"),
    }
}

fn write_reached(out: &mut String, names: &Names, place: &Place) -> Result<(), AllocError> {
    match &place.target {
        Target::Buffer { id, byte } => {
            let name = name_at(&names.buffers, id.generation.get());
            write!(out, "{name} {byte:016x}")?;
        }
        Target::Zero => out.push_str("zero")?,
    }
    out.push_str(flags_word(place.flags))
}

fn write_place_line(
    out: &mut String,
    names: &Names,
    place: Option<Place>,
) -> Result<(), AllocError> {
    write_place(out, names, place)?;
    out.push('\n')
}

fn write_places(out: &mut String, names: &Names, places: &[Place]) -> Result<(), AllocError> {
    for place in places {
        write_place_line(out, names, Some(*place))?;
    }
    Ok(())
}

fn flags_word(flags: Flags) -> &'static str {
    if flags.read_only { " ro" } else { " rw" }
}

/// Where the first byte of a mapping leads.
fn start_of(mapping: &Mapping) -> Place {
    let target = match mapping.backing {
        Backing::Buffer { id, page } => Target::Buffer {
            id,
            byte: bytes(page),
        },
        Backing::Zero => Target::Zero,
    };
    Place {
        target,
        flags: mapping.flags,
    }
}

/// Writes a mapping, or that there is none.
pub fn write_mapping(
    out: &mut String,
    names: &Names,
    mapping: Option<&Mapping>,
) -> Result<(), AllocError> {
    let Some(mapping) = mapping else {
        return out.push_str("none");
    };
    let first = bytes(mapping.range.first());
    let end = bytes(mapping.range.end());
    write!(out, "{first:016x} {end:016x} ")?;
    write_place(out, names, Some(start_of(mapping)))
}

/// Writes each mapping on a line of its own.
pub fn write_list(out: &mut String, names: &Names, list: &[Mapping]) -> Result<(), AllocError> {
    if list.is_empty() {
        return out.push_str("empty\n");
    }
    for mapping in list {
        write_mapping(out, names, Some(mapping))?;
        out.push('\n')?;
    }
    Ok(())
}

/// Writes a fault: its name, and the number that it carries, if any. Its form for debugging has both, as the words 1 and 4.
pub fn write_fault(alloc: Global, out: &mut String, fault: &Fault) -> Result<(), AllocError> {
    let shown = format!(in alloc; "{fault:?}")?;
    let mut words = shown.as_str().split(' ');
    out.push_str(words.next().unwrap_or(""))?;
    match words.nth(2) {
        Some(number) => writeln!(out, " {number}"),
        None => out.push('\n'),
    }
}

/// Writes that a call is refused.
pub fn write_refused(alloc: Global, out: &mut String, fault: &Fault) -> Result<(), AllocError> {
    out.push_str("refused ")?;
    write_fault(alloc, out, fault)
}

/// Writes what a request came to.
pub fn write_outcome(
    alloc: Global,
    out: &mut String,
    names: &Names,
    outcome: &Outcome,
) -> Result<(), AllocError> {
    match outcome {
        Outcome::Accepted { entry } => writeln!(out, "accepted {entry}"),
        Outcome::Refused { op, fault } => {
            write!(out, "refused {op} ")?;
            write_fault(alloc, out, fault)
        }
        Outcome::NotReady { point, have } => {
            let name = name_at(&names.timelines, point.timeline);
            let value = point.value;
            writeln!(out, "notready {name} {value} have {have}")
        }
    }
}

/// The word and the number that are all of a reply, for most kinds.
fn counted(reply: &Reply) -> Option<(&'static str, u64)> {
    match reply {
        Reply::Rewound { item } => Some(("rewound", *item)),
        Reply::Settled { count } => Some(("settled", *count)),
        Reply::Ended { job } => Some(("ended", *job)),
        Reply::Begun { job, .. } => Some(("job", *job)),
        _ => None,
    }
}

/// Writes a reply to an event that names this number.
pub fn write_reply(
    alloc: Global,
    out: &mut String,
    names: &Names,
    number: u64,
    reply: &Reply,
) -> Result<(), AllocError> {
    if let Some((word, count)) = counted(reply) {
        writeln!(out, "{word} {count}")?;
    }
    match reply {
        Reply::Created { .. } | Reply::Destroyed => out.push_str("ok\n"),
        Reply::Refused { fault } => write_refused(alloc, out, fault),
        Reply::Told { outcome, .. } => write_outcome(alloc, out, names, outcome),
        Reply::Begun { places, .. } => write_places(out, names, places),
        Reply::Found { place } => write_place_line(out, names, *place),
        Reply::Raised { point, now } => {
            writeln!(out, "{} {now}", name_at(&names.timelines, point.timeline))
        }
        Reply::Withdrawn { item } => writeln!(out, "withdrawn {number} as {item}"),
        _ => Ok(()),
    }
}
