//! The report of a replay as JSON.

use crate::alive::Alive;
use crate::json_writer::JsonWriter;
use crate::occurrence::Occurrence;
use crate::outcome::ReplayOutcome;
use crate::past::{Before, Past};
use crate::space_name::SpaceName;
use crate::spaces::SpaceOutcome;
use crate::tally::{FINDINGS, Finding, Tally};
use std::alloc::{AllocError, Global};

/// Writes what each address space of a log came to that has something to tell, and the names of the others: one object, on a line of
/// its own. One space alone has no name.
pub fn write_json(
    alloc: Global,
    out: &mut String,
    spaces: &[SpaceOutcome],
) -> Result<(), AllocError> {
    let mut writer = JsonWriter::new(alloc)?;
    write_members(&mut writer, spaces)?;
    writer.finish(out)
}

/// The members of the object.
fn write_members(writer: &mut JsonWriter, spaces: &[SpaceOutcome]) -> Result<(), AllocError> {
    if let [one] = spaces {
        return write_outcome(writer, &one.outcome);
    }
    write_spaces(writer, spaces)?;
    write_others(writer, spaces)
}

/// The list of the spaces that have something to tell.
fn write_spaces(writer: &mut JsonWriter, spaces: &[SpaceOutcome]) -> Result<(), AllocError> {
    writer.open_list("spaces")?;
    for space in spaces {
        if space.outcome.has_news() {
            write_space(writer, space)?;
        }
    }
    writer.json.close_list()
}

/// What a space came to, behind its name.
fn write_space(writer: &mut JsonWriter, space: &SpaceOutcome) -> Result<(), AllocError> {
    writer.json.open_object()?;
    write_name(writer, space.name)?;
    write_outcome(writer, &space.outcome)?;
    writer.json.close_object()
}

/// The list of the spaces that have nothing to tell.
fn write_others(writer: &mut JsonWriter, spaces: &[SpaceOutcome]) -> Result<(), AllocError> {
    writer.open_list("nothing_found")?;
    for space in spaces {
        if !space.outcome.has_news() {
            write_named(writer, space.name)?;
        }
    }
    writer.json.close_list()
}

/// The name of a space alone.
fn write_named(writer: &mut JsonWriter, name: SpaceName) -> Result<(), AllocError> {
    writer.json.open_object()?;
    write_name(writer, name)?;
    writer.json.close_object()
}

/// The member that names a space: its word, and its number.
fn write_name(writer: &mut JsonWriter, name: SpaceName) -> Result<(), AllocError> {
    match name {
        SpaceName::Numbered(number) => writer.json.address(name.word(), number),
        SpaceName::Process(number) | SpaceName::Head(number) => {
            writer.json.number(name.word(), number)
        }
    }
}

/// The members of an outcome.
fn write_outcome(writer: &mut JsonWriter, outcome: &ReplayOutcome) -> Result<(), AllocError> {
    write_tally(writer, &outcome.tally)?;
    write_alive(writer, &outcome.alive)?;
    write_pasts(writer, &outcome.pasts)?;
    if outcome.first > 0 {
        writer.json.number("first", outcome.first)?;
    }
    Ok(())
}

/// The members of what was counted.
fn write_tally(writer: &mut JsonWriter, tally: &Tally) -> Result<(), AllocError> {
    writer.json.number("binds", tally.binds)?;
    writer.json.number("buffers", tally.buffers)?;
    writer.json.number("passed_over", tally.passed_over)?;
    if tally.touched > 0 {
        writer.json.number("touched", tally.touched)?;
    }
    write_findings(writer, tally)
}

/// The findings, each under its key.
fn write_findings(writer: &mut JsonWriter, tally: &Tally) -> Result<(), AllocError> {
    for told in FINDINGS {
        writer.json.key(told.key)?;
        write_finding(writer, tally.finding(told))?;
    }
    Ok(())
}

/// A finding: its count, and its occurrences.
fn write_finding(writer: &mut JsonWriter, finding: &Finding) -> Result<(), AllocError> {
    writer.json.open_object()?;
    writer.json.number("count", finding.count())?;
    write_occurrences(writer, finding.occurrences())?;
    writer.json.close_object()
}

fn write_occurrences(
    writer: &mut JsonWriter,
    occurrences: &[Occurrence],
) -> Result<(), AllocError> {
    writer.open_list("places")?;
    for occurrence in occurrences {
        writer.occurrence(occurrence)?;
    }
    writer.json.close_list()
}

/// What is alive.
fn write_alive(writer: &mut JsonWriter, alive: &Alive) -> Result<(), AllocError> {
    writer.json.key("alive")?;
    writer.json.open_object()?;
    writer.json.number("mappings", alive.mappings)?;
    writer.json.number("buffers", alive.buffers)?;
    writer.json.number("bytes", alive.bytes)?;
    write_tables(writer, &alive.tables)?;
    writer.json.close_object()
}

fn write_tables(writer: &mut JsonWriter, tables: &[u64]) -> Result<(), AllocError> {
    writer.open_list("tables")?;
    for count in tables {
        writer.json.item(*count)?;
    }
    writer.json.close_list()
}

/// The list of the addresses that are asked.
fn write_pasts(writer: &mut JsonWriter, pasts: &[Past]) -> Result<(), AllocError> {
    writer.open_list("at")?;
    for past in pasts {
        write_past(writer, past)?;
    }
    writer.json.close_list()
}

/// An address: what it reaches, and what it reached before each line that covers it.
fn write_past(writer: &mut JsonWriter, past: &Past) -> Result<(), AllocError> {
    writer.json.open_object()?;
    writer.json.address("addr", past.addr)?;
    writer.reached("place", &past.now)?;
    write_befores(writer, &past.before)?;
    writer.json.close_object()
}

fn write_befores(writer: &mut JsonWriter, list: &[Before]) -> Result<(), AllocError> {
    writer.open_list("before")?;
    for before in list {
        write_before(writer, before)?;
    }
    writer.json.close_list()
}

fn write_before(writer: &mut JsonWriter, before: &Before) -> Result<(), AllocError> {
    writer.json.open_object()?;
    writer.act(&before.act)?;
    writer.reached("place", &before.reached)?;
    writer.json.close_object()
}
