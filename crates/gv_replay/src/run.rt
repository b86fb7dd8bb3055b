//! A log from its bytes to its report.

use crate::fault::ReplayFault;
use crate::json_report::write_json;
use crate::mappings::write_mappings;
use crate::outcome::ReplayOutcome;
use crate::player::play;
use crate::report::write_report;
use crate::script::ScriptWriter;
use crate::space_name::SpaceName;
use crate::spaces::{SpaceOutcome, play_each};
use crate::terms::{Form, Terms};
use crate::watcher::{Nobody, Watcher};
use gv_io::{Sink, Source, write_all};
use std::alloc::Global;

/// Replays a log and writes what the terms ask for: the report, as text or as JSON, the script, or the mappings at the end. `NoLine` where no line is of
/// the format, `NoSpace` where none is of the address space that is asked, and `ManySpaces` where the mappings of one are asked and
/// there are several; then nothing is written. A log of any length takes the memory of what is live in it and of the last 65,536 binds of
/// each address space; the objects that it knows by pointers are all kept.
pub fn replay<R: Source, W: Sink>(
    alloc: Global,
    reader: &mut R,
    writer: &mut W,
    terms: &Terms<'_>,
) -> Result<(), ReplayFault> {
    let mut report = String::new(alloc);
    match terms.form {
        Form::Script => return write_script(alloc, reader, writer, terms),
        Form::Watched => return watch(alloc, reader, terms, &mut Nobody),
        Form::Json => {
            let spaces = outcomes_of(alloc, reader, terms)?;
            write_json(alloc, &mut report, &spaces)?;
        }
        Form::Report => {
            let spaces = outcomes_of(alloc, reader, terms)?;
            write_report(&mut report, &spaces)?;
        }
        Form::Mappings => list_mappings(alloc, reader, &mut report, terms)?,
    }
    write_all(writer, report.as_bytes())?;
    Ok(())
}

/// What each address space of a log came to, or the one that is asked.
fn outcomes_of<R: Source>(
    alloc: Global,
    reader: &mut R,
    terms: &Terms<'_>,
) -> Result<Vec<SpaceOutcome>, ReplayFault> {
    if terms.tells_each() {
        return play_each(alloc, reader, terms);
    }
    let replayed = play(alloc, reader, terms, &mut Nobody)?;
    let outcome = ReplayOutcome::of(alloc, replayed, terms)?;
    let mut spaces = Vec::new(alloc);
    let name = SpaceName::of(terms.format, 0);
    spaces.push(SpaceOutcome { name, outcome })?;
    Ok(spaces)
}

/// Writes the mappings at the end of a log of one address space, or of the one that is asked.
fn list_mappings<R: Source>(
    alloc: Global,
    reader: &mut R,
    out: &mut String,
    terms: &Terms<'_>,
) -> Result<(), ReplayFault> {
    let replayed = play(alloc, reader, terms, &mut Nobody)?;
    let written = write_mappings(out, replayed.machine.space().list());
    replayed.close();
    written?;
    Ok(())
}

/// Replays a log before a watcher, and writes nothing.
pub fn watch<R: Source, V: Watcher>(
    alloc: Global,
    reader: &mut R,
    terms: &Terms<'_>,
    watcher: &mut V,
) -> Result<(), ReplayFault> {
    play(alloc, reader, terms, watcher)?.close();
    Ok(())
}

fn write_script<R: Source, W: Sink>(
    alloc: Global,
    reader: &mut R,
    writer: &mut W,
    terms: &Terms<'_>,
) -> Result<(), ReplayFault> {
    let mut script = ScriptWriter::new(alloc, writer);
    watch(alloc, reader, terms, &mut script)?;
    script.finish()
}
