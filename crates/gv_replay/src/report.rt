//! The report of a replay, as text.

use crate::alive::Alive;
use crate::occurrence::Occurrence;
use crate::outcome::ReplayOutcome;
use crate::past::{Before, Past};
use crate::spaces::SpaceOutcome;
use crate::tally::{FINDINGS, Finding, Tally};
use crate::text::{write_act, write_occurrence, write_reached};
use std::alloc::AllocError;
use std::fmt::Write;

/// Bytes of a KiB and of a MiB. Less than `FEW` of the latter are told as the former.
const KIB: u64 = 1 << 10;

const MIB: u64 = 1 << 20;

const FEW: u64 = 10;

/// Writes what each address space of a log came to that has something to tell, below its name, and last the names of the others. One
/// space alone has no name.
pub fn write_report(out: &mut String, spaces: &[SpaceOutcome]) -> Result<(), AllocError> {
    if let [one] = spaces {
        return write_outcome(out, &one.outcome);
    }
    for space in spaces {
        if space.outcome.has_news() {
            let word = space.name.word();
            write!(out, "{word} ")?;
            space.name.write(out)?;
            out.push_str(":\n")?;
            write_outcome(out, &space.outcome)?;
        }
    }
    write_others(out, spaces)
}

/// Writes the names of the spaces that have nothing to tell, if there are any.
fn write_others(out: &mut String, spaces: &[SpaceOutcome]) -> Result<(), AllocError> {
    let mut is_first = true;
    for space in spaces {
        if space.outcome.has_news() {
            continue;
        }
        if is_first {
            let word = space.name.word();
            write!(out, "nothing found in {word} ")?;
        } else {
            out.push_str(", ")?;
        }
        space.name.write(out)?;
        is_first = false;
    }
    if !is_first {
        out.push_str("\n")?;
    }
    Ok(())
}

/// Writes what a replay came to.
fn write_outcome(out: &mut String, outcome: &ReplayOutcome) -> Result<(), AllocError> {
    write_tally(out, &outcome.tally)?;
    write_alive(out, &outcome.alive)?;
    for past in &outcome.pasts {
        write_past(out, past, outcome.first)?;
    }
    Ok(())
}

/// Writes what was counted, and where each finding was made.
fn write_tally(out: &mut String, tally: &Tally) -> Result<(), AllocError> {
    let (binds, buffers, over) = (tally.binds, tally.buffers, tally.passed_over);
    writeln!(
        out,
        "{binds:>6} binds of {buffers} buffers, {over} lines passed over"
    )?;
    if tally.touched > 0 {
        let touched = tally.touched;
        writeln!(out, "{touched:>6} events that only touch what stands")?;
    }
    for told in FINDINGS {
        write_finding(out, told.name, tally.finding(told))?;
    }
    Ok(())
}

/// Writes a finding's count, and its occurrences below it.
fn write_finding(out: &mut String, name: &str, finding: &Finding) -> Result<(), AllocError> {
    let count = finding.count();
    writeln!(out, "{count:>6} {name}")?;
    for occurrence in finding.occurrences() {
        write_row(out, occurrence)?;
    }
    Ok(())
}

/// Writes an occurrence on a line of its own.
fn write_row(out: &mut String, occurrence: &Occurrence) -> Result<(), AllocError> {
    out.push_str("         ")?;
    write_occurrence(out, occurrence)?;
    out.push_str("\n")
}

/// Writes what is alive.
fn write_alive(out: &mut String, alive: &Alive) -> Result<(), AllocError> {
    let (mappings, buffers) = (alive.mappings, alive.buffers);
    write!(
        out,
        "{mappings:>6} mappings alive at the end, of {buffers} buffers, "
    )?;
    write_size(out, alive.bytes)?;
    write_tables(out, &alive.tables)
}

fn write_tables(out: &mut String, tables: &[u64]) -> Result<(), AllocError> {
    out.push_str("; tables")?;
    for count in tables {
        write!(out, " {count}")?;
    }
    out.push_str("\n")
}

/// Writes a number of bytes, rounded down.
fn write_size(out: &mut String, bytes: u64) -> Result<(), AllocError> {
    if bytes < FEW * MIB {
        let count = bytes / KIB;
        write!(out, "{count} KiB")
    } else {
        let count = bytes / MIB;
        write!(out, "{count} MiB")
    }
}

/// Writes what an address reaches and reached before.
fn write_past(out: &mut String, past: &Past, first: u64) -> Result<(), AllocError> {
    let addr = past.addr;
    write!(out, "0x{addr:x}: ")?;
    write_reached(out, &past.now)?;
    out.push_str("\n")?;
    for before in &past.before {
        write_before(out, before)?;
    }
    if first > 0 {
        writeln!(out, "  the first {first} binds are no longer held")?;
    }
    Ok(())
}

fn write_before(out: &mut String, before: &Before) -> Result<(), AllocError> {
    out.push_str("  ")?;
    write_act(out, &before.act)?;
    out.push_str(": ")?;
    write_reached(out, &before.reached)?;
    out.push_str(" before\n")
}
