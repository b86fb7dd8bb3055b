//! Lines that ask, and change nothing.
use super::forms::Verb;
use super::grammar::Said;
use super::names::{id_of, name_at};
use super::tables::tables;
use super::text::{write_list, write_outcome, write_refused};
use super::world::World;
use gv_model::{HistoryEntry, Kind, count_of};
use gv_types::{Fault, OutOfMemory};
use std::alloc::{AllocError, Global};
use std::fmt::Write;

impl World {
    /// Writes what is asked for.
    pub fn ask(&self, alloc: Global, said: &Said, out: &mut String) -> Result<(), OutOfMemory> {
        let list = self.model.space.list.as_slice();
        match said.verb {
            Verb::Uses => return self.write_uses(alloc, said.first(), out),
            Verb::Told => self.write_told(alloc, said.first(), out)?,
            Verb::Journal => self.write_journal(out)?,
            Verb::Map => write_list(out, &self.names, list)?,
            Verb::Tables => write_tables(out, tables(list))?,
            _ => self.write_value(said.first(), out)?,
        }
        Ok(())
    }

    /// Writes how many mappings of a buffer are in the list, and how many entries keep.
    fn write_uses(&self, alloc: Global, index: u64, out: &mut String) -> Result<(), OutOfMemory> {
        let space_model = &self.model.space;
        let id = id_of(index);
        if space_model.alive(&id).is_none() {
            write_refused(alloc, out, &Fault::NoBuffer)?;
            return Ok(());
        }
        let uses = count_of(&space_model.list, &id);
        let kept = space_model.history.kept(alloc, &id)?;
        writeln!(out, "uses {uses} kept {kept}")?;
        Ok(())
    }

    /// Writes the number of a timeline.
    fn write_value(&self, index: u64, out: &mut String) -> Result<(), AllocError> {
        let name = name_at(&self.names.timelines, index);
        let number = self.model.numbers.get(index as usize).copied().unwrap_or(0);
        writeln!(out, "{name} {number}")
    }

    fn write_journal(&self, out: &mut String) -> Result<(), AllocError> {
        let history = &self.model.space.history;
        if history.entries.is_empty() {
            out.push_str("empty\n")?;
        }
        let mut number = history.first;
        for entry in &history.entries {
            write_entry(out, number, entry, history.is_withdrawn(number))?;
            number = number.saturating_add(1);
        }
        Ok(())
    }

    fn write_told(&self, alloc: Global, queue: u64, out: &mut String) -> Result<(), AllocError> {
        let told = match self.model.told.get(queue as usize) {
            Some(told) => told.rest(),
            None => &[],
        };
        if told.is_empty() {
            out.push_str("empty\n")?;
        }
        for (number, outcome) in told.iter().enumerate() {
            write!(out, "{number} ")?;
            write_outcome(alloc, out, &self.names, outcome)?;
        }
        Ok(())
    }
}

fn write_entry(
    out: &mut String,
    entry: u64,
    past: &HistoryEntry,
    is_withdrawn: bool,
) -> Result<(), AllocError> {
    let state = if is_withdrawn { "withdrawn" } else { "live" };
    match &past.kind {
        Kind::Bind { queue, number, .. } => writeln!(out, "{entry} bind {queue} {number} {state}"),
        Kind::Withdrawal { of } => writeln!(out, "{entry} withdrawal of {of}"),
    }
}

fn write_tables(out: &mut String, counts: [u64; 5]) -> Result<(), AllocError> {
    let [four, three, two, one, zero] = counts;
    writeln!(out, "{four} {three} {two} {one} {zero}")
}
