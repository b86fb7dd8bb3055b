//! Pictures of logs.

use gv_draw::{History, Options, RowContent, RowKind, write_picture};
use gv_replay::{Act, Cause, ReplayFault, Terms, Watcher, number_of, watch, write_op, write_time};
use gv_space::Space;
use gv_text::{Sink, Source, write_all};
use gv_types::{Fault, Op, OutOfMemory, PageOp, PageRange};
use std::alloc::{AllocError, Global};
use std::fmt::Write;

/// Replays a log and writes its picture. Each line that is carried out or refused is a row.
pub fn draw_log<S: Source, K: Sink>(
    alloc: Global,
    log: &mut S,
    writer: &mut K,
    terms: &Terms<'_>,
    options: &Options,
) -> Result<(), ReplayFault> {
    let mut drawing = LogDrawing::new(alloc, options.at);
    watch(alloc, log, terms, &mut drawing)?;
    let mut picture = String::new(alloc);
    write_picture(alloc, &mut drawing.history, options, &mut picture)?;
    write_all(writer, picture.as_bytes())?;
    Ok(())
}

/// The history that a log makes, how many of its lines became entries of the journal, and the ranges that the last one changed.
#[derive(Drop)]
struct LogDrawing {
    alloc: Global,
    history: History,
    entries: u64,
    ranges: Vec<PageRange>,
}

impl LogDrawing {
    fn new(alloc: Global, at: Option<u64>) -> LogDrawing {
        LogDrawing {
            alloc,
            history: History::new(alloc, at),
            entries: 0,
            ranges: Vec::new(alloc),
        }
    }

    /// Names the buffer that is mapped, as the report does.
    fn give_name(&mut self, op: &Op) -> Result<(), OutOfMemory> {
        if let Op::Map { buffer, .. } = *op {
            let number = number_of(&buffer);
            let name = format!(in self.alloc; "b{number}")?;
            self.history.name(self.alloc, buffer, name.as_str())?;
        }
        Ok(())
    }

    /// Notes the ranges that a line changed.
    fn note_ranges(&mut self, done: &[PageOp]) -> Result<(), OutOfMemory> {
        self.ranges.clear();
        for op in done {
            match *op {
                PageOp::Map { range, .. } | PageOp::Unmap { range } => self.ranges.push(range)?,
                PageOp::UnmapBuffer { .. } => {}
            }
        }
        Ok(())
    }

    /// The number of the entry that a line became: the lines that are not refused are counted.
    fn count(&mut self, refused: Option<Fault>) -> Option<u64> {
        if refused.is_some() {
            return None;
        }
        let number = self.entries;
        self.entries = number.saturating_add(1);
        Some(number)
    }

    /// What a row tells of a line.
    fn content(&mut self, act: &Act, refused: Option<Fault>) -> Result<RowContent, OutOfMemory> {
        let number = self.count(refused);
        let answer = match refused {
            Some(fault) => String::from_str(self.alloc, fault.name())?,
            None => String::new(self.alloc),
        };
        Ok(RowContent {
            number,
            label: label_of(self.alloc, act)?,
            answer,
            kind: kind_of(act.cause, refused),
        })
    }
}

impl Watcher for LogDrawing {
    fn made(&mut self, _buffer: u64, _pages: u64) -> Result<(), ReplayFault> {
        Ok(())
    }

    fn bound(
        &mut self,
        act: &Act,
        refused: Option<Fault>,
        done: &[PageOp],
        space: &Space,
    ) -> Result<(), ReplayFault> {
        self.give_name(&act.op)?;
        self.note_ranges(done)?;
        let content = self.content(act, refused)?;
        self.history
            .add(self.alloc, content, self.ranges.as_slice(), space)?;
        Ok(())
    }

    fn settled(&mut self, _to: u64) -> Result<(), ReplayFault> {
        Ok(())
    }

    fn destroyed(&mut self, _buffer: u64) -> Result<(), ReplayFault> {
        Ok(())
    }
}

/// What row a line is.
fn kind_of(cause: Cause, refused: Option<Fault>) -> RowKind {
    match (refused, cause) {
        (Some(_), _) => RowKind::Refused,
        (None, Cause::MemoryFreed) => RowKind::Freed,
        (None, _) => RowKind::Change,
    }
}

/// A line in words: its number and its operation, and behind a ` ; `, at which a row with room is broken, when and why.
fn label_of(alloc: Global, act: &Act) -> Result<String, AllocError> {
    let mut label = String::new(alloc);
    let line = act.moment.line;
    write!(label, "line {line}: ")?;
    write_op(&mut label, &act.op)?;
    if let Some(time) = act.moment.time {
        label.push_str(" ; ")?;
        write_time(&mut label, time)?;
        label.push_str(" s")?;
    }
    if let Some(words) = act.cause.words() {
        write!(label, " ({words})")?;
    }
    Ok(label)
}
