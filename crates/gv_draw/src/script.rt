//! Runs a script and draws it.

use crate::fault::DrawFault;
use crate::history::History;
use crate::options::Options;
use crate::picture::write_picture;
use crate::row::{RowContent, RowKind};
use gv_lines::{Line, parse_line, split_once};
use gv_session::{LineFault, Session, run_line};
use gv_types::{OutOfMemory, PageRange};
use std::alloc::Global;
use std::str;

/// What a line is in a picture.
#[derive(Clone, Copy)]
enum LineRole {
    /// A row. Unless it is refused, it is of this kind, and shows its reply or not.
    Row { kind: RowKind, has_answer: bool },
    /// The name of a buffer.
    Name,
    /// Nothing.
    Other,
}

impl LineRole {
    /// What this line is.
    fn of(line: &Line<'_>) -> LineRole {
        let (kind, has_answer) = match line {
            Line::Bind { .. } => (RowKind::Change, false),
            Line::Settle { .. } => (RowKind::Change, true),
            Line::Rewind | Line::Withdraw { .. } => (RowKind::TakesBack, true),
            Line::Buffer { .. } => return LineRole::Name,
            _ => return LineRole::Other,
        };
        LineRole::Row { kind, has_answer }
    }
}

/// Runs the lines of a script, and writes the picture of what it does as an SVG. Each request, each entry taken back and
/// each settling is a row; what asks or declares is none. `BadLine` where the script has a line that is bad, and nothing is
/// written.
pub fn draw_script(
    alloc: Global,
    script: &[u8],
    options: &Options,
    out: &mut String,
) -> Result<(), DrawFault> {
    let mut drawing = Drawing {
        session: Session::new(alloc)?,
        history: History::new(alloc, options.at),
        reply: String::new(alloc),
        ranges: Vec::new(alloc),
    };
    let outcome = drawing.run_each(alloc, script);
    let Drawing {
        session,
        history,
        reply: _,
        ranges: _,
    } = drawing;
    session.close();
    outcome?;
    let mut history = history;
    Ok(write_picture(alloc, &mut history, options, out)?)
}

/// A script that runs, the history that it makes, the reply to its last line, and the ranges that this changed. The session
/// has to be closed.
struct Drawing {
    session: Session,
    history: History,
    reply: String,
    ranges: Vec<PageRange>,
}

impl Drawing {
    /// Runs the lines of a script one after another.
    fn run_each(&mut self, alloc: Global, script: &[u8]) -> Result<(), DrawFault> {
        let mut rest = script;
        let mut done: u64 = 0;
        while let Some((line, after)) = split_once(rest, b'\n') {
            done = done.saturating_add(1);
            if let Err(fault) = self.run_line(alloc, line) {
                return Err(DrawFault::at(done, fault));
            }
            rest = after;
        }
        if rest.is_empty() {
            Ok(())
        } else {
            Err(DrawFault::BadLine {
                line: done.saturating_add(1),
            })
        }
    }

    /// Runs a line, and adds its row. A rewind changes the ranges of the newest entry, any other request those of its own.
    fn run_line(&mut self, alloc: Global, line: &[u8]) -> Result<(), LineFault> {
        let Some(parsed) = parse_line(line) else {
            return Err(LineFault::Bad);
        };
        let role = LineRole::of(&parsed);
        self.reply.clear();
        self.ranges.clear();
        let before = self.session.world().vm().next();
        if let Line::Rewind = parsed {
            self.note_ranges()?;
        }
        run_line(alloc, &mut self.session, parsed, &mut self.reply)?;
        let has_entry = before < self.session.world().vm().next();
        if has_entry {
            self.note_ranges()?;
        }
        let noted = match role {
            LineRole::Row { kind, has_answer } => {
                let number = has_entry.then_some(before);
                self.add_row(alloc, line, number, kind, has_answer)
            }
            LineRole::Name => self.give_name(alloc, line),
            LineRole::Other => Ok(()),
        };
        Ok(noted?)
    }

    /// Notes the ranges that the newest entry changed.
    fn note_ranges(&mut self) -> Result<(), OutOfMemory> {
        if let Some(item) = self.session.world().vm().items().last() {
            for undo in item.undos.iter() {
                self.ranges.push(undo.range())?;
            }
        }
        Ok(())
    }

    /// Names the buffer of a line, if it was made. Such lines are few, so this one is read again.
    fn give_name(&mut self, alloc: Global, line: &[u8]) -> Result<(), OutOfMemory> {
        let Some(Line::Buffer { name, .. }) = parse_line(line) else {
            return Ok(());
        };
        match self.session.buffers().id_of(&name) {
            Some(id) => self.history.name(alloc, id, name.as_str()),
            None => Ok(()),
        }
    }

    /// Adds the row of a line.
    fn add_row(
        &mut self,
        alloc: Global,
        line: &[u8],
        number: Option<u64>,
        kind: RowKind,
        has_answer: bool,
    ) -> Result<(), OutOfMemory> {
        let label = str::from_utf8(line).unwrap_or("");
        let label = label.strip_prefix("bind ").unwrap_or(label);
        let reply = self.reply.as_str().trim_ascii();
        let is_refused = reply.starts_with("refused") || reply.starts_with("notready");
        let mut answer = String::new(alloc);
        if is_refused || has_answer {
            answer.push_str(reply)?;
        }
        let content = RowContent {
            number,
            label: String::from_str(alloc, label)?,
            answer,
            kind: if is_refused { RowKind::Refused } else { kind },
        };
        let space = self.session.world().vm().space();
        self.history
            .add(alloc, content, self.ranges.as_slice(), space)
    }
}
