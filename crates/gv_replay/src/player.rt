//! Replays one address space of a log.

use crate::chosen::Chosen;
use crate::fault::ReplayFault;
use crate::replayed::Replayed;
use crate::space_replay::SpaceReplay;
use crate::terms::{Form, Terms};
use crate::watcher::Watcher;
use gv_io::Source;
use gv_logs::{AmdgpuLine, Found, GpuvasLine, LineReader, LogLine};
use std::alloc::Global;

/// The replay of one address space, whose it is, and how many heads there were. It has to be ended: it isn't `Drop`.
struct Player {
    space_replay: SpaceReplay,
    chosen: Chosen,
    heads: u64,
}

/// Carries out all lines of a log, of one address space. `NoLine` where none is of the format, `NoSpace` where none is of the
/// space that is asked, `ManySpaces` where the mappings of one are asked and there are several.
pub fn play<R: Source, V: Watcher>(
    alloc: Global,
    reader: &mut R,
    terms: &Terms<'_>,
    watcher: &mut V,
) -> Result<Replayed, ReplayFault> {
    let mut lines = LineReader::new(alloc)?;
    let chosen = Chosen::new(terms)?;
    let mut player = Player {
        space_replay: SpaceReplay::new(alloc, terms.all, None)?,
        chosen,
        heads: 0,
    };
    let played = player.take_all(alloc, reader, &mut lines, terms, watcher);
    let Player {
        space_replay,
        chosen,
        heads: _,
    } = player;
    let replayed = space_replay.end();
    match played {
        Ok(()) if replayed.tally.lines == 0 => Err(closed(replayed, ReplayFault::NoLine)),
        Ok(()) if chosen.is_missing() => Err(closed(replayed, ReplayFault::NoSpace)),
        Ok(()) if chosen.has_others() && terms.form == Form::Mappings => {
            Err(closed(replayed, ReplayFault::ManySpaces))
        }
        Ok(()) => Ok(replayed),
        Err(fault) => Err(closed(replayed, fault)),
    }
}

/// Closes what a replay came to, and answers the fault.
fn closed(replayed: Replayed, fault: ReplayFault) -> ReplayFault {
    replayed.close();
    fault
}

impl Player {
    fn take_all<R: Source, V: Watcher>(
        &mut self,
        alloc: Global,
        reader: &mut R,
        lines: &mut LineReader,
        terms: &Terms<'_>,
        watcher: &mut V,
    ) -> Result<(), ReplayFault> {
        for number in 1..u64::MAX {
            let is_done = match lines.find_next(reader)? {
                Found::Line => self.take(alloc, (number, lines.line()), terms, watcher)?,
                Found::TooLong => false,
                Found::End => return Ok(()),
            };
            if !is_done {
                self.space_replay.replay.tally.pass_over();
            }
        }
        Ok(())
    }

    /// Carries out a line. Whether it is of the format, and of the process and the address space that are taken.
    fn take<V: Watcher>(
        &mut self,
        alloc: Global,
        line: (u64, &[u8]),
        terms: &Terms<'_>,
        watcher: &mut V,
    ) -> Result<bool, ReplayFault> {
        let (number, text) = line;
        match terms.format.parse(text) {
            Some(line) => self.take_parsed(alloc, (number, &line), terms, watcher),
            None => Ok(false),
        }
    }

    /// Carries out a line of the format. Whether it is of the process and the address space that are taken.
    fn take_parsed<V: Watcher>(
        &mut self,
        alloc: Global,
        line: (u64, &LogLine),
        terms: &Terms<'_>,
        watcher: &mut V,
    ) -> Result<bool, ReplayFault> {
        self.space_replay.replay.tally.count_line();
        if !self.chooses(line.1, terms.pid) {
            return Ok(false);
        }
        self.space_replay.take(alloc, line, terms, watcher)?;
        Ok(true)
    }

    /// Whether a line is of the process and the address space that are taken; those of others are passed over.
    fn chooses(&mut self, line: &LogLine, pid: Option<u64>) -> bool {
        match line {
            LogLine::Radv(_) => true,
            LogLine::Amdgpu(line) => self.chooses_event(line, pid),
            LogLine::Vma(line) => self.chosen.takes(line, pid),
            LogLine::Gpuvas(GpuvasLine::Head) => {
                self.heads = self.heads.saturating_add(1);
                self.chosen.takes_head(self.heads)
            }
            LogLine::Gpuvas(GpuvasLine::Mapping(_)) => self.chosen.takes_rows(self.heads.max(1)),
        }
    }

    /// Whether an event is of the process.
    fn chooses_event(&mut self, line: &AmdgpuLine, pid: Option<u64>) -> bool {
        if !line.head.is_of(pid) {
            return false;
        }
        if let Some(process) = line.head.process {
            self.chosen.meet(process);
        }
        true
    }
}
