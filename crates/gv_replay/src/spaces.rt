//! The lines of a log of several address spaces, each of which has a replay of its own.

use crate::fault::ReplayFault;
use crate::outcome::ReplayOutcome;
use crate::replayed::Replayed;
use crate::space_name::SpaceName;
use crate::space_replay::SpaceReplay;
use crate::terms::Terms;
use crate::watcher::Nobody;
use gv_io::Source;
use gv_logs::{Found, GpuvasLine, LineReader, LogLine};
use std::alloc::Global;
use std::collections::HashMap;

/// An address space: its name, its replay, how many lines are of it, and whether one of them tells what is mapped. It has to be ended:
/// it isn't `Drop`.
struct OneSpace {
    name: SpaceName,
    space_replay: SpaceReplay,
    taken: u64,
    has_begun: bool,
}

/// The address spaces of a log in the order in which they came up, and where each stands. They have to be ended.
struct Spaces {
    indices: HashMap<u64, usize>,
    all: Vec<OneSpace>,
    /// Lines of the format, heads of a list, and all lines.
    lines: u64,
    heads: u64,
    read: u64,
}

/// What an address space came to.
#[derive(Drop)]
pub struct SpaceOutcome {
    pub name: SpaceName,
    pub outcome: ReplayOutcome,
}

/// Carries out all lines of a log, each in its own address space: what each came to in which a line tells what is mapped, at least one, in
/// the order in which they came up. `NoLine` where no line is of the format.
pub fn play_each<R: Source>(
    alloc: Global,
    reader: &mut R,
    terms: &Terms<'_>,
) -> Result<Vec<SpaceOutcome>, ReplayFault> {
    let mut lines = LineReader::new(alloc)?;
    let mut spaces = Spaces {
        indices: HashMap::new(alloc),
        all: Vec::new(alloc),
        lines: 0,
        heads: 0,
        read: 0,
    };
    let played = spaces.take_whole(alloc, reader, &mut lines, terms);
    spaces.end(alloc, terms, played)
}

impl Spaces {
    /// Carries out all lines. At least one is of the format, and one space comes up.
    fn take_whole<R: Source>(
        &mut self,
        alloc: Global,
        reader: &mut R,
        lines: &mut LineReader,
        terms: &Terms<'_>,
    ) -> Result<(), ReplayFault> {
        self.take_all(alloc, reader, lines, terms)?;
        if self.lines == 0 {
            return Err(ReplayFault::NoLine);
        }
        if self.all.is_empty() {
            let _place = self.add(alloc, 0, terms)?;
        }
        Ok(())
    }

    fn take_all<R: Source>(
        &mut self,
        alloc: Global,
        reader: &mut R,
        lines: &mut LineReader,
        terms: &Terms<'_>,
    ) -> Result<(), ReplayFault> {
        for number in 1..u64::MAX {
            match lines.find_next(reader)? {
                Found::Line => self.take(alloc, (number, lines.line()), terms)?,
                Found::TooLong => {}
                Found::End => break,
            }
            self.read = number;
        }
        Ok(())
    }

    /// Carries out a line in its space, if it is of one.
    fn take(
        &mut self,
        alloc: Global,
        line: (u64, &[u8]),
        terms: &Terms<'_>,
    ) -> Result<(), ReplayFault> {
        let (number, text) = line;
        let Some(line) = terms.format.parse(text) else {
            return Ok(());
        };
        self.lines = self.lines.saturating_add(1);
        match self.space_of(&line) {
            Some(of) => self.carry_out(alloc, (number, &line), of, terms),
            None => Ok(()),
        }
    }

    /// Carries out a line in the space of this number. The head before the first row of a list counts as a line of the space.
    fn carry_out(
        &mut self,
        alloc: Global,
        line: (u64, &LogLine),
        of: u64,
        terms: &Terms<'_>,
    ) -> Result<(), ReplayFault> {
        let is_below_head = self.heads > 0 && !self.indices.contains_key(&of);
        let index = self.index_of(alloc, of, terms)?;
        let Some(space) = self.all.get_mut(index) else {
            return Ok(());
        };
        space.count_line(line.1.is_of_mapping(), is_below_head);
        space.space_replay.take(alloc, line, terms, &mut Nobody)
    }

    /// The number of the space that a line does something in: of a VMA's line none before a VMA of the space came up, and of an event
    /// of amdgpu that of its process.
    fn space_of(&mut self, line: &LogLine) -> Option<u64> {
        match *line {
            LogLine::Radv(_) => None,
            LogLine::Amdgpu(line) => Some(line.head.process.unwrap_or(0)),
            LogLine::Vma(line) => {
                let is_known = line.event.is_of_vma() || self.indices.contains_key(&line.space);
                is_known.then_some(line.space)
            }
            LogLine::Gpuvas(GpuvasLine::Head) => {
                self.heads = self.heads.saturating_add(1);
                None
            }
            LogLine::Gpuvas(GpuvasLine::Mapping(_)) => Some(self.heads.max(1)),
        }
    }

    /// The index of a space, which comes up where it isn't known.
    fn index_of(
        &mut self,
        alloc: Global,
        number: u64,
        terms: &Terms<'_>,
    ) -> Result<usize, ReplayFault> {
        match self.indices.get(&number).copied() {
            Some(index) => Ok(index),
            None => self.add(alloc, number, terms),
        }
    }

    /// A space comes up. Its index.
    fn add(&mut self, alloc: Global, number: u64, terms: &Terms<'_>) -> Result<usize, ReplayFault> {
        let index = self.all.len();
        self.all.reserve(1)?;
        let _none = self.indices.insert(number, index)?;
        self.all.push_reserved(OneSpace {
            name: SpaceName::of(terms.format, number),
            space_replay: SpaceReplay::new(alloc, terms.all, Some(number))?,
            taken: 0,
            has_begun: false,
        });
        Ok(index)
    }

    /// What the spaces came to, unless a fault came before: all are closed.
    fn end(
        self,
        alloc: Global,
        terms: &Terms<'_>,
        played: Result<(), ReplayFault>,
    ) -> Result<Vec<SpaceOutcome>, ReplayFault> {
        let Spaces {
            indices: _,
            mut all,
            lines: _,
            heads: _,
            read,
        } = self;
        let mut outcomes = Vec::new(alloc);
        let mut ended = played;
        while let Some(space) = all.pop() {
            let is_told = space.has_begun || all.is_empty() && outcomes.is_empty();
            let (name, replayed) = space.end(read);
            match ended {
                Ok(()) if is_told => ended = add_outcome(
                    alloc,
                    &mut outcomes,
                    (name, replayed),
                    terms,
                ),
                _ => replayed.close(),
            }
        }
        all.destroy_empty();
        ended?;
        outcomes.reverse();
        Ok(outcomes)
    }
}

impl OneSpace {
    /// A line is of the space, and may be one of a mapping, or have a head before it.
    fn count_line(&mut self, begins: bool, is_below_head: bool) {
        self.taken = self.taken.saturating_add(1 + u64::from(is_below_head));
        self.has_begun = self.has_begun || begins;
    }

    /// Its name, and what its replay came to, of a log of so many lines: those that aren't of the space did nothing.
    fn end(self, read: u64) -> (SpaceName, Replayed) {
        let OneSpace {
            name,
            space_replay,
            taken,
            has_begun: _,
        } = self;
        let mut replayed = space_replay.end();
        replayed.tally.passed_over = read.saturating_sub(taken);
        (name, replayed)
    }
}

/// Adds what a space came to.
fn add_outcome(
    alloc: Global,
    outcomes: &mut Vec<SpaceOutcome>,
    replayed: (SpaceName, Replayed),
    terms: &Terms<'_>,
) -> Result<(), ReplayFault> {
    let (name, replayed) = replayed;
    let outcome = ReplayOutcome::of(alloc, replayed, terms)?;
    outcomes.push(SpaceOutcome { name, outcome })?;
    Ok(())
}
