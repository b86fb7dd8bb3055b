//! The replay of one address space: hands each line to the reader of its format.

use crate::act::Moment;
use crate::binder::Binder;
use crate::fault::ReplayFault;
use crate::mapper::{Mapper, Part};
use crate::radv::Radv;
use crate::replayed::Replayed;
use crate::replaying::Replay;
use crate::terms::Terms;
use crate::watcher::Watcher;
use gv_logs::{EventHead, GpuvasLine, GpuvasRow, LogLine};
use gv_types::Flags;
use std::alloc::Global;

/// A replay, and what its format knows of the lines so far. It has to be ended: it isn't `Drop`.
pub struct SpaceReplay {
    pub replay: Replay,
    radv: Radv,
    mapper: Mapper,
    binder: Binder,
}

impl SpaceReplay {
    /// Of the address space of this number, or of the only one.
    pub fn new(alloc: Global, all: bool, space: Option<u64>) -> Result<SpaceReplay, ReplayFault> {
        Ok(SpaceReplay {
            replay: Replay::new(alloc, all)?,
            radv: Radv::new(alloc),
            mapper: Mapper::new(alloc, space),
            binder: Binder::new(alloc),
        })
    }

    /// Carries out the line of this number. The head of a list does nothing.
    pub fn take<V: Watcher>(
        &mut self,
        alloc: Global,
        line: (u64, &LogLine),
        terms: &Terms<'_>,
        watcher: &mut V,
    ) -> Result<(), ReplayFault> {
        let (number, line) = line;
        match line {
            LogLine::Radv(line) => {
                let line = (number, line);
                self.radv.take(alloc, &mut self.replay, line, watcher)
            }
            LogLine::Amdgpu(line) => {
                let event = (moment_of(number, &line.head), line);
                self.mapper
                    .take(alloc, &mut self.replay, event, terms, watcher)
            }
            LogLine::Vma(line) => {
                let event = (moment_of(number, &line.head), &line.event);
                self.binder.take(alloc, &mut self.replay, event, watcher)
            }
            LogLine::Gpuvas(GpuvasLine::Mapping(row)) => {
                self.take_row(alloc, (number, row), terms, watcher)
            }
            LogLine::Gpuvas(GpuvasLine::Head) => Ok(()),
        }
    }

    /// A row of a list of mappings. It tells no flags.
    fn take_row<V: Watcher>(
        &mut self,
        alloc: Global,
        row: (u64, &GpuvasRow),
        terms: &Terms<'_>,
        watcher: &mut V,
    ) -> Result<(), ReplayFault> {
        let (number, row) = row;
        let moment = Moment {
            line: number,
            time: None,
        };
        let part = Part {
            start: row.start,
            len: row.len,
            object: row.object,
            offset: row.offset,
            flags: Flags { read_only: false },
        };
        self.mapper
            .map(alloc, &mut self.replay, (moment, &part), terms, watcher)
    }

    /// Ends it: what the replay came to has to be closed.
    pub fn end(self) -> Replayed {
        let SpaceReplay {
            replay,
            radv: _,
            mapper: _,
            binder: _,
        } = self;
        replay.end()
    }
}

/// When the event of this number was.
fn moment_of(number: u64, head: &EventHead) -> Moment {
    Moment {
        line: number,
        time: head.time,
    }
}
