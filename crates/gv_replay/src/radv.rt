//! RADV's log, replayed.

use crate::act::{Act, Cause, Moment};
use crate::fault::ReplayFault;
use crate::occurrence::Occurrence;
use crate::replaying::{Freed, Replay};
use crate::watcher::Watcher;
use gv_logs::{RadvEvent, RadvLine};
use gv_types::{BufferId, Flags, Op, PAGE_BYTES};
use std::alloc::Global;
use std::collections::BTreeMap;

/// How RADV maps.
const WRITABLE: Flags = Flags { read_only: false };

/// Memory that lives: the byte past its end, its buffer, and the line that made it.
#[derive(Clone, Copy)]
struct Memory {
    end: u64,
    buffer: BufferId,
    made_at: u64,
}

/// The memory that lives, by its first byte; no two overlap.
#[derive(Drop)]
pub struct Radv {
    live: BTreeMap<u64, Memory>,
}

/// A line's moment, and its range of bytes in whole pages.
#[derive(Clone, Copy)]
struct Span {
    moment: Moment,
    start: u64,
    len: u64,
}

impl Span {
    /// An end within a page is the end of that page.
    fn of(number: u64, line: &RadvLine) -> Span {
        let end = line.end.div_ceil(PAGE_BYTES).saturating_mul(PAGE_BYTES);
        Span {
            moment: Moment {
                line: number,
                time: Some(line.time),
            },
            start: line.start,
            len: end.saturating_sub(line.start),
        }
    }

    fn zero(&self, cause: Cause) -> Act {
        self.act(
            cause,
            Op::MapZero {
                addr: self.start,
                len: self.len,
                flags: WRITABLE,
            },
        )
    }

    fn made(&self, buffer: &BufferId) -> Act {
        self.act(Cause::MemoryMade, self.map(buffer, 0))
    }

    fn bound(&self, buffer: &BufferId, offset: u64) -> Act {
        self.act(Cause::SparseBound, self.map(buffer, offset))
    }

    fn map(&self, buffer: &BufferId, offset: u64) -> Op {
        Op::Map {
            addr: self.start,
            len: self.len,
            buffer: *buffer,
            offset,
            flags: WRITABLE,
        }
    }

    fn gone(&self) -> Act {
        let op = Op::Unmap {
            addr: self.start,
            len: self.len,
        };
        self.act(Cause::SparseGone, op)
    }

    fn act(&self, cause: Cause, op: Op) -> Act {
        Act {
            moment: self.moment,
            op,
            cause,
        }
    }
}

impl Radv {
    pub fn new(alloc: Global) -> Radv {
        Radv {
            live: BTreeMap::new(alloc),
        }
    }

    /// Carries out a line.
    pub fn take<V: Watcher>(
        &mut self,
        alloc: Global,
        replay: &mut Replay,
        line: (u64, &RadvLine),
        watcher: &mut V,
    ) -> Result<(), ReplayFault> {
        let (number, line) = line;
        let span = Span::of(number, line);
        match line.event {
            RadvEvent::MemoryMade => self.make(alloc, replay, &span, watcher),
            RadvEvent::MemoryFreed => self.free(alloc, replay, &span, watcher),
            RadvEvent::SparseMade => {
                replay.attempt_map(alloc, &span.zero(Cause::SparseMade), watcher)
            }
            RadvEvent::SparseUnbound => {
                replay.attempt(alloc, &span.zero(Cause::SparseUnbound), watcher)
            }
            RadvEvent::SparseGone => replay.unmap(alloc, &span.gone(), watcher),
            RadvEvent::SparseBound { to } => self.bind(alloc, replay, (&span, to), watcher),
        }
    }

    /// Memory is made and mapped from its byte 0 on. What lived in its range lives no more.
    fn make<V: Watcher>(
        &mut self,
        alloc: Global,
        replay: &mut Replay,
        span: &Span,
        watcher: &mut V,
    ) -> Result<(), ReplayFault> {
        let pages = span.len / PAGE_BYTES;
        let Some(buffer) = replay.make(alloc, span.moment, pages, watcher)? else {
            return Ok(());
        };
        if !replay.map(alloc, &span.made(&buffer), watcher)? {
            return replay.destroy_later(buffer);
        }
        self.keep(replay, span, buffer)
    }

    /// Memory lives in this range from here on.
    fn keep(
        &mut self,
        replay: &mut Replay,
        span: &Span,
        buffer: BufferId,
    ) -> Result<(), ReplayFault> {
        let end = span.start.saturating_add(span.len);
        self.forget(replay, span.start, end)?;
        let memory = Memory {
            end,
            buffer,
            made_at: span.moment.line,
        };
        let _older = self.live.insert(span.start, memory)?;
        Ok(())
    }

    /// Memory whose range meets these bytes lives no more.
    fn forget(&mut self, replay: &mut Replay, start: u64, end: u64) -> Result<(), ReplayFault> {
        for _met in 0..self.live.len() {
            let Some((key, memory)) = self.below(end) else {
                return Ok(());
            };
            if memory.end <= start {
                return Ok(());
            }
            let _gone = self.live.remove(&key);
            replay.destroy_later(memory.buffer)?;
        }
        Ok(())
    }

    /// The last memory that begins below an address.
    fn below(&self, address: u64) -> Option<(u64, Memory)> {
        let (start, memory) = self.live.range(..address).next_back()?;
        Some((*start, *memory))
    }

    /// Memory is freed: all its mappings go.
    fn free<V: Watcher>(
        &mut self,
        alloc: Global,
        replay: &mut Replay,
        span: &Span,
        watcher: &mut V,
    ) -> Result<(), ReplayFault> {
        let Some(memory) = self.live.remove(&span.start) else {
            let occurrence = Occurrence::not_alive(span.moment, span.start, span.len);
            return replay.tally.of_nothing.add(occurrence);
        };
        let freed = Freed {
            buffer: memory.buffer,
            addr: span.start,
            len: memory.end.saturating_sub(span.start),
            made_at: memory.made_at,
            cause: Cause::MemoryFreed,
        };
        replay.free(alloc, span.moment, &freed, watcher)
    }

    /// A part of a sparse range is bound to the memory that an address lies in.
    fn bind<V: Watcher>(
        &mut self,
        alloc: Global,
        replay: &mut Replay,
        what: (&Span, u64),
        watcher: &mut V,
    ) -> Result<(), ReplayFault> {
        let (span, to) = what;
        let found = self.below(to.saturating_add(1));
        match found {
            Some((start, memory)) if to < memory.end => {
                let act = span.bound(&memory.buffer, to.saturating_sub(start));
                replay.attempt(alloc, &act, watcher)
            }
            _ => {
                let occurrence = Occurrence::nowhere(span.moment, [span.start, span.len, to]);
                replay.tally.to_no_memory.add(occurrence)
            }
        }
    }
}
