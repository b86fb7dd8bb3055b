//! Replays amdgpu's events and the rows of a gpuvas: mappings of objects known by pointers.

use crate::act::{Act, Cause, Moment};
use crate::fault::ReplayFault;
use crate::objects::Objects;
use crate::replaying::{Freed, Replay};
use crate::terms::Terms;
use crate::watcher::Watcher;
use gv_logs::{AmdgpuEvent, AmdgpuLine};
use gv_types::{BUFFER_PAGES, BufferId, Flags, Op};
use std::alloc::Global;

/// How sparse ranges are mapped.
const WRITABLE: Flags = Flags { read_only: false };

/// An object: its pages, the line where it came up, and its buffer once something of it is mapped.
#[derive(Clone, Copy)]
struct Object {
    pages: u64,
    made_at: u64,
    buffer: Option<BufferId>,
}

impl Object {
    /// The same with this buffer.
    fn with(&self, buffer: &Option<BufferId>) -> Object {
        Object {
            pages: self.pages,
            made_at: self.made_at,
            buffer: *buffer,
        }
    }
}

/// The objects that came up in an address space, by their pointers, and the space's number where several are told apart.
#[derive(Drop)]
pub struct Mapper {
    objects: Objects<Object>,
    space: Option<u64>,
}

/// What is to be mapped, in bytes.
#[derive(Clone, Copy)]
pub struct Part {
    pub start: u64,
    pub len: u64,
    pub object: u64,
    pub offset: u64,
    pub flags: Flags,
}

impl Part {
    /// Its map to a buffer.
    fn of(&self, moment: Moment, buffer: BufferId) -> Act {
        Act {
            moment,
            op: Op::Map {
                addr: self.start,
                len: self.len,
                buffer,
                offset: self.offset,
                flags: self.flags,
            },
            cause: Cause::Plain,
        }
    }

    /// Its map as a sparse range.
    fn sparse(&self, moment: Moment) -> Act {
        Act {
            moment,
            op: Op::MapZero {
                addr: self.start,
                len: self.len,
                flags: WRITABLE,
            },
            cause: Cause::SparseMade,
        }
    }
}

impl Mapper {
    pub fn new(alloc: Global, space: Option<u64>) -> Mapper {
        Mapper {
            objects: Objects::new(alloc),
            space,
        }
    }

    /// Carries out an event.
    pub fn take<V: Watcher>(
        &mut self,
        alloc: Global,
        replay: &mut Replay,
        event: (Moment, &AmdgpuLine),
        terms: &Terms<'_>,
        watcher: &mut V,
    ) -> Result<(), ReplayFault> {
        let (moment, line) = event;
        match line.event {
            AmdgpuEvent::Made { pages } => {
                let object = Object {
                    pages,
                    made_at: moment.line,
                    buffer: None,
                };
                self.make_anew(alloc, replay, (line.object, object), moment, watcher)
            }
            AmdgpuEvent::Mapped {
                start,
                len,
                offset,
                flags,
            } => {
                let read_only = terms.flag_bits.are_read_only(flags);
                let part = Part {
                    start,
                    len,
                    object: line.object,
                    offset,
                    flags: Flags { read_only },
                };
                self.map(alloc, replay, (moment, &part), terms, watcher)
            }
            AmdgpuEvent::Unmapped { start, len } => {
                let op = Op::Unmap { addr: start, len };
                let cause = cause_of(line.object);
                replay.unmap(alloc, &Act { moment, op, cause }, watcher)
            }
        }
    }

    /// A pointer is a new object's. The one that it was before is gone, with what is left of its mappings.
    fn make_anew<V: Watcher>(
        &mut self,
        alloc: Global,
        replay: &mut Replay,
        made: (u64, Object),
        moment: Moment,
        watcher: &mut V,
    ) -> Result<(), ReplayFault> {
        let (pointer, object) = made;
        let older = self.known(pointer);
        let _index = self.objects.add(pointer, object)?;
        match older {
            Some(
                Object {
                    made_at,
                    buffer: Some(buffer),
                    ..
                },
            ) => replay.free(alloc, moment, &Freed::replaced(buffer, made_at), watcher),
            _ => Ok(()),
        }
    }

    /// The object that a pointer is.
    fn known(&self, pointer: u64) -> Option<Object> {
        let index = self.objects.index_of(pointer)?;
        self.objects.get(index).copied()
    }

    /// Maps a part of an object, or a sparse range where there is none.
    pub fn map<V: Watcher>(
        &mut self,
        alloc: Global,
        replay: &mut Replay,
        what: (Moment, &Part),
        terms: &Terms<'_>,
        watcher: &mut V,
    ) -> Result<(), ReplayFault> {
        let (moment, part) = what;
        if part.object == 0 {
            return replay.attempt_map(alloc, &part.sparse(moment), watcher);
        }
        let of = (moment, part.object);
        match self.buffer_of(alloc, replay, of, terms, watcher)? {
            Some(buffer) => replay.attempt_map(alloc, &part.of(moment, buffer), watcher),
            None => Ok(()),
        }
    }

    /// The buffer of the object that a pointer is, which is made where there is none.
    fn buffer_of<V: Watcher>(
        &mut self,
        alloc: Global,
        replay: &mut Replay,
        what: (Moment, u64),
        terms: &Terms<'_>,
        watcher: &mut V,
    ) -> Result<Option<BufferId>, ReplayFault> {
        let (moment, pointer) = what;
        let index = match self.objects.index_of(pointer) {
            Some(index) => index,
            None => self.add_unsaid(pointer, moment, terms)?,
        };
        let Some(object) = self.objects.get(index).copied() else {
            return Ok(None);
        };
        if object.buffer.is_some() {
            return Ok(object.buffer);
        }
        let buffer = replay.make(alloc, moment, object.pages, watcher)?;
        self.objects.set(index, object.with(&buffer));
        Ok(buffer)
    }

    /// An object whose size no line tells comes up.
    fn add_unsaid(
        &mut self,
        pointer: u64,
        moment: Moment,
        terms: &Terms<'_>,
    ) -> Result<usize, ReplayFault> {
        let pages = match terms.sizes {
            Some(sizes) => sizes.pages(self.space, self.objects.len()),
            None => BUFFER_PAGES,
        };
        let object = Object {
            pages,
            made_at: moment.line,
            buffer: None,
        };
        Ok(self.objects.add(pointer, object)?)
    }
}

/// Why a range is unmapped: none names it where it is of no object.
fn cause_of(object: u64) -> Cause {
    if object == 0 {
        Cause::Cleared
    } else {
        Cause::Plain
    }
}
