//! Replays the events of xe and i915: VMAs that are bound and unbound whole.

use crate::act::{Act, Cause, Moment};
use crate::fault::ReplayFault;
use crate::occurrence::Occurrence;
use crate::replaying::{Freed, Replay};
use crate::watcher::Watcher;
use gv_logs::{Vma, VmaEvent};
use gv_types::{BufferId, Flags, Op, PAGE_BYTES, SPACE_PAGES};
use std::alloc::Global;
use std::collections::BTreeMap;

/// How VMAs are mapped: no event tells it.
const WRITABLE: Flags = Flags { read_only: false };

/// All bytes of the address space.
const SPACE_BYTES: u64 = SPACE_PAGES * PAGE_BYTES;

/// A VMA that is bound: its bytes, its buffer, and the line that bound it.
#[derive(Clone, Copy)]
struct Bound {
    start: u64,
    len: u64,
    buffer: BufferId,
    made_at: u64,
}

impl Bound {
    /// Whether a VMA is at the same bytes.
    fn is_at(&self, vma: &Vma) -> bool {
        self.start == vma.start && self.len == vma.len
    }

    /// Whether its range is one mapping of its buffer.
    fn is_one_mapping(&self, replay: &Replay) -> bool {
        replay.is_one_mapping(&self.buffer, self.start, self.len)
    }

    /// It goes, for this reason. Mappings in its own range are none that still reach it.
    fn gone(&self, cause: Cause) -> Freed {
        Freed {
            buffer: self.buffer,
            addr: self.start,
            len: self.len,
            made_at: self.made_at,
            cause,
        }
    }

    /// Its pointer is another VMA's.
    fn replaced(&self) -> Freed {
        Freed::replaced(self.buffer, self.made_at)
    }
}

/// The VMAs that are bound in an address space, by their pointers.
#[derive(Drop)]
pub struct Binder {
    bound: BTreeMap<u64, Bound>,
}

impl Binder {
    pub fn new(alloc: Global) -> Binder {
        Binder {
            bound: BTreeMap::new(alloc),
        }
    }

    /// Carries out an event of the address space.
    pub fn take<V: Watcher>(
        &mut self,
        alloc: Global,
        replay: &mut Replay,
        event: (Moment, &VmaEvent),
        watcher: &mut V,
    ) -> Result<(), ReplayFault> {
        let (moment, event) = event;
        match event {
            VmaEvent::Bound { vma, is_of_process } => {
                let cause = cause_of(*is_of_process);
                self.bind(alloc, replay, (moment, vma, cause), watcher)
            }
            VmaEvent::Unbound { vma } => self.unbind(alloc, replay, (moment, vma), watcher),
            VmaEvent::Touched => {
                replay.tally.count_touch();
                Ok(())
            }
            VmaEvent::SpaceMade => self.clear(alloc, replay, (moment, Cause::SpaceMade), watcher),
            VmaEvent::SpaceGone => self.clear(alloc, replay, (moment, Cause::SpaceGone), watcher),
        }
    }

    /// A VMA is bound. One that stands at just this range is only touched. One that stands otherwise is gone, and its pointer is
    /// another's.
    fn bind<V: Watcher>(
        &mut self,
        alloc: Global,
        replay: &mut Replay,
        what: (Moment, &Vma, Cause),
        watcher: &mut V,
    ) -> Result<(), ReplayFault> {
        let (moment, vma, cause) = what;
        if self.stands(replay, vma) {
            replay.tally.count_touch();
            return Ok(());
        }
        if let Some(older) = self.bound.remove(&vma.pointer) {
            replay.free(alloc, moment, &older.replaced(), watcher)?;
        }
        let pages = vma.len.div_ceil(PAGE_BYTES);
        match replay.make(alloc, moment, pages, watcher)? {
            Some(buffer) => {
                let act = map_of(moment, vma, &buffer, cause);
                self.put(alloc, replay, (&act, vma, &buffer), watcher)
            }
            None => Ok(()),
        }
    }

    /// Maps a VMA to its buffer, which goes where the map is refused.
    fn put<V: Watcher>(
        &mut self,
        alloc: Global,
        replay: &mut Replay,
        what: (&Act, &Vma, &BufferId),
        watcher: &mut V,
    ) -> Result<(), ReplayFault> {
        let (act, vma, buffer) = what;
        if !replay.map(alloc, act, watcher)? {
            return replay.destroy_later(*buffer);
        }
        let bound = Bound {
            start: vma.start,
            len: vma.len,
            buffer: *buffer,
            made_at: act.moment.line,
        };
        let _none = self.bound.insert(vma.pointer, bound)?;
        Ok(())
    }

    /// Whether a VMA stands at just its range.
    fn stands(&self, replay: &Replay, vma: &Vma) -> bool {
        match self.bound.get(&vma.pointer) {
            Some(bound) => bound.is_at(vma) && bound.is_one_mapping(replay),
            None => false,
        }
    }

    /// A VMA is unbound: its range is empty from here on. One that isn't known, or was bound at another range, is a finding; the
    /// latter goes too.
    fn unbind<V: Watcher>(
        &mut self,
        alloc: Global,
        replay: &mut Replay,
        what: (Moment, &Vma),
        watcher: &mut V,
    ) -> Result<(), ReplayFault> {
        let (moment, vma) = what;
        match self.bound.remove(&vma.pointer) {
            Some(bound) if bound.is_at(vma) => {
                let act = unmap_of(moment, vma, Cause::Plain);
                replay.unmap(alloc, &act, watcher)?;
                replay.destroy_later(bound.buffer)
            }
            Some(bound) => {
                let act = unmap_of(moment, vma, Cause::Elsewhere);
                unbind_elsewhere(alloc, replay, (&act, &bound), watcher)
            }
            None => {
                let act = unmap_of(moment, vma, Cause::OfUnknown);
                replay.tally.of_nothing.add(Occurrence::nothing(&act))?;
                replay.attempt(alloc, &act, watcher)
            }
        }
    }

    /// The address space begins or goes: what is left in it goes without events of its own.
    fn clear<V: Watcher>(
        &mut self,
        alloc: Global,
        replay: &mut Replay,
        what: (Moment, Cause),
        watcher: &mut V,
    ) -> Result<(), ReplayFault> {
        let (moment, cause) = what;
        if replay.space().list().len() > 0 {
            let op = Op::Unmap {
                addr: 0,
                len: SPACE_BYTES,
            };
            replay.attempt(alloc, &Act { moment, op, cause }, watcher)?;
        }
        self.destroy_all_later(replay)
    }

    /// No VMA is bound any more.
    fn destroy_all_later(&mut self, replay: &mut Replay) -> Result<(), ReplayFault> {
        for bound in self.bound.values() {
            replay.destroy_later(bound.buffer)?;
        }
        self.bound.clear();
        Ok(())
    }
}

/// Why a VMA is bound.
fn cause_of(is_of_process: bool) -> Cause {
    if is_of_process {
        Cause::OfProcess
    } else {
        Cause::Plain
    }
}

/// A VMA that was bound at another range is unbound, and goes.
fn unbind_elsewhere<V: Watcher>(
    alloc: Global,
    replay: &mut Replay,
    what: (&Act, &Bound),
    watcher: &mut V,
) -> Result<(), ReplayFault> {
    let (act, bound) = what;
    let occurrence = Occurrence::elsewhere(act, [bound.start, bound.len, bound.made_at]);
    replay.tally.of_nothing.add(occurrence)?;
    let freed = bound.gone(Cause::Elsewhere);
    replay.free(alloc, act.moment, &freed, watcher)?;
    replay.attempt(alloc, act, watcher)
}

/// The map of a VMA to a buffer, from its byte 0 on.
fn map_of(moment: Moment, vma: &Vma, buffer: &BufferId, cause: Cause) -> Act {
    Act {
        moment,
        op: Op::Map {
            addr: vma.start,
            len: vma.len,
            buffer: *buffer,
            offset: 0,
            flags: WRITABLE,
        },
        cause,
    }
}

/// The unmap of a VMA's range.
fn unmap_of(moment: Moment, vma: &Vma, cause: Cause) -> Act {
    Act {
        moment,
        op: Op::Unmap {
            addr: vma.start,
            len: vma.len,
        },
        cause,
    }
}
