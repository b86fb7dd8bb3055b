//! An address space and the journal of what was done to it.
ghost use Rattle.std.specs.Prelude.{◌<◌};
ghost use Rattle.gv_vm.specs.Outcomes.{queues};

use gv_journal::{HeldItem, Item, ItemKind};
use gv_space::Space;
use gv_types::{Bounds, BufferId, Fault, Limits, Op, OutOfMemory, PageOp, Request};
use gv_vm::{NotTold, Outcome, PastItem, Place, QUEUES, Vm};
use std::alloc::Global;

/// So many entries one after another are requests of one queue, and as many of the next one behind it: of as many as a journal
/// holds, each queue has its part of what is told.
const BLOCK: u64 = 4_096;

/// One address space and its journal, in the widest bounds and limits. Of a log of any length it holds what is live and the newest
/// entries. It has to be closed: it isn't `Drop`.
pub struct Machine {
    vm: Vm,
}

/// The queue whose request this entry is.
fn queue_of(entry: u64) -> u64
    ensures { result < queues }
{
    entry / BLOCK % QUEUES as u64
}

impl Machine {
    /// Nothing is made and nothing done.
    pub fn new(alloc: Global) -> Result<Machine, OutOfMemory> {
        let vm = Vm::new(alloc, Bounds::whole(), Limits::full())?;
        Ok(Machine { vm })
    }

    /// The address space.
    pub fn space(&self) -> &Space {
        self.vm.space()
    }

    /// The number of the oldest entry that is held.
    pub fn first(&self) -> u64 {
        self.vm.first()
    }

    /// The number of the next entry.
    pub fn next(&self) -> u64 {
        self.vm.next()
    }

    /// How many entries are held.
    pub fn held(&self) -> usize {
        self.vm.items().len()
    }

    /// Whether no further entry can be held, or its queue be told no further outcome.
    pub fn is_full(&self) -> bool {
        let queue = queue_of(self.vm.next());
        self.held() as u64 >= self.vm.limits().items()
            || self.vm.told_next(queue) >= self.vm.told_limit(queue)
    }

    /// The operations of the newest entry as they were done: an unmap of a whole buffer is the unmaps that it stood for.
    pub fn newest(&self) -> &[PageOp] {
        match self.vm.items().last() {
            Some(
                Item {
                    kind: ItemKind::Bind { done, .. },
                    ..
                },
            ) => done.as_slice(),
            _ => &[],
        }
    }

    /// Makes a buffer, with the faults of `Vm::create`.
    pub fn create(&mut self, alloc: Global, pages: u64) -> Result<BufferId, Fault> {
        self.vm.create(alloc, pages)
    }

    /// Destroys a buffer that nothing names, with the faults of `Vm::destroy`.
    pub fn destroy(&mut self, id: BufferId) -> Result<(), Fault> {
        self.vm.destroy(id)
    }

    /// Carries out the operations, whole or not at all, with the faults of `Vm::bind`.
    pub fn bind(&mut self, alloc: Global, ops: Vec<Op>) -> Result<(), Fault> {
        let queue = queue_of(self.vm.next());
        let number = self.vm.told_next(queue);
        let request = Request {
            ops,
            waits: Vec::new(alloc),
            signals: Vec::new(alloc),
        };
        match self.vm.bind(alloc, queue, number, request, &[]) {
            Ok(Outcome::Refused { op: _, fault }) => Err(fault),
            Ok(_) => Ok(()),
            Err(NotTold { fault, request: _ }) => Err(fault),
        }
    }

    /// Lets the oldest entry go: it stays done, and what it kept is given up. Whether there was one. What queues were told goes too,
    /// once all entries of a part are settled, and where none is held.
    pub fn settle(&mut self) -> bool {
        let first = self.vm.first();
        let went = first < self.vm.next() && self.vm.settle(first + 1).is_ok();
        if !went || self.vm.first() % BLOCK == 0 {
            self.forget(queue_of(first));
        }
        went
    }

    /// What a queue was told before its oldest entry that is held is forgotten.
    fn forget(&mut self, queue: u64)
        requires { queue < queues }
    {
        let to = match self.oldest_number(queue) {
            Some(number) => number,
            None => self.vm.told_next(queue),
        };
        let _forgot = self.vm.forget(queue, to).is_ok();
    }

    /// The number, there, of the oldest held entry of a queue.
    fn oldest_number(&self, queue: u64) -> Option<u64>
        requires { queue < queues }
    {
        let first = self.vm.first();
        let part = first / BLOCK;
        let behind = (queue + QUEUES as u64 - part % QUEUES as u64) % QUEUES as u64;
        let oldest = first.max((part + behind).saturating_mul(BLOCK));
        let HeldItem {
            item,
            is_withdrawn: _,
        } = self.vm.entry(oldest)?;
        match item.kind {
            ItemKind::Bind { number, .. } => Some(number),
            ItemKind::Withdrawal { .. } => None,
        }
    }

    /// Where an address, in bytes, leads.
    pub fn reached(&self, addr: u64) -> Option<Place> {
        self.vm.translate(addr)
    }

    /// What the held entries say of an address, in bytes, the newest first.
    pub fn past(&self, alloc: Global, addr: u64) -> Result<Vec<PastItem>, OutOfMemory> {
        self.vm.past(alloc, addr)
    }

    /// Where an address, in bytes, led before all entries that are held.
    pub fn base_at(&self, addr: u64) -> Option<Place> {
        self.vm.base_at(addr)
    }

    /// Gives up what the entries keep.
    pub fn close(self) {
        let Machine { vm } = self;
        vm.close();
    }
}
