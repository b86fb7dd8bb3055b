//! The events that are calls: on the machine, and the raise of a timeline.
ghost use Rattle.std.specs.Prelude.{◌≡◌, ◌≢◌, IfOk, OnOk, OnErr};

use super::World;
use crate::event::{Event, Reply};
use crate::jobs::{Access, Job};
use gv_types::{BufferId, Fault, OutOfMemory, Point};
use std::alloc::Global;

impl World {
    ghost use Rattle.gv_vm.specs.Step.{step, IsStep};

    /// Raises a timeline, if it exists.
    pub(super) fn raise(&mut self, point: Point) -> Reply
        ensures { step self.old (Event.Raise point) result self.new }
    {
        if point.timeline >= self.clock.count() {
            return Reply::Idle;
        }
        let now = self.clock.raise(point);
        Reply::Raised { point, now }
    }

    pub(super) fn create(&mut self, alloc: Global, pages: u64) -> Result<Reply, OutOfMemory>
        ensures { IsStep self.old (Event.Create pages) result self.new }
    {
        match self.vm.create(alloc, pages) {
            Ok(id) => Ok(Reply::Created { id }),
            Err(fault) => refused(fault),
        }
    }

    pub(super) fn destroy(&mut self, id: BufferId) -> Reply
        ensures { step self.old (Event.Destroy id) result self.new }
    {
        match self.vm.destroy(id) {
            Ok(()) => Reply::Destroyed,
            Err(fault) => Reply::Refused { fault },
        }
    }

    pub(super) fn rewind(&mut self) -> Reply
        ensures { step self.old Event.Rewind result self.new }
    {
        match self.vm.rewind() {
            Ok(item) => Reply::Rewound { item },
            Err(fault) => Reply::Refused { fault },
        }
    }

    pub(super) fn withdraw(&mut self, alloc: Global, entry: u64) -> Result<Reply, OutOfMemory>
        ensures { IsStep self.old (Event.Withdraw entry) result self.new }
    {
        match self.vm.withdraw(alloc, entry) {
            Ok(item) => Ok(Reply::Withdrawn { item }),
            Err(fault) => refused(fault),
        }
    }

    pub(super) fn settle(&mut self, to: u64) -> Reply
        ensures { step self.old (Event.Settle to) result self.new }
    {
        match self.vm.settle(to) {
            Ok(count) => Reply::Settled { count },
            Err(fault) => Reply::Refused { fault },
        }
    }

    /// Drops outcomes of a queue.
    pub(super) fn forget(&mut self, queue: u64, to: u64) -> Reply
        ensures { step self.old (Event.Forget queue to) result self.new }
    {
        match self.vm.forget(queue, to) {
            Ok(count) => Reply::Forgot { count },
            Err(fault) => Reply::Refused { fault },
        }
    }

    /// Frees memory that nothing needs.
    pub(super) fn trim(&mut self) -> Reply
        ensures { step self.old Event.Trim result self.new }
    {
        match self.vm.trim() {
            Ok(()) => Reply::Trimmed,
            Err(fault) => Reply::Refused { fault },
        }
    }

    pub(super) fn job_begin(
        &mut self,
        alloc: Global,
        accesses: Vec<Access>,
    ) -> Result<Reply, OutOfMemory>
        ensures { IsStep self.old (Event.JobBegin accesses) result self.new }
    {
        match self.vm.job_begin(alloc, &accesses) {
            Ok(Job { number, places }) => Ok(Reply::Begun {
                job: number,
                places,
            }),
            Err(fault) => refused(fault),
        }
    }

    pub(super) fn job_end(&mut self, job: u64) -> Reply
        ensures { step self.old (Event.JobEnd job) result self.new }
    {
        match self.vm.job_end(job) {
            Ok(()) => Reply::Ended { job },
            Err(fault) => Reply::Refused { fault },
        }
    }

    pub(super) fn translate(&self, addr: u64) -> Reply
        ensures { step self.now (Event.Translate addr) result self.now }
    {
        Reply::Found {
            place: self.vm.translate(addr),
        }
    }
}

/// A refusal is a reply, except out of memory.
fn refused(fault: Fault) -> Result<Reply, OutOfMemory>
    ensures reply { IfOk result (λ reply. reply ≡ Reply.Refused fault) }
    ensures named { OnOk result (fault ≢ Fault.OutOfMemory) }
    ensures memory { OnErr result (fault ≡ Fault.OutOfMemory) }
{
    if fault == Fault::OutOfMemory {
        return Err(OutOfMemory);
    }
    Ok(Reply::Refused { fault })
}
