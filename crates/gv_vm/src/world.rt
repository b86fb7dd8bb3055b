//! The world: one address space, the numbers of its timelines, and queues of requests. It runs events one at a time.
ghost use Rattle.std.specs.Prelude.{◌≡◌, ◌<◌, ◌≤◌, IfOk, length, replicate};
ghost use Rattle.gv_types.specs.Limits.{IsFromOneTo};
ghost use Rattle.gv_sync.specs.Seats.{most_timelines};
ghost use Rattle.gv_vm.specs.Outcomes.{queues as most_queues};
ghost use Rattle.gv_vm.specs.World.{new_queue};

use crate::event::{Event, Reply};
use crate::queue::Queue;
use crate::sizes::Sizes;
use crate::vm::Vm;
use gv_sync::Clock;
use gv_types::{Bounds, Limits, OutOfMemory};
use std::alloc::Global;
use std::marker::Model;

mod calls;
mod requests;
mod run;
mod turn;

pub use run::Stopped;
pub use turn::TurnResult;

/// One address space with the requests that wait for it. It owns a `Vm`, so it is not `Drop`: the compiler rejects a program
/// that drops one without closing it.
pub struct World {
    vm: Vm,
    clock: Clock,
    depth: u64,
    queues: Vec<Queue>,
}

impl Model for World {
    ghost use Rattle.gv_vm.specs.World.{WorldState};

    ghost Value = { WorldState };

    ghost use Rattle.gv_vm.specs.WorldInside.{world_of, IsSoundWorld};

    ghost view = { world_of };

    ghost invariant = { IsSoundWorld };
}

impl World {
    ghost use Rattle.gv_vm.specs.World.{new_world};
    ghost use Rattle.gv_vm.specs.State.{IsVm};
    ghost use Rattle.gv_vm.specs.Step.{IsStep, NoneFalls};
    ghost use Rattle.gv_vm.specs.Headline.{Says};

    /// An empty world: nothing was put, and every timeline is at 0. It takes memory for the first
    /// things only, and none that grows with the depth.
    pub fn new(
        alloc: Global,
        bounds: Bounds,
        limits: Limits,
        sizes: Sizes,
    ) -> Result<World, OutOfMemory>
        requires queues { IsFromOneTo most_queues sizes.queues }
        requires depth { IsFromOneTo 65536 sizes.depth }
        requires timelines { IsFromOneTo most_timelines sizes.timelines }
        ensures { IfOk result
            (λ w. w ≡ new_world bounds limits sizes.queues sizes.depth sizes.timelines) }
    {
        let clock = Clock::new(alloc, sizes.timelines)?;
        let queues = no_requests(alloc, sizes.queues)?;
        let vm = match Vm::new(alloc, bounds, limits) {
            Ok(vm) => vm,
            Err(_) => return Err(OutOfMemory),
        };
        Ok(World {
            vm,
            clock,
            depth: sizes.depth,
            queues,
        })
    }

    /// The machine.
    pub fn vm(&self) -> &Vm
        ensures { result.now ≡ self.now.vm }
    {
        &self.vm
    }

    /// How many queues it has. They are numbered from 0.
    pub fn queues(&self) -> u64
        ensures { result ≡ length self.now.queues }
    {
        self.queues.len() as u64
    }

    /// The numbers of its timelines.
    pub fn clock(&self) -> &Clock
        ensures { result.now ≡ self.now.numbers }
    {
        &self.clock
    }

    /// Carries out one event and answers it. `Idle` exactly if it is not enabled, and then nothing changes. `OutOfMemory`
    /// comes only at an event that may grow (`Put`, `Look` if the wait is reached, `Bind`, `GiveUp`, `Create`, `Withdraw`,
    /// `JobBegin`, if it is enabled and not refused before), and all is as it was; a request that was to be put is
    /// dropped.
    pub fn step(&mut self, alloc: Global, event: Event) -> Result<Reply, OutOfMemory>
        ensures step { IsStep self.old event result self.new }
        ensures says { IfOk result (λ reply. Says self.old event reply self.new) }
        ensures rise { NoneFalls self.old self.new }
    {
        // For the prover: what always holds of the machine.
        let _before = self.vm.space();
        let reply = self.dispatch(alloc, event);
        // For the prover: what always holds of the machine.
        let _after = self.vm.space();
        reply
    }

    fn dispatch(&mut self, alloc: Global, event: Event) -> Result<Reply, OutOfMemory>
        ensures { IsStep self.old event result self.new }
    {
        match event {
            Event::Put { queue, request } => self.put(queue, request),
            Event::Take { queue } => Ok(self.take(alloc, queue)),
            Event::Look { queue } => self.look(queue),
            Event::Bind { queue } => self.bind(alloc, queue),
            Event::GiveUp { queue } => self.give_up(queue),
            Event::Pay { queue } => Ok(self.pay(queue)),
            Event::Raise { point } => Ok(self.raise(point)),
            Event::Create { pages } => self.create(alloc, pages),
            Event::Destroy { id } => Ok(self.destroy(id)),
            Event::Rewind => Ok(self.rewind()),
            Event::Withdraw { entry } => self.withdraw(alloc, entry),
            Event::Settle { to } => Ok(self.settle(to)),
            Event::Forget { queue, to } => Ok(self.forget(queue, to)),
            Event::Trim => Ok(self.trim()),
            Event::JobBegin { accesses } => self.job_begin(alloc, accesses),
            Event::JobEnd { job } => Ok(self.job_end(job)),
            Event::Translate { addr } => Ok(self.translate(addr)),
        }
    }

    /// Closes its machine: all undo values are dropped and all jobs end. It takes no memory.
    pub fn close(self) {
        let World {
            vm,
            clock: _,
            depth: _,
            queues: _,
        } = self;
        vm.close();
    }
}

/// `count` queues on which nothing was put.
fn no_requests(alloc: Global, count: u64) -> Result<Vec<Queue>, OutOfMemory>
    ensures { IfOk result (λ queues. queues.items ≡ replicate count new_queue) }
{
    let mut queues = Vec::with_capacity(alloc, count as usize)?;
    for queue in 0..count {
        queues.push_reserved(Queue::new(alloc));
    }
    Ok(queues)
}
