//! Queues that are opened, run and finished.
ghost use Rattle.std.specs.Prelude.{◌≡◌, ◌<◌, ◌≤◌, ℕ, [], Err, IfOk, IfErr, vec_len};
ghost use Rattle.gv_sync.specs.Seats.{IsSeatOf};
ghost use Rattle.gv_types.specs.Limits.{IsFromOneTo};
ghost use Rattle.gv_vm.specs.Outcomes.{queues};
ghost use Rattle.gv_vm.specs.State.{IsVm};
ghost use Rattle.gv_queues.specs.Ending.{AreCountedEnds, HasNotRun, IsOfQueueBelow, IsUntold};
ghost use Rattle.gv_queues.specs.SeatSplits.{ComesBack};
ghost use Rattle.gv_queues.specs.Submitting.{most_places};

use crate::driver::Driver;
use crate::finishing::{QueueEnd, QueuesFault, finish};
use crate::gate::Gate;
use crate::opening::{QueueSizes, make_rooms, open_all};
use crate::running::{ReadyQueues, RunContext};
use crate::vm_lock::VmLock;
use gv_sync::{Seat, Timelines};
use gv_vm::Vm;
use std::alloc::Global;
use std::sync::Wait;
use std::thread::Threads;

/// Queues that are to run: how many there are and how many places each has, the timelines, and what the workers ask while they
/// wait.
#[derive(Drop)]
pub struct Queues<'a, G> {
    pub count: u64,
    pub depth: usize,
    pub timelines: &'a Timelines,
    pub gate: &'a G,
}

impl<G: Gate + Sync> Queues<'_, G> {
    /// Runs the queues, with a worker on a thread of its own for each, until the driver is done. A queue takes one request for
    /// each outcome that it may have; the driver may rely on these numbers.
    /// `NotMade` if the system refuses the memory that they start with, `NotStarted` if it refuses a thread: no request
    /// was put. `Disagree` with the first queue on which requests put, taken and outcomes don't agree. The address space comes back
    /// on every path.
    pub fn run_queues<D: Driver, R: Threads + Wait + Sync>(
        &self,
        rt: &R,
        alloc: Global,
        vm: Vm,
        seat: &mut Seat,
        driver: &mut D,
    ) -> (Vm, Result<Vec<QueueEnd>, QueuesFault>)
        requires own { IsSeatOf self.now.timelines.now seat.old }
        requires count { IsFromOneTo queues self.now.count }
        requires depth { IsFromOneTo most_places self.now.depth }
        requires untold { IsUntold vm }
        requires relied { D.relies_on driver.old vm.space.limits.told self.now.depth self.now.count }
        ensures own { IsSeatOf self.now.timelines.now seat.new }
        // The driver's steps are seen on the seat that was lent, and no others were taken with it.
        ensures lent { ComesBack self.now.count (D.does_with driver.new) seat.old seat.new result.1 }
        ensures sound { IsVm result.0 }
        ensures not_made { result.1 ≡ Err QueuesFault.NotMade → result.0 ≡ vm }
        ensures not_run { IfErr result.1 (λ fault. HasNotRun fault → driver.new ≡ driver.old) }
        ensures len { IfOk result.1 (λ ends. vec_len ends ≡ self.now.count) }
        ensures counted { IfOk result.1 (λ ends.
            AreCountedEnds result.0 (D.put_on driver.new) (D.may_put driver.old) ends.items) }
        ensures queue { IfErr result.1 (λ fault. IsOfQueueBelow self.now.count fault) }
    {
        // For the prover: what always holds of the machine.
        let _space = vm.space();
        let Ok(rooms) = make_rooms(alloc, self.count) else {
            return (vm, Err(QueuesFault::NotMade));
        };
        let Ok(ends) = Vec::with_capacity(alloc, self.count as usize) else {
            return (vm, Err(QueuesFault::NotMade));
        };
        let sizes = QueueSizes {
            count: self.count,
            depth: self.depth,
            limit: vm.limits().told(),
        };
        let Ok(opened) = open_all(alloc, self.timelines, seat, sizes) else {
            return (vm, Err(QueuesFault::NotMade));
        };
        let lock = VmLock::new(vm);
        let around = RunContext {
            lock: &lock,
            timelines: self.timelines,
            gate: self.gate,
        };
        let ran = ReadyQueues { opened, rooms }.run_workers(rt, alloc, around, driver, seat);
        let vm = lock.into_inner();
        // For the prover: what always holds of the machine.
        let _space = vm.space();
        if let Some(queue) = ran.refused {
            return (vm, Err(QueuesFault::NotStarted { queue }));
        }
        let workers = ran.workers;
        let ended = finish(&vm, ran.puts.as_slice(), workers, ends);
        (vm, ended)
    }
}
