//! Workers that run while a driver puts requests.
ghost use Rattle.std.specs.Prelude.{◌≡◌, ◌<◌, ◌≤◌, ◌++◌, ℕ, List, [], IfNone, IfSome, map, vec_len, vec_capacity};
ghost use Rattle.std.specs.List.{All};
ghost use Rattle.gv_sync.specs.Seats.{IsSeatOf, timeline_count};
ghost use Rattle.gv_queues.specs.Ending.{AreClosed, AreInOrder, AreOnOwnChannels, ArePuts, EndOnOwnChannels};
ghost use Rattle.gv_queues.specs.Submitting.{AreOpened, put_end_of};
ghost use Rattle.gv_queues.specs.Working.{AreEndsOfWorkers, IsEndOfWorker, WorkerState};

use crate::driver::Driver;
use crate::gate::Gate;
use crate::opening::{Opened, Rooms};
use crate::put_end::PutEnd;
use crate::submitter::Submitter;
use crate::vm_lock::Locked;
use crate::worker::{Shared, Worker, work};
use crate::worker_end::WorkerEnd;
use gv_sync::{Seat, Timelines};
use std::alloc::Global;
use std::snapshot::Snapshot;
use std::sync::Wait;
use std::thread;
use std::thread::{Promise, PromisedHandle, Scope, Threads};

/// The end is that of this worker.
#[derive(Drop)]
pub struct OfWorker(Snapshot<Worker>);

impl Promise<WorkerEnd> for OfWorker {
    ghost use Rattle.gv_queues.specs.Working.{IsEndOfWorker};

    ghost kept_by = { λ p end. IsEndOfWorker p.0.value end };
}

/// What the queues left, and the first queue whose worker was not started, if any.
#[derive(Drop)]
pub struct Ran {
    pub puts: Vec<PutEnd>,
    pub workers: Vec<WorkerEnd>,
    pub refused: Option<u64>,
}

fn close_all(submitters: Vec<Submitter>, mut puts: Vec<PutEnd>) -> Vec<PutEnd>
    requires none { puts.items ≡ [] }
    requires room { vec_len submitters ≤ vec_capacity puts }
    ensures { result.items ≡ map put_end_of submitters.items }
{
    for submitter in submitters {
        puts.push_reserved(submitter.close());
    }
    puts
}

/// Waits for the workers, and takes what is still in a channel. The queues are closed.
fn join_all<R: Threads + Wait>(
    rt: &R,
    handles: Vec<PromisedHandle<WorkerEnd, OfWorker>>,
    mut workers: Vec<WorkerEnd>,
) -> Vec<WorkerEnd>
    requires none { workers.items ≡ [] }
    requires room { vec_len handles ≤ vec_capacity workers }
    ensures ends { AreEndsOfWorkers (map (λ h. h.promise.0.value) handles.items) result.items }
    ensures len { vec_len result ≡ vec_len handles }
{
    for handle in handles {
        workers.push_reserved(handle.join(rt).drained(rt));
    }
    workers
}

/// Threads of workers, and the first queue whose worker was not started, if any.
#[derive(Drop)]
struct Started {
    handles: Vec<PromisedHandle<WorkerEnd, OfWorker>>,
    refused: Option<u64>,
}

/// What workers and their driver share: the lock of the address space, the timelines, and what workers ask while they
/// wait.
#[derive(Drop)]
pub struct RunContext<'a, L, G> {
    pub lock: &'a L,
    pub timelines: &'a Timelines,
    pub gate: &'a G,
}

impl<'s, L: Locked + Sync, G: Gate + Sync> RunContext<'s, L, G> {
    /// Starts a worker on a thread of its own.
    fn start<E, R: Wait + Sync>(
        &self,
        scope: &Scope<'s, E>,
        rt: &'s R,
        alloc: Global,
        worker: Worker,
    ) -> Option<PromisedHandle<WorkerEnd, OfWorker>>
        requires { worker.of ≡ self.now.timelines.now }
        ensures { IfSome result (λ handle. handle.promise.0.value ≡ worker) }
    {
        let (lock, timelines, gate) = (self.lock, self.timelines, self.gate);
        let started = scope.spawn_with(
            OfWorker(Snapshot::of(&worker)),
            move || -> WorkerEnd
                requires { worker.of ≡ timelines.now }
                ensures { IsEndOfWorker worker result }
            {
                let all = Shared {
                    lock: lock.vm_lock(),
                    timelines,
                    gate,
                };
                work(rt, alloc, all, worker)
            },
        );
        match started {
            Ok(handle) => Some(handle),
            Err(_) => None,
        }
    }

    /// Starts workers in order, each on a thread of its own, until one is not started. There is room for their handles.
    fn start_all<E, R: Wait + Sync>(
        &self,
        scope: &Scope<'s, E>,
        rt: &'s R,
        alloc: Global,
        workers: Vec<Worker>,
        mut handles: Vec<PromisedHandle<WorkerEnd, OfWorker>>,
    ) -> Started
        requires own { All (λ w. w.of ≡ self.now.timelines.now) workers.items }
        requires order { AreInOrder (λ w. w.queue) workers.items }
        requires none { handles.items ≡ [] }
        requires room { vec_len workers ≤ vec_capacity handles }
        // The workers that were started are the first of them.
        ensures first { (behind : List WorkerState)
            × (map (λ h. h.promise.0.value) result.handles.items ++ behind ≡ workers.items) }
        ensures all { IfNone result.refused (vec_len result.handles ≡ vec_len workers) }
        ensures refused { IfSome result.refused (λ queue. queue < vec_len workers) }
    {
        let mut refused = None;
        for worker in workers {
            let queue = worker.queue();
            match self.start(scope, rt, alloc, worker) {
                Some(handle) => handles.push_reserved(handle),
                None => {
                    refused = Some(queue);
                    break;
                }
            }
        }
        Started { handles, refused }
    }

    /// Runs the driver, and closes the queues.
    fn drive_all<D: Driver, R: Wait>(
        &self,
        rt: &R,
        driver: &mut D,
        seat: &mut Seat,
        mut submitters: Vec<Submitter>,
        puts: Vec<PutEnd>,
    ) -> Vec<PutEnd>
        requires own { IsSeatOf self.now.timelines.now seat.old }
        requires opened { (limit : ℕ) × (depth : ℕ)
            × AreOpened limit depth (timeline_count self.now.timelines.now) submitters.items
            × D.relies_on driver.old limit depth (vec_len submitters) }
        requires none { puts.items ≡ [] }
        requires room { vec_len submitters ≤ vec_capacity puts }
        ensures own { IsSeatOf self.now.timelines.now seat.new }
        // With the driver's seat no step is taken but by the driver.
        ensures driven { D.does_with driver.new seat.old seat.new }
        ensures puts { ArePuts (D.put_on driver.new) (D.may_put driver.old) result.items }
        ensures closed { AreClosed submitters.items result.items }
        ensures len { vec_len result ≡ vec_len submitters }
    {
        let (lock, timelines) = (self.lock.vm_lock(), self.timelines);
        driver.drive(rt, lock, submitters.as_mut_slice(), timelines, seat);
        close_all(submitters, puts)
    }
}

/// All that queues need to run.
#[derive(Drop)]
pub struct ReadyQueues {
    pub opened: Opened,
    pub rooms: Rooms,
}

impl ReadyQueues {
    /// Starts all workers, runs the driver, closes the queues and joins the workers. If a worker isn't started, the
    /// driver doesn't run.
    pub fn run_workers<L: Locked + Sync, G: Gate + Sync, D: Driver, R: Threads + Wait + Sync>(
        self,
        rt: &R,
        alloc: Global,
        around: RunContext<'_, L, G>,
        driver: &mut D,
        seat: &mut Seat,
    ) -> Ran
        requires own { IsSeatOf around.timelines.now seat.old
            × All (λ w. w.of ≡ around.timelines.now) self.opened.workers.items }
        requires opened { (limit : ℕ) × (depth : ℕ)
            × AreOpened limit depth (timeline_count around.timelines.now) self.opened.submitters.items
            × D.relies_on driver.old limit depth (vec_len self.opened.submitters) }
        requires order { AreInOrder (λ w. w.queue) self.opened.workers.items }
        requires channels { AreOnOwnChannels self.opened.submitters.items self.opened.workers.items }
        requires even { vec_len self.opened.workers ≡ vec_len self.opened.submitters }
        requires none { (self.rooms.handles.items ≡ []) × (self.rooms.puts.items ≡ [])
            × (self.rooms.workers.items ≡ []) }
        requires room { (vec_len self.opened.workers ≤ vec_capacity self.rooms.handles)
            × (vec_len self.opened.workers ≤ vec_capacity self.rooms.puts)
            × (vec_len self.opened.workers ≤ vec_capacity self.rooms.workers) }
        ensures own { IsSeatOf around.entry.timelines.now seat.new }
        ensures driven { IfNone result.refused (D.does_with driver.new seat.old seat.new) }
        ensures order { AreInOrder (λ w. w.queue) result.workers.items }
        ensures puts { IfNone result.refused (ArePuts (D.put_on driver.new) (D.may_put driver.old) result.puts.items) }
        ensures even { IfNone result.refused ((vec_len result.puts ≡ vec_len self.opened.submitters)
            × (vec_len result.workers ≡ vec_len self.opened.submitters)) }
        ensures ends { IfNone result.refused (AreEndsOfWorkers self.opened.workers.items result.workers.items) }
        ensures channels { IfNone result.refused (EndOnOwnChannels result.puts.items result.workers.items) }
        ensures refused { IfSome result.refused (λ queue. (queue < vec_len self.opened.submitters)
            × (driver.new ≡ driver.old) × (seat.new ≡ seat.old)) }
    {
        let ReadyQueues { opened, rooms } = self;
        let (again, lent, ran) = thread::scope(
            thread::scope_env(),
            rt,
            move |scope| -> (&mut D, &mut Seat, Ran)
                requires own { IsSeatOf around.timelines.now seat.now
                    × All (λ w. w.of ≡ around.timelines.now) opened.workers.items }
                requires opened { (limit : ℕ) × (depth : ℕ)
                    × AreOpened limit depth (timeline_count around.timelines.now) opened.submitters.items
                    × D.relies_on driver.now limit depth (vec_len opened.submitters) }
                requires order { AreInOrder (λ w. w.queue) opened.workers.items }
                requires channels { AreOnOwnChannels opened.submitters.items opened.workers.items }
                requires even { vec_len opened.workers ≡ vec_len opened.submitters }
                requires none { (rooms.handles.items ≡ []) × (rooms.puts.items ≡ []) × (rooms.workers.items ≡ []) }
                requires room { (vec_len opened.workers ≤ vec_capacity rooms.handles)
                    × (vec_len opened.workers ≤ vec_capacity rooms.puts)
                    × (vec_len opened.workers ≤ vec_capacity rooms.workers) }
                ensures own { IsSeatOf around.entry.timelines.now result.1.now }
                ensures driven { IfNone result.2.refused (D.does_with result.0.now seat.entry.now result.1.now) }
                ensures order { AreInOrder (λ w. w.queue) result.2.workers.items }
                ensures puts { IfNone result.2.refused
                    (ArePuts (D.put_on result.0.now) (D.may_put driver.entry.now) result.2.puts.items) }
                ensures even { IfNone result.2.refused ((vec_len result.2.puts ≡ vec_len opened.submitters)
                    × (vec_len result.2.workers ≡ vec_len opened.submitters)) }
                ensures ends { IfNone result.2.refused (AreEndsOfWorkers opened.workers.items result.2.workers.items) }
                ensures channels { IfNone result.2.refused (EndOnOwnChannels result.2.puts.items result.2.workers.items) }
                ensures refused { IfSome result.2.refused (λ queue. (queue < vec_len opened.submitters)
                    × (result.0.now ≡ driver.entry.now) × (result.1.now ≡ seat.entry.now)) }
                ensures same { result.0.ghost_name ≡ driver.entry.ghost_name }
                ensures same_seat { result.1.ghost_name ≡ seat.entry.ghost_name }
            {
                let started = around.start_all(scope, rt, alloc, opened.workers, rooms.handles);
                let refused = started.refused;
                let puts = if refused.is_none() {
                    around.drive_all(rt, driver, seat, opened.submitters, rooms.puts)
                } else {
                    close_all(opened.submitters, rooms.puts)
                };
                let workers = join_all(rt, started.handles, rooms.workers);
                let ran = Ran {
                    puts,
                    workers,
                    refused,
                };
                (driver, seat, ran)
            },
        );
        let _ = &*again;
        let _ = &*lent;
        ran
    }
}
