//! A worker of one queue.
ghost use Rattle.std.specs.Prelude.{◌≡◌, ◌<◌, ℕ, [], length, vec_capacity, IfErr};
ghost use Rattle.gv_types.specs.Request.{Fits as FitsTimelines};
ghost use Rattle.gv_sync.specs.Seats.{IsSeatOf, timeline_count, mark_of};
ghost use Rattle.gv_queues.specs.Paying.{RaisedJust, all_owed};
ghost use Rattle.gv_queues.specs.Working.{owed_by};

use crate::gate::Gate;
use crate::serving::{ReachedRequest, decline, serve};
use crate::taking::{Taken, Taker};
use crate::vm_lock::VmLock;
use crate::waiting::Asking;
use crate::worker_end::WorkerEnd;
use gv_sync::{Seat, Timelines};
use gv_types::{Fault, Request};
use gv_vm::{NotTold, Outcome};
use std::alloc::Global;
use std::marker::Model;
use std::sync::Wait;

/// What all workers share.
#[derive(Drop)]
pub struct Shared<'a, G> {
    pub lock: &'a VmLock,
    pub timelines: &'a Timelines,
    pub gate: &'a G,
}

/// What a worker starts with: its end of the queue, its seat, and room for the requests that it leaves.
#[derive(Drop)]
pub struct Worker {
    taker: Taker,
    seat: Seat,
    left: Vec<Request>,
}

impl Model for Worker {
    ghost use Rattle.std.specs.Prelude.{◌≡◌, ◌<◌, ℕ, [], vec_capacity};
    ghost use Rattle.gv_sync.specs.Seats.{timeline_count, mark_of};
    ghost use Rattle.gv_queues.specs.Working.{WorkerState};

    ghost Value = { WorkerState };

    ghost view = { λ w. record {
      queue = w.taker.queue;
      channel = w.taker.channel;
      of = w.seat.of;
      marks = w.seat.marks;
      halvings = w.seat.halvings;
    } };

    ghost invariant = { λ w.
        (w.taker.taken ≡ [])
        × (w.taker.timelines ≡ timeline_count w.seat.of)
        × (w.seat.raises ≡ [])
        × ((timeline : ℕ) → (mark_of w.seat timeline).raised ≡ 0)
        × (w.left.items ≡ [])
        × (0 < vec_capacity w.left) };
}

impl Worker {
    pub fn new(taker: Taker, seat: Seat, left: Vec<Request>) -> Worker
        requires none { taker.taken ≡ [] }
        requires timelines { taker.timelines ≡ timeline_count seat.of }
        requires raises { seat.raises ≡ [] }
        requires raised { (timeline : ℕ) → (mark_of seat timeline).raised ≡ 0 }
        requires left { (left.items ≡ []) × (0 < vec_capacity left) }
        ensures { result ≡ record {
          queue = taker.queue;
          channel = taker.channel;
          of = seat.of;
          marks = seat.marks;
          halvings = seat.halvings;
        } }
    {
        Worker { taker, seat, left }
    }

    /// Its queue.
    pub fn queue(&self) -> u64
        ensures { result ≡ self.now.queue }
    {
        self.taker.queue()
    }
}

/// Handles one request: waits for its points, then under the lock serves it, or declines it if the gate gave up.
fn attend<G: Gate, R: Wait>(
    rt: &R,
    alloc: Global,
    shared: &Shared<'_, G>,
    seat: &mut Seat,
    taken: Taken,
) -> Result<Outcome, NotTold>
    requires own { IsSeatOf shared.now.timelines.now seat.old }
    requires fits { FitsTimelines (timeline_count shared.now.timelines.now) taken.request }
    ensures own { IsSeatOf shared.now.timelines.now seat.new }
    ensures request { IfErr result (λ n. n.request ≡ taken.request) }
    ensures raised { RaisedJust (owed_by result taken.request.signals.items) seat.old seat.new }
{
    let (queue, number) = (taken.queue(), taken.number());
    let mut reached = Vec::new(alloc);
    if reached.reserve(taken.waits().len()).is_err() {
        return Err(NotTold {
            fault: Fault::OutOfMemory,
            request: taken.into_request(),
        });
    }
    let timelines = shared.timelines;
    let mut asking = Asking::new(shared.gate, queue, number);
    let waited = asking.wait_for_all(rt, timelines, seat, taken.waits(), &mut reached);
    shared.gate.before_lock(queue, number);
    let mut vm = shared.lock.lock(rt);
    match waited {
        Ok(()) => {
            let ready = ReachedRequest {
                taken,
                reached: reached.as_slice(),
            };
            serve(alloc, &mut vm, timelines, seat, ready)
        }
        Err(lacking) => decline(&mut vm, taken, lacking),
    }
}

/// Takes the requests of a queue in order and handles each, until the queue is closed and empty, memory for its lists is
/// refused, or an outcome can't be added. Then the request in hand is left, and so are those after it.
pub fn work<G: Gate, R: Wait>(
    rt: &R,
    alloc: Global,
    shared: Shared<'_, G>,
    worker: Worker,
) -> WorkerEnd
    requires { worker.of ≡ shared.timelines.now }
    ensures queue { result.queue ≡ worker.queue }
    ensures channel { result.channel ≡ worker.channel }
    // The signals of the requests that were accepted were raised, each by one step, in order, and nothing else was.
    ensures raises { result.raises ≡ all_owed result.gave result.taken }
    // No seat was split off the worker's own, with which it could have raised unseen.
    ensures share { result.halvings ≡ worker.halvings }
{
    let Worker {
        mut taker,
        mut seat,
        mut left,
    } = worker;
    let mut gave = Vec::new(alloc);
    for _ in rt.forever() {
        if gave.reserve(1).is_err() {
            break;
        }
        let Some(taken) = taker.take(rt, gave.len() as u64) else {
            break;
        };
        match attend(rt, alloc, &shared, &mut seat, taken) {
            Ok(outcome) => gave.push_reserved(outcome),
            Err(NotTold { fault: _, request }) => {
                left.push_reserved(request);
                break;
            }
        }
    }
    WorkerEnd::new(taker, seat, gave, left)
}
