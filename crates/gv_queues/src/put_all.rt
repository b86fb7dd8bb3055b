//! A driver that puts requests in order.
ghost use Rattle.std.specs.Prelude.{◌≡◌, [], length};
ghost use Rattle.gv_queues.specs.Counts.{count_of_queue};
ghost use Rattle.gv_queues.specs.Driving.{AreSomePut, MayPutOne};
ghost use Rattle.gv_queues.specs.Submitting.{AreCounted, AreSameSubmitters};

use crate::driver::Driver;
use crate::submitter::Submitter;
use crate::vm_lock::VmLock;
use gv_sync::{Seat, Timelines};
use gv_types::Request;
use gv_vm::QUEUES;
use std::marker::Model;
use std::sync::Wait;

/// Puts requests in order, each on its queue, and counts those that were put. One that is refused is dropped, and so is one of
/// a queue or with a timeline that doesn't exist. It takes no memory.
#[derive(Drop)]
pub struct PutAll {
    requests: Option<Vec<(u64, Request)>>,
    counts: [u64; QUEUES],
}

impl Model for PutAll {
    ghost use Rattle.gv_queues.specs.Driving.{PutAllState, given};

    ghost Value = { PutAllState };

    ghost view = { λ d. record { asked = given d.requests; put = d.counts } };
}

impl PutAll {
    /// Each request comes after its queue.
    pub fn new(requests: Vec<(u64, Request)>) -> Self
        ensures { result.asked ≡ requests.items }
    {
        PutAll {
            requests: Some(requests),
            counts: [0; QUEUES],
        }
    }
}

/// Puts a request on its queue, if it is one of those, and counts what was put there.
fn put<R: Wait>(
    rt: &R,
    submitters: &mut [Submitter],
    counts: &mut [u64; QUEUES],
    queue: u64,
    request: Request,
)
    requires counts { AreCounted (count_of_queue counts.old) submitters.old }
    ensures same { AreSameSubmitters submitters.old submitters.new }
    ensures put { MayPutOne queue request submitters.old submitters.new }
    ensures counts { AreCounted (count_of_queue counts.new) submitters.new }
    ensures len { length submitters.new ≡ length submitters.old }
{
    let index = queue as usize;
    if index >= submitters.len() || index >= QUEUES {
        return;
    }
    if request.fits(submitters[index].timelines()) {
        // A request that is refused is not tried again.
        let _ = submitters[index].put(rt, request);
        counts[index] = submitters[index].count();
    }
}

/// Puts requests in order, each on its queue.
fn put_all<R: Wait>(
    rt: &R,
    submitters: &mut [Submitter],
    counts: &mut [u64; QUEUES],
    requests: Vec<(u64, Request)>,
)
    requires counts { AreCounted (count_of_queue counts.old) submitters.old }
    requires none { AreSomePut [] submitters.old }
    ensures same { AreSameSubmitters submitters.old submitters.new }
    ensures put { AreSomePut requests.items submitters.new }
    ensures counts { AreCounted (count_of_queue counts.new) submitters.new }
    ensures len { length submitters.new ≡ length submitters.old }
{
    for (queue, request) in requests {
        put(rt, submitters, counts, queue, request);
    }
}

impl Driver for PutAll {
    ghost use Rattle.std.specs.Prelude.{◌≡◌};
    ghost use Rattle.gv_queues.specs.Counts.{count_of_queue};
    ghost use Rattle.gv_queues.specs.Driving.{AreSomeOf, requests_on};

    ghost put_on = { λ d. count_of_queue d.put };

    ghost may_put = { λ d queue put. AreSomeOf (requests_on queue d.asked) put };

    ghost relies_on = { λ d limit depth count. Unit {0} };

    ghost does_with = { λ d old new. new ≡ old };

    fn drive<R: Wait>(
        &mut self,
        rt: &R,
        _lock: &VmLock,
        submitters: &mut [Submitter],
        _timelines: &Timelines,
        _seat: &mut Seat,
    ) {
        let mut counts = [0; QUEUES];
        if let Some(requests) = self.requests.take() {
            put_all(rt, submitters, &mut counts, requests);
        }
        self.counts = counts;
    }

    fn count(&self, queue: u64) -> u64 {
        self.counts.get(queue as usize).copied().unwrap_or(0)
    }
}
