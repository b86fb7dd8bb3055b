//! What a worker leaves when it ends.
ghost use Rattle.std.specs.Prelude.{◌≡◌, ◌↔◌, ◌≤◌, IsTrue, length, vec_capacity};
ghost use Rattle.gv_queues.specs.Ending.{Agrees};
ghost use Rattle.gv_queues.specs.Paying.{all_owed};
ghost use Rattle.gv_queues.specs.Working.{AreLeft, RaisedJustOwed};

use crate::put_end::PutEnd;
use crate::taking::Taker;
use gv_sync::Seat;
use gv_types::Request;
use gv_vm::{Outcome, Vm};
use std::marker::Model;
use std::sync::Wait;

/// A worker that ended. It keeps its end of the queue, which knows what it took, and its seat.
#[derive(Drop)]
pub struct WorkerEnd {
    taker: Taker,
    seat: Seat,
    gave: Vec<Outcome>,
    left: Vec<Request>,
}

impl Model for WorkerEnd {
    ghost use Rattle.gv_queues.specs.Working.{AreLeft, RaisedJustOwed, WorkerEndState};

    ghost Value = { WorkerEndState };

    ghost view = { λ e. record {
      queue = e.taker.queue;
      channel = e.taker.channel;
      taken = e.taker.taken;
      gave = e.gave.items;
      left = e.left.items;
      raises = e.seat.raises;
      halvings = e.seat.halvings;
    } };

    ghost invariant = { λ e.
        AreLeft e.taker.taken e.gave.items e.left.items × RaisedJustOwed e.gave.items e.taker.taken e.seat };
}

impl WorkerEnd {
    /// The end of a worker that gave these outcomes and left these requests.
    pub fn new(taker: Taker, seat: Seat, gave: Vec<Outcome>, left: Vec<Request>) -> WorkerEnd
        requires left { AreLeft taker.taken gave.items left.items }
        requires raised { RaisedJustOwed gave.items taker.taken seat }
        ensures { result ≡ record {
          queue = taker.queue;
          channel = taker.channel;
          taken = taker.taken;
          gave = gave.items;
          left = left.items;
          raises = seat.raises;
          halvings = seat.halvings;
        } }
    {
        WorkerEnd {
            taker,
            seat,
            gave,
            left,
        }
    }

    /// How many requests the worker took.
    pub fn taken_count(&self) -> u64
        ensures { result ≡ length self.now.taken }
    {
        self.gave.len() as u64 + self.left.len() as u64
    }

    /// Whether the worker took the number of requests that were put, and gave the number of outcomes that the queue has had, those
    /// that aren't forgotten among them.
    pub(crate) fn agrees(&self, vm: &Vm, put: &PutEnd) -> bool
        ensures { IsTrue result ↔ Agrees vm.now put.now self.now }
    {
        let queue = self.taker.queue();
        if self.taken_count() != put.put() || self.gave.len() as u64 != vm.told_next(queue) {
            return false;
        }
        let first = vm.told_from(queue) as usize;
        &self.gave[first..] == vm.told(queue)
    }

    /// Takes what is still in the channel of a closed queue and leaves it, as far as there is room.
    pub(crate) fn drained<R: Wait>(self, rt: &R) -> WorkerEnd
        ensures queue { result.queue ≡ self.queue }
        ensures channel { result.channel ≡ self.channel }
        ensures gave { result.gave ≡ self.gave }
        ensures raises { result.raises ≡ all_owed result.gave result.taken }
        ensures share { result.halvings ≡ self.halvings }
    {
        let Self {
            mut taker,
            seat,
            gave,
            mut left,
        } = self;
        let taken = gave.len() as u64 + left.len() as u64;
        let room = left.capacity() - left.len();
        for index in 0..room {
            let Some(request) = taker.take(rt, taken + index as u64) else {
                break;
            };
            left.push_reserved(request.into_request());
        }
        WorkerEnd::new(taker, seat, gave, left)
    }

    pub(crate) fn into_left(self) -> Vec<Request>
        ensures { result.items ≡ self.left }
    {
        let Self {
            taker: _,
            seat: _,
            gave: _,
            left,
        } = self;
        left
    }
}
