//! The end of a queue at which requests are taken.
ghost use Rattle.std.specs.Prelude.{◌≡◌, ◌<◌, [], length, IfSome, IfNone};
ghost use Rattle.crossbeam_channel.specs.Claims.{view, IsSeatAt};
ghost use Rattle.crossbeam_channel.specs.Ends.{receives_on};
ghost use Rattle.gv_vm.specs.Outcomes.{queues};
ghost use Rattle.gv_queues.specs.Handover.{about_queue, worker_pass};
ghost use Rattle.gv_queues.specs.Taking.{IsTakenFrom};

use crate::channel::{QueuePass, Receives, Takes};
use gv_types::{Point, Request};
use std::marker::Model;
use std::sync::Wait;

/// Takes the requests of one queue, in order. A clause sees which were taken.
#[derive(Drop)]
pub struct Taker {
    receives: Receives,
    pass: QueuePass,
    queue: u64,
}

impl Model for Taker {
    ghost use Rattle.std.specs.Prelude.{◌≡◌, ◌<◌};
    ghost use Rattle.crossbeam_channel.specs.Claims.{view as known_to, IsSeatAt};
    ghost use Rattle.crossbeam_channel.specs.Ends.{receives_on};
    ghost use Rattle.gv_vm.specs.Outcomes.{queues};
    ghost use Rattle.gv_queues.specs.Handover.{about_queue, worker_pass};
    ghost use Rattle.gv_queues.specs.Taking.{TakerState};

    ghost Value = { TakerState };

    ghost view = { λ t. record {
      queue = t.queue;
      channel = record { table = t.pass.table_id; queue = t.queue };
      timelines = (known_to t.pass).about.timelines;
      taken = (known_to t.pass).taken;
    } };

    ghost invariant = { λ t.
        IsSeatAt (receives_on t.receives) t.pass
        × (known_to t.pass ≡ worker_pass (about_queue t.queue (known_to t.pass).about.timelines) (known_to t.pass).taken)
        × (t.queue < queues) };
}

impl Taker {
    /// A taker of a channel from which nothing was taken.
    pub fn new(receives: Receives, pass: QueuePass, queue: u64) -> Taker
        requires seat { IsSeatAt (receives_on receives) pass }
        requires none { view pass ≡ worker_pass (about_queue queue (view pass).about.timelines) [] }
        requires queue { queue < queues }
        ensures { result ≡ record {
          queue = queue;
          channel = record { table = pass.table_id; queue = queue };
          timelines = (view pass).about.timelines;
          taken = [];
        } }
    {
        Taker {
            receives,
            pass,
            queue,
        }
    }

    /// Its queue.
    pub fn queue(&self) -> u64
        ensures value { result ≡ self.now.queue }
        ensures below { result < queues }
    {
        self.queue
    }

    /// Takes the request at the front. `number` were taken before. It waits until there is one, and answers None if the
    /// queue is closed and empty.
    pub(crate) fn take<R: Wait>(&mut self, rt: &R, number: u64) -> Option<Taken>
        requires { number ≡ length self.old.taken }
        ensures taken { IfSome result (IsTakenFrom self.old self.new) }
        ensures none { IfNone result (self.new ≡ self.old) }
    {
        let queue = self.queue;
        match self.receives.recv_as::<Takes, R>(rt, &mut self.pass) {
            Ok(request) => Some(Taken {
                queue,
                number,
                request,
            }),
            Err(_) => None,
        }
    }
}

/// A request that a worker took, with its queue and the number that it has there. Only a take makes one.
#[derive(Drop)]
pub struct Taken {
    queue: u64,
    number: u64,
    request: Request,
}

impl Model for Taken {
    ghost use Rattle.std.specs.Prelude.{◌<◌};
    ghost use Rattle.gv_vm.specs.Outcomes.{queues};
    ghost use Rattle.gv_queues.specs.Taking.{TakenState};

    ghost Value = { TakenState };

    ghost view = { λ t. record { queue = t.queue; number = t.number; request = t.request } };

    ghost invariant = { λ t. t.queue < queues };
}

impl Taken {
    /// Its queue.
    pub fn queue(&self) -> u64
        ensures value { result ≡ self.now.queue }
        ensures below { result < queues }
    {
        self.queue
    }

    /// How many requests were taken from its queue before.
    pub fn number(&self) -> u64
        ensures { result ≡ self.now.number }
    {
        self.number
    }

    /// The points that it waits for.
    pub fn waits(&self) -> &[Point]
        ensures { result.now ≡ self.now.request.waits.items }
    {
        self.request.waits.as_slice()
    }

    pub(crate) fn into_request(self) -> Request
        ensures { result ≡ self.request }
    {
        let Self {
            queue: _,
            number: _,
            request,
        } = self;
        request
    }
}
