//! The end of a queue at which requests are put.
ghost use Rattle.std.specs.Prelude.{◌≡◌, ◌<◌, ◌≤◌, ◌↔◌, ◌⊎◌, ◌++◌, ◌∷◌, [], length, IfOk, IfErr, OnOk, OnErr, IsErrAnd};
ghost use Rattle.crossbeam_channel.specs.Claims.{view, IsSeatAt};
ghost use Rattle.crossbeam_channel.specs.Ends.{sends_on, ruled_capacity};
ghost use Rattle.gv_types.specs.Request.{Fits as FitsTimelines};
ghost use Rattle.gv_vm.specs.Outcomes.{queues};
ghost use Rattle.gv_queues.specs.Handover.{about_queue, submitter_pass};
ghost use Rattle.gv_queues.specs.Submitting.{MayBeFull, put_end_of};

use crate::channel::{Puts, QueuePass, Sends};
use crate::put_end::PutEnd;
use crossbeam_channel::TrySendError;
use gv_types::{Fault, Request};
use std::marker::Model;
use std::sync::Wait;

/// Why a request was not put. The request comes back as it was.
#[derive(Debug, PartialEq, Drop)]
pub struct PutFault {
    pub fault: Fault,
    pub request: Request,
}

/// Puts requests on one queue, in order. A clause sees which they are.
#[derive(Drop)]
pub struct Submitter {
    sends: Sends,
    pass: QueuePass,
    queue: u64,
    limit: u64,
    timelines: u64,
    count: u64,
}

impl Model for Submitter {
    ghost use Rattle.std.specs.Prelude.{◌≡◌, ◌<◌, ◌≤◌, length};
    ghost use Rattle.crossbeam_channel.specs.Claims.{view as known_to, IsSeatAt};
    ghost use Rattle.crossbeam_channel.specs.Ends.{sends_on, ruled_capacity};
    ghost use Rattle.gv_vm.specs.Outcomes.{queues};
    ghost use Rattle.gv_queues.specs.Handover.{about_queue, submitter_pass};
    ghost use Rattle.gv_queues.specs.Submitting.{SubmitterState};

    ghost Value = { SubmitterState };

    ghost view = { λ s. record {
      queue = s.queue;
      channel = record { table = s.pass.table_id; queue = s.queue };
      limit = s.limit;
      depth = ruled_capacity (sends_on s.sends);
      timelines = s.timelines;
      put = (known_to s.pass).put;
    } };

    ghost invariant = { λ s.
        IsSeatAt (sends_on s.sends) s.pass
        × (known_to s.pass ≡ submitter_pass (about_queue s.queue s.timelines) (known_to s.pass).put)
        × (s.count ≡ length (known_to s.pass).put)
        × (s.count ≤ s.limit)
        × (s.queue < queues) };
}

impl Submitter {
    /// A submitter of a channel on which nothing was put.
    pub fn new(sends: Sends, pass: QueuePass, queue: u64, limit: u64, timelines: u64) -> Submitter
        requires seat { IsSeatAt (sends_on sends) pass }
        requires none { view pass ≡ submitter_pass (about_queue queue timelines) [] }
        requires queue { queue < queues }
        ensures { result ≡ record {
          queue = queue;
          channel = record { table = pass.table_id; queue = queue };
          limit = limit;
          depth = ruled_capacity (sends_on sends);
          timelines = timelines;
          put = [];
        } }
    {
        Submitter {
            sends,
            pass,
            queue,
            limit,
            timelines,
            count: 0,
        }
    }

    /// Closes the queue. Its worker ends once the channel is empty.
    pub fn close(self) -> PutEnd
        ensures { result ≡ put_end_of self }
    {
        let Self {
            sends,
            pass,
            queue,
            limit: _,
            timelines: _,
            count,
        } = self;
        drop(sends);
        PutEnd::new(pass, queue, count)
    }

    /// How many timelines there are: a request fits if all that it names are below this count.
    pub fn timelines(&self) -> u64
        ensures { result ≡ self.now.timelines }
    {
        self.timelines
    }

    /// How many requests were put.
    pub fn count(&self) -> u64
        ensures { result ≡ length self.now.put }
    {
        self.count
    }

    /// Puts a request after those put before, and answers how many these are. `QueueSpent` exactly if the limit of requests
    /// was put, `QueueFull` if each place of the channel had a request at some moment, `QueueGone` if its other end is gone.
    /// A request that is refused comes back. It takes no memory. It may wait, while the worker is in the middle of a take.
    pub fn put<R: Wait>(&mut self, rt: &R, request: Request) -> Result<u64, PutFault>
        requires fits { FitsTimelines self.old.timelines request }
        ensures number { IfOk result (λ number. number ≡ length self.old.put) }
        ensures added { OnOk result
            (self.new ≡ record self.old { put = self.old.put ++ request ∷ [] }) }
        ensures same { OnErr result (self.new ≡ self.old) }
        ensures request { IfErr result (λ f. f.request ≡ request) }
        ensures fault { IfErr result (λ f. (f.fault ≡ Fault.QueueSpent)
            ⊎ (f.fault ≡ Fault.QueueFull) ⊎ (f.fault ≡ Fault.QueueGone)) }
        ensures spent { IsErrAnd result (λ f. f.fault ≡ Fault.QueueSpent)
            ↔ (length self.old.put ≡ self.old.limit) }
        ensures full { IfErr result (λ f. f.fault ≡ Fault.QueueFull → MayBeFull self.old) }
    {
        if self.count == self.limit {
            return Err(PutFault {
                fault: Fault::QueueSpent,
                request,
            });
        }
        match self
            .sends
            .try_send_as::<Puts, R>(rt, &mut self.pass, request)
        {
            Ok(()) => {
                let number = self.count;
                self.count += 1;
                Ok(number)
            }
            Err(TrySendError::Full(request)) => Err(PutFault {
                fault: Fault::QueueFull,
                request,
            }),
            Err(e) => Err(PutFault {
                fault: Fault::QueueGone,
                request: e.into_inner(),
            }),
        }
    }
}
