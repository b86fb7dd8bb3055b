//! What is left of a submitter when its queue is closed.
ghost use Rattle.std.specs.Prelude.{◌≡◌, length};
ghost use Rattle.crossbeam_channel.specs.Claims.{view};
ghost use Rattle.gv_queues.specs.Handover.{about_queue, submitter_pass};

use crate::channel::QueuePass;
use std::marker::Model;

/// A queue that takes no more requests. It keeps its submitter's pass, which knows what was put.
#[derive(Drop)]
pub struct PutEnd {
    pass: QueuePass,
    queue: u64,
    put: u64,
}

impl Model for PutEnd {
    ghost use Rattle.std.specs.Prelude.{◌≡◌, length};
    ghost use Rattle.crossbeam_channel.specs.Claims.{view as known_to};
    ghost use Rattle.gv_queues.specs.Handover.{about_queue, submitter_pass};
    ghost use Rattle.gv_queues.specs.Submitting.{PutEndState};

    ghost Value = { PutEndState };

    ghost view = { λ e. record {
      queue = e.queue;
      channel = record { table = e.pass.table_id; queue = e.queue };
      put = (known_to e.pass).put;
    } };

    ghost invariant = { λ e.
        (known_to e.pass ≡ submitter_pass (about_queue e.queue (known_to e.pass).about.timelines) (known_to e.pass).put)
        × (e.put ≡ length (known_to e.pass).put) };
}

impl PutEnd {
    pub(crate) fn new(pass: QueuePass, queue: u64, put: u64) -> PutEnd
        requires pass { view pass ≡ submitter_pass (about_queue queue (view pass).about.timelines) (view pass).put }
        requires put { put ≡ length (view pass).put }
        ensures { result ≡ record {
          queue = queue;
          channel = record { table = pass.table_id; queue = queue };
          put = (view pass).put;
        } }
    {
        PutEnd { pass, queue, put }
    }

    /// Its queue.
    pub fn queue(&self) -> u64
        ensures { result ≡ self.now.queue }
    {
        self.queue
    }

    /// How many requests were put.
    pub fn put(&self) -> u64
        ensures { result ≡ length self.now.put }
    {
        self.put
    }
}
