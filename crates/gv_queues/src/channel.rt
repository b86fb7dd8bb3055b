//! The bounded channel of one queue, under the rule of the queue.
ghost use Rattle.std.specs.Prelude.{◌≡◌, ◌<◌, ℕ, [], IfOk};
ghost use Rattle.crossbeam_channel.specs.Claims.{view, IsSeatAt};
ghost use Rattle.crossbeam_channel.specs.Ends.{sends_on, receives_on, ruled_capacity};
ghost use Rattle.gv_queues.specs.Handover.{about_queue, submitter_pass, worker_pass};
ghost use Rattle.gv_queues.specs.declared.pass_knowledge.About.{About};

use crate::pass_knowledge::PassKnowledge;
use crossbeam_channel::protocol::{Lesson, Outcome, Protocol, Split};
use crossbeam_channel::{Pass, RuledReceiver, RuledSender, bounded_with};
use gv_types::Request;
use std::alloc::{AllocError, Global};
use std::marker::Brand;

/// What was put is what was taken, and after that what the channel holds.
pub struct InOrder;

impl Protocol<Request, PassKnowledge> for InOrder {
    ghost use Rattle.gv_queues.specs.Handover.{TakenThenHeld, opening_pass};

    ghost holds = { TakenThenHeld };

    ghost first = { opening_pass };
}

/// Which queue a channel is of, and for how many timelines. The call that opens the channel picks it.
pub trait BoundToQueue {
    ghost about: { About };
}

impl BoundToQueue for Brand {
    ghost use Rattle.gv_queues.specs.Handover.{about_queue};

    ghost about = { about_queue 0 0 };
}

/// The first pass of a channel is split into the submitter's and the worker's.
struct Roles<B> {
    of: std::marker::PhantomData<B>,
}

impl<B: BoundToQueue> Split<PassKnowledge> for Roles<B> {
    ghost use Rattle.std.specs.Prelude.{[]};
    ghost use Rattle.gv_queues.specs.Handover.{submitter_pass, worker_pass};

    ghost left = { λ v. submitter_pass B.about [] };

    ghost right = { λ v. worker_pass B.about [] };
}

/// What a put shows.
pub struct Puts;

impl Outcome<Request, PassKnowledge> for Puts {
    ghost use Rattle.gv_queues.specs.Handover.{Put};

    ghost then = { Put };
}

impl Lesson<Request, PassKnowledge> for Puts {
    ghost use Rattle.gv_queues.specs.Handover.{HoldsLast};

    ghost fact = { HoldsLast };
}

/// What a take shows.
pub struct Takes;

impl Outcome<Request, PassKnowledge> for Takes {
    ghost use Rattle.gv_queues.specs.Handover.{Took};

    ghost then = { Took };
}

impl Lesson<Request, PassKnowledge> for Takes {
    ghost fact = { λ v items. Unit {0} };
}

pub type Sends = RuledSender<Request, PassKnowledge, InOrder>;

pub type Receives = RuledReceiver<Request, PassKnowledge, InOrder>;

pub type QueuePass = Pass<Request, PassKnowledge>;

/// Both ends of a new channel, each with its pass.
#[derive(Drop)]
pub struct Ends {
    pub sends: Sends,
    pub puts: QueuePass,
    pub receives: Receives,
    pub takes: QueuePass,
}

fn open_branded<B: BoundToQueue>(
    alloc: Global,
    depth: usize,
    queue: u64,
    timelines: u64,
) -> Result<Ends, AllocError>
    requires depth { 0 < depth }
    requires about { about_queue queue timelines ≡ B.about }
    ensures depth { IfOk result (λ e. ruled_capacity (sends_on e.sends) ≡ depth) }
    ensures puts { IfOk result (λ e. IsSeatAt (sends_on e.sends) e.puts
        × (view e.puts ≡ submitter_pass (about_queue queue timelines) [])) }
    ensures takes { IfOk result (λ e. IsSeatAt (receives_on e.receives) e.takes
        × (view e.takes ≡ worker_pass (about_queue queue timelines) [])) }
    ensures one { IfOk result (λ e. e.takes.table_id ≡ e.puts.table_id) }
{
    let (sends, receives, mut puts) = bounded_with(alloc, depth)?;
    let takes = sends.another::<Roles<B>>(&mut puts);
    Ok(Ends {
        sends,
        puts,
        receives,
        takes,
    })
}

/// A channel of this queue, with `depth` places for requests that fit `timelines` timelines. Nothing was put or taken.
pub fn open(alloc: Global, depth: usize, queue: u64, timelines: u64) -> Result<Ends, AllocError>
    requires { 0 < depth }
    ensures depth { IfOk result (λ e. ruled_capacity (sends_on e.sends) ≡ depth) }
    ensures puts { IfOk result (λ e. IsSeatAt (sends_on e.sends) e.puts
        × (view e.puts ≡ submitter_pass (about_queue queue timelines) [])) }
    ensures takes { IfOk result (λ e. IsSeatAt (receives_on e.receives) e.takes
        × (view e.takes ≡ worker_pass (about_queue queue timelines) [])) }
    ensures one { IfOk result (λ e. e.takes.table_id ≡ e.puts.table_id) }
{
    open_branded::<Brand>(alloc, depth, queue, timelines)
}
