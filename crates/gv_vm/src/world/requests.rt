//! The events of a queue: a request is put, taken, looked at, bound or given up, and its signals are raised.
ghost use Rattle.std.specs.Prelude.{◌≡◌, ◌≢◌, ◌<◌, map, None, OnErr, IfErr, IfOk, reverse};
ghost use Rattle.gv_vm.specs.World.{next_wait};
ghost use Rattle.gv_vm.specs.Outcomes.{queues, told_to, tell_fault};
ghost use Rattle.gv_vm.specs.State.{told_limit};
ghost use Rattle.gv_vm.specs.BindOutcome.{IsBoundAndTold, seen_by};
ghost use Rattle.gv_vm.specs.Step.{owed_in, owed_for};
ghost use Rattle.gv_vm.specs.QueueEvents.{IsToldLacking, IsPutReply};

use super::World;
use crate::event::{Event, Reply};
use crate::outcome::{NotTold, Outcome};
use crate::queue::Hand;
use crate::vm::Vm;
use gv_types::{Fault, OutOfMemory, Point, Request};
use std::alloc::{AllocError, Global};

/// The outcome of a request in hand, and the signals that are owed for it, the first one last.
struct Bound {
    outcome: Outcome,
    owed: Vec<Point>,
}

impl World {
    ghost use Rattle.gv_vm.specs.Step.{step, IsStep};

    /// Puts a request at the back of a queue, if the queue exists and the request fits the timelines.
    pub(super) fn put(&mut self, queue: u64, request: Request) -> Result<Reply, OutOfMemory>
        ensures { IsStep self.old (Event.Put queue request) result self.new }
    {
        if queue >= self.queues.len() as u64 || !request.fits(self.clock.count()) {
            return Ok(Reply::Idle);
        }
        let limit = self.vm.told_limit(queue);
        let put = self.queues[queue as usize].put(limit, self.depth, request);
        put_reply(put)
    }

    /// Takes the request at the front of a queue in hand.
    pub(super) fn take(&mut self, alloc: Global, queue: u64) -> Reply
        ensures { step self.old (Event.Take queue) result self.new }
    {
        if queue >= self.queues.len() as u64 {
            return Reply::Idle;
        }
        let number = self.vm.told_next(queue);
        if self.queues[queue as usize].take(alloc) {
            Reply::Taken { number }
        } else {
            Reply::Idle
        }
    }

    /// Looks at the first wait that is not reached yet.
    pub(super) fn look(&mut self, queue: u64) -> Result<Reply, OutOfMemory>
        ensures { IsStep self.old (Event.Look queue) result self.new }
    {
        if queue >= self.queues.len() as u64 {
            return Ok(Reply::Idle);
        }
        let hand = &mut self.queues[queue as usize];
        let Some(point) = hand.wait() else {
            return Ok(Reply::Idle);
        };
        let reached = match self.clock.look(&point) {
            Ok(reached) => reached,
            Err(lacking) => {
                let have = lacking.have();
                hand.lack(lacking);
                return Ok(Reply::Lacking { point, have });
            }
        };
        let seen = reached.seen();
        if hand.reach(reached).is_err() {
            return Err(OutOfMemory);
        }
        Ok(Reply::Reached { point, seen })
    }

    /// Carries out the request in hand, if each of its waits is reached.
    pub(super) fn bind(&mut self, alloc: Global, queue: u64) -> Result<Reply, OutOfMemory>
        ensures { IsStep self.old (Event.Bind queue) result self.new }
    {
        if queue >= self.queues.len() as u64 {
            return Ok(Reply::Idle);
        }
        let own_queue = &mut self.queues[queue as usize];
        let Some(hand) = own_queue.take_ready() else {
            return Ok(Reply::Idle);
        };
        let number = self.vm.told_next(queue);
        let Bound { outcome, owed } = match bind_hand(alloc, &mut self.vm, queue, number, hand) {
            Ok(bound) => bound,
            Err(hand) => {
                own_queue.hold(hand);
                return Err(OutOfMemory);
            }
        };
        own_queue.owe(owed);
        Ok(Reply::Told { number, outcome })
    }

    /// Gives up the request in hand, if the wait of its last look was not reached.
    pub(super) fn give_up(&mut self, queue: u64) -> Result<Reply, OutOfMemory>
        ensures { IsStep self.old (Event.GiveUp queue) result self.new }
    {
        if queue >= self.queues.len() as u64 {
            return Ok(Reply::Idle);
        }
        let own_queue = &mut self.queues[queue as usize];
        let Some(hand) = own_queue.take_lacking() else {
            return Ok(Reply::Idle);
        };
        let number = self.vm.told_next(queue);
        match give_up_hand(&mut self.vm, queue, number, hand) {
            Ok(outcome) => Ok(Reply::Told { number, outcome }),
            Err(hand) => {
                own_queue.hold(hand);
                return Err(OutOfMemory);
            }
        }
    }

    /// Raises the first signal owed.
    pub(super) fn pay(&mut self, queue: u64) -> Reply
        ensures { step self.old (Event.Pay queue) result self.new }
    {
        if queue >= self.queues.len() as u64 {
            return Reply::Idle;
        }
        match self.queues[queue as usize].pay() {
            Some(point) => {
                let now = self.clock.raise(point);
                Reply::Raised { point, now }
            }
            None => Reply::Idle,
        }
    }
}

/// What a put answers.
fn put_reply(put: Result<u64, NotTold>) -> Result<Reply, OutOfMemory>
    ensures { IsPutReply put result }
{
    match put {
        Ok(number) => Ok(Reply::Put { number }),
        Err(NotTold { fault, request }) => {
            if fault == Fault::OutOfMemory {
                return Err(OutOfMemory);
            }
            Ok(Reply::NotPut { fault, request })
        }
    }
}

/// Carries out a request in hand. If out of memory, it comes back.
fn bind_hand(alloc: Global, vm: &mut Vm, queue: u64, number: u64, hand: Hand) -> Result<Bound, Hand>
    requires queue { queue < queues }
    requires turn { tell_fault (told_limit vm.old queue) vm.old.told queue number ≡ None }
    requires reached { next_wait hand ≡ None }
    ensures carried { IfOk result (λ b. IsBoundAndTold vm.old vm.new queue number hand.request (seen_by hand.reached) b.outcome) }
    ensures owed { IfOk result (λ b. reverse b.owed.items ≡ owed_for hand.request b.outcome) }
    ensures hand { IfErr result (λ back. back ≡ hand) }
    ensures err { OnErr result (vm.new ≡ vm.old) }
{
    let Hand {
        request,
        reached,
        lacked,
    } = hand;
    let signals = match last_first(alloc, &request.signals) {
        Ok(signals) => signals,
        Err(_) => {
            return Err(Hand {
                request,
                reached,
                lacked,
            });
        }
    };
    match vm.bind(alloc, queue, number, request, &reached) {
        Ok(outcome) => Ok(Bound {
            outcome,
            owed: owed(alloc, outcome, signals),
        }),
        Err(NotTold { fault: _, request }) => Err(Hand {
            request,
            reached,
            lacked,
        }),
    }
}

/// These points, the first one last.
fn last_first(alloc: Global, points: &[Point]) -> Result<Vec<Point>, AllocError>
    ensures { IfOk result (λ v. v.items ≡ reverse points.now) }
{
    points.iter().rev().copied().collect(alloc)
}

/// These signals if the request was accepted, else none.
fn owed(alloc: Global, outcome: Outcome, signals: Vec<Point>) -> Vec<Point>
    ensures { result.items ≡ owed_in outcome signals.items }
{
    match outcome {
        Outcome::Accepted { .. } => signals,
        Outcome::Refused { .. } | Outcome::NotReady { .. } => Vec::new(alloc),
    }
}

/// Gives up a request in hand. If out of memory, it comes back.
fn give_up_hand(vm: &mut Vm, queue: u64, number: u64, hand: Hand) -> Result<Outcome, Hand>
    requires queue { queue < queues }
    requires turn { tell_fault (told_limit vm.old queue) vm.old.told queue number ≡ None }
    requires lacked { hand.lacked ≢ None }
    ensures told { IfOk result (IsToldLacking vm.old vm.new queue hand) }
    ensures hand { IfErr result (λ back. back ≡ hand) }
    ensures err { OnErr result (vm.new ≡ vm.old) }
{
    let Hand {
        request,
        reached,
        lacked,
    } = hand;
    let Some(lacking) = lacked else {
        unreachable!();
    };
    match vm.give_up(queue, number, request, lacking) {
        Ok(outcome) => Ok(outcome),
        Err(NotTold { fault: _, request }) => Err(Hand {
            request,
            reached,
            lacked,
        }),
    }
}
