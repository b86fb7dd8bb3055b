//! A turn of a queue: the events of one request, one after another.
ghost use Rattle.std.specs.Prelude.{◌≡◌, ◌↔◌, ◌∷◌, [], Bool, IsTrue, List, Option, Some, length, IfOk, OnErr, if◌then◌else◌};
ghost use Rattle.gv_types.specs.declared.request.Point.{Point as At};
ghost use Rattle.gv_types.specs.declared.request.Request.{Request as Asked};
ghost use Rattle.gv_vm.specs.declared.event.Reply.{Reply as Answer};
ghost use Rattle.gv_vm.specs.Plans.{Plan, Goes, IsCarriedOut, IsStopped, nothing, paying, looks, carrying_out, after_looks};
ghost use Rattle.gv_vm.specs.QueueTurns.{turn_of, going_on, is_earlier, IsTurn, IsServedUpTo, IsQuiet};
ghost use Rattle.gv_vm.specs.TurnParts.{AreRemaining, IsRemainingIn, AreQuiet, AreLooks, seen_as, seen_of};
ghost use Rattle.gv_vm.specs.World.{HandState, queue_at, next_number};

use super::World;
use crate::event::{Event, Reply};
use crate::next_turn::{NextTurn, Remaining};
use crate::outcome::Outcome;
use crate::told::QUEUES;
use gv_types::{OutOfMemory, Point};
use std::alloc::Global;

/// The result of a turn of a queue.
#[derive(Clone, Copy, Debug, PartialEq, Eq)]
pub enum TurnResult {
    /// The request with this number of the queue has this outcome.
    Told { number: u64, outcome: Outcome },
    /// The request stays in hand, since this wait is not reached: its timeline is at `have`.
    Waits { point: Point, have: u64 },
    /// There was nothing to do.
    Idle,
}

/// The result of all looks of a request.
#[derive(Clone, Copy)]
enum Seen {
    NoneLacked,
    Lacks { point: Point, have: u64 },
    Other,
}

/// What a last reply says of its turn.
fn turn_in(reply: &Reply) -> TurnResult
    ensures { result ≡ turn_of (reply.now ∷ []) }
{
    match reply {
        Reply::Told { number, outcome } => TurnResult::Told {
            number: *number,
            outcome: *outcome,
        },
        Reply::Lacking { point, have } => TurnResult::Waits {
            point: *point,
            have: *have,
        },
        _ => TurnResult::Idle,
    }
}

/// The result of one look.
fn seen_in(reply: &Reply) -> Seen
    ensures { result ≡ seen_of reply.now }
{
    match reply {
        Reply::Reached { .. } => Seen::NoneLacked,
        Reply::Lacking { point, have } => Seen::Lacks {
            point: *point,
            have: *have,
        },
        _ => Seen::Other,
    }
}

/// Whether a turn gave an outcome to a request before the one with this number.
fn is_earlier(number: u64, turn: &Result<TurnResult, OutOfMemory>) -> bool
    ensures { result ≡ is_earlier number turn.now }
{
    match turn {
        Ok(TurnResult::Told { number: told, .. }) => *told != number,
        _ => false,
    }
}

impl World {
    /// A turn of a queue raises the signals that it owes. Then it looks at the waits of the request in hand, or else of the first
    /// that waits. If all are reached, it carries the request out and, if it is accepted, raises its signals. If a wait is not
    /// reached, the request stays in hand, or is given up if `gives_up`. `Idle` if nothing is in hand and nothing waits, and on a
    /// queue that doesn't exist. `OutOfMemory` at an event of it that may grow: all is as the events before made it, and the
    /// next turn goes on from there.
    pub fn turn(
        &mut self,
        alloc: Global,
        queue: u64,
        gives_up: bool,
    ) -> Result<TurnResult, OutOfMemory>
        ensures { IsTurn gives_up queue self.old result self.new }
    {
        let NextTurn { owed, remaining } = self.next_turn(queue);
        if !self.pay_all(alloc, queue, owed) {
            return Ok(TurnResult::Idle);
        }
        match remaining {
            Some(remaining) => self.go_on(alloc, queue, gives_up, remaining),
            None => Ok(TurnResult::Idle),
        }
    }

    /// Turns of a queue until the request with this number has its outcome, without giving up: the result of the last one. An
    /// earlier request that waits, or is out of memory, is the last one. `Idle` if that request had its outcome before.
    pub fn serve_up_to(
        &mut self,
        alloc: Global,
        queue: u64,
        number: u64,
    ) -> Result<TurnResult, OutOfMemory>
        ensures { IsServedUpTo queue number self.old result self.new }
    {
        let told = self.next_number(queue);
        if number < told {
            return Ok(TurnResult::Idle);
        }
        for done in 0..number - told {
            let turn = self.turn(alloc, queue, false);
            if !is_earlier(number, &turn) {
                return turn;
            }
        }
        self.turn(alloc, queue, false)
    }

    /// What remains to do in the next turn of a queue: nothing on a queue that doesn't exist.
    fn next_turn(&self, queue: u64) -> NextTurn
        ensures owed { length (queue_at self.now queue).owed ≡ result.owed }
        ensures remaining { IsRemainingIn (queue_at self.now queue).hand (queue_at self.now queue).waiting result.remaining }
    {
        if queue < self.queues.len() as u64 {
            self.queues[queue as usize].next_turn()
        } else {
            NextTurn {
                owed: 0,
                remaining: None,
            }
        }
    }

    /// Whether a queue has nothing remaining to do: no request waits or is in hand, and no signal is owed. True if there is no such queue.
    #[tactic(auto, using(crate::proofs::QueueTurns::quiet_iff))]
    pub fn is_quiet(&self, queue: u64) -> bool
        ensures { IsTrue result ↔ IsQuiet self.now queue }
    {
        let NextTurn { owed, remaining } = self.next_turn(queue);
        owed == 0 && remaining.is_none()
    }

    /// The number of the request that gets the queue's next outcome.
    pub fn next_number(&self, queue: u64) -> u64
        ensures { result ≡ next_number self.now queue }
    {
        if queue < QUEUES as u64 {
            self.vm.told_next(queue)
        } else {
            0
        }
    }

    /// Raises this number of a queue's signals. Answers whether each was raised.
    fn pay_all(&mut self, alloc: Global, queue: u64, signals: usize) -> bool
        ensures { (replies : List Answer) × AreQuiet replies × ((points : List At) (next : Plan) → length points ≡ signals
            → Goes (paying queue points next) self.old replies self.new (if result then next else nothing)) }
    {
        for done in 0..signals {
            match self.step(alloc, Event::Pay { queue }) {
                Ok(reply) => {
                    if !reply.is_raised() {
                        return false;
                    }
                }
                Err(_) => return false,
            }
        }
        true
    }

    /// The request in hand, or else the first that waits, which is taken, is served.
    fn go_on(
        &mut self,
        alloc: Global,
        queue: u64,
        gives_up: bool,
        remaining: Remaining,
    ) -> Result<TurnResult, OutOfMemory>
        ensures went { IfOk result (λ turn. (replies : List Answer) × (turn ≡ turn_of replies)
            × ((hand : Option HandState) (waiting : List Asked) → IsRemainingIn hand waiting (Some remaining)
            → IsCarriedOut (going_on gives_up queue hand waiting) self.old replies self.new)) }
        ensures stopped { OnErr result ((replies : List Answer)
            × ((hand : Option HandState) (waiting : List Asked) → IsRemainingIn hand waiting (Some remaining)
            → IsStopped (going_on gives_up queue hand waiting) self.old replies self.new)) }
    {
        if remaining.in_hand {
            return self.serve_hand(alloc, queue, gives_up, remaining);
        }
        let reply = self.step(alloc, Event::Take { queue })?;
        if !reply.is_taken() {
            return Ok(TurnResult::Idle);
        }
        self.serve_hand(alloc, queue, gives_up, remaining)
    }

    /// The request in hand looks at its waits, and is carried out, given up or left in hand.
    fn serve_hand(
        &mut self,
        alloc: Global,
        queue: u64,
        gives_up: bool,
        remaining: Remaining,
    ) -> Result<TurnResult, OutOfMemory>
        ensures served { IfOk result (λ turn. (replies : List Answer) × (turn ≡ turn_of replies)
            × ((waits signals : List At) → AreRemaining waits signals remaining
            → IsCarriedOut (looks gives_up queue waits signals) self.old replies self.new)) }
        ensures stopped { OnErr result ((replies : List Answer)
            × ((waits signals : List At) → AreRemaining waits signals remaining
            → IsStopped (looks gives_up queue waits signals) self.old replies self.new)) }
    {
        match self.look_all(alloc, queue, remaining.waits)? {
            Seen::NoneLacked => self.carry_out(alloc, queue, remaining.signals),
            Seen::Lacks { point, have } => {
                if !gives_up {
                    return Ok(TurnResult::Waits { point, have });
                }
                let reply = self.step(alloc, Event::GiveUp { queue })?;
                Ok(turn_in(&reply))
            }
            Seen::Other => Ok(TurnResult::Idle),
        }
    }

    /// Looks at this number of waits of the request in hand, until one is not reached.
    fn look_all(&mut self, alloc: Global, queue: u64, waits: usize) -> Result<Seen, OutOfMemory>
        ensures looked { IfOk result (λ seen. (replies : List Answer) × AreLooks seen replies
            × ((gives_up : Bool) (points signals : List At) → length points ≡ waits
            → Goes (looks gives_up queue points signals) self.old replies self.new (after_looks gives_up queue signals (seen_as seen)))) }
        ensures stopped { OnErr result ((replies : List Answer)
            × ((gives_up : Bool) (points signals : List At) → length points ≡ waits
            → IsStopped (looks gives_up queue points signals) self.old replies self.new)) }
    {
        for done in 0..waits {
            let reply = self.step(alloc, Event::Look { queue })?;
            match seen_in(&reply) {
                Seen::NoneLacked => {}
                Seen::Lacks { point, have } => return Ok(Seen::Lacks { point, have }),
                Seen::Other => return Ok(Seen::Other),
            }
        }
        Ok(Seen::NoneLacked)
    }

    /// Carries out the request in hand, all of whose waits are reached. If it is accepted, raises its signals, `signals` in number.
    fn carry_out(
        &mut self,
        alloc: Global,
        queue: u64,
        signals: usize,
    ) -> Result<TurnResult, OutOfMemory>
        ensures carried { IfOk result (λ turn. (replies : List Answer) × (turn ≡ turn_of replies)
            × ((points : List At) → length points ≡ signals
            → IsCarriedOut (carrying_out queue points) self.old replies self.new)) }
        ensures stopped { OnErr result ((replies : List Answer)
            × ((points : List At) → length points ≡ signals
            → IsStopped (carrying_out queue points) self.old replies self.new)) }
    {
        let reply = self.step(alloc, Event::Bind { queue })?;
        let turn = turn_in(&reply);
        if reply.is_accepted() {
            self.pay_all(alloc, queue, signals);
            return Ok(turn);
        }
        Ok(turn)
    }
}
