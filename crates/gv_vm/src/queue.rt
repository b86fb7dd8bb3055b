//! One queue of requests: those that wait, the one in hand, and the signals owed.
ghost use Rattle.std.specs.Prelude.{◌≡◌, ◌≢◌, ◌≤◌, ◌+◌, ◌*◌, ◌++◌, ◌∷◌, [], true, false, Some, None, IfOk, IsOk, IfErr, IsErrAnd, OnOk, OnErr, IfSome, IfNone, MatchOption, length, drop, map, max, reverse};
ghost use Rattle.std.specs.VecDeque.{deque_len, deque_capacity};
ghost use Rattle.gv_types.specs.declared.request.Point.{Point};
ghost use Rattle.gv_vm.specs.World.{new_queue, taken, put_fault_of, next_wait};
ghost use Rattle.gv_vm.specs.Queues.{IsInOrder};
ghost use Rattle.gv_vm.specs.TurnParts.{AreRemaining, IsRemainingIn};
ghost use Rattle.gv_vm.specs.QueueEvents.{MayTake, TookFront, wait_of, with_reached, with_lacked, IsReadyToBind, IsLacking, without_hand, PaidFirst};

use crate::next_turn::{NextTurn, Remaining};
use crate::outcome::NotTold;
use gv_sync::{Lacking, Reached};
use gv_types::{Fault, OutOfMemory, Point, Request};
use std::alloc::Global;
use std::collections::VecDeque;
use std::marker::Model;

/// A request that was taken, its waits that were reached, in order, and its last look, if its wait was not reached.
#[derive(Drop)]
pub struct Hand {
    pub request: Request,
    pub reached: Vec<Reached>,
    pub lacked: Option<Lacking>,
}

impl Model for Hand {
    ghost use Rattle.gv_vm.specs.World.{HandState};

    ghost Value = { HandState };

    ghost use Rattle.gv_vm.specs.HandInside.{hand_of, IsSoundHand};

    ghost view = { hand_of };

    ghost invariant = { IsSoundHand };
}

/// How many places the first request makes.
const FIRST_SLOTS: usize = 4;

/// One queue. Room for requests is made as they come. The signals owed are stored with the first one last.
#[derive(Drop)]
pub struct Queue {
    put: u64,
    waiting: VecDeque<Request>,
    hand: Option<Hand>,
    owed: Vec<Point>,
}

impl Model for Queue {
    ghost use Rattle.std.specs.Prelude.{reverse};
    ghost use Rattle.gv_vm.specs.World.{QueueState};

    ghost Value = { QueueState };

    ghost view = { λ q. record { put = q.put; waiting = q.waiting.items; hand = q.hand; owed = reverse q.owed.items } };

    ghost use Rattle.gv_vm.specs.QueueInside.{IsSoundQueue};

    ghost invariant = { IsSoundQueue };
}

impl Hand {
    /// The first wait that is not reached yet.
    pub fn wait(&self) -> Option<Point>
        ensures { result ≡ next_wait self.now }
    {
        self.request.waits.get(self.reached.len()).copied()
    }

    /// What remains of its request.
    fn remaining(&self) -> Remaining
        ensures { (result.in_hand ≡ true) × AreRemaining (drop (length self.now.reached) self.now.request.waits.items) self.now.request.signals.items result }
    {
        Remaining {
            in_hand: true,
            waits: self.request.waits.len().saturating_sub(self.reached.len()),
            signals: self.request.signals.len(),
        }
    }

    /// One more wait is reached. `OutOfMemory` leaves all as it was.
    pub fn reach(&mut self, reached: Reached) -> Result<(), OutOfMemory>
        requires { next_wait self.old ≡ Some reached.point }
        ensures ok { OnOk result (self.new
            ≡ record self.old { reached = self.old.reached ++ reached ∷ []; lacked = None }) }
        ensures err { OnErr result (self.new ≡ self.old) }
    {
        self.reached.reserve(1)?;
        self.reached.push_reserved(reached);
        self.lacked = None;
        Ok(())
    }

    /// A look at the first wait that remains found it not reached.
    pub fn lack(&mut self, lacking: Lacking)
        requires { next_wait self.old ≡ Some lacking.point }
        ensures { self.new ≡ record self.old { lacked = Some lacking } }
    {
        self.lacked = Some(lacking);
    }
}

impl Queue {
    /// A queue on which nothing was put. It takes no memory.
    pub fn new(alloc: Global) -> Queue
        ensures { result ≡ new_queue }
    {
        Queue {
            put: 0,
            waiting: VecDeque::from_vec(Vec::new(alloc)),
            hand: None,
            owed: Vec::new(alloc),
        }
    }

    /// Puts a request at the back and answers how many were put before. `QueueSpent` if the limit of requests was put,
    /// `QueueFull` if a request waits at each place, then `OutOfMemory`: the request comes back.
    pub fn put(&mut self, limit: u64, depth: u64, request: Request) -> Result<u64, NotTold>
        ensures fault { MatchOption (put_fault_of limit depth self.old)
            (IfErr result (λ n. n.fault ≡ Fault.OutOfMemory)) (λ fault. IsErrAnd result (λ n. n.fault ≡ fault)) }
        ensures request { IfErr result (λ n. n.request ≡ request) }
        ensures number { IfOk result (λ number. number ≡ self.old.put) }
        ensures back { IfOk result (λ number. self.new
            ≡ record self.old { put = number + 1; waiting = self.old.waiting ++ request ∷ [] }) }
        ensures err { OnErr result (self.new ≡ self.old) }
    {
        let number = self.put;
        if number >= limit {
            return Err(NotTold {
                fault: Fault::QueueSpent,
                request,
            });
        }
        if self.waiting.len() as u64 >= depth {
            return Err(NotTold {
                fault: Fault::QueueFull,
                request,
            });
        }
        push(&mut self.waiting, request)?;
        self.put = number + 1;
        Ok(number)
    }

    /// Takes the request at the front in hand, if one waits, none is in hand and nothing is owed. Answers whether it did.
    pub fn take(&mut self, alloc: Global) -> bool
        ensures took { result ≡ true → TookFront self.old self.new }
        ensures not { result ≡ false → MayTake self.old → ⊥ }
        ensures same { result ≡ false → self.new ≡ self.old }
    {
        if self.hand.is_some() || !self.owed.is_empty() {
            return false;
        }
        let Some(request) = self.waiting.pop_front() else {
            return false;
        };
        self.hand = Some(Hand {
            request,
            reached: Vec::new(alloc),
            lacked: None,
        });
        true
    }

    /// The first wait, of the request in hand, that is not reached yet.
    pub fn wait(&self) -> Option<Point>
        ensures { result ≡ wait_of self.now }
    {
        match &self.hand {
            Some(hand) => hand.wait(),
            None => None,
        }
    }

    /// That wait is reached. `OutOfMemory` leaves all as it was.
    pub fn reach(&mut self, reached: Reached) -> Result<(), OutOfMemory>
        requires { wait_of self.old ≡ Some reached.point }
        ensures ok { OnOk result (self.new ≡ with_reached reached self.old) }
        ensures err { OnErr result (self.new ≡ self.old) }
    {
        match &mut self.hand {
            Some(hand) => hand.reach(reached),
            None => Ok(()),
        }
    }

    /// A look found that wait not reached.
    pub fn lack(&mut self, lacking: Lacking)
        requires { wait_of self.old ≡ Some lacking.point }
        ensures { self.new ≡ with_lacked lacking self.old }
    {
        match &mut self.hand {
            Some(hand) => hand.lack(lacking),
            None => {}
        }
    }

    /// Hands out the request in hand, if each of its waits is reached.
    pub fn take_ready(&mut self) -> Option<Hand>
        ensures not { IfNone result (IsReadyToBind self.old → ⊥) }
        ensures same { IfNone result (self.new ≡ self.old) }
        ensures hand { IfSome result (λ hand. self.old.hand ≡ Some hand) }
        ensures reached { IfSome result (λ hand. next_wait hand ≡ None) }
        ensures gone { IfSome result (λ hand. self.new ≡ without_hand self.old) }
    {
        match &self.hand {
            None => return None,
            Some(hand) => {
                if hand.wait().is_some() {
                    return None;
                }
            }
        }
        self.hand.take()
    }

    /// Hands out the request in hand, if the wait of its last look was not reached.
    pub fn take_lacking(&mut self) -> Option<Hand>
        ensures not { IfNone result (IsLacking self.old → ⊥) }
        ensures same { IfNone result (self.new ≡ self.old) }
        ensures hand { IfSome result (λ hand. self.old.hand ≡ Some hand) }
        ensures lacked { IfSome result (λ hand. hand.lacked ≢ None) }
        ensures gone { IfSome result (λ hand. self.new ≡ without_hand self.old) }
    {
        match &self.hand {
            None => return None,
            Some(hand) => {
                if hand.lacked.is_none() {
                    return None;
                }
            }
        }
        self.hand.take()
    }

    /// Takes a request in hand.
    pub fn hold(&mut self, hand: Hand)
        ensures { self.new ≡ record self.old { hand = Some hand } }
    {
        self.hand = Some(hand);
    }

    /// Owes these signals, the first one last, and no others.
    pub fn owe(&mut self, signals: Vec<Point>)
        ensures { self.new ≡ record self.old { owed = reverse signals.items } }
    {
        self.owed = signals;
    }

    /// What remains to do in its next turn.
    pub fn next_turn(&self) -> NextTurn
        ensures owed { length self.now.owed ≡ result.owed }
        ensures remaining { IsRemainingIn self.now.hand self.now.waiting result.remaining }
    {
        let remaining = match (&self.hand, self.waiting.front()) {
            (Some(hand), _) => Some(hand.remaining()),
            (None, Some(request)) => Some(Remaining::waiting(request)),
            (None, None) => None,
        };
        NextTurn {
            owed: self.owed.len(),
            remaining,
        }
    }

    /// Removes the first signal from those owed.
    pub fn pay(&mut self) -> Option<Point>
        ensures none { IfNone result (self.old.owed ≡ []) }
        ensures same { IfNone result (self.new ≡ self.old) }
        ensures paid { IfSome result (λ point. PaidFirst self.old point self.new) }
    {
        self.owed.pop()
    }
}

/// Puts a request at the back. Without room the places double; at first there are four. `OutOfMemory`
/// hands the request back.
fn push(waiting: &mut VecDeque<Request>, request: Request) -> Result<(), NotTold>
    ensures back { IfOk result (λ _. waiting.new.items ≡ waiting.old.items ++ request ∷ []) }
    ensures fault { IfErr result (λ n. n.fault ≡ Fault.OutOfMemory) }
    ensures request { IfErr result (λ n. n.request ≡ request) }
    ensures err { OnErr result (waiting.new.items ≡ waiting.old.items) }
    ensures places { deque_capacity waiting.new ≤ max (deque_capacity waiting.old) (max (2 * deque_len waiting.old) 4) }
    ensures kept { OnErr result (deque_capacity waiting.new ≡ deque_capacity waiting.old) }
{
    let len = waiting.len();
    if len == waiting.capacity() {
        let wanted = len.saturating_mul(2).max(FIRST_SLOTS);
        if waiting.reserve_exact(wanted - len).is_err() {
            return Err(NotTold {
                fault: Fault::OutOfMemory,
                request,
            });
        }
    }
    waiting.push_back_reserved(request);
    Ok(())
}
