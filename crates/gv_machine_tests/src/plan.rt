//! A driver that does what it is told, step by step, and compares what it is answered.
ghost use Rattle.std.specs.Prelude.{◌≡◌, length};
ghost use Rattle.gv_sync.specs.Seats.{IsSeatOf};
ghost use Rattle.gv_queues.specs.Counts.{count_of_queue};
ghost use Rattle.gv_queues.specs.Submitting.{AreCounted, AreSameSubmitters};

use crate::gates::{TURNS, await_flag};
use crate::row::{Put, Sent, Step};
use gv_queues::{Driver, PutFault, Submitter, VmLock};
use gv_sync::{Seat, Timelines};
use gv_types::{Bounds, Fault, Flags, Limits, MAX_ITEMS, MAX_MAPPINGS, Point};
use gv_vm::{Place, QUEUES, Target, Vm};
use std::alloc::Global;
use std::sync::Wait;
use std::sync::atomic::AtomicBool;
use std::{mem, thread};

/// Steps in order, how many requests were put on each queue, and the first step that was answered otherwise than wanted.
#[derive(Drop)]
pub struct ScriptedDriver<'a> {
    alloc: Global,
    asked: &'a AtomicBool,
    steps: &'static [Step],
    counts: [u64; QUEUES],
    other: Option<usize>,
}

impl<'a> ScriptedDriver<'a> {
    /// The gate tells by the flag that it was asked.
    pub fn new(alloc: Global, asked: &'a AtomicBool, steps: &'static [Step]) -> ScriptedDriver<'a> {
        ScriptedDriver {
            alloc,
            asked,
            steps,
            counts: [0; QUEUES],
            other: None,
        }
    }

    /// The first step that was answered otherwise than wanted.
    pub fn other(&self) -> Option<usize> {
        self.other
    }

    /// How many puts on a queue are to be answered with a number.
    pub fn put_well(&self, queue: u64) -> u64 {
        self.steps
            .iter()
            .filter(|step| is_put_on(step, queue))
            .count() as u64
    }
}

/// Whether this is a put on that queue that is to be answered with a number.
fn is_put_on(step: &Step, on: u64) -> bool {
    match step {
        Step::Put(Put(queue, _, number)) => *queue == on && number.is_ok(),
        _ => false,
    }
}

impl Driver for ScriptedDriver<'_> {
    ghost use Rattle.gv_queues.specs.Counts.{count_of_queue};

    ghost put_on = { λ d. count_of_queue d.counts };

    ghost may_put = { λ d queue put. Unit {0} };

    ghost relies_on = { λ d limit depth count. Unit {0} };

    ghost does_with = { λ d old new. Unit {0} };

    fn drive<R: Wait>(
        &mut self,
        rt: &R,
        lock: &VmLock,
        submitters: &mut [Submitter],
        timelines: &Timelines,
        seat: &mut Seat,
    ) {
        let stage = Stage {
            alloc: self.alloc,
            lock,
            timelines,
            asked: self.asked,
        };
        let mut counts = [0; QUEUES];
        self.other = stage.act_all(rt, submitters, &mut counts, seat, self.steps);
        self.counts = counts;
    }

    fn count(&self, queue: u64) -> u64 {
        self.counts.get(queue as usize).copied().unwrap_or(0)
    }
}

/// What steps are done to.
#[derive(Drop)]
struct Stage<'a> {
    alloc: Global,
    lock: &'a VmLock,
    timelines: &'a Timelines,
    asked: &'a AtomicBool,
}

impl Stage<'_> {
    /// Does the steps in order, and answers which was the first to be answered otherwise than wanted.
    fn act_all<R: Wait>(
        &self,
        rt: &R,
        submitters: &mut [Submitter],
        counts: &mut [u64; QUEUES],
        seat: &mut Seat,
        steps: &[Step],
    ) -> Option<usize>
        requires own { IsSeatOf self.now.timelines.now seat.old }
        requires counts { AreCounted (count_of_queue counts.old) submitters.old }
        ensures own { IsSeatOf self.now.timelines.now seat.new }
        ensures same { AreSameSubmitters submitters.old submitters.new }
        ensures counts { AreCounted (count_of_queue counts.new) submitters.new }
    {
        let mut other = None;
        for (place, step) in steps.iter().enumerate() {
            let is_as_wanted = match step {
                Step::Put(put) => self.put(rt, submitters, counts, put),
                Step::Raise { point } => self.raise(seat, *point),
                _ => self.look(rt, step),
            };
            if !is_as_wanted && other.is_none() {
                other = Some(place);
            }
        }
        other
    }

    /// Puts a request on a queue, and counts what was put there. Whether that was answered as wanted.
    fn put<R: Wait>(
        &self,
        rt: &R,
        submitters: &mut [Submitter],
        counts: &mut [u64; QUEUES],
        put: &Put,
    ) -> bool
        requires counts { AreCounted (count_of_queue counts.old) submitters.old }
        ensures same { AreSameSubmitters submitters.old submitters.new }
        ensures counts { AreCounted (count_of_queue counts.new) submitters.new }
        ensures len { length submitters.new ≡ length submitters.old }
    {
        let Put(queue, sent, wanted) = put;
        let place = *queue as usize;
        if place >= submitters.len() || place >= QUEUES {
            return false;
        }
        let Ok(request) = sent.request(self.alloc) else {
            return false;
        };
        if !request.fits(submitters[place].timelines()) {
            return false;
        }
        let number = submitters[place].put(rt, request);
        counts[place] = submitters[place].count();
        is_answer(number, sent, wanted)
    }

    fn raise(&self, seat: &mut Seat, point: Point) -> bool
        requires own { IsSeatOf self.now.timelines.now seat.old }
        ensures own { IsSeatOf self.now.timelines.now seat.new }
    {
        let there = point.timeline < self.timelines.count();
        if there {
            self.timelines.raise(seat, point);
        }
        there
    }

    /// Waits, or does something under the lock. Whether that was answered as wanted.
    fn look<R: Wait>(&self, rt: &R, step: &Step) -> bool {
        match step {
            Step::AwaitAsked => await_flag(self.asked),
            Step::AwaitTold { outcomes } => self.await_told(rt, *outcomes),
            Step::Withdraw { entry, number } => {
                self.lock.lock(rt).withdraw(self.alloc, *entry) == *number
            }
            Step::Rewind { number } => self.lock.lock(rt).rewind() == *number,
            Step::Forget { to, count } => self.lock.lock(rt).forget(0, *to) == *count,
            Step::Replace { told } => self.replace(rt, *told),
            Step::Look { addr, zeros } => { is_wanted(self.lock.lock(rt).translate(*addr), *zeros) }
            Step::Put(_) | Step::Raise { .. } => false,
        }
    }

    /// Puts a new address space in the place of the one under the lock. Each of its queues may be told so many outcomes.
    fn replace<R: Wait>(&self, rt: &R, told: u64) -> bool {
        let Some(limits) = Limits::new(1, MAX_MAPPINGS, MAX_ITEMS, told) else {
            return false;
        };
        let Ok(vm) = Vm::new(self.alloc, Bounds::whole(), limits) else {
            return false;
        };
        let old = mem::replace(&mut *self.lock.lock(rt), vm);
        old.close();
        true
    }

    fn await_told<R: Wait>(&self, rt: &R, outcomes: u64) -> bool {
        for _ in 0..TURNS {
            if self.lock.lock(rt).told_next(0) >= outcomes {
                return true;
            }
            thread::yield_now();
        }
        false
    }
}

/// Whether a put was answered as wanted, and handed this request back if it was refused.
fn is_answer(number: Result<u64, PutFault>, sent: &Sent, wanted: &Result<u64, Fault>) -> bool {
    match number {
        Ok(number) => *wanted == Ok(number),
        Err(PutFault { fault, request }) => *wanted == Err(fault) && sent.is(&request),
    }
}

/// Whether a place is one of zeros that may be written, or is none.
pub fn is_wanted(place: Option<Place>, zeros: bool) -> bool {
    match place {
        Some(
            Place {
                target: Target::Zero,
                flags,
            },
        ) => zeros && flags == Flags { read_only: false },
        Some(_) => false,
        None => !zeros,
    }
}
