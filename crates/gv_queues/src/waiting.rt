//! How a worker waits for the points of a request.
ghost use Rattle.std.specs.Prelude.{◌≡◌, ◌<◌, ◌≤◌, [], length, vec_capacity, Contains, IfOk, IfErr, OnOk};
ghost use Rattle.std.specs.List.{All};
ghost use Rattle.gv_sync.specs.Seats.{IsSeatOf, timeline_count, mark_of};
ghost use Rattle.gv_sync.specs.SeatSteps.{HasLooked};
ghost use Rattle.gv_queues.specs.Paying.{AreReached, IsFirstLacking};

use crate::gate::{Gate, Turn};
use gv_sync::{Lacking, Reached, Seat, Timelines};
use gv_types::Point;
use std::sync::Wait;
use std::thread;

/// What a gate is asked for one request: `turns` of its looks have found a wait not reached, over all its waits.
#[derive(Drop)]
pub struct Asking<'a, G> {
    gate: &'a G,
    queue: u64,
    number: u64,
    turns: u64,
}

impl<'a, G: Gate> Asking<'a, G> {
    /// No look of this request has found a wait not reached yet.
    pub fn new(gate: &'a G, queue: u64, number: u64) -> Asking<'a, G> {
        Asking {
            gate,
            queue,
            number,
            turns: 0,
        }
    }

    /// Asks after one more look at a wait not reached.
    fn turn(&mut self, lacking: &Lacking) -> Turn {
        self.turns = self.turns.saturating_add(1);
        self.gate.turn(self.queue, self.number, lacking, self.turns)
    }

    /// Looks at a point until it is reached or the gate gives up.
    fn wait_for<R: Wait>(
        &mut self,
        rt: &R,
        timelines: &Timelines,
        seat: &mut Seat,
        point: &Point,
    ) -> Result<Reached, Lacking>
        requires own { IsSeatOf timelines.now seat.old }
        requires named { point.now.timeline < timeline_count timelines.now }
        ensures own { IsSeatOf timelines.now seat.new }
        ensures looked { HasLooked seat.old seat.new }
        ensures reached { IfOk result (λ r. (r.point ≡ point.now)
            × (r.number ≤ (mark_of seat.new point.now.timeline).seen)) }
        ensures enough { IfOk result (λ r. r.point.value ≤ r.number) }
        ensures lacking { IfErr result (λ l. (l.point ≡ point.now) × (l.number < l.point.value)) }
    {
        seat.has_each_mark();
        for _ in rt.forever() {
            match timelines.look(seat, point) {
                Ok(reached) => return Ok(reached),
                Err(lacking) => {
                    if let Turn::GiveUp = self.turn(&lacking) {
                        return Err(lacking);
                    }
                    thread::yield_now();
                }
            }
        }
        unreachable!()
    }

    /// Looks at all waits in order, each until it is reached, or until the gate gives up: then it answers the first that is not
    /// reached. There is room for what is reached.
    pub fn wait_for_all<R: Wait>(
        &mut self,
        rt: &R,
        timelines: &Timelines,
        seat: &mut Seat,
        waits: &[Point],
        reached: &mut Vec<Reached>,
    ) -> Result<(), Lacking>
        requires own { IsSeatOf timelines.now seat.old }
        requires named { All (λ p. p.timeline < timeline_count timelines.now) waits.now }
        requires none { reached.old.items ≡ [] }
        requires room { length waits.now ≤ vec_capacity reached.old }
        ensures own { IsSeatOf timelines.now seat.new }
        ensures looked { HasLooked seat.old seat.new }
        ensures lacking { IfErr result (λ l. Contains waits.now l.point) }
        ensures first { IfErr result (λ l. IsFirstLacking waits.now seat.new reached.new.items l) }
        ensures reached { OnOk result (AreReached waits.now seat.new reached.new.items) }
    {
        for point in waits {
            reached.push_reserved(self.wait_for(rt, timelines, seat, point)?);
        }
        Ok(())
    }
}
