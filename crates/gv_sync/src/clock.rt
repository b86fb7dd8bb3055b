//! `Clock`: timelines for one thread alone, as a plain list of numbers. It measures no time.
ghost use Rattle.std.specs.Prelude.{◌≡◌, ◌<◌, ◌≤◌, ◌↔◌, ◌∷◌, ◌++◌, [], List};
ghost use Rattle.std.specs.Prelude.{IfOk, IsOk, length, replicate, slice_index};
ghost use Rattle.gv_types.specs.Limits.{IsFromOneTo};
ghost use Rattle.gv_types.specs.declared.request.Point.{Point};
ghost use Rattle.gv_sync.specs.Raises.{IsAfter, IsReached, with_raise};
ghost use Rattle.gv_sync.specs.Seats.{most_timelines};
ghost use Rattle.gv_sync.specs.Sights.{sight, sight_of};

use crate::sights::{Lacking, Reached, compare};
use gv_types::{OutOfMemory, Point};
use std::alloc::Global;
use std::marker::Model;

/// Numbers that only rise, each 0 at first, for one thread. A clause sees the list of them.
#[derive(Drop)]
pub struct Clock {
    numbers: Vec<u64>,
}

impl Model for Clock {
    ghost use Rattle.std.specs.Prelude.{ℕ, List, length};
    ghost use Rattle.gv_types.specs.Limits.{IsFromOneTo};
    ghost use Rattle.gv_sync.specs.Seats.{most_timelines};

    ghost Value = { List ℕ };

    ghost view = { λ c. c.numbers.items };

    ghost invariant = { λ c. IsFromOneTo most_timelines (length c.numbers.items) };
}

impl Clock {
    /// `count` timelines, from 1 to 64, all at 0.
    pub fn new(alloc: Global, count: u64) -> Result<Clock, OutOfMemory>
        requires { IsFromOneTo most_timelines count }
        ensures zero { IfOk result (λ c. c ≡ replicate count 0) }
        ensures raises { IfOk result (IsAfter []) }
    {
        let numbers = vec![in alloc; 0; count as usize]?;
        Ok(Clock { numbers })
    }

    /// How many timelines there are.
    pub fn count(&self) -> u64
        ensures count { result ≡ length self.now }
        ensures limit { IsFromOneTo most_timelines result }
    {
        self.numbers.len() as u64
    }

    /// Raises a timeline to the point's value, if it is lower. Answers its number after that.
    #[tactic(auto, using(crate::proofs::Raised::is_after_more))]
    pub fn raise(&mut self, point: Point) -> u64
        requires { point.timeline < length self.old }
        ensures numbers { self.new ≡ with_raise self.old point }
        ensures value { result ≡ slice_index self.new point.timeline }
        ensures reached { point.value ≤ result }

        // Each number was that of its raises, and is with this one.
        ensures raises { (raises : List Point) → IsAfter raises self.old
            → IsAfter (raises ++ point ∷ []) self.new }
    {
        let number = self.value(point.timeline).max(point.value);
        self.numbers[point.timeline as usize] = number;
        number
    }

    /// The number of a timeline.
    pub fn value(&self, timeline: u64) -> u64
        requires { timeline < length self.now }
        ensures { result ≡ slice_index self.now timeline }
    {
        self.numbers[timeline as usize]
    }

    /// Whether a point is reached.
    pub fn look(&self, point: &Point) -> Result<Reached, Lacking>
        requires { point.now.timeline < length self.now }
        ensures sight { sight_of result
            ≡ sight point.now (slice_index self.now point.now.timeline) }
        ensures reached { IsOk result ↔ IsReached self.now point.now }
    {
        compare(*point, self.value(point.timeline))
    }
}
