//! What a look at a point answers.
ghost use Rattle.std.specs.Prelude.{◌≡◌, ◌<◌, ◌≤◌, ◌↔◌, IsOk};
ghost use Rattle.gv_sync.specs.Sights.{sight, sight_of};

use gv_types::Point;
use std::marker::Model;

/// The timeline of a point had at least its value. Only a look makes one.
#[derive(Clone, Copy, Debug, PartialEq, Eq)]
pub struct Reached {
    point: Point,
    seen: u64,
}

impl Model for Reached {
    ghost use Rattle.std.specs.Prelude.{◌≤◌};
    ghost use Rattle.gv_sync.specs.Sights.{Sight, sight};

    ghost Value = { Sight };

    ghost view = { λ r. sight r.point r.seen };

    ghost inverse = { λ s. record { point = s.point; seen = s.number } };

    ghost invariant = { λ r. r.point.value ≤ r.seen };
}

impl Reached {
    /// The point that was looked at.
    pub fn point(&self) -> Point
        ensures { result ≡ self.now.point }
    {
        self.point
    }

    /// The number that its timeline had.
    pub fn seen(&self) -> u64
        ensures seen { result ≡ self.now.number }
        ensures reached { self.now.point.value ≤ result }
    {
        self.seen
    }
}

/// The timeline of a point had less than its value. Only a look makes one.
#[derive(Clone, Copy, Debug, PartialEq, Eq)]
pub struct Lacking {
    point: Point,
    have: u64,
}

impl Model for Lacking {
    ghost use Rattle.std.specs.Prelude.{◌<◌};
    ghost use Rattle.gv_sync.specs.Sights.{Sight, sight};

    ghost Value = { Sight };

    ghost view = { λ l. sight l.point l.have };

    ghost inverse = { λ s. record { point = s.point; have = s.number } };

    ghost invariant = { λ l. l.have < l.point.value };
}

impl Lacking {
    /// The point that was looked at.
    pub fn point(&self) -> Point
        ensures { result ≡ self.now.point }
    {
        self.point
    }

    /// The number that its timeline had.
    pub fn have(&self) -> u64
        ensures have { result ≡ self.now.number }
        ensures lacking { result < self.now.point.value }
    {
        self.have
    }
}

/// Whether a timeline that has this number has reached the point.
pub(crate) fn compare(point: Point, number: u64) -> Result<Reached, Lacking>
    ensures sight { sight_of result ≡ sight point number }
    ensures reached { IsOk result ↔ (point.value ≤ number) }
{
    if point.value <= number {
        Ok(Reached {
            point,
            seen: number,
        })
    } else {
        Err(Lacking {
            point,
            have: number,
        })
    }
}
