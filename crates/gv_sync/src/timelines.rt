//! The timelines that threads share, and the seats with which they step.
ghost use Rattle.std.specs.Prelude.{◌≡◌, ◌<◌, ◌≤◌, ◌↔◌, All, IfOk, IsOk, length, max};
ghost use Rattle.gv_types.specs.Limits.{IsFromOneTo};
ghost use Rattle.gv_sync.specs.Marks.{IsNoLess, StepsOnceOn};
ghost use Rattle.gv_sync.specs.Seats.{IsOnlySeat, IsSeatOf, after_load, after_raise, after_split};
ghost use Rattle.gv_sync.specs.Seats.{timeline_count, first_seat, mark_of, most_timelines, split_from};
ghost use Rattle.gv_sync.specs.Sights.{number_seen, sight_of};

use crate::marks::SeatKnowledge;
use crate::sights::{Lacking, Reached, compare};
use atomic_table::{Play, Split, Table, TableRule};
use gv_types::Point;
use std::alloc::{AllocError, Global};
use std::marker::Model;

/// The number of timelines is at most this.
pub const MAX_TIMELINES: u64 = 64;

const MAX_WORDS: usize = 64;

/// Why timelines or a seat were not made: out of memory.
#[derive(Clone, Copy, Debug, PartialEq, Eq)]
pub enum SyncFault {
    NotMade,
}

impl From<AllocError> for SyncFault {
    fn from(_error: AllocError) -> SyncFault {
        SyncFault::NotMade
    }
}

struct Rule;

impl TableRule<u8, SeatKnowledge, usize> for Rule {
    ghost use Rattle.gv_sync.specs.Marks.{first_known};
    ghost use Rattle.gv_sync.specs.Rule.{SeatsAgree};

    ghost holds = { SeatsAgree };

    ghost first = { first_known };
}

struct Load;

impl Play<u8, SeatKnowledge> for Load {
    ghost use Rattle.gv_sync.specs.Rule.{Loaded};

    ghost then = { Loaded };
}

struct Raise;

impl Play<u8, SeatKnowledge> for Raise {
    ghost use Rattle.gv_sync.specs.Rule.{Raised};

    ghost then = { Raised };
}

struct Share;

impl Split<SeatKnowledge> for Share {
    ghost use Rattle.gv_sync.specs.Marks.{known_after_split, known_split_off};

    ghost left = { known_after_split };

    ghost right = { known_split_off };
}

/// Numbers that only rise, each 0 at first. A clause sees which they are, and how many.
#[derive(Drop)]
pub struct Timelines {
    table: Table<u8, SeatKnowledge, usize, Rule, Global>,
}

impl Model for Timelines {
    ghost use Rattle.std.specs.Prelude.{◌≡◌};
    ghost use Rattle.atomic_table.specs.Seated.{TableId, table_id_coded};
    ghost use Rattle.gv_types.specs.Limits.{IsFromOneTo};
    ghost use Rattle.gv_sync.specs.Seats.{most_timelines};

    ghost Value = { TableId };

    ghost coded = { table_id_coded };

    ghost view = { λ t. t.table.shared.table_id };

    ghost invariant = { λ t. (t.table.shared.key ≡ t.table.shared.table_id.words)
        × IsFromOneTo most_timelines t.table.shared.key };
}

/// What one thread knows of the timelines. It has no bytes.
#[derive(Drop)]
pub struct Seat {
    pass: atomic_table::Seat<u8, SeatKnowledge>,
}

impl Model for Seat {
    ghost use Rattle.std.specs.Prelude.{◌≡◌, length};
    ghost use Rattle.gv_sync.specs.Seats.{SeatState};

    ghost Value = { SeatState };

    ghost view = { λ s. record {
      of = s.pass.table_id;
      marks = s.pass.me.0.marks;
      raises = s.pass.me.0.raises;
      halvings = s.pass.me.0.halvings;
    } };

    ghost invariant = { λ s. length s.pass.me.0.marks ≡ s.pass.table_id.words };
}

impl Seat {
    /// A law for callers: there is a mark for each timeline. It does nothing.
    pub fn has_each_mark(&self)
        ensures { length self.now.marks ≡ timeline_count self.now.of }
    {
        // For the prover: what the pass says.
        let _pass = &self.pass;
    }
}

impl Timelines {
    /// `count` timelines, from 1 to 64, all at 0, with the first seat.
    pub fn new(alloc: Global, count: u64) -> Result<(Timelines, Seat), SyncFault>
        requires { IsFromOneTo most_timelines count }
        ensures count { IfOk result (λ r. timeline_count r.0 ≡ count) }
        ensures seat { IfOk result (λ r. r.1 ≡ first_seat r.0) }
        ensures own { IfOk result (λ r. IsSeatOf r.0 r.1) }
    {
        let zeros = [0u64; MAX_WORDS];
        Timelines::over(alloc, &zeros[..count as usize])
    }

    #[tactic(auto, using(crate::proofs::StepsKeepRule::begins))]
    fn over(alloc: Global, words: &[u64]) -> Result<(Timelines, Seat), SyncFault>
        requires count { IsFromOneTo most_timelines (length words.now) }
        requires zero { All (λ n. n ≡ 0) words.now }
        ensures count { IfOk result (λ r. timeline_count r.0 ≡ length words.now) }
        ensures seat { IfOk result (λ r. r.1 ≡ first_seat r.0) }
    {
        let (table, pass) = Table::of_words(alloc, words, &words.len())?;
        Ok((Timelines { table }, Seat { pass }))
    }

    /// How many timelines there are.
    pub fn count(&self) -> u64
        ensures count { result ≡ timeline_count self.now }
        ensures limit { IsFromOneTo most_timelines result }
    {
        self.table.word_count() as u64
    }

    /// The number of a timeline, by one load.
    pub fn value(&self, seat: &mut Seat, timeline: u64) -> u64
        requires own { IsSeatOf self.now seat.old }
        requires named { timeline < timeline_count self.now }
        ensures own { IsSeatOf self.now seat.new }
        ensures step { seat.new ≡ after_load seat.old timeline result }
        ensures one_step { StepsOnceOn timeline seat.old.marks seat.new.marks }
        ensures seen { (mark_of seat.new timeline).seen ≡ result }
        ensures no_less { IsNoLess (mark_of seat.old timeline) result }
        ensures only { IsOnlySeat seat.old → result ≡ (mark_of seat.old timeline).raised }
    {
        self.load(seat, timeline)
    }

    /// Raises a timeline to the point's value, if it is lower, by one fetch_max. Answers its
    /// number after that.
    pub fn raise(&self, seat: &mut Seat, point: Point) -> u64
        requires own { IsSeatOf self.now seat.old }
        requires named { point.timeline < timeline_count self.now }
        ensures own { IsSeatOf self.now seat.new }
        ensures step { seat.new ≡ after_raise seat.old point result }
        ensures one_step { StepsOnceOn point.timeline seat.old.marks seat.new.marks }
        ensures seen { (mark_of seat.new point.timeline).seen ≡ result }
        ensures no_less { IsNoLess (mark_of seat.old point.timeline) result }
        ensures reached { point.value ≤ result }
        ensures raised { (mark_of seat.new point.timeline).raised
            ≡ max (mark_of seat.old point.timeline).raised point.value }
        ensures only { IsOnlySeat seat.old → result ≡ (mark_of seat.new point.timeline).raised }
    {
        let found = self.fetch_max(seat, point);
        found.max(point.value)
    }

    /// Whether a point is reached, by one load.
    pub fn look(&self, seat: &mut Seat, point: &Point) -> Result<Reached, Lacking>
        requires own { IsSeatOf self.now seat.old }
        requires named { point.now.timeline < timeline_count self.now }
        ensures own { IsSeatOf self.now seat.new }
        ensures step { seat.new ≡ after_load seat.old point.now.timeline (number_seen result) }
        ensures one_step { StepsOnceOn point.now.timeline seat.old.marks seat.new.marks }
        ensures seen { (mark_of seat.new point.now.timeline).seen ≡ number_seen result }
        ensures no_less { IsNoLess (mark_of seat.old point.now.timeline) (number_seen result) }
        ensures only { IsOnlySeat seat.old
            → number_seen result ≡ (mark_of seat.old point.now.timeline).raised }
        ensures point { (sight_of result).point ≡ point.now }
        ensures reached { IsOk result ↔ (point.now.value ≤ number_seen result) }
    {
        compare(*point, self.value(seat, point.timeline))
    }

    /// A seat that has seen the same numbers, with half the share. It has raised nothing and taken no step. It never fails.
    pub fn split(&self, seat: &mut Seat) -> Result<Seat, SyncFault>
        requires { IsSeatOf self.now seat.old }
        ensures ok { IsOk result }
        ensures kept { seat.new ≡ after_split seat.old }
        ensures given { IfOk result (λ s. s ≡ split_from seat.old) }
        ensures own { IsSeatOf self.now seat.new }
        ensures own_given { IfOk result (λ s. IsSeatOf self.now s) }
    {
        Ok(self.share(seat))
    }

    // The three kinds of step.

    fn load(&self, seat: &mut Seat, timeline: u64) -> u64
        requires own { IsSeatOf self.now seat.old }
        requires named { timeline < timeline_count self.now }
        ensures own { IsSeatOf self.now seat.new }
        ensures step { seat.new ≡ after_load seat.old timeline result }
        ensures one_step { StepsOnceOn timeline seat.old.marks seat.new.marks }
        ensures seen { (mark_of seat.new timeline).seen ≡ result }
        ensures no_less { IsNoLess (mark_of seat.old timeline) result }
        ensures only { IsOnlySeat seat.old → result ≡ (mark_of seat.old timeline).raised }
    {
        self.table
            .shared
            .load::<Load>(&mut seat.pass, timeline as usize)
    }

    /// Answers the number before the step.
    fn fetch_max(&self, seat: &mut Seat, point: Point) -> u64
        requires own { IsSeatOf self.now seat.old }
        requires named { point.timeline < timeline_count self.now }
        ensures own { IsSeatOf self.now seat.new }
        ensures step { seat.new ≡ after_raise seat.old point (max result point.value) }
        ensures one_step { StepsOnceOn point.timeline seat.old.marks seat.new.marks }
        ensures seen { (mark_of seat.new point.timeline).seen ≡ max result point.value }
        ensures no_less { IsNoLess (mark_of seat.old point.timeline) result }
        ensures raised { (mark_of seat.new point.timeline).raised
            ≡ max (mark_of seat.old point.timeline).raised point.value }
        ensures only { IsOnlySeat seat.old → result ≡ (mark_of seat.old point.timeline).raised }
    {
        let timeline = point.timeline as usize;
        self.table
            .shared
            .fetch_max::<Raise>(&mut seat.pass, timeline, point.value)
    }

    fn share(&self, seat: &mut Seat) -> Seat
        requires { IsSeatOf self.now seat.old }
        ensures kept { seat.new ≡ after_split seat.old }
        ensures given { result ≡ split_from seat.old }
    {
        let pass = self.table.shared.split_seat::<Share>(&mut seat.pass);
        Seat { pass }
    }
}
