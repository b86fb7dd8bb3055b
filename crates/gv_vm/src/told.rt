//! What each queue was told: the outcomes of its requests, in order.
ghost use Rattle.std.specs.Prelude.{◌≡◌, ◌<◌, ◌≤◌, ◌++◌, ◌∷◌, min, replicate, length, take, drop, [], IfOk, IsOkUnless, OnOk, MatchOption};
ghost use Rattle.gv_vm.specs.Outcomes.{queues, with_outcome, tell_fault, forgotten_outcome, lifetime_told};
ghost use Rattle.gv_vm.specs.QueueOutcomes.{lists_of, forgotten_in, HasRoomToTell, HaveQueue};

use crate::outcome::Outcome;
use gv_types::{Fault, OutOfMemory};
use std::alloc::Global;
use std::marker::Model;

/// The number of queues.
pub const QUEUES: usize = 16;

/// The greatest number of outcomes that a queue has in its life.
pub const LIFETIME_TOLD: u64 = 1 << 63;

/// The outcomes of a queue. The first `first` of them are forgotten. The last `gone` of these are still in the list: they are
/// removed once they are at least half of it.
#[derive(Drop)]
pub struct QueueOutcomes {
    first: u64,
    gone: usize,
    outcomes: Vec<Outcome>,
}

impl Model for QueueOutcomes {
    ghost use Rattle.gv_vm.specs.QueueOutcomes.{QueueOutcomesState, told_of, IsSoundTold};

    ghost Value = { QueueOutcomesState };

    ghost view = { told_of };

    ghost invariant = { IsSoundTold };
}

impl QueueOutcomes {
    ghost use Rattle.gv_vm.specs.QueueOutcomes.{HasSlot};

    /// No outcome. It takes no memory.
    fn new(alloc: Global) -> QueueOutcomes
        ensures list { result.list ≡ [] }
        ensures forgotten { result.forgotten ≡ 0 }
    {
        QueueOutcomes {
            first: 0,
            gone: 0,
            outcomes: Vec::new(alloc),
        }
    }

    /// The number of the next outcome.
    pub fn next(&self) -> u64
        ensures number { result ≡ length self.now.list }
        ensures few { result ≤ lifetime_told }
    {
        self.first + (self.outcomes.len() - self.gone) as u64
    }

    /// The number of the first one that isn't forgotten.
    pub fn first(&self) -> u64
        ensures number { result ≡ self.now.forgotten }
        ensures few { result ≤ length self.now.list }
    {
        self.first
    }

    /// Those that aren't forgotten.
    pub fn rest(&self) -> &[Outcome]
        ensures { result.now ≡ drop self.now.forgotten self.now.list }
    {
        &self.outcomes[self.gone..]
    }

    /// Those of them with numbers below this one.
    pub fn rest_below(&self, to: u64) -> &[Outcome]
        ensures { take to self.now.list ≡ replicate (min to self.now.forgotten) forgotten_outcome ++ result.now }
    {
        let rest = self.rest();
        let count = to.saturating_sub(self.first).min(rest.len() as u64);
        &rest[..count as usize]
    }

    /// Makes room for one more outcome.
    fn reserve(&mut self) -> Result<(), OutOfMemory>
        ensures list { self.new.list ≡ self.old.list }
        ensures forgotten { self.new.forgotten ≡ self.old.forgotten }
        ensures room { OnOk result (length self.old.list < lifetime_told → HasSlot self.new) }
    {
        self.outcomes.reserve(1)?;
        Ok(())
    }

    /// Adds an outcome, for which there is room.
    fn push(&mut self, outcome: Outcome)
        requires { HasSlot self.old }
        ensures list { self.new.list ≡ self.old.list ++ outcome ∷ [] }
        ensures forgotten { self.new.forgotten ≡ self.old.forgotten }
    {
        self.outcomes.push_reserved(outcome);
    }

    /// Forgets those below a number. It takes no memory.
    pub fn forget(&mut self, to: u64)
        requires from { self.old.forgotten ≤ to }
        requires up_to { to ≤ length self.old.list }
        ensures list { self.new.list ≡ replicate to forgotten_outcome ++ drop to self.old.list }
        ensures forgotten { self.new.forgotten ≡ to }
    {
        self.gone += (to - self.first) as usize;
        self.first = to;
        if self.outcomes.len() - self.gone <= self.gone {
            self.compact();
        }
    }

    /// Frees memory: then it has room for just what isn't forgotten.
    fn shrink(&mut self)
        ensures list { self.new.list ≡ self.old.list }
        ensures forgotten { self.new.forgotten ≡ self.old.forgotten }
    {
        self.compact();
        self.outcomes.shrink_to_fit();
    }

    /// Removes forgotten ones from the list.
    fn compact(&mut self)
        ensures list { self.new.list ≡ self.old.list }
        ensures forgotten { self.new.forgotten ≡ self.old.forgotten }
    {
        let held = self.outcomes.len() - self.gone;
        self.outcomes.rotate_left(self.gone);
        self.outcomes.truncate(held);
        self.gone = 0;
    }
}

/// `QUEUES` queues without outcomes.
pub fn nothing_told(alloc: Global) -> Result<Vec<QueueOutcomes>, OutOfMemory>
    ensures none { IfOk result (λ told. lists_of told ≡ replicate queues []) }
    ensures forgotten { IfOk result (λ told. forgotten_in told ≡ replicate queues 0) }
{
    let mut told = Vec::with_capacity(alloc, QUEUES)?;
    for queue in 0..QUEUES {
        told.push_reserved(QueueOutcomes::new(alloc));
    }
    Ok(told)
}

/// Frees the memory that no outcome needs.
pub fn shrink_all(told: &mut Vec<QueueOutcomes>)
    ensures list { lists_of told.new ≡ lists_of told.old }
    ensures forgotten { forgotten_in told.new ≡ forgotten_in told.old }
{
    for queue in 0..told.len() {
        told[queue].shrink();
    }
}

/// Makes room for a queue's outcome with this number. `QueueSpent` if the queue has the limit of outcomes, `OutOfTurn`
/// with the next number if this is another, then `OutOfMemory`.
pub fn prepare(
    told: &mut Vec<QueueOutcomes>,
    limit: u64,
    queue: u64,
    number: u64,
) -> Result<(), Fault>
    requires queue { HaveQueue told.old queue }
    requires limit { limit ≤ lifetime_told }
    ensures fault { MatchOption (tell_fault limit (lists_of told.old) queue number)
        (IsOkUnless result Fault.OutOfMemory) (λ fault. result ≡ Err fault) }
    ensures room { OnOk result (HasRoomToTell told.new queue) }
    ensures same { lists_of told.new ≡ lists_of told.old }
    ensures forgotten { forgotten_in told.new ≡ forgotten_in told.old }
{
    let next = told[queue as usize].next();
    if next >= limit {
        return Err(Fault::QueueSpent);
    }
    if number != next {
        return Err(Fault::OutOfTurn { next });
    }
    told[queue as usize].reserve()?;
    Ok(())
}

/// Adds an outcome to a queue, for which there is room.
pub fn tell(told: &mut Vec<QueueOutcomes>, queue: u64, outcome: Outcome)
    requires queue { HaveQueue told.old queue }
    requires room { HasRoomToTell told.old queue }
    ensures list { lists_of told.new ≡ with_outcome (lists_of told.old) queue outcome }
    ensures forgotten { forgotten_in told.new ≡ forgotten_in told.old }
{
    told[queue as usize].push(outcome);
}
