//! The outcomes of the queues, and how they are dropped.
ghost use Rattle.std.specs.Prelude.{◌≡◌, ◌+◌, ◌<◌, ◌≤◌, ◌++◌, min, length, take, drop, replicate, position, None, IfOk, IsOk, OnOk, OnErr, MatchOption};
ghost use Rattle.gv_journal.specs.Notes.{lesser};
ghost use Rattle.gv_vm.specs.Outcomes.{queues, lifetime_told, told_to, forgotten_outcome};
ghost use Rattle.gv_vm.specs.Forgetting.{forget_fault, least_held_below, is_told_below, with_forgotten};
ghost use Rattle.gv_vm.specs.HeldEntries.{held_by, least_held};
ghost use Rattle.gv_vm.specs.State.{forgotten_of, told_limit};

use super::Vm;
use crate::outcome::Outcome;
use crate::told::{LIFETIME_TOLD, QUEUES};
use gv_journal::{HeldItem, Item, ItemKind};
use gv_types::Fault;

impl Vm {
    /// The outcomes of a queue that are not forgotten, in the order of the requests' numbers.
    pub fn told(&self, queue: u64) -> &[Outcome]
        requires { queue < queues }
        ensures { result.now ≡ drop (forgotten_of self.now queue) (told_to self.now.told queue) }
    {
        self.told[queue as usize].rest()
    }

    /// The number of the first outcome of a queue that isn't forgotten, or of the next one if there is none.
    pub fn told_from(&self, queue: u64) -> u64
        requires { queue < queues }
        ensures number { result ≡ forgotten_of self.now queue }
        ensures few { result ≤ length (told_to self.now.told queue) }
    {
        self.told[queue as usize].first()
    }

    /// The number of the next outcome of a queue: how many it has had, forgotten or not.
    pub fn told_next(&self, queue: u64) -> u64
        requires { queue < queues }
        ensures number { result ≡ length (told_to self.now.told queue) }
        ensures few { result ≤ lifetime_told }
    {
        self.told[queue as usize].next()
    }

    /// How many outcomes a queue may have in all: the limit in addition to those that are forgotten, and at most 2^63.
    pub fn told_limit(&self, queue: u64) -> u64
        requires { queue < queues }
        ensures { result ≡ told_limit self.now queue }
    {
        LIFETIME_TOLD.min(self.told_from(queue).saturating_add(self.limits().told()))
    }

    /// Drops the outcomes of a queue whose numbers are below this one, and answers how many. `NoOutcome` if the number is below
    /// that of the first one that isn't forgotten, or above the next one, or there is no such queue; then `Held` with the least held
    /// entry of that queue whose number there is below it. Numbers go on. It takes no memory.
    pub fn forget(&mut self, queue: u64, to: u64) -> Result<u64, Fault>
        ensures fault { MatchOption (forget_fault self.old queue to) (IsOk result) (λ fault. result ≡ Err fault) }
        ensures count { IfOk result (λ count. forgotten_of self.old queue + count ≡ to) }
        ensures forgotten { OnOk result (self.new ≡ with_forgotten self.old queue to) }
        ensures err { OnErr result (self.new ≡ self.old) }
    {
        // For the prover: what always holds of the machine.
        let _space = self.space();
        if queue >= QUEUES as u64 {
            return Err(Fault::NoOutcome);
        }
        let first = self.told_from(queue);
        if to < first || self.told_next(queue) < to {
            return Err(Fault::NoOutcome);
        }
        if let Some(by) = self.least_held_below(queue, to) {
            return Err(Fault::Held { by });
        }
        self.told[queue as usize].forget(to);
        Ok(to - first)
    }

    /// The least held entry of a queue whose number there is below this one. It looks at the outcomes below that number or at the
    /// entries held, whichever are fewer: with many entries held it is fast to forget a few outcomes at a time.
    fn least_held_below(&self, queue: u64, to: u64) -> Option<u64>
        ensures { result ≡ least_held_below self.now.journal queue to }
    {
        // For the prover: what always holds of the machine.
        let _space = self.space();
        if queue >= QUEUES as u64 {
            return None;
        }
        let told = self.told_below(queue, to);
        if told.len() < self.items().len() {
            self.least_held(told, queue, to)
        } else {
            self.first_held_below(queue, to)
        }
    }

    /// The outcomes of a queue below a number that are not forgotten.
    fn told_below(&self, queue: u64, to: u64) -> &[Outcome]
        requires { queue < queues }
        ensures { take to (told_to self.now.told queue)
            ≡ replicate (min to (forgotten_of self.now queue)) forgotten_outcome ++ result.now }
    {
        self.told[queue as usize].rest_below(to)
    }

    /// The least of the held entries that outcomes name. The first need not be the least: after a rewind the numbers of entries
    /// are used again.
    fn least_held(&self, told: &[Outcome], queue: u64, to: u64) -> Option<u64>
        ensures { result ≡ least_held self.now.journal queue to None told.now }
    {
        let mut least = None;
        for outcome in told {
            least = lesser(least, self.held_by(outcome, queue, to));
        }
        least
    }

    /// The entry that an outcome names, if what is held by that number is the queue's and has a number there below `to`: it may
    /// be another request's by now.
    fn held_by(&self, outcome: &Outcome, queue: u64, to: u64) -> Option<u64>
        ensures { result ≡ held_by self.now.journal queue to outcome.now }
    {
        let Outcome::Accepted { entry } = *outcome else {
            return None;
        };
        let HeldItem {
            item,
            is_withdrawn: _,
        } = self.entry(entry)?;
        if is_told_below(&item.kind, queue, to) {
            Some(entry)
        } else {
            None
        }
    }

    /// The same as `least_held_below`, by the entries: the first such one is the least.
    fn first_held_below(&self, queue: u64, to: u64) -> Option<u64>
        ensures { result ≡ least_held_below self.now.journal queue to }
    {
        let first = self.journal.first();
        // For the prover: that the numbers of all entries fit.
        let _next = self.journal.next();
        let index = first_told_below(self.journal.items(), queue, to)?;
        Some(first + index as u64)
    }
}

/// The lesser of two numbers that there may be.
fn lesser(least: Option<u64>, other: Option<u64>) -> Option<u64>
    ensures { result ≡ lesser least other }
{
    match (least, other) {
        (Some(least), Some(other)) => Some(least.min(other)),
        (Some(least), None) => Some(least),
        (None, other) => other,
    }
}

/// The place of the first entry of the queue whose number there is below this one.
fn first_told_below(items: &[Item], queue: u64, to: u64) -> Option<usize>
    ensures { result ≡ position (λ item. is_told_below queue to item.kind) items.now }
{
    items
        .iter()
        .position(|item| is_told_below(&item.kind, queue, to))
}

/// Whether this is an entry of the queue whose number there is below this one.
fn is_told_below(kind: &ItemKind, queue: u64, to: u64) -> bool
    ensures { result ≡ is_told_below queue to kind.now }
{
    match *kind {
        ItemKind::Bind {
            queue: of,
            number,
            ..
        } => of == queue && number < to,
        ItemKind::Withdrawal { .. } => false,
    }
}
