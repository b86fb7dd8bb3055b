//! One address space with its journal, its running jobs and its queues' outcomes.
ghost use Rattle.std.specs.Prelude.{◌≡◌, ◌<◌, ◌+◌, [], ℕ, None, reverse, map, length, IfOk, Contains, IfErr, IsOk, IsOkUnless, OnOk, OnErr, IsErrAnd, MatchOption};
ghost use Rattle.std.specs.Option.{option_copied};
ghost use Rattle.gv_types.specs.Operation.{in_pages};
ghost use Rattle.gv_split.specs.Steps.{steps};
ghost use Rattle.gv_split.specs.CarriedOut.{carried_out, ArePresent, list_after};
ghost use Rattle.gv_space.specs.Refusal.{operation_fault};
ghost use Rattle.gv_space.specs.State.{TableMatchesList};
ghost use Rattle.gv_vm.specs.Places.{place_at, run_of};
ghost use Rattle.gv_vm.specs.Outcomes.{queues, told_to, with_outcome, tell_fault};
ghost use Rattle.gv_vm.specs.BindOutcome.{IsBoundAndTold, seen_by};

use crate::dispatch::{dispatch, seen_of};
use crate::jobs::{Access, Job, Jobs};
use crate::outcome::{NotTold, Outcome};
use crate::places::{Place, Stretch, find, translate};
use crate::told::{QueueOutcomes, nothing_told, prepare, tell};
use gv_journal::{Item, Journal, ReadyRequest};
use gv_space::Space;
use gv_split::Step;
use gv_sync::{Lacking, Reached};
use gv_table::PageTable;
use gv_types::{Backing, Bounds, Fault, Limits, Op, OutOfMemory, Request};
use std::alloc::Global;
use std::marker::Model;

mod buffers;
mod entries;
mod outcomes;
mod past;
mod trimming;

pub use past::PastItem;

/// One GPU address space. Each accepted request is an entry that can be undone. It owns undo values, so it is
/// not `Drop`: the compiler rejects a program that drops one without closing it.
pub struct Vm {
    space: Space,
    journal: Journal,
    jobs: Jobs,
    told: Vec<QueueOutcomes>,
}

impl Model for Vm {
    ghost use Rattle.gv_vm.specs.State.{VmState};
    ghost use Rattle.gv_vm.specs.VmInside.{vm_of, IsSoundVm};

    ghost Value = { VmState };

    ghost view = { vm_of };

    ghost invariant = { IsSoundVm };
}

impl Vm {
    ghost use Rattle.gv_journal.specs.Items.{next};
    ghost use Rattle.gv_journal.specs.History.{back};
    ghost use Rattle.gv_journal.specs.Binding.{IsRewound};
    ghost use Rattle.gv_vm.specs.State.{new_vm, roomless, told_limit, IsVm, HasOtherJobs};
    ghost use Rattle.gv_vm.specs.Jobs.{begin_fault, end_fault, places_in, IsBegun, IsEnded, IsBeginRefused};

    /// A machine without mappings, buffers, entries and jobs. `OutOfMemory` if the system refuses its first memory.
    pub fn new(alloc: Global, bounds: Bounds, limits: Limits) -> Result<Vm, OutOfMemory>
        ensures { IfOk result (λ v. v ≡ new_vm bounds limits) }
    {
        let told = nothing_told(alloc)?;
        let space = match Space::new(alloc, bounds, limits) {
            Ok(space) => space,
            Err(_) => return Err(OutOfMemory),
        };
        // For the prover: what always holds of the space.
        let _list = space.list();
        Ok(Vm {
            space,
            journal: Journal::new(alloc, limits.items()),
            jobs: Jobs::new(alloc),
            told,
        })
    }

    /// How many things of each kind it may hold.
    pub fn limits(&self) -> Limits
        ensures { result ≡ self.now.space.limits }
    {
        self.space.limits()
    }

    /// The address space, and what always holds of the whole.
    pub fn space(&self) -> &Space
        ensures value { self.now.space ≡ roomless result.now }
        ensures holds { IsVm self.now }
    {
        &self.space
    }

    /// The page table of that space, which is always its list's.
    pub fn table(&self) -> &PageTable
        ensures matches { TableMatchesList self.now.space result.now }
    {
        self.space.table()
    }

    /// The entries of the journal that are held, the oldest one first.
    pub fn items(&self) -> &[Item]
        ensures { result.now ≡ reverse self.now.journal.items }
    {
        self.journal.items()
    }

    /// The number of the oldest entry that is held, or of the next one if none is.
    pub fn first(&self) -> u64
        ensures { result ≡ self.now.journal.first }
    {
        self.journal.first()
    }

    /// The number of the next entry.
    pub fn next(&self) -> u64
        ensures { result ≡ next self.now.journal }
    {
        self.journal.next()
    }

    /// What an address, in bytes, reaches, by the page table. None if no mapping holds its page, and past the end of the
    /// address space.
    pub fn translate(&self, addr: u64) -> Option<Place>
        ensures { result ≡ place_at self.now.space.mappings addr }
    {
        translate(&self.space, addr)
    }

    /// What an address, in bytes, reaches, by the list, and how many bytes from there on are in the same mapping; without a mapping,
    /// how many there are to the next one or to the end of the address space.
    /// 0 past that end. One search.
    pub fn find(&self, addr: u64) -> Stretch
        ensures place { result.place ≡ place_at self.now.space.mappings addr }
        ensures run { result.run ≡ run_of self.now.space.mappings addr }
    {
        find(&self.space, addr)
    }

    /// The split steps of an operation, as `Space::plan` gives them; nothing changes.
    pub fn plan(&self, alloc: Global, op: &Op) -> Result<Vec<Step>, Fault>
        ensures fault { MatchOption (operation_fault self.now.space op.now)
            (IsOkUnless result Fault.OutOfMemory) (λ fault. result ≡ Err fault) }
        ensures steps { IfOk result (λ list. list.items ≡ steps self.now.space.mappings (in_pages op.now)) }
        ensures carried_out { IfOk result (λ list.
            carried_out list.items self.now.space.mappings ≡ list_after self.now.space.mappings (in_pages op.now)) }
        ensures present { IfOk result (λ list. ArePresent list.items self.now.space.mappings) }
        ensures some { result ≡ Err Fault.OutOfMemory → 0 < length (steps self.now.space.mappings (in_pages op.now)) }
    {
        // The borrow checker proves the call only where the function names the types inside the steps.
        let _backing = Backing::Zero;
        self.space.plan(alloc, op)
    }

    /// Begins a job: each access in turn finds its place, and the job holds the buffer there until it ends.
    /// `TooManyAccesses` over 256, `TooManyJobs` if 1,024 run or 2^64 - 1 were begun, then per access `Unmapped`,
    /// `WriteToReadOnly`, `Conflict` and `OutOfMemory`. After a refusal nothing is held and no number is used.
    pub fn job_begin(&mut self, alloc: Global, accesses: &[Access]) -> Result<Job, Fault>
        ensures none { OnOk result (begin_fault self.old.space self.old.jobs accesses.now ≡ None) }
        ensures begun { IfOk result
            (IsBegun self.old.space self.new.space self.old.jobs self.new.jobs accesses.now) }
        ensures rest { OnOk result (HasOtherJobs self.old self.new) }
        ensures refused { IfErr result (IsBeginRefused self.old.space self.old.jobs accesses.now) }
        ensures err { OnErr result (self.new ≡ self.old) }
    {
        let begun = self.jobs.begin(alloc, &mut self.space, accesses);
        // For the prover: what always holds of the space.
        let _list = self.space.list();
        begun
    }

    /// What the accesses of a running job reached when it began, whatever was unmapped or undone since. None if no such job
    /// runs.
    pub fn job_places(&self, number: u64) -> Option<&[Place]>
        ensures { option_copied result ≡ places_in self.now.jobs.running number }
    {
        self.jobs.places(number)
    }

    /// Ends a job, which then holds nothing. `NoJob` exactly if no such job runs. It takes no memory.
    pub fn job_end(&mut self, number: u64) -> Result<(), Fault>
        ensures fault { MatchOption (end_fault self.old.jobs number)
            (IsOk result) (λ fault. result ≡ Err fault) }
        ensures ended { OnOk result
            (IsEnded self.old.space self.new.space self.old.jobs self.new.jobs number) }
        ensures rest { HasOtherJobs self.old self.new }
        ensures err { OnErr result (self.new ≡ self.old) }
    {
        let ended = self.jobs.end(&mut self.space, number);
        // For the prover: what always holds of the space.
        let _list = self.space.list();
        ended
    }

    /// Carries out a request, the one with this number of its queue, whose waits were reached at these points, and adds its
    /// outcome to the queue: it is accepted as an entry, or refused at an operation as `Journal::bind` refuses it.
    /// `QueueSpent` if the queue has the limit of outcomes, `OutOfTurn` if the number is not the next outcome's, then
    /// `OutOfMemory`: the request comes back and nothing changed.
    pub fn bind(
        &mut self,
        alloc: Global,
        queue: u64,
        number: u64,
        request: Request,
        reached: &[Reached],
    ) -> Result<Outcome, NotTold>
        requires queue { queue < queues }
        requires reached { map (λ r. r.point) reached.now ≡ request.waits.items }
        ensures fault { MatchOption (tell_fault (told_limit self.old queue) self.old.told queue number)
            (IfErr result (λ n. n.fault ≡ Fault.OutOfMemory)) (λ fault. IsErrAnd result (λ n. n.fault ≡ fault)) }
        ensures request { IfErr result (λ n. n.request ≡ request) }
        ensures outcome { IfOk result
            (IsBoundAndTold self.old self.new queue number request (seen_by reached.now)) }
        ensures err { OnErr result (self.new ≡ self.old) }
    {
        let limit = self.told_limit(queue);
        if let Err(fault) = prepare(&mut self.told, limit, queue, number) {
            return Err(NotTold { fault, request });
        }
        let seen = match seen_of(alloc, reached) {
            Ok(seen) => seen,
            Err(_) => {
                return Err(NotTold {
                    fault: Fault::OutOfMemory,
                    request,
                });
            }
        };
        let ready = ReadyRequest {
            queue,
            number,
            request,
            seen,
        };
        let outcome = dispatch(alloc, &mut self.space, &mut self.journal, ready);
        // For the prover: what always holds of the space.
        let _list = self.space.list();
        tell(&mut self.told, queue, outcome);
        Ok(outcome)
    }

    /// Gives up a request, the one with this number of its queue, since this point of its waits is not reached, and adds that
    /// outcome to the queue. The faults are those of `bind`.
    pub fn give_up(
        &mut self,
        queue: u64,
        number: u64,
        request: Request,
        lacking: Lacking,
    ) -> Result<Outcome, NotTold>
        requires queue { queue < queues }
        requires lacking { Contains request.waits.items lacking.point }
        ensures fault { MatchOption (tell_fault (told_limit self.old queue) self.old.told queue number)
            (IfErr result (λ n. n.fault ≡ Fault.OutOfMemory)) (λ fault. IsErrAnd result (λ n. n.fault ≡ fault)) }
        ensures request { IfErr result (λ n. n.request ≡ request) }
        ensures outcome { IfOk result (λ outcome. outcome ≡ Outcome.NotReady lacking.point lacking.number) }
        ensures told { IfOk result (λ outcome.
            self.new ≡ record self.old { told = with_outcome self.old.told queue outcome }) }
        ensures err { OnErr result (self.new ≡ self.old) }
    {
        let limit = self.told_limit(queue);
        if let Err(fault) = prepare(&mut self.told, limit, queue, number) {
            return Err(NotTold { fault, request });
        }
        let outcome = Outcome::NotReady {
            point: lacking.point(),
            have: lacking.have(),
        };
        tell(&mut self.told, queue, outcome);
        Ok(outcome)
    }

    /// Drops all undo values and ends all jobs. It takes no memory.
    pub fn close(self) {
        let Vm {
            mut space,
            journal,
            jobs: _,
            told: _,
        } = self;
        journal.close(&mut space);
    }
}
