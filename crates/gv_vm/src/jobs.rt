//! The running jobs, and the buffers that they hold.
ghost use Rattle.std.specs.Prelude.{◌≡◌, ◌≢◌, ◌⊎◌, ◌+◌, ◌++◌, ◌∷◌, [], IfOk, IsOk, IsOkUnless, OnOk, OnErr, IfErr};
ghost use Rattle.std.specs.Prelude.{MatchOption, List, Some, None, length, map, false, IfSome, IfNone};
ghost use Rattle.std.specs.List.{All};
ghost use Rattle.std.specs.Option.{option_copied};
ghost use Rattle.gv_types.specs.declared.mapping.Mapping.{Mapping};
ghost use Rattle.gv_space.specs.State.{AreKept};
ghost use Rattle.gv_buffers.specs.Buffers.{left_everywhere};
ghost use Rattle.gv_vm.specs.Places.{place_at};
ghost use Rattle.gv_vm.specs.Jobs.{access_fault, with_access_held, target_fault, with_target_held, accesses_fault, with_all_held, AreRefused};
ghost use Rattle.gv_vm.specs.Jobs.{runs, job_state};
ghost use Rattle.gv_vm.specs.JobsInside.{AreAscending, IsAt};

use crate::holding::hold_all;
use crate::places::Place;
use gv_buffers::{Usage, laws};
use gv_space::Space;
use gv_types::{Fault, OutOfMemory};
use std::alloc::Global;
use std::marker::Model;

/// The greatest number of running jobs.
pub const MAX_RUNNING: usize = 1024;

/// The greatest number of accesses of a job.
pub const MAX_ACCESSES: usize = 256;

/// What a job does at an address, in bytes.
#[derive(Clone, Copy, Debug, PartialEq, Eq)]
pub struct Access {
    pub addr: u64,
    pub usage: Usage,
}

/// A job as it began: its number, and what its accesses reached then, whatever is unmapped or undone meanwhile.
#[derive(Debug, PartialEq, Drop)]
pub struct Job {
    pub number: u64,
    pub places: Vec<Place>,
}

/// The running jobs. Each holds the buffers of its places, as the kernel's Reservation Objects do: a job that would
/// have to wait there is refused here. They are in the order of their numbers, which only grow: a new job comes after the
/// others, and one that ends is found by binary search.
#[derive(Drop)]
pub struct Jobs {
    begun: u64,
    running: Vec<Job>,
}

impl Model for Jobs {
    ghost use Rattle.gv_vm.specs.Jobs.{JobsState};
    ghost use Rattle.gv_vm.specs.JobsInside.{running_of, AreSoundJobs};

    ghost Value = { JobsState };

    ghost view = { running_of };

    ghost invariant = { AreSoundJobs };
}

impl Jobs {
    ghost use Rattle.gv_buffers.specs.Buffers.{BuffersState};
    ghost use Rattle.gv_vm.specs.Jobs.{no_jobs, places_in, without_job, many_fault, begin_fault, end_fault};
    ghost use Rattle.gv_vm.specs.Jobs.{IsBegun, IsEnded, IsBeginRefused, AreHeld, AreRunning};

    /// No job. It takes no memory.
    pub fn new(alloc: Global) -> Jobs
        ensures none { result ≡ no_jobs }
        ensures held { (t : BuffersState) → All (λ b. b.users ≡ []) t.live → AreHeld t result.running }
    {
        Jobs {
            begun: 0,
            running: Vec::new(alloc),
        }
    }

    /// Frees memory that no running job needs.
    pub fn shrink(&mut self)
        ensures { self.new ≡ self.old }
    {
        self.running.shrink_to_fit();
    }

    /// What the accesses of a running job reached when it began. None if no such job runs.
    pub fn places(&self, number: u64) -> Option<&[Place]>
        ensures { option_copied result ≡ places_in self.now.running number }
    {
        match position_of(&self.running, number) {
            Some(position) => Some(self.running[position].places.as_slice()),
            None => None,
        }
    }

    /// Begins a job: each access in turn finds its place, and the job holds the buffer there until it ends.
    /// `TooManyAccesses` over 256, `TooManyJobs` if 1,024 run or 2^64 - 1 were begun, then per access `Unmapped`,
    /// `WriteToReadOnly`, `Conflict` and `OutOfMemory`. After a refusal nothing is held and no number is used.
    pub fn begin(
        &mut self,
        alloc: Global,
        space: &mut Space,
        accesses: &[Access],
    ) -> Result<Job, Fault>
        requires { AreHeld space.old.buffers self.old.running }
        ensures none { OnOk result (begin_fault space.old self.old accesses.now ≡ None) }
        ensures begun { IfOk result (IsBegun space.old space.new self.old self.new accesses.now) }
        ensures refused { IfErr result (IsBeginRefused space.old self.old accesses.now) }
        ensures unchanged { OnErr result (self.new ≡ self.old) }
        ensures space { OnErr result (space.new ≡ space.old) }
        ensures held { AreHeld space.new.buffers self.new.running }
        ensures kept { (ms : List Mapping) → AreKept space.old ms → AreKept space.new ms }
    {
        laws::lookups();
        laws::leaving();
        if let Some(fault) = self.many_fault(accesses.len()) {
            return Err(fault);
        }
        let number = self.begun;
        match self.hold_and_add(alloc, space, accesses) {
            Ok(job) => Ok(job),
            Err(fault) => {
                space.leave(number);
                Err(fault)
            }
        }
    }

    /// Ends a job, which then holds nothing. `NoJob` exactly if no such job runs. It takes no memory.
    pub fn end(&mut self, space: &mut Space, number: u64) -> Result<(), Fault>
        requires { AreHeld space.old.buffers self.old.running }
        ensures fault { MatchOption (end_fault self.old number)
            (IsOk result) (λ fault. result ≡ Err fault) }
        ensures ended { OnOk result (IsEnded space.old space.new self.old self.new number) }
        ensures unchanged { OnErr result (self.new ≡ self.old) }
        ensures space { OnErr result (space.new ≡ space.old) }
        ensures held { AreHeld space.new.buffers self.new.running }
        ensures kept { (ms : List Mapping) → AreKept space.old ms → AreKept space.new ms }
    {
        laws::lookups();
        if !self.remove(number) {
            return Err(Fault::NoJob);
        }
        space.leave(number);
        Ok(())
    }

    /// Why no job of this number of accesses can begin.
    fn many_fault(&self, accesses: usize) -> Option<Fault>
        ensures fault { result ≡ many_fault self.now accesses }
        ensures running { AreRunning self.now }
    {
        let running = self.running.len();
        if accesses > MAX_ACCESSES {
            return Some(Fault::TooManyAccesses);
        }
        if running >= MAX_RUNNING || self.begun == u64::MAX {
            return Some(Fault::TooManyJobs);
        }
        None
    }

    /// Holds what a job's accesses reach, and counts it among the running ones. After a refusal it may hold some of that.
    fn hold_and_add(
        &mut self,
        alloc: Global,
        space: &mut Space,
        accesses: &[Access],
    ) -> Result<Job, Fault>
        requires { many_fault self.old (length accesses.now) ≡ None }
        ensures none { OnOk result
            (accesses_fault space.old.mappings self.old.begun space.old.buffers 0 accesses.now ≡ None) }
        ensures begun { IfOk result (IsBegun space.old space.new self.old self.new accesses.now) }
        ensures refused { IfErr result
            (AreRefused space.old.mappings self.old.begun space.old.buffers accesses.now) }
        ensures unchanged { OnErr result (self.new ≡ self.old) }
        ensures rest { space.new ≡ record space.old { buffers = space.new.buffers } }
        ensures left { left_everywhere self.old.begun space.new.buffers
            ≡ left_everywhere self.old.begun space.old.buffers }
        ensures kept { (ms : List Mapping) → AreKept space.old ms → AreKept space.new ms }
    {
        let places = match hold_all(alloc, space, self.begun, accesses) {
            Ok(places) => places,
            Err(fault) => return Err(fault),
        };
        match self.add(alloc, places) {
            Ok(job) => Ok(job),
            Err(OutOfMemory) => Err(Fault::OutOfMemory),
        }
    }

    /// Counts a job among the running ones, and answers it with places of its own.
    fn add(&mut self, alloc: Global, places: Vec<Place>) -> Result<Job, OutOfMemory>
        requires { many_fault self.old 0 ≡ None }
        ensures number { IfOk result (λ job. job.number ≡ self.old.begun) }
        ensures places { IfOk result (λ job. job.places.items ≡ places.items) }
        ensures jobs { IfOk result (λ job. self.new
            ≡ record { begun = self.old.begun + 1; running = self.old.running ++ job_state job ∷ [] }) }
        ensures err { OnErr result (self.new ≡ self.old) }
    {
        let number = self.begun;
        let kept = Vec::from_slice(alloc, &places)?;
        self.running.reserve(1)?;
        self.running.push_reserved(Job {
            number,
            places: kept,
        });
        self.begun += 1;
        Ok(Job { number, places })
    }

    /// Removes a job from the running ones. Answers whether it ran.
    fn remove(&mut self, number: u64) -> bool
        ensures ran { result ≡ runs self.old.running number }
        ensures jobs { self.new ≡ record self.old { running = without_job number self.old.running } }
        ensures gone { All (λ j. j.number ≢ number) self.new.running }
    {
        match position_of(&self.running, number) {
            Some(position) => {
                let _ended = self.running.remove(position);
                true
            }
            None => false,
        }
    }
}

/// The index of the job with this number. None if no such job runs.
fn position_of(running: &[Job], number: u64) -> Option<usize>
    requires { AreAscending running.now }
    ensures some { IfSome result (IsAt running.now number) }
    ensures none { IfNone result (runs (map job_state running.now) number ≡ false) }
{
    match running.binary_search_by_key(&number, |job| job.number) {
        Ok(position) => Some(position),
        Err(_) => None,
    }
}
