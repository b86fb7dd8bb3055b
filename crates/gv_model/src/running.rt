//! Running jobs by the definitions alone: which buffers each uses, and whether it writes them.
use crate::lists::push;
use crate::space_model::SpaceModel;
use gv_buffers::Usage;
use gv_types::{Backing, BufferId, Fault, PAGE_BYTES};
use gv_vm::{Access, Place, Target};
use std::alloc::Global;

/// No job has more accesses.
const MOST_ACCESSES: usize = 256;

/// So many jobs run at most.
const MOST_RUNNING: usize = 1024;

/// One use of a buffer by a running job.
#[derive(Clone, Copy)]
struct Use {
    job: u64,
    id: BufferId,
    writes: bool,
}

/// How many jobs were begun, those that run, and their uses, each in the order of the jobs' numbers.
#[derive(Drop)]
pub struct Running {
    begun: u64,
    jobs: Vec<u64>,
    uses: Vec<Use>,
}

/// What stands behind an address, by what the entries say of its page.
pub fn place_of(space_model: &SpaceModel, addr: u64) -> Option<Place> {
    let entry = space_model.view(addr / PAGE_BYTES)?;
    let target = match &entry.backing {
        Backing::Buffer { id, page } => Target::Buffer {
            id: *id,
            byte: page
                .saturating_mul(PAGE_BYTES)
                .saturating_add(addr % PAGE_BYTES),
        },
        Backing::Zero => Target::Zero,
    };
    Some(Place {
        target,
        flags: entry.flags,
    })
}

impl Running {
    /// No job runs.
    pub fn new(alloc: Global) -> Running {
        Running {
            begun: 0,
            jobs: Vec::new(alloc),
            uses: Vec::new(alloc),
        }
    }

    /// The least job that uses a buffer in the way of another's use.
    fn in_the_way(&self, job: u64, id: &BufferId, writes: bool) -> Option<u64> {
        for used in &self.uses {
            if used.id == *id && used.job != job && (used.writes || writes) {
                return Some(used.job);
            }
        }
        None
    }

    /// How many jobs use a buffer.
    pub fn count_users(&self, id: &BufferId) -> u64 {
        self.jobs
            .iter()
            .filter(|job| self
                .uses
                .iter()
                .any(|used| used.job == **job && used.id == *id))
            .count() as u64
    }

    /// Finds the place of one access, and uses what is behind it.
    fn hold(
        &mut self,
        space_model: &SpaceModel,
        number: u64,
        access: &Access,
    ) -> Result<Place, Fault> {
        let Some(place) = place_of(space_model, access.addr) else {
            return Err(Fault::Unmapped { access: number });
        };
        let writes = access.usage == Usage::Write;
        if writes && place.flags.read_only {
            return Err(Fault::WriteToReadOnly { access: number });
        }
        if let Target::Buffer { id, .. } = &place.target {
            let job = self.begun;
            if let Some(job) = self.in_the_way(job, id, writes) {
                return Err(Fault::Conflict { job });
            }
            let used = Use {
                job,
                id: *id,
                writes,
            };
            push(&mut self.uses, used)?;
        }
        Ok(place)
    }

    fn hold_all(
        &mut self,
        alloc: Global,
        space_model: &SpaceModel,
        accesses: &[Access],
    ) -> Result<Vec<Place>, Fault> {
        // The borrow checker proves the loop only where the function names the type inside the places.
        let _target = Target::Zero;
        let mut places = Vec::new(alloc);
        for (number, access) in accesses.iter().enumerate() {
            let place = self.hold(space_model, number as u64, access)?;
            push(&mut places, place)?;
        }
        Ok(places)
    }

    /// Begins a job. Its places.
    pub fn begin(
        &mut self,
        alloc: Global,
        space_model: &SpaceModel,
        accesses: &[Access],
    ) -> Result<(u64, Vec<Place>), Fault> {
        if accesses.len() > MOST_ACCESSES {
            return Err(Fault::TooManyAccesses);
        }
        if self.jobs.len() >= MOST_RUNNING {
            return Err(Fault::TooManyJobs);
        }
        let job = self.begun;
        match self.hold_all(alloc, space_model, accesses) {
            Ok(places) => {
                push(&mut self.jobs, job)?;
                self.begun = job.saturating_add(1);
                Ok((job, places))
            }
            Err(fault) => {
                self.give_up(alloc, job)?;
                Err(fault)
            }
        }
    }

    /// Gives up the uses of a job.
    fn give_up(&mut self, alloc: Global, job: u64) -> Result<(), Fault> {
        let uses = std::mem::replace(&mut self.uses, Vec::new(alloc));
        for used in &uses {
            if used.job != job {
                push(&mut self.uses, *used)?;
            }
        }
        Ok(())
    }

    /// Ends a job.
    pub fn end(&mut self, alloc: Global, job: u64) -> Result<(), Fault> {
        if !self.jobs.iter().any(|running| *running == job) {
            return Err(Fault::NoJob);
        }
        let jobs = std::mem::replace(&mut self.jobs, Vec::new(alloc));
        for running in &jobs {
            if *running != job {
                push(&mut self.jobs, *running)?;
            }
        }
        self.give_up(alloc, job)
    }

    /// How many jobs were begun.
    pub fn begun(&self) -> u64 {
        self.begun
    }
}
