//! The greatest numbers of jobs and accesses.
use crate::machine::play::{WIDE, play};
use crate::machine::stage::Act;
use std::test::Fail;

const MAPPED: &str = "\
put 0 ; zero 0\n\
take 0\n\
bind 0 = Told { number: 0, outcome: Accepted { entry: 0 } }\n";

const BEGUN: &str = "\
job ; read 0 = Begun { job: {n}, places: [Place { target: Zero, flags: Flags { read_only: false } }] }\n";

const FULL: &str = "\
job ; read 0 = Refused { fault: TooManyJobs }\n\
end 0 = Ended { job: 0 }\n\
job ; read 0 = Begun { job: 1024, places: [Place { target: Zero, flags: Flags { read_only: false } }] }\n\
end 0 = Refused { fault: NoJob }\n";

const NO_MORE_JOBS_RUN: &[Act] = &[Act(0, 1, MAPPED), Act(0, 1024, BEGUN), Act(0, 1, FULL)];

#[test]
fn no_more_jobs_run(rt: HostRuntime) -> Result<(), Fail> {
    play(&rt, &WIDE, NO_MORE_JOBS_RUN)
}

const ACCESSES: &str = "\
job ; read 0 0 0 0 256 = Begun 0 at 256 of Some(Place { target: Zero, flags: Flags { read_only: false } })\n\
job ; read 0 0 0 0 257 = Refused { fault: TooManyAccesses }\n";

const NO_JOB_HAS_MORE_ACCESSES: &[Act] = &[Act(0, 1, MAPPED), Act(0, 1, ACCESSES)];

#[test]
fn no_job_has_more_accesses(rt: HostRuntime) -> Result<(), Fail> {
    play(&rt, &WIDE, NO_JOB_HAS_MORE_ACCESSES)
}
