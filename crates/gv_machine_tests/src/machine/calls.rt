//! Rows of calls on a world: entries withdrawn and settled, jobs, and what was told.
use crate::machine::play::{WIDE, play_text};
use std::test::Fail;

/// Two entries, of which the first is withdrawn, and all are settled.
const ENTRIES: &str = "\
put 3 ; zero 0\n\
take 3\n\
bind 3 = Told { number: 0, outcome: Accepted { entry: 0 } }\n\
put 3 ; zero 0 0\n\
take 3\n\
bind 3 = Told { number: 1, outcome: Refused { op: 0, fault: Empty } }\n\
put 15\n\
take 15\n\
bind 15 = Told { number: 0, outcome: Accepted { entry: 1 } }\n\
told 3 = 0 to 2: [Accepted { entry: 0 }, Refused { op: 0, fault: Empty }]\n\
told 0 = 0 to 0: []\n\
withdraw 0 = Withdrawn { item: 2 }\n\
withdraw 0 = Refused { fault: Withdrawn }\n\
withdraw 9 = Refused { fault: NoEntry }\n\
settle 1 = Refused { fault: Crossed { by: 2 } }\n\
settle 3 = Settled { count: 3 }\n\
settle 2 = Refused { fault: NoEntry }\n\
rewind = Refused { fault: NoEntry }\n\
put 3 ; zero 0\n\
take 3\n\
bind 3 = Told { number: 2, outcome: Accepted { entry: 3 } }\n";

#[test]
fn entries_go_by_events(rt: HostRuntime) -> Result<(), Fail> {
    play_text(&rt, &WIDE, ENTRIES)
}

/// Two jobs hold a buffer until both have ended.
const JOBS: &str = "\
create 1 = Created { id: b0 }\n\
put 0 ; map 0\n\
take 0\n\
bind 0 = Told { number: 0, outcome: Accepted { entry: 0 } }\n\
job ; read 5 = Begun { job: 0, places: [Place { target: Buffer { id: b0, byte: 5 }, flags: Flags { read_only: false } }] }\n\
job ; read 5 = Begun { job: 1, places: [Place { target: Buffer { id: b0, byte: 5 }, flags: Flags { read_only: false } }] }\n\
job ; write 0 = Refused { fault: Conflict { job: 0 } }\n\
at 7 = Found { place: Some(Place { target: Buffer { id: b0, byte: 7 }, flags: Flags { read_only: false } }) }\n\
rewind = Rewound { item: 0 }\n\
destroy 0 = Refused { fault: InUse { jobs: 2 } }\n\
end 0 = Ended { job: 0 }\n\
end 0 = Refused { fault: NoJob }\n\
end 1 = Ended { job: 1 }\n\
end 1 = Refused { fault: NoJob }\n\
destroy 0 = Destroyed\n";

#[test]
fn jobs_begin_and_end_by_events(rt: HostRuntime) -> Result<(), Fail> {
    play_text(&rt, &WIDE, JOBS)
}
