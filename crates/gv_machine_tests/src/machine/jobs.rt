//! Jobs, and what they hold.
use crate::machine::play::{WIDE, play_text};
use std::test::Fail;

const REFUSALS: &str = "\
create 2\n\
put 0 ; zero 0 ; map 1 1 0 0 1 1 0 1 ; map 2 1 0 1\n\
take 0\n\
bind 0 = Told { number: 0, outcome: Accepted { entry: 0 } }\n\
job ; read 0x2000 ; write 0x1000 = Refused { fault: WriteToReadOnly { access: 1 } }\n\
job ; read 0 = Begun { job: 0, places: [Place { target: Zero, flags: Flags { read_only: false } }] }\n\
job ; write 0x2004 = Begun { job: 1, places: [Place { target: Buffer { id: b0, byte: 4100 }, flags: Flags { read_only: false } }] }\n\
job ; read 0x1000 = Refused { fault: Conflict { job: 1 } }\n\
end 1 = Ended { job: 1 }\n\
end 1 = Refused { fault: NoJob }\n\
job ; read 0x3000 = Refused { fault: Unmapped { access: 0 } }\n";

#[test]
fn refused_job_holds_nothing(rt: HostRuntime) -> Result<(), Fail> {
    play_text(&rt, &WIDE, REFUSALS)
}

const TWO_READERS: &str = "\
create 1\n\
put 0 ; map 0\n\
take 0\n\
bind 0 = Told { number: 0, outcome: Accepted { entry: 0 } }\n\
job ; read 0 = Begun { job: 0, places: [Place { target: Buffer { id: b0, byte: 0 }, flags: Flags { read_only: false } }] }\n\
job ; read 0 = Begun { job: 1, places: [Place { target: Buffer { id: b0, byte: 0 }, flags: Flags { read_only: false } }] }\n\
rewind = Rewound { item: 0 }\n\
at 0 = Found { place: None }\n\
places 0 = Some([Place { target: Buffer { id: b0, byte: 0 }, flags: Flags { read_only: false } }])\n\
destroy 0 = Refused { fault: InUse { jobs: 2 } }\n\
end 0 = Ended { job: 0 }\n\
places 0 = None\n\
destroy 0 = Refused { fault: InUse { jobs: 1 } }\n\
end 1 = Ended { job: 1 }\n\
destroy 0 = Destroyed\n\
rewind = Refused { fault: NoEntry }\n";

#[test]
fn job_keeps_its_buffer_alive(rt: HostRuntime) -> Result<(), Fail> {
    play_text(&rt, &WIDE, TWO_READERS)
}

const READS_AND_WRITES: &str = "\
create 1\n\
put 0 ; map 0\n\
take 0\n\
bind 0 = Told { number: 0, outcome: Accepted { entry: 0 } }\n\
job ; read 0 ; write 0 ; read 0 = Begun { job: 0, places: [Place { target: Buffer { id: b0, byte: 0 }, flags: Flags { read_only: false } }, Place { target: Buffer { id: b0, byte: 0 }, flags: Flags { read_only: false } }, Place { target: Buffer { id: b0, byte: 0 }, flags: Flags { read_only: false } }] }\n\
job ; read 0 = Refused { fault: Conflict { job: 0 } }\n\
end 0 = Ended { job: 0 }\n\
job ; read 0 = Begun { job: 1, places: [Place { target: Buffer { id: b0, byte: 0 }, flags: Flags { read_only: false } }] }\n";

#[test]
fn job_is_no_conflict_to_itself(rt: HostRuntime) -> Result<(), Fail> {
    play_text(&rt, &WIDE, READS_AND_WRITES)
}
