//! Worked rows: jobs by events, and requests bound out of turn.
use crate::machine::play::{SMALL, play_on_vm, play_text};
use std::test::Fail;

/// A job that reads a page and writes a read-only one; one of a zero; one that writes, which a reader meets; an end, twice;
/// and a job of a page that holds nothing.
const JOBS: &str = "\
create 2\n\
put 0 ; zero 0 ; map 1 1 0 0 1 1 0 1 ; map 2 1 0 1\n\
take 0\n\
bind 0 = Told { number: 0, outcome: Accepted { entry: 0 } }\n\
job ; read 0x2000 ; write 0x1000 = Refused { fault: WriteToReadOnly { access: 1 } }\n\
job ; read 0 = Begun { job: 0, places: [Place { target: Zero, flags: Flags { read_only: false } }] }\n\
job ; write 0x2004 = Begun { job: 1, places: [Place { target: Buffer { id: b0, byte: 4100 }, flags: Flags { read_only: false } }] }\n\
job ; read 0x1000 = Refused { fault: Conflict { job: 1 } }\n\
end 1 = Ended { job: 1 }\n\
end 1 = Refused { fault: NoJob }\n\
job ; read 0x3000 = Refused { fault: Unmapped { access: 0 } }\n\
job ; write 0x2000 = Begun { job: 2, places: [Place { target: Buffer { id: b0, byte: 4096 }, flags: Flags { read_only: false } }] }\n";

#[test]
fn refused_job_holds_nothing(rt: HostRuntime) -> Result<(), Fail> {
    play_text(&rt, &SMALL, JOBS)
}

/// A request is refused, comes back as it was, and leaves all as it was.
const OUT_OF_TURN: &str = "\
list = 0\n\
told 0 = 0 to 0: []\n\
held = 0 entries, 0 mappings\n\
1 ; zero 4 ; zero 9 ; signal 3 7 = Err(NotTold { fault: OutOfTurn { next: 0 }, request: Request { ops: [MapZero { addr: 16384, len: 4096, flags: Flags { read_only: false } }, MapZero { addr: 36864, len: 4096, flags: Flags { read_only: false } }], waits: [], signals: [Point { timeline: 3, value: 7 }] } })\n\
list = 0\n\
told 0 = 0 to 0: []\n\
held = 0 entries, 0 mappings\n\
0 ; zero 0 = Ok(Accepted { entry: 0 })\n\
list = 1; Mapping { range: PageRange { first: 0, count: 1 }, backing: Zero, flags: Flags { read_only: false } }\n\
told 0 = 0 to 1: [Accepted { entry: 0 }]\n\
held = 1 entries, 1 mappings\n\
0 ; zero 4 ; zero 9 ; signal 3 7 = Err(NotTold { fault: OutOfTurn { next: 1 }, request: Request { ops: [MapZero { addr: 16384, len: 4096, flags: Flags { read_only: false } }, MapZero { addr: 36864, len: 4096, flags: Flags { read_only: false } }], waits: [], signals: [Point { timeline: 3, value: 7 }] } })\n\
list = 1; Mapping { range: PageRange { first: 0, count: 1 }, backing: Zero, flags: Flags { read_only: false } }\n\
told 0 = 0 to 1: [Accepted { entry: 0 }]\n\
held = 1 entries, 1 mappings\n\
2 ; zero 4 ; zero 9 ; signal 3 7 = Err(NotTold { fault: OutOfTurn { next: 1 }, request: Request { ops: [MapZero { addr: 16384, len: 4096, flags: Flags { read_only: false } }, MapZero { addr: 36864, len: 4096, flags: Flags { read_only: false } }], waits: [], signals: [Point { timeline: 3, value: 7 }] } })\n\
list = 1; Mapping { range: PageRange { first: 0, count: 1 }, backing: Zero, flags: Flags { read_only: false } }\n\
told 0 = 0 to 1: [Accepted { entry: 0 }]\n\
held = 1 entries, 1 mappings\n";

#[test]
fn request_out_of_turn_comes_back(rt: HostRuntime) -> Result<(), Fail> {
    play_on_vm(&rt, OUT_OF_TURN)
}
