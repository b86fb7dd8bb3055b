//! Where memory is ample no count of things is refused for want of it: operations, waits, signals, accesses, undo values, and
//! mappings that one of these keeps, each from 0 to 300. No clause says that memory is there, so a body that wants it at a count
//! of its own choice is refused by these rows alone.
use crate::machine::play::{WIDE, WorldSetup, play};
use crate::machine::stage::Act;
use std::test::Fail;

/// Nothing is compared with the model after each of so many events.
const COUNTED: WorldSetup = WorldSetup {
    compares: false,
    ..WIDE
};

/// A request of so many operations.
const OPS: &str = "\
put 0 ; zero 0 1 0 0 {n}\n\
take 0\n\
bind 0 = .. outcome: Accepted { entry: 0 } }\n\
rewind = Rewound { item: 0 }\n";

/// It has more than a request may have.
const TOO_MANY_OPS: &str = "\
put 0 ; zero 0 1 0 0 {n}\n\
take 0\n\
bind 0 = .. outcome: Refused { op: 0, fault: TooManyOps } }\n";

/// A request of so many waits, and one of so many signals.
const POINTS: &str = "\
put 0 ; wait 0 0 0 0 {n}\n\
take 0\n\
{n} times look 0 = Reached { point: Point { timeline: 0, value: 0 }, seen: 0 }\n\
bind 0 = .. outcome: Accepted { entry: 0 } }\n\
rewind = Rewound { item: 0 }\n\
put 0 ; signal 0 0 0 0 {n}\n\
take 0\n\
bind 0 = .. outcome: Accepted { entry: 0 } }\n\
{n} times pay 0 = Raised { point: Point { timeline: 0, value: 0 }, now: 0 }\n\
rewind = Rewound { item: 0 }\n";

const REQUESTS: &[Act] = &[
    Act(0, 257, OPS),
    Act(257, 301, TOO_MANY_OPS),
    Act(0, 301, POINTS),
];

#[test]
fn requests_of_all_counts_are_served(rt: HostRuntime) -> Result<(), Fail> {
    play(&rt, &COUNTED, REQUESTS)
}

const BUFFER: &str = "\
create 301 = Created { id: b0 }\n";

/// The buffer has so many mappings, each of an entry of its own. They are unmapped, by one operation each and by one for all
/// of them, and that is withdrawn and taken back. Then there is one more.
const UNDOS: &str = "\
put 0 ; unmap_all 0\n\
take 0\n\
bind 0 = .. outcome: Accepted { entry: {n} } }\n\
withdraw {n} = Withdrawn { item: {n+1} }\n\
rewind = Rewound { item: {n+1} }\n\
rewind = Rewound { item: {n} }\n\
put 0 ; unmap 0 301\n\
take 0\n\
bind 0 = .. outcome: Accepted { entry: {n} } }\n\
withdraw {n} = Withdrawn { item: {n+1} }\n\
rewind = Rewound { item: {n+1} }\n\
rewind = Rewound { item: {n} }\n\
put 0 ; map {n} 1 0 {n}\n\
take 0\n\
bind 0 = .. outcome: Accepted { entry: {n} } }\n";

/// Jobs of no access, of one, of two and of three.
const FEW_ACCESSES: &str = "\
job = Begun { job: 0, places: [] }\n\
end 0 = Ended { job: 0 }\n\
job ; read 0 = Begun { job: 1, places: [Place { target: Buffer { id: b0, byte: 0 }, flags: Flags { read_only: false } }] }\n\
end 1 = Ended { job: 1 }\n\
job ; read 0 ; read 0 = Begun { job: 2, places: [Place { target: Buffer { id: b0, byte: 0 }, flags: Flags { read_only: false } }, Place { target: Buffer { id: b0, byte: 0 }, flags: Flags { read_only: false } }] }\n\
end 2 = Ended { job: 2 }\n\
job ; read 0 ; read 0 ; read 0 = Begun { job: 3, places: [Place { target: Buffer { id: b0, byte: 0 }, flags: Flags { read_only: false } }, Place { target: Buffer { id: b0, byte: 0 }, flags: Flags { read_only: false } }, Place { target: Buffer { id: b0, byte: 0 }, flags: Flags { read_only: false } }] }\n\
end 3 = Ended { job: 3 }\n";

/// A job of so many accesses, each at the first byte of the buffer.
const ACCESSES: &str = "\
job ; read 0 0 0 0 {n} = Begun {n} at {n} of Some(Place { target: Buffer { id: b0, byte: 0 }, flags: Flags { read_only: false } })\n\
end {n} = Ended { job: {n} }\n";

/// It has more than a job may have.
const TOO_MANY_ACCESSES: &str = "\
job ; read 0 0 0 0 {n} = Refused { fault: TooManyAccesses }\n";

const JOBS: &[Act] = &[
    Act(0, 1, BUFFER),
    Act(0, 301, UNDOS),
    Act(0, 1, FEW_ACCESSES),
    Act(4, 257, ACCESSES),
    Act(257, 301, TOO_MANY_ACCESSES),
];

#[test]
fn jobs_and_undo_values_of_all_counts_are_held(rt: HostRuntime) -> Result<(), Fail> {
    play(&rt, &COUNTED, JOBS)
}
