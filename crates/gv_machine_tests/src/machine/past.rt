//! What the entries say of an address, the newest first, and what lies under them.
use crate::machine::play::{WIDE, play};
use crate::machine::stage::Act;
use std::test::Fail;

/// At last two operations on page 1: the last one decides, and page 0 is covered by the first alone.
const OVER_ONE_ANOTHER: &str = "\
past 0x1abc = [] over None\n\
create 4\n\
create 2\n\
put 0 ; map 0 4 0 0\n\
take 0\n\
bind 0 = Told { number: 0, outcome: Accepted { entry: 0 } }\n\
put 0 ; map 1 1 1 1\n\
take 0\n\
bind 0 = Told { number: 1, outcome: Accepted { entry: 1 } }\n\
put 0 ; unmap 1 2\n\
take 0\n\
bind 0 = Told { number: 2, outcome: Accepted { entry: 2 } }\n\
put 0 ; map 0 2 1 0 ; zero 1\n\
take 0\n\
bind 0 = Told { number: 3, outcome: Accepted { entry: 3 } }\n\
past 0x1abc = [PastItem { entry: 3, is_withdrawn: false, place: Some(Place { target: Zero, flags: Flags { read_only: false } }) }, PastItem { entry: 2, is_withdrawn: false, place: None }, PastItem { entry: 1, is_withdrawn: false, place: Some(Place { target: Buffer { id: b1, byte: 6844 }, flags: Flags { read_only: false } }) }, PastItem { entry: 0, is_withdrawn: false, place: Some(Place { target: Buffer { id: b0, byte: 6844 }, flags: Flags { read_only: false } }) }] over None\n\
past 0 = [PastItem { entry: 3, is_withdrawn: false, place: Some(Place { target: Buffer { id: b1, byte: 0 }, flags: Flags { read_only: false } }) }, PastItem { entry: 0, is_withdrawn: false, place: Some(Place { target: Buffer { id: b0, byte: 0 }, flags: Flags { read_only: false } }) }] over None\n\
past 0x3fff = [PastItem { entry: 0, is_withdrawn: false, place: Some(Place { target: Buffer { id: b0, byte: 16383 }, flags: Flags { read_only: false } }) }] over None\n\
past 0x4000 = [] over None\n\
past 0x200000000000000 = [] over None\n\
past 0xffffffffffffffff = [] over None\n\
rewind = Rewound { item: 3 }\n\
past 0x1abc = [PastItem { entry: 2, is_withdrawn: false, place: None }, PastItem { entry: 1, is_withdrawn: false, place: Some(Place { target: Buffer { id: b1, byte: 6844 }, flags: Flags { read_only: false } }) }, PastItem { entry: 0, is_withdrawn: false, place: Some(Place { target: Buffer { id: b0, byte: 6844 }, flags: Flags { read_only: false } }) }] over None\n\
settle 2 = Settled { count: 2 }\n";

/// What is settled lies under the rest: now page 1 was the second buffer's, and pages 2 and 3 are still the first's there.
const UNDER_SETTLED: &str = "\
past 0x1abc = [PastItem { entry: 2, is_withdrawn: false, place: None }] over Some(Place { target: Buffer { id: b1, byte: 6844 }, flags: Flags { read_only: false } })\n\
past 0x2000 = [PastItem { entry: 2, is_withdrawn: false, place: None }] over Some(Place { target: Buffer { id: b0, byte: 8192 }, flags: Flags { read_only: false } })\n\
past 0x3000 = [] over Some(Place { target: Buffer { id: b0, byte: 12288 }, flags: Flags { read_only: false } })\n";

const ENTRIES_OVER_ONE_ANOTHER: &[Act] = &[Act(0, 1, OVER_ONE_ANOTHER), Act(0, 1, UNDER_SETTLED)];

#[test]
fn entries_over_one_another(rt: HostRuntime) -> Result<(), Fail> {
    play(&rt, &WIDE, ENTRIES_OVER_ONE_ANOTHER)
}

const WHOLE: &str = "\
create 2\n\
create 1\n\
put 0 ; map 0 1 0 1 ; map 4 1 0 0 1 1 0 1 ; map 2 1 1 0\n\
take 0\n\
bind 0 = Told { number: 0, outcome: Accepted { entry: 0 } }\n\
settle 1 = Settled { count: 1 }\n\
put 0 ; unmap_all 0\n\
take 0\n\
bind 0 = Told { number: 1, outcome: Accepted { entry: 1 } }\n\
past 0x5 = [PastItem { entry: 1, is_withdrawn: false, place: None }] over Some(Place { target: Buffer { id: b0, byte: 4101 }, flags: Flags { read_only: false } })\n\
past 0x4005 = [PastItem { entry: 1, is_withdrawn: false, place: None }] over Some(Place { target: Buffer { id: b0, byte: 5 }, flags: Flags { read_only: true } })\n";

/// The pages between were not covered by the unmap of the whole buffer.
const BETWEEN: &str = "\
past 0x2005 = [] over Some(Place { target: Buffer { id: b1, byte: 5 }, flags: Flags { read_only: false } })\n\
withdraw 1 = Withdrawn { item: 2 }\n\
past 0x5 = [PastItem { entry: 1, is_withdrawn: true, place: None }] over Some(Place { target: Buffer { id: b0, byte: 4101 }, flags: Flags { read_only: false } })\n";

/// Over a withdrawn one: what it took out is not asked.
const OVER_WITHDRAWN: &str = "\
put 0 ; unmap 0 8 ; map 0 1 1 0\n\
take 0\n\
bind 0 = Told { number: 2, outcome: Accepted { entry: 3 } }\n\
past 0x5 = [PastItem { entry: 3, is_withdrawn: false, place: Some(Place { target: Buffer { id: b1, byte: 5 }, flags: Flags { read_only: false } }) }, PastItem { entry: 1, is_withdrawn: true, place: None }] over Some(Place { target: Buffer { id: b0, byte: 4101 }, flags: Flags { read_only: false } })\n\
past 0x4005 = [PastItem { entry: 3, is_withdrawn: false, place: None }, PastItem { entry: 1, is_withdrawn: true, place: None }] over Some(Place { target: Buffer { id: b0, byte: 5 }, flags: Flags { read_only: true } })\n\
settle 3 = Settled { count: 2 }\n\
past 0x4005 = [PastItem { entry: 3, is_withdrawn: false, place: None }] over Some(Place { target: Buffer { id: b0, byte: 5 }, flags: Flags { read_only: true } })\n";

const WITHDRAWN: &[Act] = &[
    Act(0, 1, WHOLE),
    Act(0, 1, BETWEEN),
    Act(0, 1, OVER_WITHDRAWN),
];

#[test]
fn entries_withdrawn_and_whole_buffers(rt: HostRuntime) -> Result<(), Fail> {
    play(&rt, &WIDE, WITHDRAWN)
}
