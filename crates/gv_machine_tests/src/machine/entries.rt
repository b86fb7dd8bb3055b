//! Entries taken back, withdrawn and settled.
use crate::machine::play::{WIDE, play_text};
use std::test::Fail;

const WITHDRAWALS: &str = "\
create 4\n\
create 2\n\
put 0 ; map 0 4 0 0\n\
take 0\n\
bind 0 = Told { number: 0, outcome: Accepted { entry: 0 } }\n\
put 0 ; map 1 2 1 0\n\
take 0\n\
bind 0 = Told { number: 1, outcome: Accepted { entry: 1 } }\n\
withdraw 0 = Refused { fault: Touched { by: 1 } }\n\
withdraw 1 = Withdrawn { item: 2 }\n\
at 0x1abc = Found { place: Some(Place { target: Buffer { id: b0, byte: 6844 }, flags: Flags { read_only: false } }) }\n\
withdraw 0 = Withdrawn { item: 3 }\n\
at 0x1abc = Found { place: None }\n\
held = 4 entries, 0 mappings\n\
withdraw 1 = Refused { fault: Withdrawn }\n\
withdraw 2 = Refused { fault: NotABind }\n\
withdraw 9 = Refused { fault: NoEntry }\n\
rewind = Rewound { item: 3 }\n\
rewind = Rewound { item: 2 }\n\
at 0x1abc = Found { place: Some(Place { target: Buffer { id: b1, byte: 2748 }, flags: Flags { read_only: false } }) }\n\
at 0x3abc = Found { place: Some(Place { target: Buffer { id: b0, byte: 15036 }, flags: Flags { read_only: false } }) }\n\
at 0x200000000000000 = Found { place: None }\n";

#[test]
fn withdrawals_follow_what_touches(rt: HostRuntime) -> Result<(), Fail> {
    play_text(&rt, &WIDE, WITHDRAWALS)
}

const SETTLINGS: &str = "\
put 0 ; zero 0\n\
take 0\n\
bind 0 = Told { number: 0, outcome: Accepted { entry: 0 } }\n\
withdraw 0 = Withdrawn { item: 1 }\n\
settle 1 = Refused { fault: Crossed { by: 1 } }\n\
settle 3 = Refused { fault: NoEntry }\n\
settle 2 = Settled { count: 2 }\n\
settle 2 = Settled { count: 0 }\n\
settle 1 = Refused { fault: NoEntry }\n\
held = 0 entries, 0 mappings\n\
put 0 ; zero 0\n\
take 0\n\
bind 0 = Told { number: 1, outcome: Accepted { entry: 2 } }\n";

#[test]
fn settled_entries_are_gone(rt: HostRuntime) -> Result<(), Fail> {
    play_text(&rt, &WIDE, SETTLINGS)
}

const SETTLED_MAP: &str = "\
create 1\n\
put 0 ; map 0\n\
take 0\n\
bind 0 = Told { number: 0, outcome: Accepted { entry: 0 } }\n\
settle 1 = Settled { count: 1 }\n\
put 0 ; zero 0\n\
take 0\n\
bind 0 = Told { number: 1, outcome: Accepted { entry: 1 } }\n\
withdraw 1 = Withdrawn { item: 2 }\n\
at 0 = Found { place: Some(Place { target: Buffer { id: b0, byte: 0 }, flags: Flags { read_only: false } }) }\n\
destroy 0 = Refused { fault: Mapped { count: 1 } }\n";

#[test]
fn settled_mapping_stands(rt: HostRuntime) -> Result<(), Fail> {
    play_text(&rt, &WIDE, SETTLED_MAP)
}
