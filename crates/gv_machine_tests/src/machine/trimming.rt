//! Memory freed by `trim`: what refuses it, and that a world goes on behind it as the definitions say, whatever came and went before.
//! So many mappings stand in several blocks of memory.
use crate::machine::play::{FULL, WorldSetup, play};
use crate::machine::stage::Act;
use std::test::Fail;

/// One queue of depth 1 and one timeline.
const ONE: WorldSetup = WorldSetup {
    limits: FULL,
    sizes: [1, 1, 1],
    compares: true,
};

const NOTHING_HELD: &str = "\
trim = Trimmed\n\
create 600\n\
trim = Trimmed\n";

const HELD_BY_FIRST: &str = "\
put 0 ; map {n} 1 0 {n}\n\
take 0\n\
bind 0 = .. outcome: Accepted { entry: {n} } }\n\
trim = Refused { fault: Held { by: 0 } }\n";

const HELD_NO_MORE: &str = "\
withdraw 1 = Withdrawn { item: 3 }\n\
settle 1 = Settled { count: 1 }\n\
trim = Refused { fault: Held { by: 1 } }\n\
settle 4 = Settled { count: 3 }\n\
trim = Trimmed\n\
trim = Trimmed\n\
put 0 ; unmap 0 1200\n\
take 0\n\
bind 0 = .. outcome: Accepted { entry: 4 } }\n\
trim = Refused { fault: Held { by: 4 } }\n\
rewind = Rewound { item: 4 }\n\
trim = Trimmed\n";

const HELD_ENTRIES_KEEP_ROOM: &[Act] = &[
    Act(0, 1, NOTHING_HELD),
    Act(0, 3, HELD_BY_FIRST),
    Act(0, 1, HELD_NO_MORE),
];

#[test]
fn held_entries_keep_room(rt: HostRuntime) -> Result<(), Fail> {
    play(&rt, &ONE, HELD_ENTRIES_KEEP_ROOM)
}

const BUFFER: &str = "\
create 600\n";

/// A mapping for every second of the first pages, by as many requests as they need. All entries settle, and room is given back.
const MAPS: &str = "\
put 0 ; map 0 1 0 0 256 2\n\
take 0\n\
bind 0 = .. outcome: Accepted { entry: {n} } }\n\
put 0 ; map 512 1 0 256 256 2\n\
take 0\n\
bind 0 = .. outcome: Accepted { entry: {n+1} } }\n\
put 0 ; map 1024 1 0 512 88 2\n\
take 0\n\
bind 0 = .. outcome: Accepted { entry: {n+2} } }\n\
settle {n+3} = Settled { count: 3 }\n\
trim = Trimmed\n";

/// The pages from twice a number on go.
const UNMAP: &str = "\
put 0 ; unmap {2n} 1200\n\
take 0\n\
bind 0 = .. } }\n";

const BACK: &str = "\
rewind = Rewound { item: {n+3} }\n\
trim = Trimmed\n";

const SETTLE: &str = "\
settle {n+4} = Settled { count: 1 }\n\
trim = Trimmed\n";

const GONE: &str = "\
destroy 0 = Destroyed\n\
trim = Trimmed\n";

/// Of many mappings few stay, and none, each time with room given back behind it, and all come again.
const COME_AND_GO: &[Act] = &[
    Act(0, 1, BUFFER),
    Act(0, 1, MAPS),
    Act(600, 601, UNMAP),
    Act(0, 1, BACK),
    Act(600, 601, UNMAP),
    Act(0, 1, SETTLE),
    Act(4, 5, MAPS),
    Act(300, 301, UNMAP),
    Act(4, 5, BACK),
    Act(300, 301, UNMAP),
    Act(4, 5, SETTLE),
    Act(8, 9, MAPS),
    Act(129, 130, UNMAP),
    Act(8, 9, BACK),
    Act(129, 130, UNMAP),
    Act(8, 9, SETTLE),
    Act(12, 13, MAPS),
    Act(128, 129, UNMAP),
    Act(12, 13, BACK),
    Act(128, 129, UNMAP),
    Act(12, 13, SETTLE),
    Act(16, 17, MAPS),
    Act(1, 2, UNMAP),
    Act(16, 17, BACK),
    Act(1, 2, UNMAP),
    Act(16, 17, SETTLE),
    Act(20, 21, MAPS),
    Act(0, 1, UNMAP),
    Act(20, 21, BACK),
    Act(0, 1, UNMAP),
    Act(20, 21, SETTLE),
    Act(0, 1, GONE),
];

#[test]
fn many_mappings_come_and_go(rt: HostRuntime) -> Result<(), Fail> {
    play(&rt, &ONE, COME_AND_GO)
}

/// One mapping more each time: then room is given back, a request is bound and taken back, and the mapping is bound.
const GO_ON: &str = "\
put 0 ; unmap 1 1200 ; map {2n} 1 0 {n}\n\
take 0\n\
bind 0 = .. outcome: Accepted { entry: {n} } }\n\
rewind = Rewound { item: {n} }\n\
put 0 ; map {2n} 1 0 {n}\n\
take 0\n\
bind 0 = .. outcome: Accepted { entry: {n} } }\n\
settle {n+1} = Settled { count: 1 }\n\
trim = Trimmed\n";

const LISTS_OF_ALL_LENGTHS_GO_ON: &[Act] = &[Act(0, 1, BUFFER), Act(0, 300, GO_ON)];

#[test]
fn lists_of_all_lengths_go_on(rt: HostRuntime) -> Result<(), Fail> {
    play(&rt, &ONE, LISTS_OF_ALL_LENGTHS_GO_ON)
}
