//! Rows of outcomes let go: which faults refuse it, in their order, and that numbers and room go on behind it.
use crate::machine::play::{WIDE, WorldSetup, play};
use crate::machine::stage::Act;
use std::test::Fail;

/// One queue with two places, that holds three outcomes and waiting requests of it at most.
const NARROW: WorldSetup = WorldSetup {
    limits: [1, 8, 8, 3],
    sizes: [1, 2, 1],
    compares: true,
};

/// Puts a request, takes it and carries it out: it is accepted as the entry with its own number.
const ACCEPT: &str = "\
put 0 ; zero 0 = Put { number: {n} }\n\
take 0 = Taken { number: {n} }\n\
bind 0 = Told { number: {n}, outcome: Accepted { entry: {n} } }\n";

const STAY: &str = "\
forget 0 4 = Refused { fault: NoOutcome }\n\
forget 0 1 = Refused { fault: Held { by: 0 } }\n\
forget 0 0 = Forgot { count: 0 }\n\
settle 2 = Settled { count: 2 }\n\
forget 0 3 = Refused { fault: Held { by: 2 } }\n\
forget 0 2 = Forgot { count: 2 }\n\
forget 0 1 = Refused { fault: NoOutcome }\n\
forget 0 2 = Forgot { count: 0 }\n\
told 0 = 2 to 3: [Accepted { entry: 2 }]\n";

const OUTCOMES_OF_HELD_ENTRIES_STAY: &[Act] = &[Act(0, 3, ACCEPT), Act(0, 1, STAY)];

#[test]
fn outcomes_of_held_entries_stay(rt: HostRuntime) -> Result<(), Fail> {
    play(&rt, &NARROW, OUTCOMES_OF_HELD_ENTRIES_STAY)
}

/// Of three outcomes two are forgotten: then two requests more are put, and no third one.
const GO_ON: &str = "\
put 0 ; zero 0 = NotPut { fault: QueueSpent, request: Request { ops: [MapZero { addr: 0, len: 4096, flags: Flags { read_only: false } }], waits: [], signals: [] } }\n\
settle 3 = Settled { count: 3 }\n\
forget 0 2 = Forgot { count: 2 }\n\
put 0 ; zero 0 = Put { number: 3 }\n\
put 0 ; zero 0 = Put { number: 4 }\n\
put 0 ; zero 0 = NotPut { fault: QueueSpent, request: Request { ops: [MapZero { addr: 0, len: 4096, flags: Flags { read_only: false } }], waits: [], signals: [] } }\n\
take 0 = Taken { number: 3 }\n";

const NUMBERS_AND_ROOM_GO_ON: &[Act] = &[Act(0, 3, ACCEPT), Act(0, 1, GO_ON)];

#[test]
fn numbers_and_room_go_on(rt: HostRuntime) -> Result<(), Fail> {
    play(&rt, &NARROW, NUMBERS_AND_ROOM_GO_ON)
}

const OTHERS: &str = "\
forget 15 0 = Forgot { count: 0 }\n\
forget 15 1 = Refused { fault: NoOutcome }\n\
forget 16 0 = Refused { fault: NoOutcome }\n";

const OTHER_QUEUES_WERE_TOLD_NOTHING: &[Act] = &[Act(0, 1, ACCEPT), Act(0, 1, OTHERS)];

#[test]
fn other_queues_were_told_nothing(rt: HostRuntime) -> Result<(), Fail> {
    play(&rt, &NARROW, OTHER_QUEUES_WERE_TOLD_NOTHING)
}

const AGAIN: &str = "\
put 0 ; zero 0 = Put { number: {n} }\n\
take 0 = Taken { number: {n} }\n\
bind 0 = Told { number: {n}, outcome: Accepted { entry: {n} } }\n\
settle {n+1} = Settled { count: 1 }\n\
forget 0 {n+1} = Forgot { count: 1 }\n";

const ALL_GONE: &str = "\
told 0 = 100 to 100: []\n";

const QUEUE_HAS_NO_END: &[Act] = &[Act(0, 100, AGAIN), Act(0, 1, ALL_GONE)];

/// All are forgotten again and again, and the room that they had is used again.
#[test]
fn queue_has_no_end(rt: HostRuntime) -> Result<(), Fail> {
    play(&rt, &NARROW, QUEUE_HAS_NO_END)
}

/// The numbers of entries are given out again: so an outcome tells of an entry that is of a later request by now.
const GIVEN_OUT: &str = "\
put 1 ; zero 0\n\
take 1\n\
bind 1 = .. outcome: Accepted { entry: 0 } }\n\
put 0 ; zero 0\n\
take 0\n\
bind 0 = .. outcome: Accepted { entry: 1 } }\n\
put 0 ; zero 0\n\
take 0\n\
bind 0 = .. outcome: Accepted { entry: 2 } }\n\
put 1 ; zero 0\n\
take 1\n\
bind 1 = .. outcome: Accepted { entry: 3 } }\n\
rewind = Rewound { item: 3 }\n\
rewind = Rewound { item: 2 }\n\
rewind = Rewound { item: 1 }\n\
rewind = Rewound { item: 0 }\n";

const TWO_QUEUES: &str = "\
put 0 ; zero 0\n\
take 0\n\
bind 0 = .. outcome: Accepted { entry: 0 } }\n\
put 0 ; zero 0\n\
take 0\n\
bind 0 = .. outcome: Accepted { entry: 1 } }\n\
put 1 ; zero 0\n\
take 1\n\
bind 1 = .. outcome: Accepted { entry: 2 } }\n\
put 0 ; zero 0\n\
take 0\n\
bind 0 = .. outcome: Accepted { entry: 3 } }\n\
put 1 ; zero 0\n\
take 1\n\
bind 1 = .. outcome: Accepted { entry: 4 } }\n\
put 1 ; zero 0\n\
take 1\n\
bind 1 = .. outcome: Accepted { entry: 5 } }\n\
withdraw 5 = Withdrawn { item: 6 }\n";

/// Each queue is to forget all outcomes, then fewer and fewer, then one by one. What that answers the model says.
const FORGET_EACH: &str = "\
forget 0 5\n\
forget 0 4\n\
forget 0 3\n\
forget 0 2\n\
forget 0 1\n\
forget 0 0\n\
forget 0 0\n\
forget 0 1\n\
forget 0 2\n\
forget 0 3\n\
forget 0 4\n\
forget 0 5\n\
forget 1 5\n\
forget 1 4\n\
forget 1 3\n\
forget 1 2\n\
forget 1 1\n\
forget 1 0\n\
forget 1 0\n\
forget 1 1\n\
forget 1 2\n\
forget 1 3\n\
forget 1 4\n\
forget 1 5\n";

const SETTLE: &str = "\
settle {n}\n";

const FORGOTTEN: &str = "\
told 0 = 5 to 5: []\n\
told 1 = 5 to 5: []\n";

const LEAST: &[Act] = &[
    Act(0, 1, GIVEN_OUT),
    Act(0, 1, TWO_QUEUES),
    Act(0, 1, FORGET_EACH),
    Act(1, 2, SETTLE),
    Act(0, 1, FORGET_EACH),
    Act(2, 3, SETTLE),
    Act(0, 1, FORGET_EACH),
    Act(5, 6, SETTLE),
    Act(0, 1, FORGET_EACH),
    Act(7, 8, SETTLE),
    Act(0, 1, FORGET_EACH),
    Act(0, 1, FORGOTTEN),
];

/// Two queues forget outcomes by few and by many, while the journal holds many entries, few and none.
#[test]
fn least_held_entry_is_told(rt: HostRuntime) -> Result<(), Fail> {
    play(&rt, &WIDE, LEAST)
}
