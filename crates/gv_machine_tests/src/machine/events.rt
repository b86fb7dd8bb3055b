//! Rows of events, each with the reply that a world gives.
use crate::machine::play::{SMALL, play, play_text};
use crate::machine::stage::Act;
use std::test::Fail;

/// A queue's turns, whole.
pub const TURNS: &str = "\
take 0 = Idle\n\
put 0 ; zero 0 ; wait 0 2 ; signal 0 3 = Put { number: 0 }\n\
put 0 = NotPut { fault: QueueFull, request: Request { ops: [], waits: [], signals: [] } }\n\
bind 0 = Idle\n\
take 0 = Taken { number: 0 }\n\
put 0 = Put { number: 1 }\n\
bind 0 = Idle\n\
look 0 = Lacking { point: Point { timeline: 0, value: 2 }, have: 0 }\n\
raise 0 2 = Raised { point: Point { timeline: 0, value: 2 }, now: 2 }\n\
look 0 = Reached { point: Point { timeline: 0, value: 2 }, seen: 2 }\n\
give_up 0 = Idle\n\
bind 0 = Told { number: 0, outcome: Accepted { entry: 0 } }\n\
take 0 = Idle\n\
pay 0 = Raised { point: Point { timeline: 0, value: 3 }, now: 3 }\n\
pay 0 = Idle\n\
rewind = Rewound { item: 0 }\n\
rewind = Refused { fault: NoEntry }\n\
at 0 = Found { place: None }\n";

#[test]
fn queue_takes_its_turns(rt: HostRuntime) -> Result<(), Fail> {
    play_text(&rt, &SMALL, TURNS)
}

/// A request that waits for what isn't reached, and is given up: it pays nothing.
const GIVEN_UP: &str = "\
raise 0 1 = Raised { point: Point { timeline: 0, value: 1 }, now: 1 }\n\
raise 1 1 = Idle\n\
put 1 ; zero 0 ; wait 0 3 ; signal 0 9 = Put { number: 0 }\n\
take 1 = Taken { number: 0 }\n\
look 1 = Lacking { point: Point { timeline: 0, value: 3 }, have: 1 }\n\
give_up 1 = Told { number: 0, outcome: NotReady { point: Point { timeline: 0, value: 3 }, have: 1 } }\n\
pay 1 = Idle\n";

/// A request that is refused: it pays nothing.
const REFUSED: &str = "\
put 1 ; zero 0 ; zero 0 0 ; signal 0 9 = Put { number: 1 }\n\
take 1 = Taken { number: 1 }\n\
bind 1 = Told { number: 1, outcome: Refused { op: 1, fault: Empty } }\n\
pay 1 = Idle\n\
raise 0 5 = Raised { point: Point { timeline: 0, value: 5 }, now: 5 }\n";

/// A request whose wait is reached: it pays its two signals, which stay when it is taken back.
const PAID: &str = "\
put 1 ; zero 0 ; wait 0 3 ; signal 0 7 ; signal 0 4 = Put { number: 2 }\n\
take 1 = Taken { number: 2 }\n\
look 1 = Reached { point: Point { timeline: 0, value: 3 }, seen: 5 }\n\
bind 1 = Told { number: 2, outcome: Accepted { entry: 0 } }\n\
pay 1 = Raised { point: Point { timeline: 0, value: 7 }, now: 7 }\n\
pay 1 = Raised { point: Point { timeline: 0, value: 4 }, now: 7 }\n\
rewind = Rewound { item: 0 }\n\
raise 0 0 = Raised { point: Point { timeline: 0, value: 0 }, now: 7 }\n";

const SIGNALS: &[Act] = &[Act(0, 1, GIVEN_UP), Act(0, 1, REFUSED), Act(0, 1, PAID)];

#[test]
fn only_what_is_accepted_signals(rt: HostRuntime) -> Result<(), Fail> {
    play(&rt, &SMALL, SIGNALS)
}
