//! Drivers that go past the limits, and one that takes entries back while queues run.
use crate::gates::TURNS;
use crate::row::{
    FIRST, FULL, NOTHING, NOUGHT, ONE, Put, Sent, Setting, Step, THREE, TWO, WAITS, Wanted,
    WantedEntry,
};
use crate::rows::{Row, play};
use gv_types::{Fault, PAGE_BYTES};
use gv_vm::Outcome;
use std::test::Fail;

const FOUR: Sent = Sent {
    zeros: &[4 * PAGE_BYTES],
    ..NOTHING
};

/// A request that waits is put, then, once its worker waits, two more on the one place of the queue; then the first is
/// reached.
const FILLED: Row = Row {
    turns: TURNS,
    holds: false,
    setting: Setting {
        limits: FULL,
        count: 1,
        depth: 1,
        steps: &[
            Step::Put(Put(0, WAITS, Ok(0))),
            Step::AwaitAsked,
            Step::Put(Put(0, ONE, Ok(1))),
            Step::Put(Put(0, TWO, Err(Fault::QueueFull))),
            Step::Raise { point: FIRST },
        ],
    },
    wanted: Wanted {
        told: [
            &[
                Outcome::Accepted { entry: 0 },
                Outcome::Accepted { entry: 1 },
            ],
            &[],
        ],
        entries: &[WantedEntry(0, 0, WAITS), WantedEntry(0, 1, ONE)],
        mappings: 2,
        zeros: &[0, PAGE_BYTES],
        nowhere: &[2 * PAGE_BYTES],
        numbers: [1, 0],
    },
};

#[test]
fn full_queue_hands_a_request_back(rt: HostRuntime) -> Result<(), Fail> {
    play(&rt, rt.alloc(), &FILLED)
}

/// The same, and a further request is put when both are told.
const FILLED_AGAIN: Row = Row {
    turns: TURNS,
    holds: false,
    setting: Setting {
        limits: FULL,
        count: 1,
        depth: 1,
        steps: &[
            Step::Put(Put(0, WAITS, Ok(0))),
            Step::AwaitAsked,
            Step::Put(Put(0, ONE, Ok(1))),
            Step::Put(Put(0, TWO, Err(Fault::QueueFull))),
            Step::Raise { point: FIRST },
            Step::AwaitTold { outcomes: 2 },
            Step::Put(Put(0, THREE, Ok(2))),
        ],
    },
    wanted: Wanted {
        told: [
            &[
                Outcome::Accepted { entry: 0 },
                Outcome::Accepted { entry: 1 },
                Outcome::Accepted { entry: 2 },
            ],
            &[],
        ],
        entries: &[
            WantedEntry(0, 0, WAITS),
            WantedEntry(0, 1, ONE),
            WantedEntry(0, 2, THREE),
        ],
        mappings: 3,
        zeros: &[0, PAGE_BYTES, 3 * PAGE_BYTES],
        nowhere: &[2 * PAGE_BYTES],
        numbers: [1, 0],
    },
};

#[test]
fn full_queue_takes_a_request_after_a_take(rt: HostRuntime) -> Result<(), Fail> {
    play(&rt, rt.alloc(), &FILLED_AGAIN)
}

/// Two outcomes may be told, so the third put is refused, though the channel has room.
const SPENT: Row = Row {
    turns: 1,
    holds: false,
    setting: Setting {
        limits: [1, 1, 1, 2],
        count: 1,
        depth: 3,
        steps: &[
            Step::Put(Put(0, NOUGHT, Ok(0))),
            Step::Put(Put(0, ONE, Ok(1))),
            Step::Put(Put(0, TWO, Err(Fault::QueueSpent))),
        ],
    },
    wanted: Wanted {
        told: [
            &[
                Outcome::Accepted { entry: 0 },
                Outcome::Refused {
                    op: 0,
                    fault: Fault::JournalFull,
                },
            ],
            &[],
        ],
        entries: &[WantedEntry(0, 0, NOUGHT)],
        mappings: 1,
        zeros: &[0],
        nowhere: &[PAGE_BYTES, 2 * PAGE_BYTES],
        numbers: [0, 0],
    },
};

#[test]
fn queue_is_spent_at_its_limit(rt: HostRuntime) -> Result<(), Fail> {
    play(&rt, rt.alloc(), &SPENT)
}

/// Two requests are told, then the driver withdraws one, takes that back, and takes both back, under the lock of the workers.
const TAKEN_BACK: Row = Row {
    turns: 1,
    holds: false,
    setting: Setting {
        limits: FULL,
        count: 1,
        depth: 2,
        steps: &[
            Step::Put(Put(0, NOUGHT, Ok(0))),
            Step::Put(Put(0, FOUR, Ok(1))),
            Step::AwaitTold { outcomes: 2 },
            Step::Withdraw {
                entry: 0,
                number: Ok(2),
            },
            Step::Look {
                addr: 0,
                zeros: false,
            },
            Step::Look {
                addr: 4 * PAGE_BYTES,
                zeros: true,
            },
            Step::Rewind { number: Ok(2) },
            Step::Look {
                addr: 0,
                zeros: true,
            },
            Step::Look {
                addr: 4 * PAGE_BYTES,
                zeros: true,
            },
            Step::Rewind { number: Ok(1) },
            Step::Rewind { number: Ok(0) },
        ],
    },
    wanted: Wanted {
        told: [
            &[
                Outcome::Accepted { entry: 0 },
                Outcome::Accepted { entry: 1 },
            ],
            &[],
        ],
        entries: &[],
        mappings: 0,
        zeros: &[],
        nowhere: &[0, 4 * PAGE_BYTES],
        numbers: [0, 0],
    },
};

#[test]
fn driver_takes_entries_back_meanwhile(rt: HostRuntime) -> Result<(), Fail> {
    play(&rt, rt.alloc(), &TAKEN_BACK)
}

/// Two requests are told, and the driver lets their outcomes go under the lock of the workers once no entry holds them. The third is
/// told its own number, and all three are counted at the end.
const FORGOTTEN: Row = Row {
    turns: 1,
    holds: false,
    setting: Setting {
        limits: FULL,
        count: 1,
        depth: 2,
        steps: &[
            Step::Put(Put(0, NOUGHT, Ok(0))),
            Step::Put(Put(0, FOUR, Ok(1))),
            Step::AwaitTold { outcomes: 2 },
            Step::Rewind { number: Ok(1) },
            Step::Forget {
                to: 2,
                count: Err(Fault::Held { by: 0 }),
            },
            Step::Rewind { number: Ok(0) },
            Step::Forget {
                to: 3,
                count: Err(Fault::NoOutcome),
            },
            Step::Forget {
                to: 2,
                count: Ok(2),
            },
            Step::Put(Put(0, TWO, Ok(2))),
            Step::AwaitTold { outcomes: 3 },
        ],
    },
    wanted: Wanted {
        told: [&[Outcome::Accepted { entry: 0 }], &[]],
        entries: &[WantedEntry(0, 2, TWO)],
        mappings: 1,
        zeros: &[2 * PAGE_BYTES],
        nowhere: &[0, 4 * PAGE_BYTES],
        numbers: [0, 0],
    },
};

#[test]
fn driver_forgets_outcomes_meanwhile(rt: HostRuntime) -> Result<(), Fail> {
    play(&rt, rt.alloc(), &FORGOTTEN)
}
