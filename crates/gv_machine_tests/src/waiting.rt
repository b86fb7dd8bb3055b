//! Queues that wait for one another, or for what doesn't come.
use crate::gates::TURNS;
use crate::row::{
    FIRST, FULL, NOTHING, NOUGHT, Put, SECOND, Sent, Setting, Step, WAITS, Wanted, WantedEntry,
};
use crate::rows::{Row, play};
use gv_types::{PAGE_BYTES, Point};
use gv_vm::Outcome;
use std::test::Fail;

const SIGNALS: Sent = Sent {
    zeros: &[4 * PAGE_BYTES],
    signals: &[FIRST],
    ..NOTHING
};

/// Queue 0 waits for what queue 1 signals.
const IN_TURN: Row = Row {
    turns: TURNS,
    holds: true,
    setting: Setting {
        limits: FULL,
        count: 2,
        depth: 2,
        steps: &[
            Step::Put(Put(0, WAITS, Ok(0))),
            Step::Put(Put(1, SIGNALS, Ok(0))),
        ],
    },
    wanted: Wanted {
        told: [
            &[Outcome::Accepted { entry: 1 }],
            &[Outcome::Accepted { entry: 0 }],
        ],
        entries: &[WantedEntry(1, 0, SIGNALS), WantedEntry(0, 0, WAITS)],
        mappings: 2,
        zeros: &[0, 4 * PAGE_BYTES],
        nowhere: &[],
        numbers: [1, 0],
    },
};

#[test]
fn one_queue_waits_for_the_other(rt: HostRuntime) -> Result<(), Fail> {
    play(&rt, rt.alloc(), &IN_TURN)
}

/// Each of two queues waits for what the other would signal.
const CROSSING: Row = Row {
    turns: 1_000,
    holds: false,
    setting: Setting {
        limits: FULL,
        count: 2,
        depth: 1,
        steps: &[
            Step::Put(Put(
                0,
                Sent {
                    zeros: &[0],
                    waits: &[FIRST],
                    signals: &[SECOND],
                },
                Ok(0),
            )),
            Step::Put(Put(
                1,
                Sent {
                    zeros: &[PAGE_BYTES],
                    waits: &[SECOND],
                    signals: &[FIRST],
                },
                Ok(0),
            )),
        ],
    },
    wanted: Wanted {
        told: [
            &[Outcome::NotReady {
                point: FIRST,
                have: 0,
            }],
            &[Outcome::NotReady {
                point: SECOND,
                have: 0,
            }],
        ],
        entries: &[],
        mappings: 0,
        zeros: &[],
        nowhere: &[0, PAGE_BYTES],
        numbers: [0, 0],
    },
};

#[test]
fn crossing_waits_are_given_up(rt: HostRuntime) -> Result<(), Fail> {
    play(&rt, rt.alloc(), &CROSSING)
}

/// A point that nobody raises.
const NINE: Point = Point {
    timeline: 0,
    value: 9,
};

/// A request that waits for it, and one behind it.
const BEHIND: Row = Row {
    turns: 10,
    holds: false,
    setting: Setting {
        limits: FULL,
        count: 1,
        depth: 2,
        steps: &[
            Step::Put(Put(
                0,
                Sent {
                    waits: &[NINE],
                    ..NOTHING
                },
                Ok(0),
            )),
            Step::Put(Put(0, NOUGHT, Ok(1))),
        ],
    },
    wanted: Wanted {
        told: [
            &[
                Outcome::NotReady {
                    point: NINE,
                    have: 0,
                },
                Outcome::Accepted { entry: 0 },
            ],
            &[],
        ],
        entries: &[WantedEntry(0, 1, NOUGHT)],
        mappings: 1,
        zeros: &[0],
        nowhere: &[PAGE_BYTES],
        numbers: [0, 0],
    },
};

#[test]
fn request_behind_one_given_up_is_served(rt: HostRuntime) -> Result<(), Fail> {
    play(&rt, rt.alloc(), &BEHIND)
}
