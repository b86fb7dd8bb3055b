//! What a gate is asked names the request by its queue and its number.
use crate::gates::Roll;
use crate::row::{FULL, NOTHING, Put, Sent, Setting, Step, Wanted};
use crate::running::{TIMES, run};
use gv_types::Point;
use gv_vm::Outcome;
use std::alloc::Global;
use std::process::Abort;
use std::sync::Wait;
use std::sync::atomic::AtomicBool;
use std::test::Fail;
use std::thread::Threads;

/// Two requests on each of two queues, none of whose points is ever reached.
const FOUR: Setting = Setting {
    limits: FULL,
    count: 2,
    depth: 2,
    steps: &[
        Step::Put(Put(
            0,
            Sent {
                waits: &[Point {
                    timeline: 0,
                    value: 10,
                }],
                ..NOTHING
            },
            Ok(0),
        )),
        Step::Put(Put(
            1,
            Sent {
                waits: &[Point {
                    timeline: 1,
                    value: 10,
                }],
                ..NOTHING
            },
            Ok(0),
        )),
        Step::Put(Put(
            0,
            Sent {
                waits: &[Point {
                    timeline: 0,
                    value: 11,
                }],
                ..NOTHING
            },
            Ok(1),
        )),
        Step::Put(Put(
            1,
            Sent {
                waits: &[Point {
                    timeline: 1,
                    value: 11,
                }],
                ..NOTHING
            },
            Ok(1),
        )),
    ],
};

const GIVEN_UP: Wanted = Wanted {
    told: [
        &[
            Outcome::NotReady {
                point: Point {
                    timeline: 0,
                    value: 10,
                },
                have: 0,
            },
            Outcome::NotReady {
                point: Point {
                    timeline: 0,
                    value: 11,
                },
                have: 0,
            },
        ],
        &[
            Outcome::NotReady {
                point: Point {
                    timeline: 1,
                    value: 10,
                },
                have: 0,
            },
            Outcome::NotReady {
                point: Point {
                    timeline: 1,
                    value: 11,
                },
                have: 0,
            },
        ],
    ],
    entries: &[],
    mappings: 0,
    zeros: &[],
    nowhere: &[0],
    numbers: [0, 0],
};

#[test]
fn each_request_is_asked_for_by_name(rt: HostRuntime) -> Result<(), Fail> {
    for _ in 0..TIMES {
        call_the_roll(&rt, rt.alloc())?;
    }
    Ok(())
}

fn call_the_roll<R: Threads + Wait + Abort + Sync>(rt: &R, alloc: Global) -> Result<(), Fail> {
    let asked = AtomicBool::new(false);
    let gate = Roll::new();
    let ran = run(rt, alloc, &FOUR, &gate, &asked)?;
    ran.expect_ends(rt, 2);
    ran.expect(rt, &GIVEN_UP);
    ran.close();
    assert!(rt; gate.is_called());
    Ok(())
}
