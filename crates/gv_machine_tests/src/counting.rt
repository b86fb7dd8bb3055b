//! How often a gate is asked.
use crate::gates::Counting;
use crate::row::{FIRST, FULL, Put, SECOND, Sent, Setting, Step, Wanted};
use crate::running::{TIMES, run};
use gv_vm::Outcome;
use std::alloc::Global;
use std::process::Abort;
use std::sync::Wait;
use std::sync::atomic::AtomicBool;
use std::test::Fail;
use std::thread::Threads;

/// A request that waits for a point of each timeline. The first is raised once the gate was asked, the second never.
const BOTH: Setting = Setting {
    limits: FULL,
    count: 1,
    depth: 1,
    steps: &[
        Step::Put(Put(
            0,
            Sent {
                zeros: &[0],
                waits: &[FIRST, SECOND],
                signals: &[SECOND],
            },
            Ok(0),
        )),
        Step::AwaitAsked,
        Step::Raise { point: FIRST },
    ],
};

const GIVEN_UP: Wanted = Wanted {
    told: [
        &[Outcome::NotReady {
            point: SECOND,
            have: 0,
        }],
        &[],
    ],
    entries: &[],
    mappings: 0,
    zeros: &[],
    nowhere: &[0],
    numbers: [1, 0],
};

#[test]
fn turns_are_counted_over_all_waits(rt: HostRuntime) -> Result<(), Fail> {
    for _ in 0..TIMES {
        wait_for_both(&rt, rt.alloc())?;
    }
    Ok(())
}

fn wait_for_both<R: Threads + Wait + Abort + Sync>(rt: &R, alloc: Global) -> Result<(), Fail> {
    let asked = AtomicBool::new(false);
    let gate = Counting::new(&asked);
    let ran = run(rt, alloc, &BOTH, &gate, &asked)?;
    ran.expect_ends(rt, 1);
    ran.expect(rt, &GIVEN_UP);
    ran.close();
    let Some((calls, of_second)) = gate.calls() else {
        return Err("turns".into());
    };
    assert_eq!(rt; (calls > of_second, of_second), (true, 10));
    Ok(())
}
