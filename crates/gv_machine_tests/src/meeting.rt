//! Two workers that run at once.
use crate::gates::Meeting;
use crate::row::{FULL, NOTHING, Put, Sent, Setting, Step};
use crate::running::{TIMES, run};
use gv_types::PAGE_BYTES;
use std::alloc::Global;
use std::process::Abort;
use std::sync::Wait;
use std::sync::atomic::AtomicBool;
use std::test::Fail;
use std::thread::Threads;

/// A request on each of two queues.
const BOTH: Setting = Setting {
    limits: FULL,
    count: 2,
    depth: 1,
    steps: &[
        Step::Put(Put(
            0,
            Sent {
                zeros: &[0],
                ..NOTHING
            },
            Ok(0),
        )),
        Step::Put(Put(
            1,
            Sent {
                zeros: &[PAGE_BYTES],
                ..NOTHING
            },
            Ok(0),
        )),
    ],
};

#[test]
fn two_workers_meet(rt: HostRuntime) -> Result<(), Fail> {
    for _ in 0..TIMES {
        meet(&rt, rt.alloc())?;
    }
    Ok(())
}

/// Each worker comes to the lock before the other was served.
fn meet<R: Threads + Wait + Abort + Sync>(rt: &R, alloc: Global) -> Result<(), Fail> {
    let asked = AtomicBool::new(false);
    let gate = Meeting::new();
    let ran = run(rt, alloc, &BOTH, &gate, &asked)?;
    ran.expect_ends(rt, 2);
    let entries = ran.entries();
    ran.close();
    assert_eq!(rt; (entries, gate.both_met()), (2, true));
    Ok(())
}
