//! What is left of a queue whose worker ends before its driver is done.
use crate::gates::Patience;
use crate::row::{FULL, NOUGHT, ONE, Put, Setting, Step, THREE, TWO, Wanted, WantedEntry};
use crate::running::{TIMES, run};
use gv_types::PAGE_BYTES;
use gv_vm::Outcome;
use std::alloc::Global;
use std::process::Abort;
use std::sync::Wait;
use std::sync::atomic::AtomicBool;
use std::test::Fail;
use std::thread::Threads;

/// The driver puts an address space in the place of the one under the lock of which each queue may be told one outcome. So
/// the worker ends with the second request in hand, and the others still stand in the channel.
const CUT_SHORT: Setting = Setting {
    limits: FULL,
    count: 1,
    depth: 4,
    steps: &[
        Step::Replace { told: 1 },
        Step::Put(Put(0, NOUGHT, Ok(0))),
        Step::Put(Put(0, ONE, Ok(1))),
        Step::Put(Put(0, TWO, Ok(2))),
        Step::Put(Put(0, THREE, Ok(3))),
    ],
};

const FIRST_ALONE: Wanted = Wanted {
    told: [&[Outcome::Accepted { entry: 0 }], &[]],
    entries: &[WantedEntry(0, 0, NOUGHT)],
    mappings: 1,
    zeros: &[0],
    nowhere: &[PAGE_BYTES, 2 * PAGE_BYTES, 3 * PAGE_BYTES],
    numbers: [0, 0],
};

#[test]
fn what_stands_in_the_channel_is_left(rt: HostRuntime) -> Result<(), Fail> {
    for _ in 0..TIMES {
        cut_short(&rt, rt.alloc())?;
    }
    Ok(())
}

fn cut_short<R: Threads + Wait + Abort + Sync>(rt: &R, alloc: Global) -> Result<(), Fail> {
    let asked = AtomicBool::new(false);
    let gate = Patience {
        turns: 1,
        asked: &asked,
        holds: false,
    };
    let ran = run(rt, alloc, &CUT_SHORT, &gate, &asked)?;
    ran.expect_ends(rt, 1);
    ran.expect(rt, &FIRST_ALONE);
    ran.expect_left(rt, &[ONE, TWO, THREE]);
    ran.close();
    Ok(())
}
