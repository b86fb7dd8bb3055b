//! Rows that are run many times each, with requests given up after a number of turns.
use crate::gates::Patience;
use crate::row::{Setting, Wanted};
use crate::running::{TIMES, run};
use std::alloc::Global;
use std::process::Abort;
use std::sync::Wait;
use std::sync::atomic::AtomicBool;
use std::test::Fail;
use std::thread::Threads;

/// Queues, each of whose requests is given up at so many turns, and what is wanted at the end.
pub struct Row {
    pub turns: u64,
    /// Whether queue 1 is held before the lock until the gate was asked for queue 0.
    pub holds: bool,
    pub setting: Setting,
    pub wanted: Wanted,
}

/// Runs a row many times.
pub fn play<R: Threads + Wait + Abort + Sync>(
    rt: &R,
    alloc: Global,
    row: &Row,
) -> Result<(), Fail> {
    for _ in 0..TIMES {
        let asked = AtomicBool::new(false);
        let gate = Patience {
            turns: row.turns,
            asked: &asked,
            holds: row.holds,
        };
        let ran = run(rt, alloc, &row.setting, &gate, &asked)?;
        ran.expect_ends(rt, row.setting.count);
        ran.expect(rt, &row.wanted);
        ran.close();
    }
    Ok(())
}
