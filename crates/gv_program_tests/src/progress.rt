//! How far a reading is, told on standard error.

use crate::trial::{PLAIN, Row, Trial, expect_parts, expect_rows, told};
use std::alloc::AllocError;
use std::process::Abort;
use std::rt::Files;
use std::sync::Wait;
use std::thread::Threads;

/// Three lines of 232 bytes.
const LOG: &[u8] = b"timestamp=1, VA=0000000000010000-0000000000012000, destroyed=0, is_virtual=0\n\
    timestamp=2, VA=0000000000800000-0000000000802000, mapped_to=0000000000011000\n\
    timestamp=3, VA=0000000000010000-0000000000012000, destroyed=1, is_virtual=0\n";

const SCRIPT: &[u8] = b"buffer b 4\nbind map 0x0 0x4000 b 0x0\n";

/// Read by three reads of at most 8,192 bytes.
const LINES: &[u8] = &[b'\n'; 20_000];

/// The end of a run that says nothing on standard error.
const NOTHING: &str = "----\n0";

const REPLAY: &str = "vmbind replay --format radv";

/// Asserts how what is told of a run ends, which reads this, with a clock of this pace, and a terminal if one is there.
fn expect_end<R: AllocGlobal + Threads + Wait + Sync + Files + Abort>(
    rt: &R,
    (words, input, end): (&str, &[u8], &str),
    pace: u64,
    is_terminal: bool,
) -> Result<(), AllocError> {
    let trial = Trial {
        words,
        input,
        pace,
        is_terminal,
        ..PLAIN
    };
    let told = told(rt, &trial)?;
    assert!(rt; told.as_str().ends_with(end), "{words}: {told}");
    Ok(())
}

/// From the second second on, and wiped at the end of what is read, before anything is written.
#[test]
fn tells_how_far_it_is(rt: HostRuntime) -> Result<(), AllocError> {
    // The log is read by one read, at 1.0 seconds.
    let end = "--\r\x1b[K3 lines, 232 bytes, 3 lines a second\r\x1b[K--\n0";
    expect_end(&rt, (REPLAY, LOG, end), 1_000, true)?;
    // The reads are at 0.6, 1.2 and 1.8 seconds.
    let end =
        "--\r\x1b[K16384 lines, 16384 bytes, 13653 lines a second\r\x1b[K20000 lines, 20000 bytes, 11111 lines a second\r\x1b[K--\n0";
    expect_end(&rt, ("vmbind draw", LINES, end), 600, true)?;
    // The reads are at 0.4, 0.8 and 1.2 seconds: one is told.
    let end = "--\r\x1b[K20000 lines, 20000 bytes, 16666 lines a second\r\x1b[K--\n0";
    expect_end(&rt, ("vmbind draw", LINES, end), 400, true)
}

/// It isn't told before the second second, where it isn't wanted, and where nobody sits.
#[test]
fn tells_nobody(rt: HostRuntime) -> Result<(), AllocError> {
    let quiet = "vmbind replay --format radv --quiet";
    expect_end(&rt, (REPLAY, LOG, NOTHING), 999, true)?;
    expect_end(&rt, (quiet, LOG, NOTHING), 1_000, true)?;
    expect_end(&rt, ("vmbind draw --quiet", SCRIPT, NOTHING), 1_000, true)?;
    expect_end(&rt, (REPLAY, LOG, NOTHING), 1_000, false)
}

/// A fault comes behind what is wiped.
#[test]
fn a_fault_stands_alone(rt: HostRuntime) -> Result<(), AllocError> {
    let end =
        "--\r\x1b[K1 lines, 5 bytes, 1 lines a second\r\x1b[Kvmbind: no line of this format\n--\n1";
    expect_end(&rt, (REPLAY, b"none\n", end), 1_000, true)
}

const TWO: &str = "xe_vma_bind: vma=f0, asid=0x00021, start=0x200000, end=0x200fff, userptr=0x0,\n\
    xe_vma_unbind: vma=f0, asid=0x00022, start=0x200000, end=0x200fff, userptr=0x0,\n";

/// The address space that is taken, and a name of none.
#[test]
fn takes_an_address_space(rt: HostRuntime) -> Result<(), AllocError> {
    let first = "     1 binds of 1 buffers, 1 lines passed over\n";
    let row = ("vmbind replay --format xe --space 0x21", TWO, "--\n0");
    expect_parts(&rt, row, first, &[])?;
    let end = "\nnothing found in space 0x21\n----\n0";
    let row = ("vmbind replay --format xe", TWO, end);
    expect_parts(&rt, row, "space 0x22:\n", &[])?;
    let wanted = "--vmbind: no such address space\n--\n1";
    let row: Row<'_> = ("vmbind replay --format xe --space 0x23", TWO, wanted);
    expect_rows(&rt, &[row])
}
