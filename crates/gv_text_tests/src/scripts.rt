//! Scripts from their bytes to their replies.

use crate::devices::{Devices, WHOLE};
use crate::failing::{expect_read_faults, expect_write_faults};
use crate::rows::{BAD_LINES, EDITS, REQUESTS, Row};
use crate::told::{Way, expect, expect_rows};
use gv_text::{MemorySource, SCRIPT_LIMIT, ScriptFault, WriteSink, run_script};
use std::alloc::AllocError;
use std::io;
use std::io::Write;
use std::process::Abort;

const HOLE: Row<'static> = (
    "a hole",
    b"buffer b 4\nbind map 0x0 0x4000 b 0x0\nplan unmap 0x1000 0x1000\nbind unmap 0x1000 0x1000\nmap\nuses b\n",
    "ok\naccepted 0\nremap 0000000000000000 0000000000004000 b 0000000000000000 rw prev 0000000000000000 0000000000001000 b 0000000000000000 rw next 0000000000002000 0000000000004000 b 0000000000002000 rw\naccepted 1\n0000000000000000 0000000000001000 b 0000000000000000 rw\n0000000000002000 0000000000004000 b 0000000000002000 rw\nuses 2 kept 1\n",
);

#[test]
fn rows_come_to_their_replies(rt: HostRuntime) -> Result<(), AllocError> {
    expect_rows(&rt, Way::Run, usize::MAX, EDITS)?;
    expect_rows(&rt, Way::Run, usize::MAX, REQUESTS)
}

#[test]
fn bad_lines_end_the_script(rt: HostRuntime) -> Result<(), AllocError> {
    expect_rows(&rt, Way::Run, usize::MAX, BAD_LINES)
}

/// Of each line of the hole: where it begins and where the next does, and how long the replies to the lines before it are.
const LINES: [(usize, usize, usize); 6] = [
    (0, 11, 0),
    (11, 37, 3),
    (37, 62, 14),
    (62, 87, 198),
    (87, 91, 209),
    (91, 98, 321),
];

/// Asserts what the hole comes to where it is cut in a line of this number, counted from 1.
fn expect_cuts(
    rt: &(impl Abort + AllocGlobal),
    number: usize,
    (begin, end, told): (usize, usize, usize),
) -> Result<(), AllocError> {
    let (name, script, replies) = HOLE;
    let kept = replies.get(..told).unwrap_or("");
    let whole = script.get(..begin).unwrap_or(script);
    expect(rt, Way::Run, WHOLE, (name, whole, kept))?;
    let wanted = format!(in rt.alloc(); "{kept}Err(BadLine {{ line: {number} }})")?;
    for len in begin.saturating_add(1)..end {
        let cut = script.get(..len).unwrap_or(script);
        expect(rt, Way::Run, WHOLE, (name, cut, wanted.as_str()))?;
    }
    Ok(())
}

#[test]
fn prefixes_end_at_their_last_line(rt: HostRuntime) -> Result<(), AllocError> {
    for (index, line) in LINES.iter().enumerate() {
        expect_cuts(&rt, index.saturating_add(1), *line)?;
    }
    Ok(())
}

#[test]
fn longest_script_is_read(rt: HostRuntime) -> Result<(), AllocError> {
    let mut comment = vec![in rt.alloc(); b'#'; SCRIPT_LIMIT]?;
    comment.pop();
    comment.push(b'\n')?;
    expect(&rt, Way::Run, WHOLE, ("longest", &comment, ""))?;
    comment.push(b'\n')?;
    expect(
        &rt,
        Way::Run,
        WHOLE,
        ("too long", &comment, "Err(ScriptTooLong)"),
    )
}

#[test]
fn script_is_read_in_as_many_reads_as_it_has_bytes(rt: HostRuntime) -> Result<(), AllocError> {
    let comment = vec![in rt.alloc(); b'\n'; SCRIPT_LIMIT]?;
    let mut devices = Devices {
        given: 1,
        reads: SCRIPT_LIMIT + 1,
        ..WHOLE
    };
    expect(&rt, Way::Run, devices, ("reads", &comment, ""))?;
    devices.reads = SCRIPT_LIMIT;
    expect(
        &rt,
        Way::Run,
        devices,
        ("fewer reads", &comment, "Err(ReadFault)"),
    )
}

/// As docs/SCRIPT.md has them.
const NUMBERS: &[(ScriptFault, Option<u8>)] = &[
    (ScriptFault::BadLine { line: 7 }, Some(27)),
    (ScriptFault::ScriptTooLong, Some(28)),
    (ScriptFault::ReadFault, None),
    (ScriptFault::WriteFault, None),
    (ScriptFault::OutOfMemory, Some(33)),
];

#[test]
fn script_faults_have_their_numbers(rt: HostRuntime) {
    for (fault, number) in NUMBERS {
        assert_eq!(rt; fault.number(), *number);
    }
}

#[test]
fn failed_read_writes_nothing(rt: HostRuntime) -> Result<(), AllocError> {
    expect_read_faults(&rt, HOLE)
}

/// Each worked row on devices that fail at each of their calls.
#[test]
fn failing_devices_are_told_of_each_row(rt: HostRuntime) -> Result<(), AllocError> {
    for row in REQUESTS.iter().filter(|row| !row.2.ends_with(')')) {
        expect_read_faults(&rt, *row)?;
        expect_write_faults(&rt, *row)?;
    }
    Ok(())
}

#[test]
fn failed_write_is_told(rt: HostRuntime) -> Result<(), AllocError> {
    expect_write_faults(&rt, HOLE)
}

/// A writer that takes nothing.
#[derive(Drop)]
pub struct StuckWriter;

impl Write for StuckWriter {
    fn write(&mut self, _bytes: &[u8]) -> io::Result<usize> {
        Ok(0)
    }

    fn flush(&mut self) -> io::Result<()> {
        Ok(())
    }
}

#[test]
fn writer_that_takes_nothing_has_failed(rt: HostRuntime) {
    let mut sink = WriteSink::new(StuckWriter);
    let outcome = run_script(rt.alloc(), &mut MemorySource::new(HOLE.1), &mut sink);
    assert!(rt; outcome == Err(ScriptFault::WriteFault));
}
