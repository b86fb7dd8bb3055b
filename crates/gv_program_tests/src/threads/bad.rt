//! Bad lines of threads scripts, with what is written before them.
use super::{Row, TURNS, expect};
use gv_text::SCRIPT_LIMIT;
use std::alloc::AllocError;
use std::fmt::Write;
use std::process::Abort;
use std::sync::Wait;
use std::thread::Threads;

/// Bad by anything but a buffer's name: nothing is written, also where a buffer's name is at fault before.
const UNREAD: &[(&str, &str)] = &[
    (
        "buffer a 1\nbind\nbuffer b 1\n",
        "Err(Script(BadLine { line: 3 }))",
    ),
    ("bind\ntimeline t\n", "Err(Script(BadLine { line: 2 }))"),
    (
        "timeline t\nbind\nraise t 1\n",
        "Err(Script(BadLine { line: 3 }))",
    ),
    (
        "bind\nspace 0x0 0x1000 0x0 0x0\n",
        "Err(Script(BadLine { line: 2 }))",
    ),
    ("bind\nlimits 1 1 1\n", "Err(Script(BadLine { line: 2 }))"),
    ("map\nbind\n", "Err(Script(BadLine { line: 2 }))"),
    ("bind\nat 0x0\nbind\n", "Err(Script(BadLine { line: 3 }))"),
    ("tables\nbuffer a 1\n", "Err(Script(BadLine { line: 2 }))"),
    (
        "buffer a 1\nspace 0x0 0x1000 0x0 0x0\n",
        "Err(Script(BadLine { line: 2 }))",
    ),
    (
        "buffer a 1\nlimits 1 1 1\n",
        "Err(Script(BadLine { line: 2 }))",
    ),
    (
        "limits 1 1 1\nlimits 1 1 1\n",
        "Err(Script(BadLine { line: 2 }))",
    ),
    (
        "space 0x0 0x800 0x0 0x0\n",
        "Err(Script(BadLine { line: 1 }))",
    ),
    ("limits 0 1 1\n", "Err(Script(BadLine { line: 1 }))"),
    (
        "buffer a 1\nbind queue 2\n",
        "Err(Script(BadLine { line: 2 }))",
    ),
    ("bind\ntold 2\n", "Err(Script(BadLine { line: 2 }))"),
    (
        "timeline t\ntimeline t\n",
        "Err(Script(BadLine { line: 2 }))",
    ),
    (
        "raise t 1\ntimeline t\n",
        "Err(Script(BadLine { line: 1 }))",
    ),
    ("bind wait t 1\n", "Err(Script(BadLine { line: 1 }))"),
    ("bind signal t 1\n", "Err(Script(BadLine { line: 1 }))"),
    ("bind\nvalue t\n", "Err(Script(BadLine { line: 2 }))"),
    (
        "buffer a 1\ndestroy a\n",
        "Err(Script(BadLine { line: 2 }))",
    ),
    ("bind\nrewind\n", "Err(Script(BadLine { line: 2 }))"),
    ("bind\nwithdraw 0\n", "Err(Script(BadLine { line: 2 }))"),
    ("bind\nsettle 0\n", "Err(Script(BadLine { line: 2 }))"),
    ("bind\njob read 0x0\n", "Err(Script(BadLine { line: 2 }))"),
    (
        "bind\nplan unmap 0x0 0x1000\n",
        "Err(Script(BadLine { line: 2 }))",
    ),
    (
        "buffer a 1\nbuffer a 1\nbuffer zero 1\n",
        "Err(Script(BadLine { line: 3 }))",
    ),
    (
        "buffer a 1\nbind map 0x0 0x1000 b 0x0\nmap",
        "Err(Script(BadLine { line: 3 }))",
    ),
];

/// Bad by a buffer's name: the replies of the first part's lines before it are written, and no worker starts.
const UNNAMED: &[(&str, &str)] = &[
    (
        "buffer a 1\nbuffer a 1\n",
        "ok\nErr(Script(BadLine { line: 2 }))",
    ),
    (
        "buffer a 1\nbuffer a 0\nbind\n",
        "ok\nErr(Script(BadLine { line: 2 }))",
    ),
    (
        "timeline t\nraise t 4\nbind map 0x0 0x1000 a 0x0\nmap\n",
        "ok\nt 4\nErr(Script(BadLine { line: 3 }))",
    ),
    (
        "buffer a 0\nbind map 0x0 0x1000 a 0x0\n",
        "refused BadSize\nErr(Script(BadLine { line: 2 }))",
    ),
    (
        "buffer a 1\nbind\nuses b\nuses a\n",
        "ok\nErr(Script(BadLine { line: 3 }))",
    ),
    (
        "buffer a 1\nbind unmapall b ; map 0x0 0x1000 c 0x0\nuses b\n",
        "ok\nErr(Script(BadLine { line: 2 }))",
    ),
    (
        "limits 1 1 1\nbuffer a 1\nbuffer b 1\nbind\nuses b\n",
        "ok\nok\nrefused TooManyBuffers\nErr(Script(BadLine { line: 5 }))",
    ),
];

/// Asserts what scripts come to on two queues.
fn expect_each(
    rt: &(impl Threads + Wait + Sync + Abort + AllocGlobal),
    rows: &[(&str, &str)],
) -> Result<(), AllocError> {
    for (script, wanted) in rows {
        expect(rt, (script, 2, TURNS, wanted))?;
    }
    Ok(())
}

#[test]
fn bad_lines_are_told(rt: HostRuntime) -> Result<(), AllocError> {
    expect_each(&rt, UNREAD)?;
    expect_each(&rt, UNNAMED)
}

#[test]
fn more_timelines_than_there_are_is_a_bad_line(rt: HostRuntime) -> Result<(), AllocError> {
    let mut script = String::new(rt.alloc());
    for timeline in 0..65u32 {
        writeln!(script, "timeline t{timeline:02}")?;
    }
    let wanted = "Err(Script(BadLine { line: 65 }))";
    expect(&rt, (script.as_str(), 1, TURNS, wanted))
}

#[test]
fn long_script_is_refused(rt: HostRuntime) -> Result<(), AllocError> {
    let mut script = String::new(rt.alloc());
    for _ in 0..=SCRIPT_LIMIT {
        script.push_str("\n")?;
    }
    let row: Row<'_> = (script.as_str(), 1, TURNS, "Err(Script(ScriptTooLong))");
    expect(&rt, row)
}
