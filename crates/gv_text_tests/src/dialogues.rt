//! Dialogues over devices in memory.
use crate::devices::{Devices, WHOLE};
use crate::rows::{DIALOGUES, JSON_DIALOGUES};
use crate::told::{Way, expect, expect_rows, told};
use gv_serve::LINE_LIMIT;
use std::alloc::AllocError;

#[test]
fn rows_come_to_their_answers(rt: HostRuntime) -> Result<(), AllocError> {
    for given in [usize::MAX, 1, 2, 7] {
        expect_rows(&rt, Way::Serve, given, DIALOGUES)?;
    }
    Ok(())
}

#[test]
fn rows_come_to_their_json(rt: HostRuntime) -> Result<(), AllocError> {
    for given in [1, 7, 1_000] {
        expect_rows(&rt, Way::ServeJson, given, JSON_DIALOGUES)?;
    }
    Ok(())
}

#[test]
fn a_dialogue_without_bad_lines_is_a_run(rt: HostRuntime) -> Result<(), AllocError> {
    let input = DIALOGUES.first().map_or(b"" as &[u8], |row| row.1);
    let ran = told(rt.alloc(), Way::Run, WHOLE, input)?;
    let served = told(rt.alloc(), Way::Serve, WHOLE, input)?;
    assert!(rt; ran == served);
    Ok(())
}

/// Devices that give four bytes a read, and so many reads and writes of them go well.
fn fours(reads: usize, writes: usize) -> Devices {
    Devices {
        given: 4,
        taken: usize::MAX,
        reads,
        writes,
    }
}

#[test]
fn answers_are_written_before_the_next_read(rt: HostRuntime) -> Result<(), AllocError> {
    let row = (
        "read",
        b"map\nmap\nm" as &[u8],
        "empty\nempty\nErr(ReadFault)",
    );
    expect(&rt, Way::Serve, fours(3, 100), row)
}

#[test]
fn a_failed_write_ends_it(rt: HostRuntime) -> Result<(), AllocError> {
    let row = (
        "write",
        b"map\nmap\nmap\n" as &[u8],
        "empty\nErr(WriteFault)",
    );
    expect(&rt, Way::Serve, fours(100, 1), row)
}

#[test]
fn failed_devices_end_it_in_json(rt: HostRuntime) -> Result<(), AllocError> {
    let row = ("read", b"idle" as &[u8], "Err(ReadFault)");
    expect(&rt, Way::ServeJson, fours(1, 100), row)?;
    let wanted = "{\"line\":1,\"mappings\":[]}\nErr(WriteFault)";
    let row = ("write", b"map\nmap\nmap\n" as &[u8], wanted);
    expect(&rt, Way::ServeJson, fours(100, 1), row)
}

#[test]
fn lines_of_the_greatest_length(rt: HostRuntime) -> Result<(), AllocError> {
    let mut input = Vec::new(rt.alloc());
    input.extend_from_slice(b"map\n#")?;
    input.resize(4 + LINE_LIMIT, b'x')?;
    input.extend_from_slice(b"\n#")?;
    let len = input.len();
    input.resize(len + LINE_LIMIT, b'x')?;
    input.extend_from_slice(b"\nmap\n")?;
    let wanted = "empty\nbad line 3: a line of over 1048576 bytes\nempty\n";
    expect(&rt, Way::Serve, WHOLE, ("long lines", &input, wanted))
}
