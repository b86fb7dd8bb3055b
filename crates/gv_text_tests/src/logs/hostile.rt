//! Logs that are no logs, or that end anywhere.

use crate::logs::told::{expect_lines, expect_told, told};
use std::alloc::AllocError;

const MADE: &[u8] =
    b"timestamp=1, VA=0000000000010000-0000000000030000, destroyed=0, is_virtual=0\n";

/// The formats, of which the first is that of the line.
const EACH: &[&str] = &[
    "--format radv",
    "--format amdgpu",
    "--format xe",
    "--format i915",
    "--format gpuvas",
];

const NO_LINE: &str = "Err(NoLine)";

#[test]
fn logs_without_a_line_of_the_format_are_a_fault(rt: HostRuntime) -> Result<(), AllocError> {
    let mut noise = Vec::new(rt.alloc());
    for number in 0..40_000u32 {
        noise.push((number.wrapping_mul(2_654_435_761) >> 24) as u8)?;
    }
    for words in EACH {
        expect_told(&rt, words, b"", NO_LINE)?;
        expect_told(&rt, words, b"\n\n", NO_LINE)?;
        expect_told(&rt, words, &noise, NO_LINE)?;
    }
    for words in EACH.iter().skip(1) {
        expect_told(&rt, words, MADE, NO_LINE)?;
    }
    Ok(())
}

#[test]
fn nothing_is_written_for_a_log_without_a_line(rt: HostRuntime) -> Result<(), AllocError> {
    expect_told(&rt, "--format radv", b"noise\n", NO_LINE)
}

#[test]
fn prefixes_end_with_a_report_or_a_fault(rt: HostRuntime) -> Result<(), AllocError> {
    for len in 0..MADE.len() {
        let told = told(rt.alloc(), "--format radv", &MADE[..len])?;
        let is_whole = len + 1 >= MADE.len();
        assert!(rt; told.as_str().contains("Err(") != is_whole, "{len}");
        assert!(rt; told.as_str().ends_with(NO_LINE) != is_whole, "{len}");
    }
    Ok(())
}

#[test]
fn a_long_line_is_passed_over(rt: HostRuntime) -> Result<(), AllocError> {
    let mut log = vec![in rt.alloc(); b'0'; 200_000]?;
    log.push(b'\n')?;
    log.extend_from_slice(MADE)?;
    let told = told(rt.alloc(), "--format radv", &log)?;
    let wanted = "     1 binds of 1 buffers, 1 lines passed over";
    expect_lines(&rt, "a long line", told.as_str(), wanted);
    Ok(())
}
