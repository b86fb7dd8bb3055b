//! Replays each row of the tables beside this file.

use crate::logs::told::expect_rows;
use std::alloc::AllocError;

#[test]
fn rows_have_their_lines(rt: HostRuntime) -> Result<(), AllocError> {
    expect_rows(&rt, crate::logs::rows::ROWS)
}

#[test]
fn rows_of_xe_have_their_lines(rt: HostRuntime) -> Result<(), AllocError> {
    expect_rows(&rt, crate::logs::xe_rows::ROWS)
}

#[test]
fn rows_of_i915_have_their_lines(rt: HostRuntime) -> Result<(), AllocError> {
    expect_rows(&rt, crate::logs::i915_rows::ROWS)
}

#[test]
fn rows_of_spaces_have_their_lines(rt: HostRuntime) -> Result<(), AllocError> {
    expect_rows(&rt, crate::logs::space_rows::ROWS)?;
    expect_rows(&rt, crate::logs::process_rows::ROWS)
}
