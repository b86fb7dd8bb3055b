//! A script on devices that fail at one of their calls.
use crate::devices::{Devices, WHOLE};
use crate::rows::Row;
use crate::told::{Way, expect};
use std::alloc::AllocError;
use std::process::Abort;

/// Asserts that a failure of each read in turn, of a byte a time, is told, and nothing is written.
pub fn expect_read_faults(
    rt: &(impl Abort + AllocGlobal),
    (name, script, _): Row<'_>,
) -> Result<(), AllocError> {
    for reads in 0..=script.len() {
        let devices = Devices {
            given: 1,
            reads,
            ..WHOLE
        };
        expect(rt, Way::Run, devices, (name, script, "Err(ReadFault)"))?;
    }
    Ok(())
}

/// Asserts that a failure of each write in turn, of a byte a time, is told behind the first replies; and where none fails, all
/// replies are written.
pub fn expect_write_faults(
    rt: &(impl Abort + AllocGlobal),
    (name, script, replies): Row<'_>,
) -> Result<(), AllocError> {
    let mut devices = Devices {
        taken: 1,
        writes: 0,
        ..WHOLE
    };
    for (writes, _) in replies.char_indices() {
        devices.writes = writes;
        let front = replies.get(..writes).unwrap_or("");
        let wanted = format!(in rt.alloc(); "{front}Err(WriteFault)")?;
        expect(rt, Way::Run, devices, (name, script, wanted.as_str()))?;
    }
    devices.writes = replies.len();
    expect(rt, Way::Run, devices, (name, script, replies))
}
