//! What scripts and dialogues come to: their replies, and how they end.

use crate::devices::{Devices, FailingSink, FailingSource, WHOLE};
use crate::rows::Row;
use gv_serve::{serve, serve_json};
use gv_text::run_script;
use std::alloc::{AllocError, Global};
use std::fmt::Debug;
use std::process::Abort;

/// A text so many times.
pub fn times(alloc: Global, count: usize, text: &str) -> Result<String, AllocError> {
    let mut texts = String::new(alloc);
    for _ in 0..count {
        texts.push_str(text)?;
    }
    Ok(texts)
}

/// How an input is answered.
#[derive(Clone, Copy)]
pub enum Way {
    Run,
    Serve,
    ServeJson,
}

/// How an input ends; nothing where it is not early.
fn said<F: Debug + Copy>(alloc: Global, ended: Result<(), F>) -> Result<String, AllocError> {
    match ended {
        Ok(()) => Ok(String::new(alloc)),
        Err(fault) => format!(in alloc; "Err({fault:?})"),
    }
}

/// What an input comes to on these devices: the replies, and behind them how it ends where that is early.
pub fn told(
    alloc: Global,
    way: Way,
    devices: Devices,
    input: &[u8],
) -> Result<Vec<u8>, AllocError> {
    let mut source = FailingSource {
        rest: input,
        step: devices.given,
        calls_remaining: devices.reads,
        failed: false,
    };
    let mut sink = FailingSink {
        bytes: Vec::new(alloc),
        step: devices.taken,
        calls_remaining: devices.writes,
        failed: false,
    };
    let ended = match way {
        Way::Run => said(alloc, run_script(alloc, &mut source, &mut sink)),
        Way::Serve => said(alloc, serve(alloc, &mut source, &mut sink)),
        Way::ServeJson => said(alloc, serve_json(alloc, &mut source, &mut sink)),
    }?;
    let mut told = sink.bytes;
    told.extend_from_slice(ended.as_str().as_bytes())?;
    Ok(told)
}

/// Asserts what an input comes to on these devices.
pub fn expect(
    rt: &(impl Abort + AllocGlobal),
    way: Way,
    devices: Devices,
    (name, input, wanted): Row<'_>,
) -> Result<(), AllocError> {
    let told = told(rt.alloc(), way, devices, input)?;
    assert!(rt; told.as_slice() == wanted.as_bytes(), "{name}");
    Ok(())
}

/// Asserts what each row comes to where so many bytes are given a read.
pub fn expect_rows(
    rt: &(impl Abort + AllocGlobal),
    way: Way,
    given: usize,
    rows: &[Row<'_>],
) -> Result<(), AllocError> {
    let devices = Devices { given, ..WHOLE };
    for row in rows {
        expect(rt, way, devices, *row)?;
    }
    Ok(())
}
