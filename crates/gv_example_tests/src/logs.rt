//! Composed logs of drivers beside their reports, as text and as JSON.

use crate::data;
use gv_replay::{FlagBits, Form, Format, Terms, measure, replay};
use gv_text::{MemorySink, MemorySource};
use std::alloc::Global;
use std::io;
use std::rt::Files;

/// A log of logs/, and what is asked of it.
type Log = (&'static str, Format, FlagBits, Option<u64>, &'static [u64]);

const LOGS: [Log; 5] = [
    (
        "radv",
        Format::Radv,
        FlagBits::Unsaid,
        None,
        &[0x8000_2161_3000],
    ),
    (
        "amdgpu",
        Format::Amdgpu,
        FlagBits::Entry,
        Some(4242),
        &[0x8000_0010_5000],
    ),
    ("xe", Format::Xe, FlagBits::Unsaid, Some(4242), &[0x31_0000]),
    (
        "i915",
        Format::I915,
        FlagBits::Unsaid,
        Some(4242),
        &[0x20_0000],
    ),
    (
        "gpuvas",
        Format::Gpuvas,
        FlagBits::Unsaid,
        None,
        &[0x8000_0000_7010],
    ),
];

/// Whether the log of this name gives the reports beside it.
pub fn is_reported(rt: &(impl Files + AllocGlobal), name: &str) -> io::Result<bool> {
    let path = format!(in rt.alloc(); "logs/{name}")?;
    let log = data(rt, path.as_str(), "log")?;
    let report = data(rt, path.as_str(), "report")?;
    let json = data(rt, path.as_str(), "json")?;
    let alloc = rt.alloc();
    Ok(
        is_played(alloc, name, Form::Report, &log, &report)
            && is_played(alloc, name, Form::Json, &log, &json),
    )
}

/// What is asked of the log of this name.
fn terms_of(name: &str, form: Form) -> Terms<'static> {
    for (other, format, flag_bits, pid, addresses) in LOGS {
        if other == name {
            return Terms {
                format,
                flag_bits,
                pid,
                space: None,
                addresses,
                all: false,
                form,
                sizes: None,
            };
        }
    }
    Terms::new(Format::Radv)
}

/// Whether a log that is measured and replayed gives this.
fn is_played(alloc: Global, name: &str, form: Form, log: &[u8], wanted: &[u8]) -> bool {
    let terms = terms_of(name, form);
    let Ok(sizes) = measure(alloc, &mut MemorySource::new(log), &terms) else {
        return false;
    };
    let mut sink = MemorySink::new(alloc);
    let mut source = MemorySource::new(log);
    let played = replay(alloc, &mut source, &mut sink, &terms.sized(&sizes));
    played == Ok(()) && sink.bytes() == wanted
}
