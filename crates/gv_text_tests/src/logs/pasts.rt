//! What a replay tells of addresses, against what comes of taking its entries back one by one.

use crate::logs::forms::{Given, write_form};
use crate::logs::made::{OF_AMDGPU, OF_RADV, OF_XE, RandomLog};
use crate::logs::rewound::rewound;
use crate::logs::told::terms_of;
use gv_replay::{ReplayFault, Terms, replay};
use gv_text::{MemorySink, MemorySource};
use std::alloc::{AllocError, Global};
use std::process::Abort;
use std::str;
use std::test::Fail;

/// So many logs of each format, the first of one line, and each of one line more than the one before.
const LOGS: u64 = 120;

/// So many lines by chance stand before and behind the others of a long log.
const AROUND: u64 = 3_000;

/// So many entries are held at most.
const HELD: u64 = 65_536;

const RADV: &str = "--format radv";

const AMDGPU: &str = "--format amdgpu --flags entry";

const XE: &str = "--format xe";

/// A line that tells the address space of xe's events.
const HEAD: &str = "xe_vma_flush: vma=f0, asid=0x00021, start=0x0, end=0xfff, userptr=0x0,\n";

/// Logs of one line, one that is refused and one that is accepted.
const ONES: &[&[u8]] = &[
    b"timestamp=1, VA=0000000000010800-0000000000011000, destroyed=1, is_virtual=1\n",
    b"timestamp=1, VA=0000000000010000-0000000000011000, destroyed=0, is_virtual=1\n",
];

/// Whether a replay's report ends with these pasts, and has no other line of an address.
fn ends_with(report: &[u8], pasts: &str) -> bool {
    let report = str::from_utf8(report).unwrap_or("");
    match report.split_once("\n0x") {
        Some((_, told)) => pasts.strip_prefix("0x") == Some(told),
        None => false,
    }
}

/// Whether a replay tells of the addresses what comes of taking its entries back.
fn agrees(alloc: Global, log: &[u8], terms: &Terms<'_>) -> Result<bool, ReplayFault> {
    let mut sink = MemorySink::new(alloc);
    replay(alloc, &mut MemorySource::new(log), &mut sink, terms)?;
    let pasts = rewound(alloc, log, terms)?;
    Ok(ends_with(sink.bytes(), pasts.as_str()))
}

/// Whether it tells so of the addresses that a drawn log asks.
fn agrees_on(
    alloc: Global,
    words: &str,
    log: &str,
    drawn: &mut RandomLog,
) -> Result<bool, ReplayFault> {
    let addresses = drawn.addresses(alloc)?;
    agrees(alloc, log.as_bytes(), &terms_of(words, &addresses))
}

/// Asserts it for a log of so many lines as its seed and one, behind this first one.
fn expect_past(
    rt: &(impl Abort + AllocGlobal),
    words: &str,
    head: &str,
    forms: &[&str],
    seed: u64,
) -> Result<(), Fail> {
    let mut drawn = RandomLog::new(seed);
    let mut log = String::from_str(rt.alloc(), head)?;
    drawn.write_lines(&mut log, forms, seed.saturating_add(1))?;
    let is_alike = agrees_on(rt.alloc(), words, log.as_str(), &mut drawn)?;
    assert!(rt; is_alike, "{words}, seed {seed}");
    Ok(())
}

/// No entry is held, or one, or few.
#[test]
fn pasts_are_those_of_entries_taken_back(rt: HostRuntime) -> Result<(), Fail> {
    for log in ONES {
        let is_alike = agrees(rt.alloc(), log, &terms_of(RADV, &[0, 0x1_0800]))?;
        assert!(rt; is_alike, "a log of one line");
    }
    for seed in 0..LOGS {
        expect_past(&rt, RADV, "", OF_RADV, seed)?;
        expect_past(&rt, AMDGPU, "", OF_AMDGPU, seed)?;
    }
    Ok(())
}

/// The same of VMAs.
#[test]
fn pasts_of_vmas_are_those_of_entries_taken_back(rt: HostRuntime) -> Result<(), Fail> {
    for seed in 0..LOGS {
        expect_past(&rt, XE, HEAD, OF_XE, seed)?;
    }
    Ok(())
}

/// Writes as many lines of RADV's as entries may be held, each of which is accepted.
fn write_accepted(log: &mut String) -> Result<(), AllocError> {
    for line in 0..HELD {
        let start = (line % 512)
            .saturating_mul(0x1000)
            .saturating_add(0x80_0000);
        let end = start.saturating_add(0x2000);
        let gone = line / 512 % 2;
        let numbers = [(b'l', line), (b'S', start), (b'E', end), (b'g', gone)];
        let form = "timestamp=$l, VA=$S-$E, destroyed=$g, is_virtual=1\n";
        write_form(log, form, &mut Given(&numbers))?;
    }
    Ok(())
}

/// Writes them, and others by chance on both sides.
fn write_long(log: &mut String, drawn: &mut RandomLog) -> Result<(), AllocError> {
    drawn.write_lines(log, OF_RADV, AROUND)?;
    write_accepted(log)?;
    drawn.write_lines(log, OF_RADV, AROUND)
}

/// As many entries are held as may be, and older ones are settled.
#[test]
fn pasts_are_those_of_all_that_are_held(rt: HostRuntime) -> Result<(), Fail> {
    let mut drawn = RandomLog::new(LOGS);
    let mut log = String::new(rt.alloc());
    write_long(&mut log, &mut drawn)?;
    let is_alike = agrees_on(rt.alloc(), RADV, log.as_str(), &mut drawn)?;
    assert!(rt; is_alike);
    Ok(())
}
