//! Logs of many lines against the counts that must come.

use crate::logs::forms::{Given, write_form};
use crate::logs::told::{expect_lines, told};
use std::alloc::AllocError;

/// So many rounds of five lines.
const ROUNDS: u64 = 20_000;

/// In each round memory is made, a tile is bound to it, another is bound and unbound, and the memory is freed.
const ROUND: &str =
    "timestamp=$r, VA=0000000100$s00000-0000000100$s02000, destroyed=0, is_virtual=0\n\
    timestamp=$r, VA=0000000080000000-0000000080001000, mapped_to=0000000100$s00000\n\
    timestamp=$r, VA=0000000080001000-0000000080002000, mapped_to=0000000100$s00000\n\
    timestamp=$r, VA=0000000080001000-0000000080002000, mapped_to=0000000000000000\n\
    timestamp=$r, VA=0000000100$s00000-0000000100$s02000, destroyed=1, is_virtual=0\n";

const COUNTS: &str = "100000 binds of 20000 buffers, 0 lines passed over
     0 maps over live mappings
 20000 freed buffers that other mappings still reached
         line 5, 0.000000 s: b1, made at line 1, 2 pages: 1 mapping
     0 refused
     1 mappings alive at the end, of 0 buffers, 4 KiB; tables 1 1 1 1 1
0x80000010: none
  line 100000, 0.000019 s: unmapall b20000 (memory freed): b20000 0x10 before
  line 99997, 0.000019 s: map 0x80000000 0x1000 b20000 0x0 (sparse bound): none before
  the first 34464 binds are no longer held
";

#[test]
fn long_log_comes_to_its_counts(rt: HostRuntime) -> Result<(), AllocError> {
    let mut log = String::new(rt.alloc());
    for round in 0..ROUNDS {
        let numbers = [(b'r', round), (b's', round % 7)];
        write_form(&mut log, ROUND, &mut Given(&numbers))?;
    }
    let words = "--format radv --at 0x80000010";
    let told = told(rt.alloc(), words, log.as_bytes())?;
    expect_lines(&rt, "a long log", told.as_str(), COUNTS);
    Ok(())
}

/// Where memory lies, and the first tile of those that are bound to it.
const MEMORY: u64 = 0x1_0000_0000;

const TILES: u64 = 0x8000_0000;

/// Memory of so many pages is made, each of its pages is bound to a tile so many times, and it is freed.
fn write_bound(log: &mut String, pages: u64, times: u64) -> Result<(), AllocError> {
    let end = pages.saturating_mul(0x1000).saturating_add(MEMORY);
    let range = [(b'M', MEMORY), (b'N', end)];
    let made = "timestamp=1, VA=$M-$N, destroyed=0, is_virtual=0\n";
    write_form(log, made, &mut Given(&range))?;
    for bind in 0..times.saturating_mul(pages) {
        let page = bind % pages.max(1);
        let tile = page.saturating_mul(0x2000).saturating_add(TILES);
        let next = tile.saturating_add(0x1000);
        let to = page.saturating_mul(0x1000).saturating_add(MEMORY);
        let numbers = [(b'S', tile), (b'E', next), (b'T', to)];
        let bound = "timestamp=1, VA=$S-$E, mapped_to=$T\n";
        write_form(log, bound, &mut Given(&numbers))?;
    }
    let freed = "timestamp=1, VA=$M-$N, destroyed=1, is_virtual=0\n";
    write_form(log, freed, &mut Given(&range))
}

const BOUND: &str = "  1404 binds of 2 buffers, 0 lines passed over
     2 freed buffers that other mappings still reached
         line 902, 0.000000 s: b1, made at line 1, 300 pages: 300 mappings
         line 1404, 0.000000 s: b2, made at line 903, 100 pages: 100 mappings
     0 refused
0x80000010: none
  line 1404, 0.000000 s: unmapall b2 (memory freed): b2 0x10 before
";

/// More mappings than a request has operations, and more binds than are kept of a buffer.
#[test]
fn freed_memory_with_many_tiles(rt: HostRuntime) -> Result<(), AllocError> {
    let mut log = String::new(rt.alloc());
    write_bound(&mut log, 300, 3)?;
    write_bound(&mut log, 100, 5)?;
    let words = "--format radv --at 0x80000010";
    let told = told(rt.alloc(), words, log.as_bytes())?;
    expect_lines(&rt, "many tiles", told.as_str(), BOUND);
    Ok(())
}
