//! Tables of buffers that are full, and memory that is refused.
use super::calls::{BufferTable, Call, DEAD, NOBODY, Row};
use gv_types::Fault;
use std::alloc::Global;
use std::test::Fail;

/// So many buffers may be alive in the largest table.
const MOST: usize = 65_536;

const FULL: Option<Fault> = Some(Fault::TooManyBuffers);

/// What a full table answers, whose buffers have 1, 1, 2, 3 and so on pages. That a job leaves changes nothing: none uses a buffer.
const OF_A_FULL_TABLE: [Row; 6] = [
    (MOST, Call::Create, 1, FULL, NOBODY),
    (0, Call::Leave, 9, None, [0, 1, 0, 0]),
    (MOST - 1, Call::Leave, 9, None, [65_535, 65_535, 0, 0]),
    (0, Call::Destroy, 0, None, [0, DEAD, DEAD, DEAD]),
    (MOST, Call::Create, 7, None, [0, 7, 0, 0]),
    (MOST, Call::Create, 1, FULL, [0, 7, 0, 0]),
];

#[test]
fn a_full_table_grows_to_its_limit(rt: HostRuntime) -> Result<(), Fail> {
    let alloc = rt.alloc();
    let mut table = BufferTable::new(alloc, 65_536)?;
    for made in 0..65_536u64 {
        table.call_at_last(alloc, 0, Call::Create, made.max(1))?;
    }
    table.play(alloc, 0, 0, &OF_A_FULL_TABLE)
}

const OF_A_TABLE_OF_ONE: [Row; 4] = [
    (0, Call::Create, 1, None, [0, 1, 0, 0]),
    (0, Call::Create, 1, FULL, [0, 1, 0, 0]),
    (0, Call::Create, 0, Some(Fault::BadSize), [0, 1, 0, 0]),
    (0, Call::Destroy, 0, None, [0, DEAD, DEAD, DEAD]),
];

#[test]
fn a_table_of_one(rt: HostRuntime) -> Result<(), Fail> {
    let alloc = rt.alloc();
    let mut table = BufferTable::new(alloc, 1)?;
    for made in 0..100 {
        table.play(alloc, made, 0, &OF_A_TABLE_OF_ONE)?;
    }
    Ok(())
}

/// A buffer that job 5 writes, which lets it write again.
const USED: [Row; 4] = [
    (0, Call::Create, 1, None, [0, 1, 0, 0]),
    (0, Call::Write, 5, None, [0, 1, 0, 0]),
    (0, Call::Write, 5, None, [0, 1, 0, 0]),
    (
        0,
        Call::Destroy,
        0,
        Some(Fault::InUse { jobs: 1 }),
        [0, 1, 0, 0],
    ),
];

/// A buffer that nobody uses: job 5 leaves those that it used.
const LEFT: [Row; 2] = [
    (0, Call::Create, 1, None, [0, 1, 0, 0]),
    (0, Call::Leave, 5, None, [0, 1, 0, 0]),
];

/// A table of at most 100 buffers, at the second try where the first wants memory.
fn new_at_last(alloc: Global) -> Result<BufferTable, Fault> {
    match BufferTable::new(alloc, 100) {
        Err(Fault::OutOfMemory) => BufferTable::new(alloc, 100),
        first => first,
    }
}

/// A job uses 40 buffers, and 20 more are made once it has left. Passes with no allocation refused, and with any one of them.
#[test]
fn refused_memory_leaves_the_table(rt: HostRuntime) -> Result<(), Fail> {
    let alloc = rt.alloc();
    let mut table = new_at_last(alloc)?;
    for made in 0..61u64 {
        let rows = if made < 40 { USED.as_slice() } else { &LEFT };
        table.play(alloc, made as usize, made, rows)?;
    }
    Ok(())
}
