//! The table of buffers: rows of calls, and what they answer.
use super::calls::{Call, DEAD, Row, expect};
use gv_types::{BUFFER_PAGES, Fault};
use std::test::Fail;

const SIZES: &[Row] = &[
    (0, Call::Create, 4, None, [0, 4, 0, 0]),
    (
        1,
        Call::Create,
        BUFFER_PAGES,
        None,
        [1, 68_719_476_736, 0, 0],
    ),
    (0, Call::Create, 0, Some(Fault::BadSize), [0, 4, 0, 0]),
    (
        1,
        Call::Create,
        BUFFER_PAGES + 1,
        Some(Fault::BadSize),
        [1, 68_719_476_736, 0, 0],
    ),
    (
        1,
        Call::Create,
        1,
        Some(Fault::TooManyBuffers),
        [1, 68_719_476_736, 0, 0],
    ),
];

#[test]
fn sizes_and_the_limit(rt: HostRuntime) -> Result<(), Fail> {
    expect(rt.alloc(), 2, SIZES)
}

const USED_AGAIN: &[Row] = &[
    (0, Call::Create, 4, None, [0, 4, 0, 0]),
    (0, Call::Destroy, 0, None, [0, DEAD, DEAD, DEAD]),
    (1, Call::Create, 5, None, [0, 5, 0, 0]),
    (
        0,
        Call::Destroy,
        0,
        Some(Fault::NoBuffer),
        [0, DEAD, DEAD, DEAD],
    ),
    (
        0,
        Call::Read,
        0,
        Some(Fault::NoBuffer),
        [0, DEAD, DEAD, DEAD],
    ),
];

#[test]
fn an_index_used_again(rt: HostRuntime) -> Result<(), Fail> {
    expect(rt.alloc(), 1, USED_AGAIN)
}

const LEFT_LAST: &[Row] = &[
    (0, Call::Create, 1, None, [0, 1, 0, 0]),
    (1, Call::Create, 2, None, [1, 2, 0, 0]),
    (2, Call::Create, 3, None, [2, 3, 0, 0]),
    (1, Call::Destroy, 0, None, [1, DEAD, DEAD, DEAD]),
    (0, Call::Destroy, 0, None, [0, DEAD, DEAD, DEAD]),
    (3, Call::Create, 4, None, [0, 4, 0, 0]),
    (4, Call::Create, 5, None, [1, 5, 0, 0]),
    (5, Call::Create, 6, None, [3, 6, 0, 0]),
];

#[test]
fn the_index_left_last_is_used_first(rt: HostRuntime) -> Result<(), Fail> {
    expect(rt.alloc(), 4, LEFT_LAST)
}

const NAMES: &[Row] = &[
    (0, Call::Create, 4, None, [0, 4, 0, 0]),
    (0, Call::CountIn, 0, None, [0, 4, 1, 0]),
    (0, Call::CountIn, 0, None, [0, 4, 2, 0]),
    (0, Call::CountIn, 0, None, [0, 4, 3, 0]),
    (0, Call::TakeOut, 0, None, [0, 4, 2, 1]),
    (0, Call::Read, 7, None, [0, 4, 2, 1]),
    (0, Call::Read, 8, None, [0, 4, 2, 1]),
    (
        0,
        Call::Destroy,
        0,
        Some(Fault::Mapped { count: 2 }),
        [0, 4, 2, 1],
    ),
    (0, Call::CountOut, 0, None, [0, 4, 1, 1]),
    (0, Call::CountOut, 0, None, [0, 4, 0, 1]),
    (
        0,
        Call::Destroy,
        0,
        Some(Fault::Kept { count: 1 }),
        [0, 4, 0, 1],
    ),
    (0, Call::BringBack, 0, None, [0, 4, 1, 0]),
    (
        0,
        Call::Destroy,
        0,
        Some(Fault::Mapped { count: 1 }),
        [0, 4, 1, 0],
    ),
    (0, Call::TakeOut, 0, None, [0, 4, 0, 1]),
    (0, Call::Keep, 0, None, [0, 4, 0, 2]),
    (0, Call::Unkeep, 0, None, [0, 4, 0, 1]),
    (0, Call::Unkeep, 0, None, [0, 4, 0, 0]),
    (
        0,
        Call::Destroy,
        0,
        Some(Fault::InUse { jobs: 2 }),
        [0, 4, 0, 0],
    ),
    (0, Call::Leave, 7, None, [0, 4, 0, 0]),
    (
        0,
        Call::Destroy,
        0,
        Some(Fault::InUse { jobs: 1 }),
        [0, 4, 0, 0],
    ),
    (0, Call::Leave, 8, None, [0, 4, 0, 0]),
    (0, Call::Destroy, 0, None, [0, DEAD, DEAD, DEAD]),
];

#[test]
fn what_names_a_buffer(rt: HostRuntime) -> Result<(), Fail> {
    expect(rt.alloc(), 1, NAMES)
}

const JOBS: &[Row] = &[
    (0, Call::Create, 1, None, [0, 1, 0, 0]),
    (1, Call::Create, 1, None, [1, 1, 0, 0]),
    (0, Call::Read, 9, None, [0, 1, 0, 0]),
    (0, Call::Read, 4, None, [0, 1, 0, 0]),
    (1, Call::Write, 4, None, [1, 1, 0, 0]),
    (
        0,
        Call::Write,
        5,
        Some(Fault::Conflict { job: 4 }),
        [0, 1, 0, 0],
    ),
    (
        0,
        Call::Write,
        4,
        Some(Fault::Conflict { job: 9 }),
        [0, 1, 0, 0],
    ),
    (
        1,
        Call::Read,
        9,
        Some(Fault::Conflict { job: 4 }),
        [1, 1, 0, 0],
    ),
    (0, Call::Leave, 4, None, [0, 1, 0, 0]),
    (1, Call::Write, 9, None, [1, 1, 0, 0]),
    (
        0,
        Call::Destroy,
        0,
        Some(Fault::InUse { jobs: 1 }),
        [0, 1, 0, 0],
    ),
];

#[test]
fn readers_and_writers(rt: HostRuntime) -> Result<(), Fail> {
    expect(rt.alloc(), 2, JOBS)
}

const JOINED_AGAIN: &[Row] = &[
    (0, Call::Create, 1, None, [0, 1, 0, 0]),
    (0, Call::Read, 3, None, [0, 1, 0, 0]),
    (0, Call::Write, 3, None, [0, 1, 0, 0]),
    (0, Call::Read, 3, None, [0, 1, 0, 0]),
    (
        0,
        Call::Destroy,
        0,
        Some(Fault::InUse { jobs: 1 }),
        [0, 1, 0, 0],
    ),
    (
        0,
        Call::Read,
        6,
        Some(Fault::Conflict { job: 3 }),
        [0, 1, 0, 0],
    ),
    (0, Call::Leave, 3, None, [0, 1, 0, 0]),
    (0, Call::Read, 6, None, [0, 1, 0, 0]),
];

#[test]
fn a_job_that_joins_again(rt: HostRuntime) -> Result<(), Fail> {
    expect(rt.alloc(), 1, JOINED_AGAIN)
}
