//! Worked rows: calls, and what they answer.
use crate::journal::playing::{MANY, expect};
use crate::watch::Row;

const REFUSED_WHOLE: &[Row] = &[
    ("create 4", "number 0"),
    ("bind / map 0 4 0 0", "number 0"),
    ("bind / unmap 1 1 / map 8 2 0 3", "refused 1 OutOfBuffer"),
    ("list", "0 4 b0 0; "),
    ("count 0", "pages 4 uses 1 kept 0"),
    ("bind / unmap 1 1", "number 1"),
    ("rewind", "number 1"),
    ("list", "0 4 b0 0; "),
    ("count 0", "pages 4 uses 1 kept 0"),
];

const DONE_WHOLE: &[Row] = &[
    ("create 4", "number 0"),
    ("bind / map 0 4 0 0", "number 0"),
    ("bind / unmap 0 1 / zero-ro 1 2 / unmap 2 2", "number 1"),
    ("list", "1 2 zero ro; "),
    ("count 0", "pages 4 uses 0 kept 3"),
    ("rewind", "number 1"),
    ("list", "0 4 b0 0; "),
    ("count 0", "pages 4 uses 1 kept 0"),
    ("bind", "number 1"),
];

#[test]
fn requests_are_whole_or_not(rt: HostRuntime) {
    expect(&rt, MANY, REFUSED_WHOLE);
    expect(&rt, MANY, DONE_WHOLE);
}

const LIMITS: &[Row] = &[
    ("create 4", "number 0"),
    ("create 4", "refused 0 TooManyBuffers"),
    ("bind / map 0 3 0 0", "number 0"),
    ("bind / unmap 1 1", "number 1"),
    ("bind / zero 9 1", "refused 0 JournalFull"),
    ("rewind", "number 1"),
    ("rewind", "number 0"),
    ("rewind", "refused 0 NoEntry"),
    ("bind / map 0 3 0 0", "number 0"),
    ("bind / zero 1 1", "refused 0 TooManyMappings"),
];

const BUFFERS: &[Row] = &[
    ("create 1", "number 0"),
    ("bind / map 0 1 0 0", "number 0"),
    ("bind / unmap 0 1", "number 1"),
    ("destroy 0", "refused 0 Kept 1"),
    ("rewind", "number 1"),
    ("destroy 0", "refused 0 Mapped 1"),
    ("rewind", "number 0"),
    ("destroy 0", "number 0"),
    ("create 1", "number 0"),
    ("bind / map 0 1 0 0", "refused 0 NoBuffer"),
    ("bind / map 0 1 1 0", "number 0"),
];

const WITHDRAWAL: &[Row] = &[
    ("create 2", "number 0"),
    ("bind / map 0 1 0 0 / map 1 1 0 1", "number 0"),
    ("bind / zero 0 2", "number 1"),
    ("bind / zero 4 1 / zero 6 1", "number 2"),
    ("withdraw 1", "refused 0 TooManyMappings"),
    ("list", "0 2 zero; 4 5 zero; 6 7 zero; "),
];

#[test]
fn limits_and_buffers_are_kept_to(rt: HostRuntime) {
    expect(&rt, (1, 2, 2), LIMITS);
    expect(&rt, MANY, BUFFERS);
    expect(&rt, (1, 3, 8), WITHDRAWAL);
}

/// Requests of 256 and of 257 operations.
const LONG_REQUESTS: &[Row] = &[
    ("many 256", "number 0"),
    ("many 257", "refused 0 TooManyOps"),
];

#[test]
fn requests_have_so_many_operations(rt: HostRuntime) {
    expect(&rt, MANY, LONG_REQUESTS);
}
