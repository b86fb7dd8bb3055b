//! Older mappings that come back to a range.
use crate::playing::expect;
use crate::watch::Row;

/// The undo value has the buffer's four pages, which were at page 0. Two pages of zeros stand at page 1 then.
const SAVED: &[Row] = &[
    ("create 4", "created 0"),
    ("map 0 4 0 0", "changed 0 4"),
    (
        "restore / look 0 / unmap 0 4 / zero 1 2 / range 1 2 / range 0 2 / range 2 9 / range 4 1",
        "\
uses 0 kept 1 tables 0 0 0 0 0 | \
1 3 zero; uses 0 kept 1 tables 1 1 1 1 1 | \
1 3 zero; uses 0 kept 1 tables 1 1 1 1 1 | \
1 3 b0 1; uses 1 kept 1 tables 1 1 1 1 1 | \
1 3 zero; uses 0 kept 1 tables 1 1 1 1 1 | \
0 2 b0 0; 2 3 zero; uses 1 kept 1 tables 1 1 1 1 1 | \
1 3 zero; uses 0 kept 1 tables 1 1 1 1 1 | \
1 2 zero; 2 4 b0 2; uses 1 kept 1 tables 1 1 1 1 1 | \
1 3 zero; uses 0 kept 1 tables 1 1 1 1 1 | \
1 3 zero; uses 0 kept 1 tables 1 1 1 1 1 | \
1 3 zero; uses 0 kept 1 tables 1 1 1 1 1 | \
1 3 zero; uses 0 kept 0 tables 1 1 1 1 1 | \
changed 4 5",
    ),
    ("look 0", "1 3 zero; uses 0 kept 0 tables 1 1 1 1 1"),
];

#[test]
fn saved_pages_come_back(rt: HostRuntime) {
    expect(&rt, (1, 3), SAVED);
}

const LIMIT: &[Row] = &[
    ("create 4", "created 0"),
    ("map 0 4 0 0", "changed 0 4"),
    (
        "restore / look 0 / unmap 0 4 / zero 0 4 / range 1 2",
        "\
uses 0 kept 1 tables 0 0 0 0 0 | \
0 4 zero; uses 0 kept 1 tables 1 1 1 1 1 | \
0 4 zero; uses 0 kept 1 tables 1 1 1 1 1 | \
0 4 zero; uses 0 kept 0 tables 1 1 1 1 1 | \
refused TooManyMappings",
    ),
    ("look 0", "0 4 zero; uses 0 kept 0 tables 1 1 1 1 1"),
];

#[test]
fn restore_keeps_the_limit(rt: HostRuntime) {
    expect(&rt, (1, 2), LIMIT);
}
