//! The faults of operations, in their order.
use crate::playing::{expect, expect_in};
use crate::watch::Row;
use gv_types::Bounds;

/// Operations, each with its first fault, where buffer 0 is dead and buffer 1 has four pages, which are mapped. Bytes are past the end from
/// 300,000 pages on.
const FIRST_FAULTS: &[Row] = &[
    ("create 1", "created 0"),
    ("destroy 0", "done"),
    ("create 4", "created 0"),
    ("map 0 4 1 0", "changed 0 4"),
    ("plan / map-bytes 1228800000 0 0 1", "refused Unaligned"),
    ("map-bytes 1228800000 0 0 1", "refused Unaligned"),
    ("look 1", "0 4 b1 0; uses 1 kept 0 tables 1 1 1 1 1"),
    ("plan / map-bytes 1228800000 4095 0 0", "refused Unaligned"),
    ("map-bytes 1228800000 4095 0 0", "refused Unaligned"),
    ("look 1", "0 4 b1 0; uses 1 kept 0 tables 1 1 1 1 1"),
    ("plan / map-bytes 1 0 0 0", "refused Unaligned"),
    ("map-bytes 1 0 0 0", "refused Unaligned"),
    ("look 1", "0 4 b1 0; uses 1 kept 0 tables 1 1 1 1 1"),
    (
        "plan / map-bytes 1228800000 0 0 1228800000",
        "refused Empty",
    ),
    ("map-bytes 1228800000 0 0 1228800000", "refused Empty"),
    ("look 1", "0 4 b1 0; uses 1 kept 0 tables 1 1 1 1 1"),
    ("plan / map 50000 150001 0 9", "refused OutOfSpace"),
    ("map 50000 150001 0 9", "refused OutOfSpace"),
    ("look 1", "0 4 b1 0; uses 1 kept 0 tables 1 1 1 1 1"),
    ("plan / map 0 200000 0 9", "refused Reserved"),
    ("map 0 200000 0 9", "refused Reserved"),
    ("look 1", "0 4 b1 0; uses 1 kept 0 tables 1 1 1 1 1"),
    ("plan / map 1 9 0 9", "refused NoBuffer"),
    ("map 1 9 0 9", "refused NoBuffer"),
    ("look 1", "0 4 b1 0; uses 1 kept 0 tables 1 1 1 1 1"),
    ("plan / map 1 1 1 4", "refused OutOfBuffer"),
    ("map 1 1 1 4", "refused OutOfBuffer"),
    ("look 1", "0 4 b1 0; uses 1 kept 0 tables 1 1 1 1 1"),
    ("plan / map 10 5 1 0", "refused OutOfBuffer"),
    ("map 10 5 1 0", "refused OutOfBuffer"),
    ("look 1", "0 4 b1 0; uses 1 kept 0 tables 1 1 1 1 1"),
];

#[test]
fn first_fault_is_told(rt: HostRuntime) {
    let bounds = Bounds::new(0, 200_000, 50_000, 1).expect(&rt, "bounds");
    expect_in(&rt, bounds, (2, 1), FIRST_FAULTS);
}

const LIMIT: &[Row] = &[
    ("create 9", "created 0"),
    ("map 0 4 0 0", "changed 0 4"),
    ("unmap 1 1", "changed 1 2"),
    ("map 4 1 0 0", "refused TooManyMappings"),
    ("map 2 1 0 0", "refused TooManyMappings"),
    (
        "look 0",
        "0 1 b0 0; 2 4 b0 2; uses 2 kept 0 tables 1 1 1 1 1",
    ),
    ("unmap 3 1", "changed 3 4"),
    ("map 1 2 0 7", "changed 1 3"),
    (
        "look 0",
        "0 1 b0 0; 1 3 b0 7; uses 2 kept 0 tables 1 1 1 1 1",
    ),
];

#[test]
fn list_has_a_limit(rt: HostRuntime) {
    expect(&rt, (1, 2), LIMIT);
}

const PLAN: &[Row] = &[
    ("create 4", "created 0"),
    ("map 0 4 0 0", "changed 0 4"),
    (
        "plan / unmap 1 1",
        "remap 0 4 b0 0, prev 0 1 b0 0, next 2 4 b0 2; ",
    ),
    ("unmap 1 1", "refused TooManyMappings"),
    ("look 0", "0 4 b0 0; uses 1 kept 0 tables 1 1 1 1 1"),
];

#[test]
fn plan_asks_no_limit(rt: HostRuntime) {
    expect(&rt, (1, 1), PLAN);
}
