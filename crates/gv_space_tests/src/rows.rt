//! Rows of operations that are applied and then undone.
use crate::playing::expect;
use crate::watch::Row;

const FREED_TABLES: &[Row] = &[
    ("create 4", "created 0"),
    ("map 0 1 0 0", "changed 0 1"),
    (
        "undo / look 0 / unmap 0 1",
        "uses 0 kept 1 tables 0 0 0 0 0 | 0 1 b0 0; uses 1 kept 0 tables 1 1 1 1 1 | changed 0 1",
    ),
];

#[test]
fn tables_that_an_unmap_freed_come_back(rt: HostRuntime) {
    expect(&rt, (1, 4), FREED_TABLES);
}

const HOLE: &[Row] = &[
    ("create 4", "created 0"),
    (
        "stay 1 / look 0 / map 0 4 0 0 / unmap 1 1",
        "0 4 b0 0; uses 1 kept 0 tables 1 1 1 1 1 | 0 1 b0 0; 2 4 b0 2; uses 2 kept 1 tables 1 1 1 1 1 | 0 4 b0 0; uses 1 kept 0 tables 1 1 1 1 1 | 0 4 b0 0; uses 1 kept 0 tables 1 1 1 1 1 | changed 1 2",
    ),
    ("look 0", "0 4 b0 0; uses 1 kept 0 tables 1 1 1 1 1"),
];

#[test]
fn hole_is_taken_back(rt: HostRuntime) {
    expect(&rt, (1, 4), HOLE);
}

const PAGE_IN_A_HOLE: &[Row] = &[
    ("create 4", "created 0"),
    (
        "stay 1 / page 1 / map 0 4 0 0 / unmap 1 1",
        "found b0 1, walked b0 1 | found none, walked none | found b0 1, walked b0 1 | found b0 1, walked b0 1 | changed 1 2",
    ),
    ("page 1", "found b0 1, walked b0 1"),
];

#[test]
fn page_in_a_hole_holds_nothing(rt: HostRuntime) {
    expect(&rt, (1, 4), PAGE_IN_A_HOLE);
}

const TWO_CHANGES: &[Row] = &[
    ("create 512", "created 0"),
    (
        "undo / look 0 / map 512 512 0 0 / unmap 700 1",
        "512 1024 b0 0; uses 1 kept 0 tables 1 1 1 1 0 | 512 700 b0 0; 701 1024 b0 189; uses 2 kept 1 tables 1 1 1 1 1 | 512 1024 b0 0; uses 1 kept 0 tables 1 1 1 1 0 | uses 0 kept 0 tables 0 0 0 0 0 | changed 700 701",
    ),
    ("look 0", "uses 0 kept 0 tables 0 0 0 0 0"),
];

#[test]
fn two_changes_are_taken_back(rt: HostRuntime) {
    expect(&rt, (1, 4), TWO_CHANGES);
}
