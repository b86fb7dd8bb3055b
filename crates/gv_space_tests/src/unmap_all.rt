//! An unmap of a whole buffer: its steps, and the ranges that it unmaps. And what a space tells of what it was given.
use crate::playing::expect;
use crate::watch::Row;

const EACH_MAPPING: &[Row] = &[
    ("create 4", "created 0"),
    ("destroy 0", "done"),
    ("create 4", "created 0"),
    ("create 4", "created 1"),
    ("map 8 2 1 2", "changed 8 10"),
    ("zero 4 2", "changed 4 6"),
    ("map 0 4 1 0", "changed 0 4"),
    ("map 2 1 2 3", "changed 2 3"),
    (
        "plan / unmapall 1",
        "unmap 0 2 b1 0; unmap 3 4 b1 3; unmap 8 10 b1 2; ",
    ),
    ("ranges 1", "0 2; 3 4; 8 10; "),
    ("ranges 0", "refused NoBuffer"),
    ("plan / unmapall 0", "refused NoBuffer"),
];

#[test]
fn each_mapping_has_a_step_and_a_range(rt: HostRuntime) {
    expect(&rt, (3, 8), EACH_MAPPING);
}

const NO_MAPPING: &[Row] = &[
    ("create 4", "created 0"),
    ("zero 0 4", "changed 0 4"),
    ("plan / unmapall 0", ""),
    ("ranges 0", ""),
];

#[test]
fn buffer_without_mappings_has_no_step(rt: HostRuntime) {
    expect(&rt, (1, 8), NO_MAPPING);
}

const READERS: &[Row] = &[
    ("create 4", "created 0"),
    ("limits", "buffers 1 mappings 8"),
    ("check / zero-ro 35184372088831 1", "done"),
    ("map 0 4 0 0", "changed 0 4"),
    (
        "undo / tables / unmap 1 2",
        "tables 1 1 1 1 1 | tables 1 1 1 1 1 | changed 1 3",
    ),
    ("look 0", "0 4 b0 0; uses 1 kept 0 tables 1 1 1 1 1"),
];

#[test]
fn readers_tell_what_was_given(rt: HostRuntime) {
    expect(&rt, (1, 8), READERS);
}
