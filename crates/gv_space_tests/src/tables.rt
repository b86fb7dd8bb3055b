//! How many tables stand at the levels 4, 3, 2, 1 and 0. A slot of 512 or of 262,144 pages is a leaf where one mapping
//! covers it.
use crate::playing::expect;
use crate::watch::Row;

const LARGE_MAPS: &[Row] = &[
    ("create 65543", "created 0"),
    ("map 0 65536 0 0", "changed 0 65536"),
    ("tables", "tables 1 1 1 1 0"),
    ("unmap 0 65536", "changed 0 65536"),
    ("tables", "tables 0 0 0 0 0"),
    ("map 1 65536 0 0", "changed 1 65537"),
    ("tables", "tables 1 1 1 1 2"),
    ("map 1 65536 0 7", "changed 1 65537"),
    ("tables", "tables 1 1 1 1 2"),
];

#[test]
fn large_maps_have_large_leaves(rt: HostRuntime) {
    expect(&rt, (1, 4), LARGE_MAPS);
}

const ONE_MAPPING: &[Row] = &[
    ("create 513", "created 0"),
    ("map 1 512 0 1", "changed 1 513"),
    ("tables", "tables 1 1 1 1 2"),
    ("map 0 1 0 0", "changed 0 1"),
    ("tables", "tables 1 1 1 1 2"),
    ("map 512 512 0 0", "changed 512 1024"),
    ("tables", "tables 1 1 1 1 1"),
    (
        "undo / tables / map 0 512 0 0",
        "tables 1 1 1 1 0 | tables 1 1 1 1 1 | changed 0 512",
    ),
    (
        "look 0",
        "0 1 b0 0; 1 512 b0 1; 512 1024 b0 0; uses 3 kept 0 tables 1 1 1 1 1",
    ),
];

#[test]
fn only_one_mapping_makes_a_leaf(rt: HostRuntime) {
    expect(&rt, (1, 4), ONE_MAPPING);
}
