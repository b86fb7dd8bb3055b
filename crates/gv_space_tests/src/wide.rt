//! The whole width of addresses: 57 bits, which are 2^45 = 35,184,372,088,832 pages.
use crate::playing::expect;
use crate::watch::Row;

const LAST_PAGE: &[Row] = &[
    ("zero 35184372088831 2", "refused OutOfSpace"),
    (
        "zero 35184372088831 1",
        "changed 35184372088831 35184372088832",
    ),
    (
        "look 0",
        "35184372088831 35184372088832 zero; uses - kept - tables 1 1 1 1 1",
    ),
    ("page 35184372088831", "found zero, walked zero"),
    ("page 35184372088830", "found none, walked none"),
    ("page 35184372088832", "found none, walked none"),
    ("page 35184372088833", "found none, walked none"),
    ("page 18446744073709551615", "found none, walked none"),
];

#[test]
fn last_page_is_a_page_as_any_other(rt: HostRuntime) {
    expect(&rt, (1, 4), LAST_PAGE);
}

const GIGABYTE: &[Row] = &[
    ("zero 0 262144", "changed 0 262144"),
    ("tables", "tables 1 1 1 0 0"),
    (
        "undo / tables / unmap 0 1",
        "tables 1 1 1 1 1 | tables 1 1 1 0 0 | changed 0 1",
    ),
    ("tables", "tables 1 1 1 0 0"),
];

#[test]
fn gigabyte_is_one_leaf(rt: HostRuntime) {
    expect(&rt, (1, 4), GIGABYTE);
}

// The second: five slots of 512 gigabytes each, and a quarter of the next one.
const LONGER_THAN_A_LEAF: &[Row] = &[
    ("zero 0 65537", "changed 0 65537"),
    ("tables", "tables 1 1 1 1 1"),
    ("zero 0 704643072", "changed 0 704643072"),
    ("tables", "tables 1 1 6 0 0"),
    ("zero 68719476736 1", "changed 68719476736 68719476737"),
    ("tables", "tables 1 2 7 1 1"),
];

#[test]
fn operation_may_be_longer_than_a_leaf(rt: HostRuntime) {
    expect(&rt, (1, 4), LONGER_THAN_A_LEAF);
}
