//! Worked rows of older requests, withdrawn and settled.
use crate::journal::playing::{MANY, expect};
use crate::watch::Row;

const OLDER: &[Row] = &[
    ("create 256", "number 0"),
    ("create 32", "number 1"),
    ("create 16", "number 2"),
    ("bind / map 0 256 0 0", "number 0"),
    ("bind / map 64 32 1 0", "number 1"),
    ("bind / map 112 16 2 0", "number 2"),
    ("withdraw 1", "number 3"),
    (
        "list",
        "0 64 b0 0; 64 96 b0 64; 96 112 b0 96; 112 128 b2 0; 128 256 b0 128; ",
    ),
    ("count 0", "pages 256 uses 4 kept 2"),
    ("count 1", "pages 32 uses 0 kept 1"),
    ("rewind", "number 3"),
    (
        "list",
        "0 64 b0 0; 64 96 b1 0; 96 112 b0 96; 112 128 b2 0; 128 256 b0 128; ",
    ),
    ("rewind", "number 2"),
    ("bind / map 80 16 2 0", "number 2"),
    ("withdraw 1", "refused 0 Touched 2"),
];

const TOUCHED: &[Row] = &[
    ("create 4", "number 0"),
    ("create 2", "number 1"),
    ("bind / map 0 4 0 0", "number 0"),
    ("bind / map 1 2 1 0", "number 1"),
    ("withdraw 0", "refused 0 Touched 1"),
    ("withdraw 1", "number 2"),
    ("withdraw 0", "number 3"),
    ("list", ""),
    ("withdraw 1", "refused 0 Withdrawn"),
    ("withdraw 2", "refused 0 NotABind"),
    ("withdraw 9", "refused 0 NoEntry"),
    ("rewind", "number 3"),
    ("rewind", "number 2"),
    ("list", "0 1 b0 0; 1 3 b1 0; 3 4 b0 3; "),
];

const TWO_OPERATIONS: &[Row] = &[
    ("create 4", "number 0"),
    ("bind / map 0 4 0 0", "number 0"),
    ("bind / unmap 0 4 / zero 1 2", "number 1"),
    ("withdraw 1", "number 2"),
    ("list", "0 4 b0 0; "),
    ("count 0", "pages 4 uses 1 kept 1"),
    ("rewind", "number 2"),
    ("list", "1 3 zero; "),
];

#[test]
fn older_requests_are_withdrawn(rt: HostRuntime) {
    expect(&rt, MANY, OLDER);
    expect(&rt, MANY, TOUCHED);
    expect(&rt, MANY, TWO_OPERATIONS);
}

const SETTLED: &[Row] = &[
    ("create 4", "number 0"),
    ("bind / map 0 1 0 0", "number 0"),
    ("bind / map 1 1 0 1", "number 1"),
    ("bind / unmapall 0", "number 2"),
    ("list", ""),
    ("settle 2", "number 2"),
    ("count 0", "pages 4 uses 0 kept 2"),
    ("withdraw 0", "refused 0 NoEntry"),
    ("withdraw 2", "number 3"),
    ("list", "0 1 b0 0; 1 2 b0 1; "),
    ("rewind", "number 3"),
    ("rewind", "number 2"),
    ("rewind", "refused 0 NoEntry"),
    ("list", "0 1 b0 0; 1 2 b0 1; "),
];

const CROSSED: &[Row] = &[
    ("bind / zero 0 1", "number 0"),
    ("withdraw 0", "number 1"),
    ("settle 1", "refused 0 Crossed 1"),
    ("settle 3", "refused 0 NoEntry"),
    ("settle 2", "number 2"),
    ("settle 2", "number 0"),
    ("settle 1", "refused 0 NoEntry"),
    ("bind / zero 0 1", "number 2"),
];

const SETTLED_FIRST: &[Row] = &[
    ("create 1", "number 0"),
    ("bind / map 0 1 0 0", "number 0"),
    ("settle 1", "number 1"),
    ("bind / zero 0 1", "number 1"),
    ("withdraw 1", "number 2"),
    ("list", "0 1 b0 0; "),
    ("destroy 0", "refused 0 Mapped 1"),
];

#[test]
fn settled_items_go(rt: HostRuntime) {
    expect(&rt, MANY, SETTLED);
    expect(&rt, MANY, CROSSED);
    expect(&rt, MANY, SETTLED_FIRST);
}
