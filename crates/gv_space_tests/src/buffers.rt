//! Buffers, and the jobs that use them.
use crate::playing::expect;
use crate::watch::Row;

const IN_USE: &[Row] = &[
    ("create 4", "created 0"),
    ("count 0", "pages 4 uses 0 kept 0"),
    ("map 0 4 0 0", "changed 0 4"),
    ("destroy 0", "refused Mapped 1"),
    (
        "undo / destroy 0 / unmap 0 4",
        "refused Kept 1 |  | changed 0 4",
    ),
    ("destroy 0", "refused Mapped 1"),
    (
        "stay 1 / destroy 0 / unmap 0 4",
        "refused Kept 1 |  | changed 0 4",
    ),
    ("destroy 0", "done"),
];

#[test]
fn buffer_in_use_is_not_destroyed(rt: HostRuntime) {
    expect(&rt, (1, 4), IN_USE);
}

const DEAD: &[Row] = &[
    ("create 4", "created 0"),
    ("destroy 0", "done"),
    ("create 5", "created 0"),
    ("map 0 1 1 4", "changed 0 1"),
    ("count 1", "pages 5 uses 1 kept 0"),
    ("count 0", "pages - uses - kept -"),
    ("map 1 1 0 0", "refused NoBuffer"),
    ("read 0 1", "refused NoBuffer"),
    ("destroy 0", "refused NoBuffer"),
    ("create 1", "refused TooManyBuffers"),
    ("create 0", "refused BadSize"),
];

#[test]
fn dead_buffer_stays_dead(rt: HostRuntime) {
    expect(&rt, (1, 4), DEAD);
}

const WRITER: &[Row] = &[
    ("create 4", "created 0"),
    ("read 0 9", "done"),
    ("read 0 4", "done"),
    ("write 0 5", "refused Conflict 4"),
    ("write 0 4", "refused Conflict 9"),
    ("destroy 0", "refused InUse 2"),
    ("leave 9", "done"),
    ("write 0 4", "done"),
    ("read 0 4", "done"),
    ("read 0 5", "refused Conflict 4"),
    ("destroy 0", "refused InUse 1"),
    ("leave 4", "done"),
    ("destroy 0", "done"),
];

#[test]
fn writer_uses_a_buffer_alone(rt: HostRuntime) {
    expect(&rt, (1, 4), WRITER);
}
