//! One address space used alone: a mapping is made, looked up and taken back.
use gv_space::Space;
use gv_types::{Bounds, Entry, Fault, Flags, Limits, Op};
use std::alloc::Global;

/// What the page 2 holds while a buffer is mapped from the page 1 on, and what once that was taken back.
pub fn map_and_take_back(alloc: Global) -> Result<(Option<Entry>, Option<Entry>), Fault> {
    let mut space = Space::new(alloc, Bounds::whole(), Limits::full())?;
    // A buffer has pages, of 4,096 bytes each; an operation speaks of bytes; a look-up of a page.
    let buffer = space.create(alloc, 4)?;
    let op = Op::Map {
        addr: 0x1000,
        len: 0x4000,
        buffer,
        offset: 0,
        flags: Flags { read_only: false },
    };
    let undo = space.apply(alloc, &op)?;
    let mapped = space.walk(2);
    space.revert(undo);
    Ok((mapped, space.walk(2)))
}
