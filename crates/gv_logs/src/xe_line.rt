//! Trace events of xe.

use crate::fields::hex_fields;
use crate::vma_line::{Vma, VmaEvent};
use gv_lines::split_once;
use std::str;

/// What stands before the name of an event of a VMA.
const OF_VMA: &str = "xe_vma_";

/// Its fields: its pointer, its first and its last byte, and the memory of a process that it shows, which is 0 for none.
const VMA: [&str; 4] = ["vma", "start", "end", "userptr"];

/// Events that only touch what stands; so do all whose names begin with `userptr_`.
const TOUCHES: [&str; 8] = [
    "pf_bind",
    "pagefault",
    "acc",
    "flush",
    "evict",
    "invalidate",
    "rebind_worker",
    "rebind_exec",
];

/// An event and its address space, from the event's name on. Other versions of the driver have further fields.
pub fn parse_xe(text: &[u8]) -> Option<(u64, VmaEvent)> {
    let (name, fields) = split_once(text, b':')?;
    let event = match str::from_utf8(name).ok()? {
        "xe_vm_create" => VmaEvent::SpaceMade,
        "xe_vm_free" => VmaEvent::SpaceGone,
        name => parse_vma_event(name.strip_prefix(OF_VMA)?, fields)?,
    };
    let [space] = hex_fields::<1>(fields, &["asid"])?;
    Some((space, event))
}

/// An event of a VMA.
fn parse_vma_event(event: &str, fields: &[u8]) -> Option<VmaEvent> {
    let [pointer, start, end, userptr] = hex_fields::<4>(fields, &VMA)?;
    let len = end.checked_sub(start)?.checked_add(1)?;
    let _end = start.checked_add(len)?;
    let vma = Vma {
        pointer,
        start,
        len,
    };
    match event {
        "bind" => Some(VmaEvent::Bound {
            vma,
            is_of_process: userptr != 0,
        }),
        "unbind" => Some(VmaEvent::Unbound { vma }),
        _ => is_touch(event).then_some(VmaEvent::Touched),
    }
}

/// Whether an event of a VMA only touches what stands.
fn is_touch(event: &str) -> bool {
    TOUCHES.contains(&event) || event.starts_with("userptr_")
}
