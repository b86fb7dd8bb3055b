//! Trace events of i915.

use crate::fields::hex_fields;
use crate::vma_line::{Vma, VmaEvent};
use gv_lines::split_once;

/// The fields of an event: its object's pointer, which stands for its VMA, where that begins, its bytes, and its address space.
const VMA: [&str; 4] = ["obj", "offset", "size", "vm"];

/// An event and its address space, from the event's name on. A VMA is a whole object at one place.
pub fn parse_i915(text: &[u8]) -> Option<(u64, VmaEvent)> {
    let (name, fields) = split_once(text, b':')?;
    let [pointer, start, len, space] = hex_fields::<4>(fields, &VMA)?;
    let _end = start.checked_add(len)?;
    let vma = Vma {
        pointer,
        start,
        len,
    };
    match name {
        b"i915_vma_bind" => Some((
            space,
            VmaEvent::Bound {
                vma,
                is_of_process: false,
            },
        )),
        b"i915_vma_unbind" => Some((space, VmaEvent::Unbound { vma })),
        _ => None,
    }
}
