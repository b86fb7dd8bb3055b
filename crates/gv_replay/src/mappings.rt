//! The mappings at the end of a replay, as a script's line `map` is answered.

use crate::text::write_buffer;
use gv_lines::write_hex;
use gv_ranges::RangeList;
use gv_types::{Backing, PAGE_BYTES, Packed};
use std::alloc::AllocError;

/// The first byte of a page.
fn byte_of(page: u64) -> u64 {
    page.saturating_mul(PAGE_BYTES)
}

/// Writes each mapping on a line of its own, or that there is none.
pub fn write_mappings(out: &mut String, list: &RangeList) -> Result<(), AllocError> {
    if list.len() == 0 {
        return out.push_str("empty\n");
    }
    for mapping in list.iter() {
        write_mapping(out, mapping)?;
    }
    Ok(())
}

/// Writes a mapping: its first byte, the byte past its end, what stands behind it, and its flags.
fn write_mapping(out: &mut String, mapping: &Packed) -> Result<(), AllocError> {
    write_hex(out, byte_of(mapping.first()))?;
    out.push_str(" ")?;
    write_hex(out, byte_of(mapping.end()))?;
    out.push_str(" ")?;
    write_backing(out, &mapping.backing())?;
    out.push_str(if mapping.flags().read_only {
        " ro\n"
    } else {
        " rw\n"
    })
}

/// Writes what stands behind a mapping: a buffer and the byte that it begins at, or zeroes.
fn write_backing(out: &mut String, backing: &Backing) -> Result<(), AllocError> {
    match backing {
        Backing::Buffer { id, page } => {
            write_buffer(out, id)?;
            out.push_str(" ")?;
            write_hex(out, byte_of(*page))
        }
        Backing::Zero => out.push_str("zero"),
    }
}
