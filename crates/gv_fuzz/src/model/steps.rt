//! What a plan of an operation says: the mappings that it takes out or cuts, and the one that it puts in.
use super::names::Names;
use super::text::write_mapping;
use gv_model::{SpaceModel, changed, range_of};
use gv_types::{Backing, Fault, Mapping, Op, OutOfMemory, PageOp, PageRange};
use std::alloc::Global;

/// The operation in pages, or its fault.
pub fn op_in_pages(space_model: &SpaceModel, op: &Op) -> Result<PageOp, Fault> {
    let checked = space_model.bounds.check(op)?;
    match &checked {
        PageOp::Map { range, backing, .. } => check_buffer(space_model, *range, backing)?,
        _ => {}
    }
    Ok(checked)
}

/// Whether a map of a range lies in its buffer.
fn check_buffer(
    space_model: &SpaceModel,
    range: PageRange,
    backing: &Backing,
) -> Result<(), Fault> {
    let Backing::Buffer { id, page } = backing else {
        return Ok(());
    };
    let Some(made) = space_model.alive(id) else {
        return Err(Fault::NoBuffer);
    };
    if page.saturating_add(range.count()) > made.pages {
        return Err(Fault::OutOfBuffer);
    }
    Ok(())
}

/// What an operation puts in.
fn put_by(op: &PageOp) -> Option<Mapping> {
    match *op {
        PageOp::Map {
            range,
            backing,
            flags,
        } => Some(Mapping {
            range,
            backing,
            flags,
        }),
        _ => None,
    }
}

/// Whether the step of a mapping bears `keep`: the operation puts in what goes on from it.
fn has_keep(mapping: &Mapping, op: &PageOp) -> bool {
    match put_by(op) {
        Some(own) => goes_on(mapping, &own),
        None => false,
    }
}

/// Writes the step that puts in what an operation maps, where it maps.
fn write_put(out: &mut String, names: &Names, op: &PageOp) -> Result<(), OutOfMemory> {
    let Some(own) = put_by(op) else {
        return Ok(());
    };
    out.push_str("map ")?;
    write_mapping(out, names, Some(&own))?;
    Ok(out.push('\n')?)
}

/// Writes the steps of an operation on a list.
pub fn write_steps(
    alloc: Global,
    out: &mut String,
    names: &Names,
    list: &[Mapping],
    op: &PageOp,
) -> Result<(), OutOfMemory> {
    let before = out.len();
    if let Some(range) = range_of(op) {
        for mapping in list {
            if mapping.range.meets(range) {
                write_taken(alloc, out, names, mapping, range)?;
                out.push_str(if has_keep(mapping, op) {
                    " keep\n"
                } else {
                    "\n"
                })?;
            }
        }
    }
    write_put(out, names, op)?;
    if out.len() == before {
        out.push_str("empty\n")?;
    }
    Ok(())
}

/// Writes a mapping that gives up the pages of a range, and what is left of it.
fn write_taken(
    alloc: Global,
    out: &mut String,
    names: &Names,
    mapping: &Mapping,
    range: PageRange,
) -> Result<(), OutOfMemory> {
    let rests = changed(alloc, &[*mapping], range, &[])?;
    out.push_str(if rests.is_empty() { "unmap " } else { "remap " })?;
    write_mapping(out, names, Some(mapping))?;
    if rests.is_empty() {
        return Ok(());
    }
    out.push_str(" prev ")?;
    let prev = rests.iter().find(|rest| rest.range.first() < range.first());
    write_mapping(out, names, prev)?;
    out.push_str(" next ")?;
    let next = rests.iter().find(|rest| range.end() <= rest.range.first());
    write_mapping(out, names, next)?;
    Ok(())
}

/// Whether both map pages of one buffer with equal flags, and each page of both to the same page of it.
fn goes_on(mapping: &Mapping, own: &Mapping) -> bool {
    let same_flags = mapping.flags.read_only == own.flags.read_only;
    match (mapping.backing, own.backing) {
        (
            Backing::Buffer { id, page },
            Backing::Buffer {
                id: own_id,
                page: own_page,
            },
        ) => {
            let here = page.saturating_add(own.range.first());
            let there = own_page.saturating_add(mapping.range.first());
            same_flags && id == own_id && here == there
        }
        _ => false,
    }
}
