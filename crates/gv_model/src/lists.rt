//! Lists of mappings by the definitions alone: each mapping cut by itself, and put in order.
use gv_types::{Backing, BufferId, Entry, Mapping, OutOfMemory, PageOp, PageRange};
use std::alloc::Global;

/// Adds something at the end of a list.
pub fn push<T: Drop>(list: &mut Vec<T>, more: T) -> Result<(), OutOfMemory> {
    Ok(list.push(more)?)
}

/// A list of one operation.
pub fn only(alloc: Global, op: PageOp) -> Result<Vec<PageOp>, OutOfMemory> {
    // The borrow checker proves this only where the function names the types inside the operations.
    let _backing = Backing::Zero;
    let mut ops = Vec::new(alloc);
    ops.push(op)?;
    Ok(ops)
}

/// What stands so many pages further on.
pub fn further(backing: Backing, pages: u64) -> Backing {
    match backing {
        Backing::Buffer { id, page } => Backing::Buffer {
            id,
            page: page.saturating_add(pages),
        },
        Backing::Zero => Backing::Zero,
    }
}

/// What of a mapping lies at `low` or above and below `high`.
fn cut(mapping: &Mapping, low: u64, high: u64) -> Option<Mapping> {
    let start = mapping.range.first();
    let first = low.max(start);
    let end = high.min(mapping.range.end());
    if first >= end {
        return None;
    }
    Some(Mapping {
        range: PageRange::new(first, end - first)?,
        backing: further(mapping.backing, first - start),
        flags: mapping.flags,
    })
}

fn push_cut(
    list: &mut Vec<Mapping>,
    from: &[Mapping],
    low: u64,
    high: u64,
) -> Result<(), OutOfMemory> {
    for mapping in from {
        if let Some(part) = cut(mapping, low, high) {
            list.push(part)?;
        }
    }
    Ok(())
}

/// The list once the range holds what of some mappings lies in it, and nothing else.
pub fn changed(
    alloc: Global,
    list: &[Mapping],
    range: PageRange,
    inside: &[Mapping],
) -> Result<Vec<Mapping>, OutOfMemory> {
    let mut new = Vec::new(alloc);
    push_cut(&mut new, list, 0, range.first())?;
    push_cut(&mut new, inside, range.first(), range.end())?;
    push_cut(&mut new, list, range.end(), u64::MAX)?;
    Ok(new)
}

/// The pages that an operation names.
pub fn range_of(op: &PageOp) -> Option<PageRange> {
    match *op {
        PageOp::Map { range, .. } | PageOp::Unmap { range } => Some(range),
        PageOp::UnmapBuffer { .. } => None,
    }
}

/// The list after an operation that names its pages.
pub fn edited(alloc: Global, list: &[Mapping], op: &PageOp) -> Result<Vec<Mapping>, OutOfMemory> {
    let Some(range) = range_of(op) else {
        return Ok(Vec::from_slice(alloc, list)?);
    };
    match op.own_mapping() {
        Some(own) => changed(alloc, list, range, &[own]),
        None => changed(alloc, list, range, &[]),
    }
}

/// The list after some operations that name their pages.
pub fn edited_by_all(
    alloc: Global,
    list: &[Mapping],
    ops: &[PageOp],
) -> Result<Vec<Mapping>, OutOfMemory> {
    let mut now = Vec::from_slice(alloc, list)?;
    for op in ops {
        now = edited(alloc, now.as_slice(), op)?;
    }
    Ok(now)
}

/// What a mapping gives a page. None where it does not hold the page.
fn part(mapping: &Mapping, page: u64) -> Option<Entry> {
    let start = mapping.range.first();
    if page < start || page >= mapping.range.end() {
        return None;
    }
    Some(Entry {
        backing: further(mapping.backing, page - start),
        flags: mapping.flags,
    })
}

/// What the list gives a page.
pub fn at(list: &[Mapping], page: u64) -> Option<Entry> {
    for mapping in list {
        if let Some(entry) = part(mapping, page) {
            return Some(entry);
        }
    }
    None
}

/// What an operation gives a page. None where it does not cover the page, and nothing for an unmap that does.
pub fn given(op: &PageOp, page: u64) -> Option<Option<Entry>> {
    let range = range_of(op)?;
    if page < range.first() || page >= range.end() {
        return None;
    }
    match op.own_mapping() {
        Some(own) => Some(part(&own, page)),
        None => Some(None),
    }
}

fn is_of(backing: &Backing, buffer: &BufferId) -> bool {
    match backing {
        Backing::Buffer { id, .. } => id == buffer,
        Backing::Zero => false,
    }
}

/// How many of the mappings are of the buffer and meet the range.
pub fn count_met(list: &[Mapping], id: &BufferId, range: PageRange) -> u64 {
    list.iter()
        .filter(|mapping| mapping.range.meets(range) && is_of(&mapping.backing, id))
        .count() as u64
}

/// How many of the mappings are of the buffer.
pub fn count_of(list: &[Mapping], id: &BufferId) -> u64 {
    list.iter()
        .filter(|mapping| is_of(&mapping.backing, id))
        .count() as u64
}

/// The unmaps that an unmap of a whole buffer stands for.
pub fn unmaps_of(
    alloc: Global,
    list: &[Mapping],
    id: &BufferId,
) -> Result<Vec<PageOp>, OutOfMemory> {
    let mut unmaps = Vec::new(alloc);
    for mapping in list {
        if is_of(&mapping.backing, id) {
            let range = mapping.range;
            unmaps.push(PageOp::Unmap { range })?;
        }
    }
    Ok(unmaps)
}
