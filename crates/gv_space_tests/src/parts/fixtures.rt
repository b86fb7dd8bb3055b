//! Mappings, operations, and lists changed by them.
ghost use Rattle.std.specs.Prelude.{◌≡◌, ◌+◌, ◌≤◌, ◌++◌, [], IfOk, IsTrue, OnOk, length};
ghost use Rattle.std.specs.List.{All};
ghost use Rattle.std.specs.Option.{option_to_list};
ghost use Rattle.gv_types.specs.PageRange.{span, meets};
ghost use Rattle.gv_types.specs.Mapping.{buffer_id, IsMapping};
ghost use Rattle.gv_types.specs.Operation.{IsPageOp, own_mapping, range_of};
ghost use Rattle.gv_types.specs.declared.mapping.Backing.TheVariants.{Buffer};
ghost use Rattle.gv_ranges.specs.List.{run, IsLaidOut};
ghost use Rattle.gv_ranges.specs.Edit.{edited};

use gv_ranges::{RangeList, Run, next_rest, prev_rest};
use gv_types::{Backing, BufferId, Entry, Flags, Mapping, OutOfMemory, Packed, PageOp, PageRange};
use std::alloc::Global;
use std::test::Fail;

/// What a page holds where a page of a buffer stands behind it.
pub fn entry(page: u32) -> Entry {
    Entry {
        backing: Backing::Buffer {
            id: BufferId::new(1, 1),
            page: u64::from(page),
        },
        flags: Flags { read_only: false },
    }
}

/// `count` pages of a buffer from its page `page` on, at the page `first`.
pub fn mapping(first: u64, count: u64, index: u32, page: u32) -> Result<Mapping, &'static str>
    ensures range { IfOk result (λ m. m.range ≡ span first count) }
    ensures backing { IfOk result (λ m. m.backing ≡ Buffer (buffer_id index 1) page) }
    ensures mapping { IfOk result IsMapping }
{
    Ok(Mapping {
        range: PageRange::new(first, count).ok_or("no range")?,
        backing: Backing::Buffer {
            id: BufferId::new(index, 1),
            page: u64::from(page),
        },
        flags: Flags { read_only: false },
    })
}

/// A map of these pages.
pub fn map(first: u64, count: u64, index: u32, page: u32) -> Result<PageOp, &'static str>
    ensures op { IfOk result IsPageOp }
    ensures own { IfOk result (λ op. All (λ m. (m.range ≡ span first count) × (m.backing ≡ Buffer (buffer_id index 1) page))
        (own_mapping op)) }
{
    let own = mapping(first, count, index, page)?;
    Ok(PageOp::Map {
        range: own.range,
        backing: own.backing,
        flags: own.flags,
    })
}

pub fn unmap(first: u64, count: u64) -> Result<PageOp, &'static str>
    ensures op { IfOk result IsPageOp }
    ensures own { IfOk result (λ op. own_mapping op ≡ []) }
{
    Ok(PageOp::Unmap {
        range: PageRange::new(first, count).ok_or("no range")?,
    })
}

/// Appends what there is.
fn add(pieces: &mut Vec<Packed>, piece: Option<Packed>) -> Result<(), OutOfMemory>
    ensures { OnOk result (pieces.new.items ≡ pieces.old.items ++ option_to_list piece) }
{
    // The borrow checker proves the call only where the function names the types inside the mapping.
    let _backing = Backing::Zero;
    if let Some(piece) = piece {
        pieces.push(piece)?;
    }
    Ok(())
}

/// A copy of a run.
fn copied(alloc: Global, run: Run<'_>) -> Result<Vec<Packed>, OutOfMemory>
    ensures { IfOk result (λ copy. copy.items ≡ run.entry) }
{
    let mut copy = Vec::new(alloc);
    for mapping in run {
        copy.push(*mapping)?;
    }
    Ok(copy)
}

/// What replaces a run that meets the operation's range.
fn replacement(
    alloc: Global,
    list: &RangeList,
    position: usize,
    count: usize,
    op: &PageOp,
) -> Result<Vec<Packed>, OutOfMemory>
    requires op { IsPageOp op.now }
    requires within { position + count ≤ length list.now.mappings }
    requires meeting { All (λ m. IsTrue (meets m.range (range_of op.now))) (run list.now.mappings position count) }
    ensures { IfOk result (λ pieces. pieces.items ≡ edited (run list.now.mappings position count) op.now) }
{
    // Tells that the list is laid out.
    let _len = list.len();
    let range = op.range();
    let here = copied(alloc, list.run(position, count))?;
    let mut pieces = Vec::new(alloc);
    add(&mut pieces, prev_rest(&here, range.first()))?;
    add(&mut pieces, Packed::own(op))?;
    add(&mut pieces, next_rest(&here, range.end()))?;
    Ok(pieces)
}

/// Changes the list by the operation.
pub fn edit(alloc: Global, list: &mut RangeList, op: &PageOp) -> Result<(), OutOfMemory>
    requires { IsPageOp op.now }
    ensures ok { OnOk result (list.new.mappings ≡ edited list.old.mappings op.now) }
    ensures laid_out { IsLaidOut list.old.mappings }
{
    let (position, count) = list.overlapping(op.range());
    // Tells that the list is laid out.
    let _len = list.len();
    let pieces = replacement(alloc, list, position, count, op)?;
    list.reserve(pieces.len())?;
    list.splice(position, count, &pieces);
    Ok(())
}

/// The mappings of a list, in one block.
pub fn to_vec(alloc: Global, list: &RangeList) -> Result<Vec<Packed>, OutOfMemory>
    ensures value { IfOk result (λ mappings. mappings.items ≡ list.now.mappings) }
    ensures laid_out { IsLaidOut list.now.mappings }
{
    // Tells that the list is laid out.
    let _len = list.len();
    copied(alloc, list.iter())
}

/// A list of so many mappings of one page each: the pages of a buffer in turn, one at every `step`th page.
pub fn spread(alloc: Global, count: u32, step: u32) -> Result<RangeList, Fail> {
    let mut list = RangeList::new(alloc);
    for page in 0..count {
        let first = u64::from(page) * u64::from(step);
        edit(alloc, &mut list, &map(first, 1, 1, page)?)?;
    }
    Ok(list)
}

/// The pages of a map: the first, how many, a buffer's index, and its page that they begin at.
pub type Pages = (u64, u64, u32, u32);

/// A list into which these maps came in turn.
pub fn list_of(alloc: Global, rows: &[Pages]) -> Result<RangeList, Fail> {
    let mut list = RangeList::new(alloc);
    for (first, count, index, page) in rows {
        edit(alloc, &mut list, &map(*first, *count, *index, *page)?)?;
    }
    Ok(list)
}

/// The mappings of these pages.
pub fn packed(alloc: Global, rows: &[Pages]) -> Result<Vec<Packed>, Fail> {
    let mut mappings = Vec::new(alloc);
    for (first, count, index, page) in rows {
        mappings.push(Packed::new(&mapping(*first, *count, *index, *page)?))?;
    }
    Ok(mappings)
}
