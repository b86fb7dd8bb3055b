//! Finds the first later item that touches operations: both cover some page.
ghost use Rattle.std.specs.Prelude.{◌≡◌, ℕ, ◌⊎◌, ◌+◌, ◌<◌, ◌^◌, Bool, ◌≤◌, false, ◌&&◌, ◌-◌, take, drop, not, is_some, length, IsTrue, IfSome};
ghost use Rattle.std.specs.List.{list_any};
ghost use Rattle.gv_types.specs.Page.{IsPage, PAGES};
ghost use Rattle.gv_types.specs.PageRange.{covers, meets};
ghost use Rattle.gv_types.specs.Operation.{range_of};
ghost use Rattle.gv_journal.specs.Items.{done_by};
ghost use Rattle.gv_journal.specs.Columns.{AreInSpace};
ghost use Rattle.gv_journal.specs.Notes.{TellGone};
ghost use Rattle.gv_journal.specs.Reach.{IsReachOf, AllApart, regions_meet};
ghost use Rattle.gv_journal.specs.Restoring.{pages_named};
ghost use Rattle.gv_journal.specs.Covering.{first_taken, last_covering};
ghost use Rattle.gv_journal.specs.Withdrawing.{touch, touched_from};

use crate::item::{Item, ItemKind};
use crate::note::Note;
use crate::part::Part;
use crate::reach::Reach;
use gv_space::OpUndo;
use gv_types::{Entry, PageOp, PageRange};

/// How many items are passed over at once, where none of them is reached.
const BLOCK: usize = 8;

/// From this trust on a block's pages are asked where its regions tell nothing. Where they tell nothing either, they aren't asked of the
/// next blocks, as many as this, that come so far.
const ASKED: u32 = 8;

/// From this trust on they are asked first: they alone told so many blocks in a row as lie between.
const FIRST: u32 = 12;

/// From here on a number is what a lesser one leaves when a greater is taken off it.
const SIGN: u64 = 1 << 63;

/// The pages of an operation, if it names any.
pub fn pages_of(op: &PageOp) -> Option<PageRange>
    ensures { result ≡ pages_named op.now }
{
    match *op {
        PageOp::Map { range, .. } => Some(range),
        PageOp::Unmap { range } => Some(range),
        PageOp::UnmapBuffer { .. } => None,
    }
}

/// Whether the operation covers the page.
fn covers(op: &PageOp, page: u64) -> bool
    ensures value { result ≡ covers (range_of op.now) page }
    ensures in_space { IsTrue result → IsPage page }
{
    match pages_of(op) {
        Some(range) => range.covers(page),
        None => false,
    }
}

/// The last operation of an item that covers the page.
pub fn last_covering(kind: &ItemKind, page: u64) -> Option<PageOp>
    ensures value { result ≡ last_covering kind.now page }
    ensures in_space { IfSome result (λ _. IsPage page) }
{
    let done = done_by(kind);
    for index in (0..done.len()).rev() {
        let op = &done[index];
        if covers(op, page) {
            return Some(*op);
        }
    }
    None
}

/// What the first operation that covers the page took out of it, by the undo values.
fn first_taken(done: &[PageOp], undos: &[OpUndo], page: u64) -> Option<Option<Entry>>
    ensures { result ≡ first_taken done.now undos.now page }
{
    for (index, op) in done.iter().enumerate() {
        if covers(op, page) {
            return Some(undos.get(index)?.taken_at(page));
        }
    }
    None
}

/// What an item took out of the page first, if an operation of it covers the page.
pub fn first_taken_by(item: &Item, page: u64) -> Option<Option<Entry>>
    ensures { result ≡ first_taken (done_by item.now.kind) item.now.undos.items page }
{
    first_taken(done_by(&item.kind), &item.undos, page)
}

/// Whether some page of a range is covered by the operation.
fn meets(range: PageRange, other: &PageOp) -> bool
    ensures { result ≡ meets range (range_of other.now) }
{
    match pages_of(other) {
        Some(other) => range.meets(other),
        None => false,
    }
}

/// Whether some page of the operation is covered by one of the others.
fn meets_any(op: &PageOp, others: &[PageOp]) -> bool
    ensures { result ≡ list_any (λ other. meets (range_of op.now) (range_of other)) others.now }
{
    match pages_of(op) {
        Some(range) => others.iter().any(|other| meets(range, other)),
        None => false,
    }
}

/// Whether some page is covered by an operation of each.
fn touch(ops: &[PageOp], others: &[PageOp]) -> bool
    ensures { result ≡ touch ops.now others.now }
{
    ops.iter().any(|op| meets_any(op, others))
}

/// What an item did: a withdrawal has no operations of its own.
pub fn done_by(kind: &ItemKind) -> &[PageOp]
    ensures { result.now ≡ done_by kind.now }
{
    match kind {
        ItemKind::Bind { done, .. } => done,
        ItemKind::Withdrawal { .. } => &[],
    }
}

/// Whether an item that isn't withdrawn touches operations: they are compared only where what both reach doesn't tell that none
/// can meet.
fn is_in_way(note: &Note, item: &Item, reach: &Reach, own: &Reach, ops: &[PageOp]) -> bool
    requires reach { IsReachOf reach.now (done_by item.now.kind) }
    requires own { IsReachOf own.now ops.now }
    ensures { result ≡ (touch ops.now (done_by item.now.kind) && not (is_some note.now)) }
{
    if !own.reaches(reach) {
        return false;
    }
    if note.is_withdrawn() {
        return false;
    }
    touch(ops, done_by(&item.kind))
}

/// As `first_touched`, one item after another. It has a frame of its own: few blocks come here.
#[inline(never)]
fn first_in_way(part: &Part<'_>, own: &Reach, ops: &[PageOp], from: u64) -> Option<u64>
    requires numbers { from + length part.now.items.now < 2 ^ 64 }
    requires own { IsReachOf own.now ops.now }
    ensures { (gone : ℕ → Bool) → TellGone gone from part.now.notes.now → result ≡ touched_from gone ops.now from part.now.items.now }
{
    for (index, item) in part.items.iter().enumerate() {
        let reach = part.reach(index);
        if is_in_way(&part.notes[index], item, &reach, own, ops) {
            return Some(from + index as u64);
        }
    }
    None
}

/// Whether some page from the least to the greatest of an item may be among those of another. The differences' signs stand for
/// comparisons, gathered without a branch: so several items are compared at once. Inlined, so that the number of a block's items
/// is known.
#[inline(always)]
fn may_meet(firsts: &[u64], pasts: &[u64], own: &Reach) -> bool
    requires beside { length pasts.now ≡ length firsts.now }
    requires in_space { AreInSpace pasts.now }
    requires own { own.now.past ≤ PAGES }
    ensures { result ≡ false → AllApart own.now.first own.now.past firsts.now pasts.now }
{
    let (first, past) = (own.first, own.past);
    let mut signs: u64 = 0;
    for index in 0..firsts.len() {
        signs |= firsts[index].wrapping_sub(past) & first.wrapping_sub(pasts[index]);
    }
    signs >= SIGN
}

/// Whether a block's items are told to be apart from another, by its regions, which costs least, or by the pages of each. Neighbours in a
/// journal mostly lie alike: those of several operations, on both sides, are told by their regions or not at all, those in one region
/// by their pages. So `trust` says whether the pages are asked, by what they told of the last blocks. Inlined, so that the number of
/// the block's items is known.
#[inline(always)]
fn are_apart(firsts: &[u64], pasts: &[u64], regions: &[u128], own: &Reach, trust: &mut u32) -> bool
    requires beside { length pasts.now ≡ length firsts.now }
    requires in_space { AreInSpace pasts.now }
    requires own { own.now.past ≤ PAGES }
    ensures { IsTrue result → (AllApart own.now.first own.now.past firsts.now pasts.now)
        ⊎ (list_any (λ other. regions_meet own.now.regions other) regions.now ≡ false) }
{
    let before = *trust;
    if before >= FIRST && !may_meet(firsts, pasts, own) {
        return true;
    }
    if !own.shares_region_with_any(regions) {
        *trust = before.min(ASKED);
        return true;
    }
    if before < ASKED {
        *trust = before + 1;
        return false;
    }
    if before < FIRST && !may_meet(firsts, pasts, own) {
        *trust = before + 1;
        return true;
    }
    *trust = 0;
    false
}

/// As `first_touched`, for the block from an index up to another: its items are passed over at once where all are apart. Inlined, so
/// that the number of the block's items is known.
#[inline(always)]
fn first_reached(
    part: &Part<'_>,
    start: usize,
    end: usize,
    own: &Reach,
    ops: &[PageOp],
    from: u64,
    trust: &mut u32,
) -> Option<u64>
    requires ordered { start ≤ end }
    requires within { end ≤ length part.now.items.now }
    requires numbers { from + (end - start) < 2 ^ 64 }
    requires own { IsReachOf own.now ops.now }
    requires in_space { own.now.past ≤ PAGES }
    ensures { (gone : ℕ → Bool) → TellGone gone from (take (end - start) (drop start part.now.notes.now))
        → result ≡ touched_from gone ops.now from (take (end - start) (drop start part.now.items.now)) }
{
    if are_apart(
        &part.firsts[start..end],
        &part.pasts[start..end],
        &part.regions[start..end],
        own,
        trust,
    ) {
        return None;
    }
    first_in_way(&part.between(start, end), own, ops, from)
}

/// The number of the first item that isn't withdrawn and touches the operations of another. The first of these items has the
/// number `from`. Nearly all items lie elsewhere, so they are gone through in blocks of a fixed length, and a block where all do is
/// passed over by one test, or two.
pub fn first_touched(part: &Part<'_>, own: &Reach, ops: &[PageOp], from: u64) -> Option<u64>
    requires numbers { from + length part.now.items.now < 2 ^ 64 }
    requires own { IsReachOf own.now ops.now }
    requires in_space { own.now.past ≤ PAGES }
    ensures { (gone : ℕ → Bool) → TellGone gone from part.now.notes.now → result ≡ touched_from gone ops.now from part.now.items.now }
{
    let many = part.items.len();
    let mut trust = ASKED;
    let mut start = 0;
    while many - start >= BLOCK {
        let end = start + BLOCK;
        let number = from + start as u64;
        let found = first_reached(part, start, end, own, ops, number, &mut trust);
        if found.is_some() {
            return found;
        }
        start = end;
    }
    first_in_way(&part.between(start, many), own, ops, from + start as u64)
}
