//! What a change takes out of the list, and what it puts in: mappings and rests.
ghost use Rattle.std.specs.Prelude.{◌≡◌, ◌+◌, ◌-◌, ◌<◌, ◌≤◌, ◌++◌, [], length, take, drop, IfOk, OnOk};
ghost use Rattle.std.specs.List.{All};
ghost use Rattle.std.specs.Option.{option_to_list};
ghost use Rattle.gv_types.specs.PageRange.{end_of, IsInSpace};
ghost use Rattle.gv_ranges.specs.List.{run, IsLaidOut};
ghost use Rattle.gv_ranges.specs.Edit.{clipped, restored};
ghost use Rattle.gv_space.specs.Refusal.{count_met};

use gv_ranges::{Overlap, RangeList, next_rest, prev_rest};
use gv_types::{OutOfMemory, Packed, PageRange};
use smallvec::SmallVec;
use std::array::from_ref;

/// How many mappings an undo value keeps in itself: most operations meet one to three.
const INLINE: usize = 3;

/// What a change takes out, in the value itself where they are at most three.
pub type TakenMappings = SmallVec<Packed, INLINE>;

/// How many mappings come in without memory: most operations put in one, with a rest on each side.
const INCOMING: usize = 3;

/// The mappings that come in, in the value itself where they are at most three.
pub type Incoming = SmallVec<Packed, INCOMING>;

/// The mapping, if there is one, as pieces.
#[inline(always)]
pub fn as_pieces(mapping: &Option<Packed>) -> &[Packed]
    ensures { result.now ≡ option_to_list mapping.now }
{
    match mapping {
        Some(mapping) => from_ref(mapping),
        None => &[],
    }
}

/// Copies the mappings of an overlap to where they stay, which asks for just their room. Mostly they stand in one block of memory.
pub fn copy_run(
    pieces: &mut TakenMappings,
    list: &RangeList,
    overlap: Overlap<'_>,
) -> Result<(), OutOfMemory>
    requires none { pieces.old.items ≡ [] }
    requires within { overlap.spot.index + overlap.count ≤ length list.now.mappings }
    requires block { overlap.block.now ≡ take (length overlap.block.now) (drop overlap.spot.index list.now.mappings) }
    ensures { OnOk result (pieces.new.items ≡ run list.now.mappings overlap.entry.spot.index overlap.entry.count) }
{
    let Overlap { spot, count, block } = overlap;
    pieces.reserve_exact(count)?;
    if count <= block.len() {
        return Ok(pieces.extend_from_slice(&block[..count])?);
    }
    for mapping in list.run_at(spot, count) {
        pieces.push(*mapping)?;
    }
    Ok(())
}

/// How many of the saved mappings have pages in the range.
pub fn count_in_range(saved: &[Packed], range: PageRange) -> usize
    ensures count { result ≡ count_met saved.now range }
    ensures few { result ≤ length saved.now }
    ensures in_space { IsInSpace range }
{
    saved.iter().filter(|m| m.range().meets(range)).count()
}

/// Appends what of the saved mappings lies in the range.
fn push_clipped(
    pieces: &mut Incoming,
    saved: &[Packed],
    range: PageRange,
) -> Result<(), OutOfMemory>
    requires { IsLaidOut saved.now }
    ensures { OnOk result (pieces.new.items
        ≡ pieces.old.items ++ clipped range.first (end_of range) saved.now) }
{
    for mapping in saved {
        match mapping.clip(range.first(), range.end()) {
            Some(piece) => pieces.push(piece)?,
            None => continue,
        }
    }
    Ok(())
}

/// What comes to stand where a run was taken out that met the range: what of the saved mappings lies in it, between the rests of the
/// run. It is put where it stays, since a copy would wait for what was just written. It answers from which index up to which one the
/// mappings in the range stand.
pub fn with_rests(
    pieces: &mut Incoming,
    taken: &[Packed],
    saved: &[Packed],
    range: PageRange,
) -> Result<(usize, usize), OutOfMemory>
    requires none { pieces.old.items ≡ [] }
    requires taken { IsLaidOut taken.now }
    requires past { All (λ m. range.first < end_of m.range) taken.now }
    requires before { All (λ m. m.range.first < end_of range) taken.now }
    requires saved { IsLaidOut saved.now }
    ensures pieces { OnOk result (pieces.new.items ≡ restored taken.now range saved.now) }
    ensures start { IfOk result (λ at. at.0 ≡ length (clipped 0 range.first taken.now)) }
    ensures end { IfOk result (λ at. at.1 ≡ at.0 + length (clipped range.first (end_of range) saved.now)) }
{
    if let Some(rest) = prev_rest(taken, range.first()) {
        pieces.push(rest)?;
    }
    let start = pieces.len();
    push_clipped(pieces, saved, range)?;
    let end = pieces.len();
    if let Some(rest) = next_rest(taken, range.end()) {
        pieces.push(rest)?;
    }
    Ok((start, end))
}
