//! Searches a sorted list in chunks for a page: the chunk first, then in it as in one slice.
ghost use Rattle.std.specs.Prelude.{◌≡◌, ◌<◌, ◌≤◌, ◌+◌, length, take, drop, slice_index_or, vec_len, IsTrue, MatchOption, None, Some};
ghost use Rattle.std.specs.List.{All};
ghost use Rattle.std.specs.Global.{Vec};
ghost use Rattle.gv_types.specs.Page.{PAGES};
ghost use Rattle.gv_types.specs.PageRange.{end_of};
ghost use Rattle.gv_types.specs.declared.mapping.Mapping.{Mapping};
ghost use Rattle.gv_chunks.specs.Chunks.{chunks_joined, AreFilled, AreStarts, AreFirsts};
ghost use Rattle.gv_ranges.specs.List.{at, first_ending_after, IsLaidOut, IsOverlappingRun};

use crate::overlap::Overlap;
use crate::search::{count_begun, count_ended, entry_at, first_ending_after_in, step_past};
use gv_chunks::{Spot, UsedChunks, piece_of};
use gv_types::{Entry, Packed, PageRange, SPACE_PAGES};

/// Where to look for the last chunk whose first mapping begins at `page` or before it: from a chunk on, at three chunks at most. Each
/// step leaves a quarter, whatever it finds, and its three looks don't wait for one another.
fn candidate_chunks(chunks: &[Vec<Packed>], firsts: &[u64], page: u64) -> (usize, usize)
    requires filled { AreFilled chunks.now }
    requires firsts { AreFirsts firsts.now chunks.now }
    requires laid_out { IsLaidOut (chunks_joined chunks.now) }
    requires some { 0 < length chunks.now }
    requires page { page ≤ PAGES }
    ensures some { 0 < result.1 }
    ensures few { result.1 ≤ 3 }
    ensures within { result.0 + result.1 ≤ length chunks.now }
    ensures ended { All (λ m. end_of m.range ≤ page) (chunks_joined (take result.0 chunks.now)) }
    ensures later { All (λ m. page < m.range.first) (chunks_joined (drop (result.0 + result.1) chunks.now)) }
{
    let mut chunk = 0;
    let mut remaining = chunks.len();
    while remaining > 3 {
        let quarter = remaining / 4;
        let low = step_past(quarter, firsts[chunk + quarter], page);
        let middle = step_past(quarter, firsts[chunk + 2 * quarter], page);
        let high = step_past(quarter, firsts[chunk + 3 * quarter], page);
        chunk += low + middle + high;
        remaining -= 3 * quarter;
    }
    (chunk, remaining)
}

/// The last chunk whose first mapping begins at `page` or before it, or the first chunk. The last steps halve what remains,
/// whatever they find.
pub(crate) fn chunk_of_page(chunks: &[Vec<Packed>], firsts: &[u64], page: u64) -> usize
    requires filled { AreFilled chunks.now }
    requires firsts { AreFirsts firsts.now chunks.now }
    requires laid_out { IsLaidOut (chunks_joined chunks.now) }
    requires some { 0 < length chunks.now }
    requires page { page ≤ PAGES }
    ensures within { result < length chunks.now }
    ensures ended { All (λ m. end_of m.range ≤ page) (chunks_joined (take result chunks.now)) }
    ensures later { All (λ m. page < m.range.first) (chunks_joined (drop (result + 1) chunks.now)) }
{
    let (mut chunk, mut remaining) = candidate_chunks(chunks, firsts, page);
    while remaining > 1 {
        let half = remaining / 2;
        let first = firsts[chunk + half];
        chunk += step_past(half, first, page);
        remaining -= half;
    }
    chunk
}

/// What a list in order that stands in chunks holds at a page.
pub(crate) fn entry_in(used: UsedChunks<'_>, page: u64) -> Option<Entry>
    requires filled { AreFilled used.chunks.now }
    requires firsts { AreFirsts used.firsts.now used.chunks.now }
    requires laid_out { IsLaidOut (chunks_joined used.chunks.now) }
    ensures { result ≡ at (chunks_joined used.entry.chunks.now) page }
{
    if page >= SPACE_PAGES || used.chunks.is_empty() {
        return None;
    }
    let chunk = chunk_of_page(used.chunks, used.firsts, page);
    entry_at(&used.chunks[chunk], page)
}

/// The first mapping that ends behind `page`, of a list in order that stands in chunks.
pub(crate) fn first_ending_after_of(used: UsedChunks<'_>, page: u64) -> Option<&Packed>
    requires filled { AreFilled used.chunks.now }
    requires firsts { AreFirsts used.firsts.now used.chunks.now }
    requires laid_out { IsLaidOut (chunks_joined used.chunks.now) }
    ensures { MatchOption result (first_ending_after (chunks_joined used.entry.chunks.now) page ≡ None)
        (λ m. first_ending_after (chunks_joined used.entry.chunks.now) page ≡ Some m.now) }
{
    if page >= SPACE_PAGES || used.chunks.is_empty() {
        return None;
    }
    let chunk = chunk_of_page(used.chunks, used.firsts, page);
    if let Some(m) = first_ending_after_in(&used.chunks[chunk], page) {
        return Some(m);
    }
    if chunk + 1 < used.chunks.len() {
        return Some(&used.chunks[chunk + 1][0]);
    }
    None
}

/// The last chunk that begins before `page`, given one before which all mappings do; that one, where it is the last. It
/// looks at where the chunks behind it begin, one after another.
fn last_begun_chunk(chunks: &[Vec<Packed>], firsts: &[u64], chunk: usize, page: u64) -> usize
    requires filled { AreFilled chunks.now }
    requires firsts { AreFirsts firsts.now chunks.now }
    requires laid_out { IsLaidOut (chunks_joined chunks.now) }
    requires chunk { chunk < length chunks.now }
    requires before { All (λ m. m.range.first < page) (chunks_joined (take chunk chunks.now)) }
    ensures within { result < length chunks.now }
    ensures begun { All (λ m. m.range.first < page) (chunks_joined (take result chunks.now)) }
    ensures not_begun { All (λ m. page ≤ m.range.first) (chunks_joined (drop (result + 1) chunks.now)) }
{
    let mut last = chunk;
    while last + 1 < chunks.len() && firsts[last + 1] < page {
        last += 1;
    }
    last
}

/// How many mappings begin before `page`, given a chunk and a number of its mappings of which all do, as do those of
/// the chunks before it.
fn count_begun_in(used: UsedChunks<'_>, chunk: usize, from: usize, page: u64) -> usize
    requires filled { AreFilled used.chunks.now }
    requires starts { AreStarts used.starts.now.numbers used.chunks.now }
    requires firsts { AreFirsts used.firsts.now used.chunks.now }
    requires laid_out { IsLaidOut (chunks_joined used.chunks.now) }
    requires chunk { chunk < length used.chunks.now }
    requires within { (d : Vec Mapping) → from ≤ vec_len (slice_index_or used.chunks.now chunk d) }
    requires before { All (λ m. m.range.first < page) (chunks_joined (take chunk used.chunks.now)) }
    requires begun { (d : Vec Mapping) → All (λ m. m.range.first < page)
        (take from (slice_index_or used.chunks.now chunk d).items) }
    ensures within { result ≤ length (chunks_joined used.entry.chunks.now) }
    ensures begun { All (λ m. m.range.first < page) (take result (chunks_joined used.entry.chunks.now)) }
    ensures not_begun { All (λ m. page ≤ m.range.first) (drop result (chunks_joined used.entry.chunks.now)) }
{
    let last = last_begun_chunk(used.chunks, used.firsts, chunk, page);
    let known = if last == chunk { from } else { 0 };
    let count = count_begun(&used.chunks[last], known, page);
    used.starts.get(last) + count
}

/// Where the range meets the list that the chunks are together.
#[inline(always)]
pub(crate) fn overlap_in(used: UsedChunks<'_>, range: PageRange) -> Overlap<'_>
    requires filled { AreFilled used.chunks.now }
    requires starts { AreStarts used.starts.now.numbers used.chunks.now }
    requires firsts { AreFirsts used.firsts.now used.chunks.now }
    requires laid_out { IsLaidOut (chunks_joined used.chunks.now) }
    ensures run { IsOverlappingRun (chunks_joined used.entry.chunks.now) range result.spot.index result.count }
    ensures block { result.block.now
        ≡ take (length result.block.now) (drop result.spot.index (chunks_joined used.entry.chunks.now)) }
{
    if used.chunks.is_empty() {
        return Overlap {
            spot: Spot::anywhere(0),
            count: 0,
            block: &[],
        };
    }
    let hint = chunk_of_page(used.chunks, used.firsts, range.first());
    let ended = count_ended(&used.chunks[hint], range.first());
    let index = used.starts.get(hint) + ended;
    let behind = count_begun_in(used, hint, ended, range.end());
    Overlap {
        spot: Spot { index, hint },
        count: behind - index,
        block: piece_of(used.chunks, hint, ended),
    }
}
