//! A run of a list of chunks replaced, wherever it lies and whatever is put in for it.
ghost use Rattle.std.specs.Prelude.{◌≡◌, ◌+◌, ◌-◌, ◌*◌, ◌<◌, ◌≤◌, ◌++◌, [], length, take, drop};
ghost use Rattle.std.specs.List.{splice};
ghost use Rattle.std.specs.Global.{Vec};
ghost use Rattle.gv_types.specs.declared.mapping.Mapping.{Mapping};
ghost use Rattle.gv_chunks.specs.Chunks.{chunks_joined, AreChunks, AreMerged};

use crate::CHUNK;
use crate::cut::{clear, cut};
use crate::merge_chunks::merge_chunks;
use crate::put::put_first;
use gv_types::Packed;

/// Cuts the list before `index`, and answers how many chunks stand before the cut. Of the first `used` chunks the last has to be
/// empty, and so have those behind them.
fn cut_used(chunks: &mut [Vec<Packed>], used: usize, index: usize) -> usize
    requires used { used ≤ length chunks.old }
    requires spare { chunks_joined (drop (used - 1) chunks.old) ≡ [] }
    requires within { index ≤ length (chunks_joined chunks.old) }
    requires chunks { AreChunks chunks.old }
    ensures within { result ≤ used }
    ensures before { chunks_joined (take result chunks.new) ≡ take index (chunks_joined chunks.old) }
    ensures behind { chunks_joined (drop result chunks.new) ≡ drop index (chunks_joined chunks.old) }
    ensures spare { chunks_joined (drop used chunks.new) ≡ [] }
    ensures chunks { AreChunks chunks.new }
{
    if index == 0 {
        return 0;
    }
    let (front, _) = chunks.split_at_mut(used);
    cut(front, index)
}

/// Takes the first `out_count` mappings out, and answers how many chunks stand now. The last chunk has to be empty.
pub fn drop_first(chunks: &mut [Vec<Packed>], out_count: usize) -> usize
    requires spare { chunks_joined (drop (length chunks.old - 1) chunks.old) ≡ [] }
    requires within { out_count ≤ length (chunks_joined chunks.old) }
    requires chunks { AreChunks chunks.old }
    ensures items { chunks_joined chunks.new ≡ drop out_count (chunks_joined chunks.old) }
    ensures within { result ≤ length chunks.new }
    ensures spare { chunks_joined (drop result chunks.new) ≡ [] }
    ensures chunks { AreChunks chunks.new }
{
    let gone = cut_used(chunks, chunks.len(), out_count);
    let (front, _) = chunks.split_at_mut(gone);
    clear(front);
    chunks.rotate_left(gone);
    chunks.len() - gone
}

/// Takes `out_count` mappings out from `index` on, and answers how many chunks stand now. Of those before the call it is given the
/// number; two more that hold nothing have to stand behind them.
pub fn take_out_run(
    chunks: &mut [Vec<Packed>],
    used_count: usize,
    index: usize,
    out_count: usize,
) -> usize
    requires room { used_count + 2 ≤ length chunks.old }
    requires spare { chunks_joined (drop used_count chunks.old) ≡ [] }
    requires within { index + out_count ≤ length (chunks_joined chunks.old) }
    requires chunks { AreChunks chunks.old }
    ensures items { chunks_joined chunks.new ≡ take index (chunks_joined chunks.old) ++ drop (index + out_count) (chunks_joined chunks.old) }
    ensures within { result ≤ length chunks.new }
    ensures spare { chunks_joined (drop result chunks.new) ≡ [] }
    ensures few { CHUNK * result ≤ 2 * length (chunks_joined chunks.new) + CHUNK }
    ensures chunks { AreChunks chunks.new }
{
    let start = cut_used(chunks, used_count + 1, index);
    let (_, tail) = chunks.split_at_mut(start);
    let remaining = drop_first(tail, out_count);
    merge_chunks(chunks, start + remaining)
}

/// Puts the pieces in before `index`, and answers how many chunks stand now.
pub fn put_in_run(
    chunks: &mut [Vec<Packed>],
    used_count: usize,
    index: usize,
    pieces: &[Packed],
) -> usize
    requires room { length pieces.now + CHUNK * (used_count + 1) ≤ CHUNK * length chunks.old }
    requires spare { chunks_joined (drop used_count chunks.old) ≡ [] }
    requires within { index ≤ length (chunks_joined chunks.old) }
    requires chunks { AreChunks chunks.old }
    ensures items { chunks_joined chunks.new ≡ splice (chunks_joined chunks.old) index index pieces.now }
    ensures within { result ≤ length chunks.new }
    ensures spare { chunks_joined (drop result chunks.new) ≡ [] }
    ensures merged { AreMerged (take result chunks.new) }
    ensures few { CHUNK * result ≤ 2 * length (chunks_joined chunks.new) + CHUNK }
    ensures chunks { AreChunks chunks.new }
{
    let start = cut_used(chunks, used_count + 1, index);
    let (_, tail) = chunks.split_at_mut(start);
    let now = put_first(tail, used_count + 1 - start, pieces);
    merge_chunks(chunks, start + now)
}

/// Replaces `out_count` mappings from `index` on by the pieces, and answers how many chunks stand now. All that stands is gone
/// through, and neighbours that fit into one chunk are joined.
pub fn replace_anywhere(
    chunks: &mut [Vec<Packed>],
    used_count: usize,
    index: usize,
    out_count: usize,
    pieces: &[Packed],
) -> usize
    requires used_count { used_count + 2 ≤ length chunks.old }
    requires room { 2 * (length (chunks_joined chunks.old) - out_count) + length pieces.now + 3 * CHUNK ≤ CHUNK * length chunks.old }
    requires spare { chunks_joined (drop used_count chunks.old) ≡ [] }
    requires within { index + out_count ≤ length (chunks_joined chunks.old) }
    requires chunks { AreChunks chunks.old }
    ensures items { chunks_joined chunks.new ≡ splice (chunks_joined chunks.old) index (index + out_count) pieces.now }
    ensures within { result ≤ length chunks.new }
    ensures spare { chunks_joined (drop result chunks.new) ≡ [] }
    ensures merged { AreMerged (take result chunks.new) }
    ensures few { CHUNK * result ≤ 2 * length (chunks_joined chunks.new) + CHUNK }
    ensures chunks { AreChunks chunks.new }
{
    let (used, _) = chunks.split_at_mut(used_count + 2);
    let remaining = take_out_run(used, used_count, index, out_count);
    let (used, _) = chunks.split_at_mut(remaining + 1 + pieces.len().div_ceil(CHUNK));
    put_in_run(used, remaining, index, pieces)
}
