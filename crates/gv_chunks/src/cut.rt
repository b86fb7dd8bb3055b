//! A list of chunks cut at an index, and chunks filled.
ghost use Rattle.std.specs.Prelude.{◌≡◌, ◌+◌, ◌-◌, ◌*◌, ◌<◌, ◌≤◌, ℕ, [], length, take, drop, slice_index_or, vec_len};
ghost use Rattle.std.specs.Global.{Vec};
ghost use Rattle.gv_types.specs.declared.mapping.Mapping.{Mapping};
ghost use Rattle.gv_chunks.specs.Chunks.{chunks_joined, AreChunks};

use crate::CHUNK;
use crate::locate::locate;
use crate::replace::append;
use gv_types::Packed;

/// Cuts the list before `index`, and answers how many chunks stand before the cut. The last chunk has to be empty: it
/// takes what stands behind the index in its chunk.
pub fn cut(chunks: &mut [Vec<Packed>], index: usize) -> usize
    requires some { 1 < length chunks.old }
    requires spare { chunks_joined (drop (length chunks.old - 1) chunks.old) ≡ [] }
    requires within { index ≤ length (chunks_joined chunks.old) }
    requires chunks { AreChunks chunks.old }
    ensures some { 0 < result }
    ensures within { result < length chunks.new }
    ensures before { chunks_joined (take result chunks.new) ≡ take index (chunks_joined chunks.old) }
    ensures behind { chunks_joined (drop result chunks.new) ≡ drop index (chunks_joined chunks.old) }
    ensures chunks { AreChunks chunks.new }
{
    let last = chunks.len() - 1;
    let (chunk, offset) = locate(&chunks[..last], index);
    divide(chunks, chunk, offset);
    chunk + 1
}

/// Moves what a chunk holds from `offset` on into the last chunk, which holds nothing, and puts that behind it.
pub fn divide(chunks: &mut [Vec<Packed>], chunk: usize, offset: usize)
    requires within { chunk + 1 < length chunks.old }
    requires spare { chunks_joined (drop (length chunks.old - 1) chunks.old) ≡ [] }
    requires offset { (d : Vec Mapping) → offset ≤ vec_len (slice_index_or chunks.old chunk d) }
    requires chunks { AreChunks chunks.old }
    ensures before { chunks_joined (take (chunk + 1) chunks.new)
        ≡ take (length (chunks_joined (take chunk chunks.old)) + offset) (chunks_joined chunks.old) }
    ensures behind { chunks_joined (drop (chunk + 1) chunks.new)
        ≡ drop (length (chunks_joined (take chunk chunks.old)) + offset) (chunks_joined chunks.old) }
    ensures front { take chunk chunks.new ≡ take chunk chunks.old }
    ensures first { (d : Vec Mapping) → (slice_index_or chunks.new chunk d).items ≡ take offset (slice_index_or chunks.old chunk d).items }
    ensures second { (d : Vec Mapping) → (slice_index_or chunks.new (chunk + 1) d).items ≡ drop offset (slice_index_or chunks.old chunk d).items }
    ensures later { (k : ℕ) (d : Vec Mapping) → chunk + 1 < k → k < length chunks.old
        → slice_index_or chunks.new k d ≡ slice_index_or chunks.old (k - 1) d }
    ensures chunks { AreChunks chunks.new }
{
    let (front, back) = chunks.split_at_mut(chunk + 1);
    back.rotate_right(1);
    let source = &mut front[chunk];
    append(&mut back[0], &source[offset..]);
    source.truncate(offset);
}

/// Takes the mappings out of each chunk.
pub fn clear(chunks: &mut [Vec<Packed>])
    requires { AreChunks chunks.old }
    ensures items { chunks_joined chunks.new ≡ [] }
    ensures chunks { AreChunks chunks.new }
{
    for i in 0..chunks.len() {
        chunks[i].truncate(0);
    }
}

/// Puts the pieces into the chunks, which are empty and have room for them.
pub fn fill(chunks: &mut [Vec<Packed>], pieces: &[Packed])
    requires room { length pieces.now ≤ CHUNK * length chunks.old }
    requires empty { chunks_joined chunks.old ≡ [] }
    requires chunks { AreChunks chunks.old }
    ensures items { chunks_joined chunks.new ≡ pieces.now }
    ensures chunks { AreChunks chunks.new }
{
    let mut rest = pieces;
    for i in 0..chunks.len() {
        let (now, later) = rest.split_at(rest.len().min(CHUNK));
        append(&mut chunks[i], now);
        rest = later;
    }
}
