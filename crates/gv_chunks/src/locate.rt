//! The chunk that an index of the list is in.
ghost use Rattle.std.specs.Prelude.{◌≡◌, ◌+◌, ◌<◌, ◌≤◌, length, take, slice_index_or, vec_len};
ghost use Rattle.std.specs.Global.{Vec};
ghost use Rattle.gv_types.specs.declared.mapping.Mapping.{Mapping};
ghost use Rattle.gv_chunks.specs.Chunks.{chunks_joined};

use gv_types::Packed;

/// The chunk that an index lies in or at the end of, and the index in it.
pub fn locate(chunks: &[Vec<Packed>], index: usize) -> (usize, usize)
    requires some { 0 < length chunks.now }
    requires within { index ≤ length (chunks_joined chunks.now) }
    ensures within { result.0 < length chunks.now }
    ensures before { index ≡ length (chunks_joined (take result.0 chunks.now)) + result.1 }
    ensures some { 0 < index → 0 < result.1 }
    ensures rest { (d : Vec Mapping) → result.1 ≤ vec_len (slice_index_or chunks.now result.0 d) }
{
    let mut chunk = 0;
    let mut offset = index;
    while chunk + 1 < chunks.len() && offset > chunks[chunk].len() {
        offset -= chunks[chunk].len();
        chunk += 1;
    }
    (chunk, offset)
}
