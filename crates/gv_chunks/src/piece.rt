//! A chunk of a list read from an index on.
ghost use Rattle.std.specs.Prelude.{◌≡◌, ◌+◌, ◌<◌, ◌≤◌, length, take, drop, slice_index_or, vec_len};
ghost use Rattle.std.specs.Global.{Vec};
ghost use Rattle.gv_types.specs.declared.mapping.Mapping.{Mapping};
ghost use Rattle.gv_chunks.specs.Chunks.{chunks_joined};

use gv_types::Packed;

/// The mappings of a chunk from its index `offset` on.
pub fn piece_of(chunks: &[Vec<Packed>], chunk: usize, offset: usize) -> &[Packed]
    requires chunk { chunk < length chunks.now }
    requires within { (d : Vec Mapping) → offset ≤ vec_len (slice_index_or chunks.now chunk d) }
    ensures value { result.now ≡ take (length result.now)
        (drop (length (chunks_joined (take chunk chunks.now)) + offset) (chunks_joined chunks.now)) }
    ensures len { (d : Vec Mapping) → length result.now + offset ≡ vec_len (slice_index_or chunks.now chunk d) }
{
    &chunks[chunk][offset..]
}
