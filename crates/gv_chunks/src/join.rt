//! Two neighbours of a list of chunks joined.
ghost use Rattle.std.specs.Prelude.{◌≡◌, ◌+◌, ◌-◌, ◌<◌, ◌≤◌, ◌++◌, [], length, take, drop, slice_index_or, vec_len};
ghost use Rattle.std.specs.Global.{Vec};
ghost use Rattle.gv_types.specs.declared.mapping.Mapping.{Mapping};
ghost use Rattle.gv_chunks.specs.Chunks.{chunks_joined, AreChunks};

use crate::CHUNK;
use crate::replace::append;
use gv_types::Packed;

/// Moves what the chunk behind a chunk holds into that chunk, which has room for it. The one that was emptied comes to stand
/// behind all others.
pub fn join(chunks: &mut [Vec<Packed>], chunk: usize)
    requires within { chunk + 1 < length chunks.old }
    requires fits { (d : Vec Mapping) → vec_len (slice_index_or chunks.old chunk d)
        + vec_len (slice_index_or chunks.old (chunk + 1) d) ≤ CHUNK }
    requires chunks { AreChunks chunks.old }
    ensures items { chunks_joined chunks.new ≡ chunks_joined chunks.old }
    ensures before { take chunk chunks.new ≡ take chunk chunks.old }
    ensures joint { (d : Vec Mapping) → (slice_index_or chunks.new chunk d).items
        ≡ (slice_index_or chunks.old chunk d).items ++ (slice_index_or chunks.old (chunk + 1) d).items }
    ensures behind { take (length chunks.old - (chunk + 2)) (drop (chunk + 1) chunks.new) ≡ drop (chunk + 2) chunks.old }
    ensures spare { chunks_joined (drop (length chunks.old - 1) chunks.new) ≡ [] }
    ensures chunks { AreChunks chunks.new }
{
    let (front, back) = chunks.split_at_mut(chunk + 1);
    append(&mut front[chunk], &back[0]);
    back[0].truncate(0);
    back.rotate_left(1);
}
