//! Neighbours that fit into one chunk joined, all along a list of chunks.
ghost use Rattle.std.specs.Prelude.{◌≡◌, ◌+◌, ◌*◌, ◌<◌, ◌≤◌, [], length, take, drop};
ghost use Rattle.std.specs.Global.{Vec};
ghost use Rattle.gv_types.specs.declared.mapping.Mapping.{Mapping};
ghost use Rattle.gv_chunks.specs.Chunks.{chunks_joined, AreChunks, AreMerged};

use crate::CHUNK;
use crate::join::join;
use gv_types::Packed;

/// Joins neighbours that fit into one chunk, from the last pair of the first `used` chunks down, and answers how many
/// chunks stand now. Those behind them hold nothing, before and after.
pub fn merge_chunks(chunks: &mut [Vec<Packed>], used: usize) -> usize
    requires within { used ≤ length chunks.old }
    requires spare { chunks_joined (drop used chunks.old) ≡ [] }
    requires chunks { AreChunks chunks.old }
    ensures items { chunks_joined chunks.new ≡ chunks_joined chunks.old }
    ensures fewer { result ≤ used }
    ensures some { 0 < used → 0 < result }
    ensures spare { chunks_joined (drop result chunks.new) ≡ [] }
    ensures merged { AreMerged (take result chunks.new) }
    ensures few { CHUNK * result ≤ 2 * length (chunks_joined chunks.new) + CHUNK }
    ensures chunks { AreChunks chunks.new }
{
    let mut used_count = used;
    for k in (1..used).rev() {
        if chunks[k - 1].len() + chunks[k].len() <= CHUNK {
            join(chunks, k - 1);
            used_count -= 1;
        }
    }
    used_count
}
