//! A chunk of a list taken out of the row of chunks, or put into it.
ghost use Rattle.std.specs.Prelude.{◌≡◌, ◌+◌, ◌-◌, ◌<◌, ◌≤◌, ◌++◌, [], length, take, drop};
ghost use Rattle.std.specs.Prelude.{ℕ, slice_index_or, vec_len};
ghost use Rattle.std.specs.Global.{Vec};
ghost use Rattle.gv_types.specs.declared.mapping.Mapping.{Mapping};
ghost use Rattle.gv_chunks.specs.Chunks.{chunks_joined, AreChunks};

use crate::cut::divide;
use gv_types::Packed;

/// Empties a chunk. It comes to stand behind all others.
fn rotate_out(chunks: &mut [Vec<Packed>], chunk: usize)
    requires within { chunk < length chunks.old }
    requires chunks { AreChunks chunks.old }
    ensures before { take chunk chunks.new ≡ take chunk chunks.old }
    ensures behind { take (length chunks.old - (chunk + 1)) (drop chunk chunks.new) ≡ drop (chunk + 1) chunks.old }
    ensures spare { chunks_joined (drop (length chunks.old - 1) chunks.new) ≡ [] }
    ensures chunks { AreChunks chunks.new }
{
    let (_, back) = chunks.split_at_mut(chunk);
    back[0].truncate(0);
    back.rotate_left(1);
}

/// Empties one of the first `used_count` chunks, and puts it behind them. Those behind them hold nothing.
pub fn retire_chunk(chunks: &mut [Vec<Packed>], used_count: usize, chunk: usize)
    requires chunk { chunk < used_count }
    requires within { used_count ≤ length chunks.old }
    requires spare { chunks_joined (drop used_count chunks.old) ≡ [] }
    requires chunks { AreChunks chunks.old }
    ensures used_count { take (used_count - 1) chunks.new ≡ take chunk (take used_count chunks.old) ++ drop (chunk + 1) (take used_count chunks.old) }
    ensures spare { chunks_joined (drop (used_count - 1) chunks.new) ≡ [] }
    ensures chunks { AreChunks chunks.new }
{
    let (used, _) = chunks.split_at_mut(used_count);
    rotate_out(used, chunk);
}

/// Moves what one of the first `used_count` chunks holds from `offset` on into a chunk of its own behind it. Those behind the first
/// `used_count` hold nothing, and there is one.
pub fn split_chunk(chunks: &mut [Vec<Packed>], used_count: usize, chunk: usize, offset: usize)
    requires chunk { chunk < used_count }
    requires within { used_count < length chunks.old }
    requires spare { chunks_joined (drop used_count chunks.old) ≡ [] }
    requires offset { (d : Vec Mapping) → offset ≤ vec_len (slice_index_or chunks.old chunk d) }
    requires chunks { AreChunks chunks.old }
    ensures items { chunks_joined chunks.new ≡ chunks_joined chunks.old }
    ensures front { take chunk chunks.new ≡ take chunk chunks.old }
    ensures first { (d : Vec Mapping) → (slice_index_or chunks.new chunk d).items ≡ take offset (slice_index_or chunks.old chunk d).items }
    ensures second { (d : Vec Mapping) → (slice_index_or chunks.new (chunk + 1) d).items ≡ drop offset (slice_index_or chunks.old chunk d).items }
    ensures later { (k : ℕ) (d : Vec Mapping) → chunk + 1 < k → k ≤ used_count
        → slice_index_or chunks.new k d ≡ slice_index_or chunks.old (k - 1) d }
    ensures spare { chunks_joined (drop (used_count + 1) chunks.new) ≡ [] }
    ensures chunks { AreChunks chunks.new }
{
    let (used, _) = chunks.split_at_mut(used_count + 1);
    divide(used, chunk, offset);
}
