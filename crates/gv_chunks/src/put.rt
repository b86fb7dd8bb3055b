//! Mappings put in before all others.
ghost use Rattle.std.specs.Prelude.{◌≡◌, ◌+◌, ◌*◌, ◌≤◌, ◌++◌, [], length, drop};
ghost use Rattle.std.specs.Global.{Vec};
ghost use Rattle.gv_types.specs.declared.mapping.Mapping.{Mapping};
ghost use Rattle.gv_chunks.specs.Chunks.{chunks_joined, AreChunks};

use crate::CHUNK;
use crate::cut::fill;
use gv_types::Packed;

/// Puts the pieces before all that the first `used_count` chunks hold, in chunks from behind them, which hold nothing. Answers how
/// many chunks stand now.
pub fn put_first(chunks: &mut [Vec<Packed>], used_count: usize, pieces: &[Packed]) -> usize
    requires room { length pieces.now + CHUNK * used_count ≤ CHUNK * length chunks.old }
    requires spare { chunks_joined (drop used_count chunks.old) ≡ [] }
    requires chunks { AreChunks chunks.old }
    ensures items { chunks_joined chunks.new ≡ pieces.now ++ chunks_joined chunks.old }
    ensures within { result ≤ length chunks.new }
    ensures spare { chunks_joined (drop result chunks.new) ≡ [] }
    ensures chunks { AreChunks chunks.new }
{
    let count = pieces.len().div_ceil(CHUNK);
    chunks.rotate_right(count);
    let (front, _) = chunks.split_at_mut(count);
    fill(front, pieces);
    used_count + count
}
