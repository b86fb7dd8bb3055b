//! More chunks for a list.
ghost use Rattle.std.specs.Prelude.{◌≡◌, ◌+◌, ◌*◌, ◌<◌, ◌≤◌, [], length, take, drop, max, vec_len, OnOk};
ghost use Rattle.gv_chunks.specs.Chunks.{chunks_joined, AreChunks};

use crate::CHUNK;
use gv_types::{OutOfMemory, Packed};

/// How many chunks a list needs that has room for `room` mappings: one where all fit into one. Else those that stand are filled by
/// half or more on average, but for one, and an edit needs two that hold nothing.
pub fn chunks_for(room: usize) -> usize
    ensures some { 0 < result }
    ensures one { room ≤ CHUNK → result ≡ 1 }
    ensures enough { CHUNK < room → 2 * room + 3 * CHUNK ≤ CHUNK * result }
    ensures least { CHUNK < room → CHUNK * result < 2 * room + 4 * CHUNK }
{
    if room <= CHUNK {
        return 1;
    }
    room.div_ceil(CHUNK / 2) + 3
}

/// Makes chunks that hold nothing, one after another behind those that there are, until there are `count`. Where the system
/// refuses the memory, those made stay.
pub fn add_chunks(chunks: &mut Vec<Vec<Packed>>, count: usize) -> Result<(), OutOfMemory>
    ensures kept { take (length chunks.old.items) chunks.new.items ≡ chunks.old.items }
    ensures spare { chunks_joined (drop (length chunks.old.items) chunks.new.items) ≡ [] }
    ensures chunks { AreChunks chunks.old.items → AreChunks chunks.new.items }
    ensures ok { OnOk result (count ≤ length chunks.new.items) }
    ensures at_most { length chunks.new.items ≤ max (length chunks.old.items) count }
{
    let have = chunks.len();
    chunks.reserve(count.saturating_sub(have))?;
    let alloc = *chunks.allocator();
    for _ in have..count {
        chunks.push_reserved(Vec::with_capacity(alloc, CHUNK)?);
    }
    Ok(())
}
