//! The ids that stand for the indexes of buffers.
ghost use Rattle.std.specs.Prelude.{◌≡◌, ◌+◌, ◌<◌, ◌≤◌, ℕ, Some, length, max, slice_get, OnOk, OnErr};
ghost use Rattle.gv_types.specs.declared.mapping.BufferId.{BufferId};
ghost use Rattle.gv_table.specs.BufferNames.{most_names, AreNames};
ghost use Rattle.gv_table.specs.Named.{named_id, named_entry};

use gv_types::{Backing, BufferId, Entry, OutOfMemory};

/// The id that stands for a buffer's index; the same one where the index has no name.
fn named_id(names: &[BufferId], id: BufferId) -> BufferId
    ensures { result ≡ named_id names.now id }
{
    match names.get(id.index as usize) {
        Some(named) => *named,
        None => id,
    }
}

/// An entry with its buffer's id instead of the index alone.
#[inline(always)]
pub fn named(names: &[BufferId], entry: &Entry) -> Entry
    ensures { result ≡ named_entry names.now entry.now }
{
    let backing = match entry.backing {
        Backing::Buffer { id, page } => Backing::Buffer {
            id: named_id(names, id),
            page,
        },
        Backing::Zero => Backing::Zero,
    };
    Entry {
        backing,
        flags: entry.flags,
    }
}

/// Gives each index up to this one a name, which stands for no buffer yet where it had none.
pub fn extend_names(names: &mut Vec<BufferId>, index: u32) -> Result<(), OutOfMemory>
    requires { index < most_names }
    ensures names { AreNames names.old.items → AreNames names.new.items }
    ensures ok { OnOk result (index < length names.new.items) }
    ensures same { (k : ℕ) (id : BufferId) → slice_get names.old.items k ≡ Some id → slice_get names.new.items k ≡ Some id }
    ensures unchanged { OnErr result (names.new.items ≡ names.old.items) }
    ensures needed { OnErr result (length names.old.items ≤ index) }
    ensures length { OnOk result (length names.new.items ≡ max (length names.old.items) (index + 1)) }
{
    let count = names.len();
    let end = index as usize + 1;
    names.reserve(end.saturating_sub(count))?;
    for next in count..end {
        names.push_reserved(BufferId::new(next as u32, 0));
    }
    Ok(())
}
