//! A buffer encoded by its index alone.
ghost use Rattle.std.specs.Prelude.{◌≡◌};
ghost use Rattle.gv_table.specs.BufferNames.{unnamed_id};

use gv_types::BufferId;
use std::marker::Model;

/// A buffer encoded by its index alone, in four bytes. Contracts see the id of that index whose generation is 0.
#[derive(Clone, Copy)]
pub struct BufferIndex {
    index: u32,
}

impl Model for BufferIndex {
    ghost use Rattle.gv_types.specs.declared.mapping.BufferId.{BufferId};
    ghost use Rattle.gv_table.specs.BufferIndex.{id_at, index_of, index_of-id_at};

    ghost Value = { BufferId };

    ghost view = { id_at };

    ghost inverse = { index_of };

    ghost inverse_ok = { index_of-id_at };
}

impl BufferIndex {
    /// The index of a buffer.
    #[inline(always)]
    pub fn of(id: BufferId) -> BufferIndex
        ensures { result ≡ unnamed_id id }
    {
        BufferIndex { index: id.index }
    }

    /// The id that contracts see.
    #[inline(always)]
    pub fn id(self) -> BufferId
        ensures { result ≡ self }
    {
        BufferId::new(self.index, 0)
    }
}
