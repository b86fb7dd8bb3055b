//! The names of the buffers that a script has declared.
ghost use Rattle.std.specs.Prelude.{◌≡◌, ◌<◌, ◌∷◌, ◌++◌, [], None, OnOk, slice_get, option_map, option_and_then};
ghost use Rattle.std.specs.Prelude.{position, bytes_eq, is_some};
ghost use Rattle.std.specs.Map.{lookup};
ghost use Rattle.gv_session.specs.State.{names_alone};

use gv_lines::Name;
use gv_types::{BufferId, OutOfMemory};
use indexmap::IndexMap;
use std::alloc::Global;
use std::marker::Model;

/// The declared names with their buffers, in the order of their lines. A name is found by its hash, and the name of an
/// id by its generation, since the k-th buffer is made for the k-th name.
#[derive(Drop)]
pub struct BufferNames {
    ids: IndexMap<Name, BufferId>,
}

impl Model for BufferNames {
    ghost use Rattle.indexmap.specs.IndexMap.{spare};
    ghost use Rattle.gv_session.specs.State.{BufferNamesState};

    ghost Value = { BufferNamesState };

    ghost view = { λ n. record { entries = n.ids.entries; room = spare n.ids } };
}

impl BufferNames {
    pub fn new(alloc: Global) -> Self
        ensures { result.entries ≡ [] }
    {
        BufferNames {
            ids: IndexMap::new(alloc),
        }
    }

    /// The buffer of a name, if it is declared.
    pub fn id_of(&self, name: &Name) -> Option<BufferId>
        ensures id { result ≡ option_and_then (λ index. option_map (λ entry. entry.1) (slice_get self.now.entries index))
            (position (bytes_eq name.now) (names_alone self.now.entries)) }
        ensures found { is_some result ≡ is_some (lookup (bytes_eq name.now) self.now.entries) }
    {
        let index = self.ids.get_index_of(name)?;
        let (_, id) = self.ids.get_index(index)?;
        Some(*id)
    }

    /// The name of a declared buffer.
    pub fn name_of(&self, id: BufferId) -> Option<&Name>
        ensures { option_map (λ name. name.now) result ≡ slice_get (names_alone self.now.entries) id.generation }
    {
        let index = id.generation.get() as usize;
        let (name, _) = self.ids.get_index(index)?;
        Some(name)
    }

    /// Makes room for one more.
    pub fn reserve(&mut self) -> Result<(), OutOfMemory>
        ensures entries { self.new.entries ≡ self.old.entries }
        ensures ok { OnOk result (0 < self.new.room) }
    {
        self.ids.reserve(1)?;
        Ok(())
    }

    /// Declares a name. It takes no memory.
    pub fn declare(&mut self, name: Name, id: BufferId)
        requires room { 0 < self.old.room }
        requires undeclared { lookup (bytes_eq name) self.old.entries ≡ None }
        ensures { self.new.entries ≡ self.old.entries ++ (name, id) ∷ [] }
    {
        let Ok(_) = self.ids.insert(name, id) else {
            unreachable!()
        };
    }
}
