//! The names of the timelines that a script has declared.
ghost use Rattle.std.specs.Prelude.{◌≡◌, ◌≢◌, ◌<◌, ◌∷◌, ◌++◌, [], Err, is_some, bytes_eq, OnOk, OnErr, IfSome, option_map, slice_get, length};
ghost use Rattle.std.specs.List.{list_any};
ghost use Rattle.gv_session.specs.State.{timeline_named};
ghost use Rattle.gv_session.specs.Line.{MayDeclare};

use crate::fault::LineFault;
use gv_lines::Name;
use indexmap::IndexSet;
use std::alloc::Global;
use std::marker::Model;

/// How many timelines there are.
pub const TIMELINES: u64 = 64;

/// The declared names, in the order of their lines: a timeline is the index of its name. A name is found by its hash.
#[derive(Drop)]
pub struct TimelineNames {
    names: IndexSet<Name>,
}

impl Model for TimelineNames {
    ghost use Rattle.indexmap.specs.IndexSet.{spare};
    ghost use Rattle.gv_session.specs.State.{TimelineNamesState};

    ghost Value = { TimelineNamesState };

    ghost view = { λ n. record { names = n.names.keys; room = spare n.names } };
}

impl TimelineNames {
    pub fn new(alloc: Global) -> Self
        ensures { result.names ≡ [] }
    {
        TimelineNames {
            names: IndexSet::new(alloc),
        }
    }

    /// How many there are.
    pub fn len(&self) -> usize
        ensures { result ≡ length self.now.names }
    {
        self.names.len()
    }

    /// The timeline of a name, if it is declared.
    pub fn index_of(&self, name: &Name) -> Option<u64>
        ensures index { result ≡ timeline_named self.now.names name.now }
        ensures found { is_some result ≡ list_any (bytes_eq name.now) self.now.names }
        ensures within { IfSome result (λ index. index < length self.now.names) }
    {
        match self.names.get_index_of(name) {
            Some(index) => Some(index as u64),
            None => None,
        }
    }

    /// The name of a declared timeline.
    pub fn name_of(&self, timeline: u64) -> Option<&Name>
        ensures { option_map (λ name. name.now) result ≡ slice_get self.now.names timeline }
    {
        self.names.get_index(timeline as usize)
    }

    /// Declares the next timeline, unless its name is declared already or all are.
    pub fn add(&mut self, name: Name) -> Result<(), LineFault>
        ensures done { OnOk result (self.new.names ≡ self.old.names ++ name ∷ []) }
        ensures same { OnErr result (self.new.names ≡ self.old.names) }
        ensures bad { result ≡ Err LineFault.Bad → ¬ MayDeclare self.old.names name }
        ensures memory { result ≢ Err LineFault.Bad → MayDeclare self.old.names name }
    {
        if self.index_of(&name).is_some() || self.len() as u64 >= TIMELINES {
            return Err(LineFault::Bad);
        }
        self.names.reserve(1)?;
        let Ok(_) = self.names.insert(name) else {
            unreachable!()
        };
        Ok(())
    }
}
