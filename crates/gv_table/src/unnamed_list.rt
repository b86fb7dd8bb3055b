//! A list read as the tree tells it: its buffers by their indexes alone.
ghost use Rattle.std.specs.Prelude.{◌≡◌, ◌<◌, ◌≤◌, length, slice_index_or};
ghost use Rattle.gv_types.specs.declared.mapping.Mapping.{Mapping};
ghost use Rattle.gv_ranges.specs.List.{IsLaidOut};
ghost use Rattle.gv_table.specs.BufferNames.{unnamed, unnamed_mapping};

use gv_ranges::Reader;
use gv_types::{Backing, BufferId, Mapping, Packed};
use std::marker::Model;

/// A list of mappings whose buffers are encoded by their indexes alone, so that none tells a generation.
#[derive(Drop)]
pub struct UnnamedList<'l> {
    reader: Reader<'l>,
}

impl<'l> Model for UnnamedList<'l> {
    ghost use Rattle.std.specs.Prelude.{List};
    ghost use Rattle.gv_types.specs.declared.mapping.Mapping.{Mapping};
    ghost use Rattle.gv_table.specs.BufferNames.{unnamed};

    ghost Value = { List Mapping };

    ghost view = { λ o. unnamed o.reader };
}

impl<'l> UnnamedList<'l> {
    /// What a reader reads, encoded so.
    #[inline(always)]
    pub fn of(reader: Reader<'l>) -> UnnamedList<'l>
        ensures { result ≡ unnamed reader.entry }
    {
        UnnamedList { reader }
    }

    /// The same, with the block looked up anew where it does not hold the index.
    #[inline(always)]
    pub fn with_block_at(&self, index: usize) -> UnnamedList<'l>
        requires { index ≤ length self.now }
        ensures { result ≡ self.now }
    {
        UnnamedList {
            reader: self.reader.with_block_at(index),
        }
    }

    /// How many mappings there are.
    #[inline(always)]
    pub fn len(&self) -> usize
        ensures len { result ≡ length self.now }
        ensures laid_out { IsLaidOut self.now }
    {
        self.reader.len()
    }

    /// The mapping at an index.
    #[inline(always)]
    pub fn get(&self, index: usize) -> Mapping
        requires { index < length self.now }
        ensures { (d : Mapping) → result ≡ slice_index_or self.now index d }
    {
        unnamed(self.reader.get(index))
    }
}

/// A mapping whose buffer is encoded by its index alone.
#[inline(always)]
fn unnamed(m: &Packed) -> Mapping
    ensures { result ≡ unnamed_mapping m.now }
{
    let backing = match m.backing() {
        Backing::Buffer { id, page } => Backing::Buffer {
            id: BufferId::new(id.index, 0),
            page,
        },
        Backing::Zero => Backing::Zero,
    };
    Mapping {
        range: m.range(),
        backing,
        flags: m.flags(),
    }
}
