//! A list read near an index.
ghost use Rattle.std.specs.Prelude.{◌≡◌, ◌<◌, ◌≤◌, length, slice_index_or};
ghost use Rattle.gv_types.specs.declared.mapping.Mapping.{Mapping};
ghost use Rattle.gv_ranges.specs.List.{IsLaidOut};

use crate::RangeList;
use gv_types::Packed;
use std::marker::Model;

/// A list, or a slice of pieces, read near an index: the block of memory that holds it is looked up once.
#[derive(Drop)]
pub struct Reader<'a> {
    block: &'a [Packed],
    // The index of the first mapping of the block.
    base: usize,
    len: usize,
    // None where the block is all that is read.
    list: Option<&'a RangeList>,
}

impl<'a> Model for Reader<'a> {
    ghost use Rattle.std.specs.Prelude.{List};
    ghost use Rattle.gv_types.specs.declared.mapping.Mapping.{Mapping};
    ghost use Rattle.std.specs.Option.{option_map_or};
    ghost use Rattle.gv_ranges.specs.List.{IsBlockOf};

    ghost Value = { List Mapping };

    ghost view = { λ r. option_map_or (λ l. l.now.mappings) r.list r.block.now };

    ghost invariant = { λ r. IsBlockOf (option_map_or (λ l. l.now.mappings) r.list r.block.now)
        r.len r.base r.block.now };
}

impl<'a> Reader<'a> {
    /// The pieces, all in one block.
    pub fn of_slice(pieces: &'a [Packed]) -> Reader<'a>
        requires { IsLaidOut pieces.now }
        ensures { result ≡ pieces.now }
    {
        Reader {
            block: pieces,
            base: 0,
            len: pieces.len(),
            list: None,
        }
    }

    /// The list, read from the mapping before the index on. Inlined, so that it isn't copied as it is made.
    #[inline(always)]
    pub fn of_list(list: &'a RangeList, index: usize) -> Reader<'a>
        requires { index ≤ length list.now.mappings }
        ensures { result ≡ list.now.mappings }
    {
        let reader = Reader::from_base(list, index.saturating_sub(1));
        if reader.holds_index(index) {
            reader
        } else {
            Reader::from_base(list, index)
        }
    }

    /// The list, read from an index on.
    #[inline(always)]
    fn from_base(list: &'a RangeList, base: usize) -> Reader<'a>
        requires { base ≤ length list.now.mappings }
        ensures { result ≡ list.now.mappings }
    {
        Reader {
            block: list.piece(base),
            base,
            len: list.len(),
            list: Some(list),
        }
    }

    /// Whether the block holds the index, or nothing does.
    #[inline(always)]
    fn holds_index(&self, index: usize) -> bool {
        index.wrapping_sub(self.base) < self.block.len() || index == self.len
    }

    /// The same list, with the block looked up anew where it does not hold the index.
    pub fn with_block_at(&self, index: usize) -> Reader<'a>
        requires { index ≤ length self.now }
        ensures { result ≡ self.now }
    {
        if !self.holds_index(index) {
            if let Some(list) = self.list {
                return Reader::of_list(list, index);
            }
        }
        Reader {
            block: self.block,
            base: self.base,
            len: self.len,
            list: self.list,
        }
    }

    /// How many mappings there are.
    #[inline(always)]
    pub fn len(&self) -> usize
        ensures len { result ≡ length self.now }
        ensures laid_out { IsLaidOut self.now }
    {
        self.len
    }

    /// The mapping at an index.
    #[inline(always)]
    pub fn get(&self, index: usize) -> &'a Packed
        requires { index < length self.now }
        ensures { (d : Mapping) → result.now ≡ slice_index_or self.now index d }
    {
        // Tells that the indices are numbers of a machine.
        let _len = self.len;
        let inside = index.wrapping_sub(self.base);
        if inside < self.block.len() {
            &self.block[inside]
        } else {
            self.get_beyond(index)
        }
    }

    /// The mapping at an index, wherever it stands.
    #[cold]
    #[inline(never)]
    fn get_beyond(&self, index: usize) -> &'a Packed
        requires { index < length self.now }
        ensures { (d : Mapping) → result.now ≡ slice_index_or self.now index d }
    {
        match self.list {
            Some(list) => list.get(index),
            None => &self.block[index],
        }
    }
}
