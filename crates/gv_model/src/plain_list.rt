//! The plain list that an address space is compared with.
ghost use Rattle.std.specs.Prelude.{◌<◌, IfSome};
ghost use Rattle.gv_types.specs.Mapping.{IsMapping};

use crate::edit::Edit;
use gv_types::{Backing, Bounds, Entry, Fault, Mapping, OutOfMemory, PageOp, PageRange};
use std::alloc::Global;
use std::collections::BTreeMap;
use std::collections::btree_map::Values;
use std::marker::Model;

/// Mappings in a `BTreeMap`, each under its first page. It has no page table, counts no buffers and takes nothing back.
#[derive(Drop)]
pub struct PlainList {
    mappings: BTreeMap<u64, Mapping>,
}

impl Model for PlainList {
    ghost use Rattle.std.specs.Prelude.{List};
    ghost use Rattle.std.specs.List.{All};
    ghost use Rattle.std.specs.BTreeMap.{values};
    ghost use Rattle.gv_types.specs.Mapping.{IsMapping};
    ghost use Rattle.gv_types.specs.declared.mapping.Mapping.{Mapping};

    ghost Value = { List Mapping };

    ghost view = { λ p. values p.mappings };

    ghost invariant = { λ p. All IsMapping (values p.mappings) };
}

impl PlainList {
    /// No mapping. It takes no memory.
    pub fn new(alloc: Global) -> PlainList {
        PlainList {
            mappings: BTreeMap::new(alloc),
        }
    }

    /// The mappings, in ascending order.
    pub fn mappings(&self) -> Values<'_, u64, Mapping> {
        self.mappings.values()
    }

    /// What the page holds, by the last mapping that begins at it or below.
    pub fn find(&self, page: u64) -> Option<Entry> {
        let (_, mapping) = self.mappings.range(..=page).next_back()?;
        if mapping.range.covers(page) {
            Some(mapping.part(page))
        } else {
            None
        }
    }

    /// Applies an edit: the mappings that meet its range go, and their rests and a map's mapping come. The faults
    /// are those of `Bounds::check`, then `OutOfMemory`.
    pub fn apply(&mut self, edit: &Edit) -> Result<(), Fault> {
        match Bounds::whole().check(edit.op())? {
            PageOp::Map {
                range,
                backing,
                flags,
            } => {
                self.cut(range)?;
                self.insert(Mapping {
                    range,
                    backing,
                    flags,
                })?;
            }
            PageOp::Unmap { range } => self.cut(range)?,
            PageOp::UnmapBuffer { .. } => unreachable!(),
        }
        Ok(())
    }

    /// Applies edits in turn, up to the first that is refused.
    pub fn apply_all(&mut self, edits: &[Edit]) -> Result<(), Fault> {
        for edit in edits {
            self.apply(edit)?;
        }
        Ok(())
    }

    /// Takes a range out of the list, from its last mapping down.
    fn cut(&mut self, range: PageRange) -> Result<(), OutOfMemory> {
        let mut end = range.end();
        while let Some((first, mapping)) = self.last_below(end) {
            if mapping.range.end() <= range.first() {
                break;
            }
            self.mappings.remove(&first);
            if let Some(rest) = mapping.clip(range.end(), u64::MAX) {
                self.insert(rest)?;
            }
            if let Some(rest) = mapping.clip(0, range.first()) {
                self.insert(rest)?;
            }
            end = first;
        }
        Ok(())
    }

    /// The last mapping that begins below the page, with its first page.
    fn last_below(&self, page: u64) -> Option<(u64, Mapping)>
        ensures below { IfSome result (λ found. found.0 < page) }
        ensures mapping { IfSome result (λ found. IsMapping found.1) }
    {
        let (first, mapping) = self.mappings.range(..page).next_back()?;
        Some((*first, *mapping))
    }

    fn insert(&mut self, mapping: Mapping) -> Result<(), OutOfMemory>
        requires { IsMapping mapping }
    {
        // The borrow checker proves the call only where the function names the types inside the mappings.
        let _backing = Backing::Zero;
        self.mappings.insert(mapping.range.first(), mapping)?;
        Ok(())
    }
}
