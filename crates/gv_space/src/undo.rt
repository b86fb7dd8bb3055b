//! Undo values.
ghost use Rattle.std.specs.Prelude.{◌≡◌};

use crate::pieces::TakenMappings;
use gv_table::Spares;
use gv_types::{Entry, PageRange};
use std::marker::Model;

/// How one change of an address space is taken back. It owns the mappings that the change took out, with their index and
/// how many mappings stand for them now, the range that was changed, and the tables that left the page table, so taking the
/// change back takes no memory. It has to be spent, by `Space::revert` or `Space::release`: it is not `Drop`, so a program
/// that lets one go is refused.
pub struct OpUndo {
    pub(crate) index: usize,
    pub(crate) put_in: usize,
    pub(crate) range: PageRange,
    pub(crate) taken: TakenMappings,
    pub(crate) tables: Spares,
}

impl Model for OpUndo {
    ghost use Rattle.gv_ranges.specs.List.{IsLaidOut};
    ghost use Rattle.gv_space.specs.Undo.{OpUndoState};

    ghost Value = { OpUndoState };

    ghost view = { λ u. record {
      change = record { index = u.index; put_in = u.put_in; taken = u.taken.items };
      range = u.range;
      tables = u.tables;
    } };

    ghost invariant = { λ u. IsLaidOut u.taken.items };
}

impl OpUndo {
    ghost use Rattle.gv_ranges.specs.List.{at};

    /// The pages in which the change was made.
    pub fn range(&self) -> PageRange
        ensures { result ≡ self.now.range }
    {
        self.range
    }

    /// What the page held before the change, where that is one of its range. Else what the mappings hold there that were taken out.
    pub fn taken_at(&self, page: u64) -> Option<Entry>
        ensures { result ≡ at self.now.change.taken page }
    {
        for mapping in self.taken.as_slice() {
            if mapping.range().covers(page) {
                return Some(mapping.part(page));
            }
        }
        None
    }
}
