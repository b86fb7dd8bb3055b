//! The address space.
ghost use Rattle.std.specs.Prelude.{◌≡◌, ◌+◌, ◌<◌, ◌++◌, if◌then◌else◌, ℕ, IsTrue, List, length, max, ◌≤◌};
ghost use Rattle.std.specs.Prelude.{IfOk, IsOk, IsOkUnless, OnOk, OnErr, MatchOption};
ghost use Rattle.std.specs.List.{All, splice};
ghost use Rattle.gv_types.specs.Page.{IsPage};
ghost use Rattle.gv_chunks.specs.declared.TheConstants.{CHUNK};
ghost use Rattle.gv_types.specs.PageRange.{covers};
ghost use Rattle.gv_types.specs.Operation.{has_range, in_pages, own_mapping, range_of, after, IsPageOp};
ghost use Rattle.gv_types.specs.declared.mapping.Mapping.{Mapping};

use crate::list_with_table::ListWithTable;
use crate::ranges;
use gv_buffers::{Buffers, FirstPageTable, Usage};
use gv_ranges::RangeList;
use gv_split::Step;
use gv_table::PageTable;
use gv_types::{Backing, Bounds, BufferId, Entry, Fault, Limits, Mapping, Op, PageOp, PageRange};
use std::alloc::Global;
use std::marker::Model;

mod buffers;
mod change;
mod operations;
mod refusal;

/// One GPU address space: a list of mappings as a `drm_gpuvm` of DRM GPUVM keeps it, the page table that is always the
/// list's, and the buffers, whose counts of mappings are always right. One operation edits all three; its undo value
/// restores all three and takes no memory.
#[derive(Drop)]
pub struct Space {
    bounds: Bounds,
    limits: Limits,
    mapped: ListWithTable,
    buffers: Buffers,
    first_pages: FirstPageTable,
    kept_count: u64,
}

impl Model for Space {
    ghost use Rattle.gv_space.specs.State.{SpaceState};
    ghost use Rattle.gv_space.specs.Inside.{space_of, IsSoundSpace};

    ghost Value = { SpaceState };

    ghost view = { space_of };

    ghost invariant = { IsSoundSpace };
}

impl Space {
    ghost use Rattle.gv_types.specs.Bounds.{IsAllowed};
    ghost use Rattle.gv_ranges.specs.List.{at, IsLaidOut};
    ghost use Rattle.gv_ranges.specs.Edit.{edited, restored, undone};
    ghost use Rattle.gv_split.specs.Steps.{steps};
    ghost use Rattle.gv_split.specs.CarriedOut.{carried_out, ArePresent, list_after};
    ghost use Rattle.gv_buffers.specs.Buffers.{uses, kept, pages, create_fault, destroy_fault, join_fault};
    ghost use Rattle.gv_buffers.specs.Buffers.{without, changed, joined_by, left_everywhere, IsCreated};
    ghost use Rattle.gv_table.specs.Table.{tables_of, IsTree, IsEntryAt};
    ghost use Rattle.gv_table.specs.declared.page_table.PageTable.{PageTable};
    ghost use Rattle.gv_space.specs.Counts.{count_of, ranges_of};
    ghost use Rattle.gv_space.specs.State.{new_space, AreKept, IsValidMapping, IsSpace, IsUnchanged, TableMatchesList};
    ghost use Rattle.gv_space.specs.Refusal.{operation_fault, dead_fault, limit_fault, apply_fault};
    ghost use Rattle.gv_space.specs.Undo.{AreAmongKept, TookWhatWas, CanRevert, IsUndoOf, released, reverted};
    ghost use Rattle.gv_space.specs.Change.{IsChanged, GrowsJustFor};
    ghost use Rattle.gv_space.specs.Ready.{IsReady};

    /// A space of no mapping and no buffer. It is small: room for mappings, tables and buffers comes with them.
    /// `OutOfMemory` where the system refuses the first room for buffers.
    pub fn new(alloc: Global, bounds: Bounds, limits: Limits) -> Result<Space, Fault>
        ensures ok { IfOk result (λ s. s ≡ new_space bounds limits) }
        ensures only_memory { IsOkUnless result Fault.OutOfMemory }
    {
        let buffers = Buffers::new(alloc, limits.buffers())?;
        Ok(Space {
            bounds,
            limits,
            mapped: ListWithTable::new(alloc),
            buffers,
            first_pages: FirstPageTable::new(alloc),
            kept_count: 0,
        })
    }

    /// The pages of the space, and those that are reserved.
    pub fn bounds(&self) -> Bounds
        ensures { result ≡ self.now.area }
    {
        self.bounds
    }

    /// How many things of each kind it may hold.
    pub fn limits(&self) -> Limits
        ensures { result ≡ self.now.limits }
    {
        self.limits
    }

    /// The list of mappings.
    pub fn list(&self) -> &RangeList
        ensures value { result.now.mappings ≡ self.now.mappings }
        ensures space { IsSpace self.now }
    {
        self.mapped.list()
    }

    /// What the page holds, by the list: one search. None past the end of the address space.
    pub fn find(&self, page: u64) -> Option<Entry>
        ensures { result ≡ at self.now.mappings page }
    {
        self.mapped.list().at(page)
    }

    /// The page table, which is always the list's.
    pub fn table(&self) -> &PageTable
        ensures { TableMatchesList self.now result.now }
    {
        self.mapped.table()
    }

    /// What the page holds, by the page table, which is the list's: at most five steps. None past the end of the address
    /// space.
    pub fn walk(&self, page: u64) -> Option<Entry>
        ensures value { result ≡ at self.now.mappings page }
        ensures tree { (table : PageTable) × IsTree self.now.mappings table × IsEntryAt table page result }
    {
        self.mapped.walk(page)
    }

    /// How many tables stand at the levels 4, 3, 2, 1 and 0.
    pub fn tables(&self) -> [u64; 5]
        ensures { result ≡ tables_of self.now.mappings }
    {
        self.mapped.tables()
    }

    /// The split steps of an operation, as DRM GPUVM plans them; nothing changes. An unmap of a whole buffer has a step
    /// for each of its mappings. Carried out one after another the steps make the list that the operation makes, and each
    /// finds its mapping there at its turn. The faults are the first of `check`, then `NoBuffer` and `OutOfBuffer`, then
    /// `OutOfMemory`, only where there are steps. The limit of mappings is not asked.
    pub fn plan(&self, alloc: Global, op: &Op) -> Result<Vec<Step>, Fault>
        ensures fault { MatchOption (operation_fault self.now op.now)
            (IsOkUnless result Fault.OutOfMemory) (λ fault. result ≡ Err fault) }
        ensures steps { IfOk result (λ list. list.items ≡ steps self.now.mappings (in_pages op.now)) }
        ensures carried_out { IfOk result (λ list.
            carried_out list.items self.now.mappings ≡ list_after self.now.mappings (in_pages op.now)) }
        ensures present { IfOk result (λ list. ArePresent list.items self.now.mappings) }
        ensures some { result ≡ Err Fault.OutOfMemory → 0 < length (steps self.now.mappings (in_pages op.now)) }
        ensures valid { IfOk result (λ _.
            All (IsValidMapping self.now.area self.now.buffers) (own_mapping (in_pages op.now))) }
    {
        // The borrow checker proves the call only where the function names the types inside the steps.
        let _backing = Backing::Zero;
        let op = match self.check(op) {
            Ok(op) => op,
            Err(fault) => return Err(fault),
        };
        gv_split::plan(alloc, self.mapped.list(), &op)
    }

    /// Gives room back that nothing held needs: list, tables, ids and buffers. It asks for none. An undo value that is kept may not fit
    /// then, since its room may be gone.
    pub fn trim(&mut self)
        ensures state { self.new ≡ record self.old { room = self.new.room } }
        ensures room { self.new.room ≤ max (length self.old.mappings) (CHUNK + 1) }
        ensures no_more { self.new.room ≤ self.old.room }
    {
        self.mapped.shrink();
        self.buffers.shrink();
        self.first_pages.shrink();
    }
}
