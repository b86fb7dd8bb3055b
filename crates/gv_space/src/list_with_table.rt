//! The list of mappings with its page table.
ghost use Rattle.std.specs.Prelude.{◌≡◌, ◌≢◌, ◌+◌, ◌*◌, ◌<◌, ◌≤◌, ℕ, [], length, max, Some, slice_get};
ghost use Rattle.std.specs.Prelude.{IsOkUnless, OnOk, OnErr};
ghost use Rattle.gv_types.specs.declared.mapping.BufferId.{BufferId};
ghost use Rattle.gv_chunks.specs.declared.TheConstants.{CHUNK};
ghost use Rattle.gv_table.specs.BufferNames.{most_names, AreNamed};
ghost use Rattle.gv_space.specs.ListWithTable.{list_of, AreApart};
ghost use Rattle.gv_types.specs.declared.mapping.Mapping.{Mapping};
ghost use Rattle.gv_ranges.specs.List.{at, IsUnchangedList};
ghost use Rattle.gv_table.specs.Table.{IsTree, IsEntryAt, tables_of};
ghost use Rattle.gv_table.specs.declared.page_table.PageTable.{PageTable};

mod edits;

use gv_ranges::RangeList;
use gv_table::PageTable;
use gv_types::{BufferId, Entry, Fault, Mapping, OutOfMemory, PageRange};
use std::alloc::Global;
use std::marker::Model;

/// The list of mappings and the page table, which is always that of the list.
#[derive(Drop)]
pub struct ListWithTable {
    list: RangeList,
    table: PageTable,
}

impl Model for ListWithTable {
    ghost use Rattle.gv_table.specs.Table.{IsTree};
    ghost use Rattle.gv_space.specs.ListWithTable.{ListWithTableState};

    ghost Value = { ListWithTableState };

    ghost view = { λ p. record { mappings = p.list.mappings; room = p.list.room; names = p.table.names } };

    ghost invariant = { λ p. IsTree p.list.mappings p.table };
}

impl ListWithTable {
    /// No mapping and no table. It takes no memory.
    pub fn new(alloc: Global) -> ListWithTable
        ensures mappings { result.mappings ≡ [] }
        ensures room { result.room ≡ 0 }
    {
        ListWithTable {
            list: RangeList::new(alloc),
            table: PageTable::new(alloc),
        }
    }

    /// The list of mappings.
    pub fn list(&self) -> &RangeList
        ensures { result.now ≡ list_of self.now }
    {
        &self.list
    }

    /// The page table.
    pub fn table(&self) -> &PageTable
        ensures { IsTree self.now.mappings result.now }
    {
        &self.table
    }

    /// What the page holds, by the page table.
    pub fn walk(&self, page: u64) -> Option<Entry>
        ensures value { result ≡ at self.now.mappings page }
        ensures tree { (table : PageTable) × IsTree self.now.mappings table × IsEntryAt table page result }
    {
        // Tells that the list is laid out.
        let _len = self.list.len();
        self.table.walk(page)
    }

    /// How many tables stand at the levels 4, 3, 2, 1 and 0.
    pub fn tables(&self) -> [u64; 5]
        ensures { result ≡ tables_of self.now.mappings }
    {
        self.table.tables()
    }

    /// Makes room for `more` mappings beside those in the list, only where it is missing, and at most the double or the need.
    pub fn reserve(&mut self, more: usize) -> Result<(), OutOfMemory>
        ensures unchanged { IsUnchangedList (list_of self.old) (list_of self.new) }
        ensures names { self.new.names ≡ self.old.names }
        ensures ok { OnOk result (length self.new.mappings + more ≤ self.new.room) }
        ensures needed { OnErr result (self.old.room < length self.old.mappings + more) }
        ensures enough { length self.old.mappings + more ≤ self.old.room
            → self.new.room ≡ self.old.room }
        ensures double_or_need { self.new.room
            ≤ max (2 * self.old.room) (length self.old.mappings + more) }
    {
        self.list.reserve(more)
    }

    /// Gives room back that neither list nor table needs. It takes no memory.
    pub fn shrink(&mut self)
        ensures state { self.new ≡ record self.old { room = self.new.room } }
        ensures room { self.new.room ≤ max (length self.old.mappings) (CHUNK + 1) }
        ensures no_more { self.new.room ≤ self.old.room }
    {
        self.list.shrink();
        self.table.shrink();
    }

    /// Makes room for the name of a buffer's index, where it is missing, and for none behind it. `OutOfMemory` where the system refuses
    /// it, and only where that room was missing.
    pub fn reserve_name(&mut self, index: u32) -> Result<(), Fault>
        requires few { index < most_names }
        requires named { AreNamed self.old.names self.old.mappings }
        ensures list { list_of self.new ≡ list_of self.old }
        ensures ok { OnOk result (index < length self.new.names) }
        ensures length { OnOk result (length self.new.names ≡ max (length self.old.names) (index + 1)) }
        ensures needed { OnErr result (length self.old.names ≤ index) }
        ensures same { (k : ℕ) (id : BufferId) → slice_get self.old.names k ≡ Some id → slice_get self.new.names k ≡ Some id }
        ensures err { IsOkUnless result Fault.OutOfMemory }
        ensures unchanged { OnErr result (self.new ≡ self.old) }
    {
        self.table.reserve_name(index)
    }

    /// Tells which buffer an index stands for from now on, where there is room for its name and no mapping has that index.
    pub fn name(&mut self, id: BufferId)
        requires room { id.index < length self.old.names }
        requires named { AreNamed self.old.names self.old.mappings }
        requires apart { AreApart id.index self.old.mappings }
        ensures list { list_of self.new ≡ list_of self.old }
        ensures length { length self.new.names ≡ length self.old.names }
        ensures named { slice_get self.new.names id.index ≡ Some id }
        ensures others { (other : BufferId) → other.index ≢ id.index → slice_get self.old.names other.index ≡ Some other
            → slice_get self.new.names other.index ≡ Some other }
    {
        self.table.name(id);
    }
}
