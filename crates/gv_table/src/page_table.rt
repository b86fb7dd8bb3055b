//! The tree of tables.
ghost use Rattle.std.specs.Prelude.{◌≡◌, ◌≢◌, ◌⊎◌, ◌≤◌, ◌<◌, ◌+◌, ◌-◌, ℕ, List, [], Some, false, length, max, slice_get, IsTrue, IfOk, IfErr, OnOk, OnErr};
ghost use Rattle.gv_types.specs.declared.mapping.BufferId.{BufferId};
ghost use Rattle.gv_types.specs.declared.fault.Fault.TheVariants.{OutOfMemory};
ghost use Rattle.gv_types.specs.declared.mapping.Mapping.{Mapping};
ghost use Rattle.gv_types.specs.PageRange.{end_of};
ghost use Rattle.gv_ranges.specs.List.{at, IsLaidOut, AreEnded};
ghost use Rattle.gv_ranges.specs.Edit.{clipped};
ghost use Rattle.gv_table.specs.Kinds.{Kind, of, none, AreEnough};
ghost use Rattle.gv_table.specs.BufferNames.{most_names, AreNamed};

use crate::fast_path::try_paint_slot;
use crate::levels::TOP_LEVEL;
use crate::names::extend_names;
use crate::needed_tables::needed_in_tree;
use crate::paint::paint_tree;
use crate::release::free_tables;
use crate::slot::{Slot, give_back, give_pages_back};
use crate::slot_position::{Excerpt, SlotPosition};
use crate::spares::Spares;
use crate::table_counts::TableCounts;
use crate::unnamed_list::UnnamedList;
use crate::walk::walk_tree;
use gv_ranges::{RangeList, Reader};
use gv_types::{BufferId, Entry, Fault, Packed, PageRange, SPACE_PAGES};
use std::alloc::Global;
use std::marker::Model;

/// The tree of tables of a list of mappings: what a GPU's page table would be, with leaves of one
/// page, 512 pages and 262,144 pages. Its slots tell a buffer by its index alone; the table keeps the id that stands for each.
pub struct PageTable {
    root: Slot,
    counts: TableCounts,
    names: Vec<BufferId>,
}

impl Model for PageTable {
    ghost use Rattle.gv_table.specs.Named.{named, IsConsistent};
    ghost use Rattle.gv_table.specs.Table.{PageTable};

    ghost Value = { PageTable };

    ghost use Rattle.gv_table.specs.contracts.slot.Slot as slot;
    ghost use Rattle.std.specs.Coded.{codes};

    ghost coded = { Prim.hlevel (codes, slot.the_row.coded) };

    ghost view = { λ t. record { root = named t.names.items t.root; names = t.names.items } };

    ghost invariant = { λ t. IsConsistent t.root t.counts t.names.items };
}

impl Drop for PageTable {
    // A table that drops those below it needs a frame as large as itself for each level, so the tree is taken down first.
    fn drop(mut self) {
        self.take_down();
        let PageTable {
            root,
            counts: _,
            names: _,
        } = self;
        match root {
            Slot::Pages(table) => give_pages_back(table),
            Slot::Table(slots) => give_back(slots),
            Slot::Empty | Slot::Zero { .. } | Slot::Buffer { .. } => {}
        }
    }
}

impl PageTable {
    ghost use Rattle.gv_table.specs.Table.{IsTree, IsEntryAt, FitsOutside, gained_by, lost_by, needed_for};
    ghost use Rattle.gv_table.specs.Table.{tables_by_level, tables_of, tables_by_kind};
    ghost use Rattle.gv_table.specs.Patch.{IsPatched};
    ghost use Rattle.gv_table.specs.PatchOf.{IsPatchOf};

    /// The tree of no mapping: it has no table, and takes no memory.
    pub fn new(alloc: Global) -> PageTable
        ensures { IsTree [] result }
    {
        PageTable {
            root: Slot::Empty,
            counts: TableCounts::new(),
            names: Vec::new(alloc),
        }
    }

    /// Makes it the tree of no mapping. The tables go back to the system one after another.
    #[inline(never)]
    fn take_down(&mut self)
        ensures { IsTree [] self.new }
    {
        free_tables(&mut self.root, TOP_LEVEL);
        self.counts = TableCounts::new();
    }

    /// Makes room for the name of a buffer's index, where it is missing, and for none behind it. `OutOfMemory` where the system refuses
    /// it, and only where that room was missing.
    pub fn reserve_name(&mut self, index: u32) -> Result<(), Fault>
        requires { index < most_names }
        ensures needed { OnErr result (length self.old.names ≤ index) }
        ensures ok { OnOk result (index < length self.new.names) }
        ensures length { OnOk result (length self.new.names ≡ max (length self.old.names) (index + 1)) }
        ensures same { (k : ℕ) (id : BufferId) → slice_get self.old.names k ≡ Some id → slice_get self.new.names k ≡ Some id }
        ensures tree { (ms : List Mapping) → IsTree ms self.old → AreNamed self.new.names ms → IsTree ms self.new }
        ensures present { tables_by_kind self.new ≡ tables_by_kind self.old }
        ensures err { IfErr result (λ fault. fault ≡ OutOfMemory) }
        ensures unchanged { OnErr result (self.new ≡ self.old) }
    {
        Ok(extend_names(&mut self.names, index)?)
    }

    /// Tells which buffer an index stands for from now on, where there is room for its name. It takes no memory.
    pub fn name(&mut self, id: BufferId)
        requires { id.index < length self.old.names }
        ensures length { length self.new.names ≡ length self.old.names }
        ensures named { slice_get self.new.names id.index ≡ Some id }
        ensures others { (other : BufferId) → other.index ≢ id.index → slice_get self.old.names other.index ≡ Some other
            → slice_get self.new.names other.index ≡ Some other }
        ensures tree { (ms : List Mapping) → IsTree ms self.old → AreNamed self.new.names ms → IsTree ms self.new }
        ensures present { tables_by_kind self.new ≡ tables_by_kind self.old }
    {
        self.names[id.index as usize] = id;
    }

    /// Gives room for names back that no index needs.
    pub fn shrink(&mut self)
        ensures { self.new ≡ self.old }
    {
        self.names.shrink_to_fit();
    }

    /// What a page holds: at most five steps from table to table. None past the end of the address
    /// space.
    pub fn walk(&self, page: u64) -> Option<Entry>
        ensures { IsEntryAt self.now page result }
    {
        if page >= SPACE_PAGES {
            return None;
        }
        walk_tree(&self.root, &self.names, page)
    }

    /// How many tables stand at the levels 4, 3, 2, 1 and 0. The numbers are kept: nothing is walked.
    pub fn tables(&self) -> [u64; 5]
        ensures present { result ≡ tables_by_level self.now }
        ensures wanted { (ms : List Mapping) → IsTree ms self.now → result ≡ tables_of ms }
    {
        self.counts.descending()
    }

    /// Empty tables for a paint after which the list holds these pieces in the range: enough for
    /// each list that is like the one of this tree outside the range. `OutOfMemory` where the
    /// system refuses the memory for one, so only where some are needed; those made so far are given back to it.
    pub fn spare(&self, alloc: Global, range: PageRange, pieces: &[Packed]) -> Result<Spares, Fault>
        requires { IsLaidOut pieces.now }
        ensures number { IfOk result (λ spares. spares ≡ needed_for pieces.now range self.now) }
        ensures enough { IfOk result (λ spares. (ms : List Mapping) → IsLaidOut ms
            → FitsOutside ms range self.now
            → clipped range.first (end_of range) ms ≡ pieces.now → AreEnough spares (gained_by ms self.now)) }
        ensures err { IfErr result (λ fault. fault ≡ OutOfMemory) }
        ensures some_needed { OnErr result (needed_for pieces.now range self.now ≢ none) }
    {
        let pieces = UnnamedList::of(Reader::of_slice(pieces));
        Ok(Spares::make(alloc, needed_in_tree(&self.root, &pieces, range))?)
    }

    /// Paints a range that lies in one table of pages, or one of whole slots of another table, none of which is a table, and each of which
    /// one mapping is to hold whole or none to meet. That table has to stand and to stay: whether it did, and if not, nothing changed.
    /// Of the list, which need not be the one that the tree is to be of yet, the pieces tell what it says of the range, and `some` where
    /// one of its mappings lies. No table is gained or lost, and it takes no memory.
    pub fn try_paint_within(&mut self, range: PageRange, pieces: &[Packed], some: PageRange) -> bool
        requires laid_out { IsLaidOut pieces.now }
        requires named { AreNamed self.old.names pieces.now }
        requires list { IsPatchOf self.old range pieces.now some }
        ensures not { result ≡ false → self.new ≡ self.old }
        ensures names { self.new.names ≡ self.old.names }
        ensures present { tables_by_kind self.new ≡ tables_by_kind self.old }
        ensures tree { IsTrue result → (ms : List Mapping) → IsPatched ms pieces.now range some → AreNamed self.old.names ms
            → FitsOutside ms range self.old → IsTree ms self.new }
        ensures none { IsTrue result → (ms : List Mapping) → IsLaidOut ms → IsTree ms self.old → gained_by ms self.new ≡ none }
    {
        // Tells that the range lies in the space.
        let _first = range.first();
        let pieces = UnnamedList::of(Reader::of_slice(pieces));
        let excerpt = Excerpt {
            mappings: &pieces,
            range,
            position: 0,
        };
        let slot_at = SlotPosition {
            level: TOP_LEVEL,
            first: 0,
        };
        try_paint_slot(&mut self.root, slot_at, &excerpt, some)
    }

    /// Makes the tree that of the list, where it fits the list outside the range. It takes from the
    /// spares just the tables that the tree gains, puts just those that it loses to the ones pruned from it, and takes no memory. So
    /// many are needed to paint the list back that the tree was of. The mappings before the position end before the range: it looks
    /// at those from there on that meet the range, and at one neighbour.
    pub fn paint(
        &mut self,
        list: &RangeList,
        range: PageRange,
        position: usize,
        spares: &mut Spares,
        pruned: &mut Spares,
    )
        requires ended { AreEnded list.now.mappings range.first position }
        requires fitted { FitsOutside list.now.mappings range self.old }
        requires named { AreNamed self.old.names list.now.mappings }
        requires enough { AreEnough spares.old (gained_by list.now.mappings self.old) }
        ensures tree { IsTree list.now.mappings self.new }
        ensures names { self.new.names ≡ self.old.names }
        ensures taken { (kind : Kind) → of kind spares.new + of kind (gained_by list.now.mappings self.old)
            ≡ of kind spares.old }
        ensures put { (kind : Kind) → of kind pruned.new
            ≡ of kind pruned.old + of kind (lost_by list.now.mappings self.old) }
        ensures back { (ms : List Mapping) → IsLaidOut ms → IsTree ms self.old
            → gained_by ms self.new ≡ lost_by list.now.mappings self.old }
    {
        let mappings = UnnamedList::of(Reader::of_list(list, position));
        let excerpt = Excerpt {
            mappings: &mappings,
            range,
            position,
        };
        paint_tree(&mut self.root, &excerpt, spares, pruned, &mut self.counts);
    }
}
