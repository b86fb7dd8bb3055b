//! What stands beside each item of a journal, in columns.
ghost use Rattle.std.specs.Prelude.{◌≡◌, ◌++◌, ◌+◌, ◌*◌, ◌<◌, ◌≤◌, ◌-◌, ◌^◌, max, IfSome, IsTrue, ◌↔◌, [], ◌∷◌, length, take, drop, set, None, OnOk, OnErr};
ghost use Rattle.gv_types.specs.Page.{PAGES};

use crate::note::Note;
use crate::reach::Reach;
use crate::room::grow;
use std::alloc::{AllocError, Global};
use std::marker::Model;

/// Which withdrawal names each item, and what each reaches: the least page, the one past the greatest, the bits of the regions.
/// Each is a vector of numbers, the oldest item's first, since what is asked of all later items is to lie close together: whoever
/// passes items over reads no more than tells it.
#[derive(Drop)]
pub struct Columns {
    notes: Vec<Note>,
    firsts: Vec<u64>,
    pasts: Vec<u64>,
    regions: Vec<u128>,
}

impl Model for Columns {
    ghost use Rattle.gv_journal.specs.Columns.{ColumnsState, columns_of, IsColumns};

    ghost Value = { ColumnsState };

    ghost view = { columns_of };

    ghost invariant = { IsColumns };
}

impl Columns {
    ghost use Rattle.gv_journal.specs.Columns.{AreInSpace, AreBeside};

    /// Of no items. It takes no memory.
    pub fn new(alloc: Global) -> Columns
        ensures notes { result.notes ≡ [] }
        ensures firsts { result.firsts ≡ [] }
        ensures pasts { result.pasts ≡ [] }
        ensures regions { result.regions ≡ [] }
    {
        Columns {
            notes: Vec::new(alloc),
            firsts: Vec::new(alloc),
            pasts: Vec::new(alloc),
            regions: Vec::new(alloc),
        }
    }

    /// Which withdrawal names each item.
    pub fn notes(&self) -> &[Note]
        ensures { result.now ≡ self.now.notes }
    {
        &self.notes
    }

    /// The least page of each item.
    pub fn firsts(&self) -> &[u64]
        ensures value { result.now ≡ self.now.firsts }
        ensures beside { length self.now.firsts ≡ length self.now.notes }
    {
        &self.firsts
    }

    /// The page past the greatest of each item.
    pub fn pasts(&self) -> &[u64]
        ensures value { result.now ≡ self.now.pasts }
        ensures beside { length self.now.pasts ≡ length self.now.notes }
        ensures in_space { AreInSpace self.now.pasts }
    {
        &self.pasts
    }

    /// The bits of the regions of each item.
    pub fn regions(&self) -> &[u128]
        ensures value { result.now ≡ self.now.regions }
        ensures beside { length self.now.regions ≡ length self.now.notes }
    {
        &self.regions
    }

    /// Whether there is room for one item more.
    pub fn has_room(&self) -> bool
        ensures { IsTrue result ↔ 0 < self.now.room }
    {
        self.notes.len() < self.notes.capacity()
            && self.firsts.len() < self.firsts.capacity()
            && self.pasts.len() < self.pasts.capacity()
            && self.regions.len() < self.regions.capacity()
    }

    /// Makes room for one item more, where there is none: twice the slots. It fails only where room was missing.
    pub fn make_room(&mut self) -> Result<(), AllocError>
        ensures notes { self.new.notes ≡ self.old.notes }
        ensures firsts { self.new.firsts ≡ self.old.firsts }
        ensures pasts { self.new.pasts ≡ self.old.pasts }
        ensures regions { self.new.regions ≡ self.old.regions }
        ensures room { OnOk result (0 < self.new.room) }
        ensures needed { OnErr result (self.old.room ≡ 0) }
        ensures enough { 0 < self.old.room → self.new ≡ self.old }
        ensures few { length self.old.notes + self.new.room ≤ max (2 * (length self.old.notes + self.old.room)) 4 }
    {
        if self.has_room() {
            return Ok(());
        }
        grow(&mut self.notes)?;
        grow(&mut self.firsts)?;
        grow(&mut self.pasts)?;
        grow(&mut self.regions)
    }

    /// Adds an item that nothing withdraws.
    pub fn push(&mut self, reach: Reach)
        requires room { 0 < self.old.room }
        requires in_space { reach.past ≤ PAGES }
        ensures notes { self.new.notes ≡ self.old.notes ++ None ∷ [] }
        ensures firsts { self.new.firsts ≡ self.old.firsts ++ reach.first ∷ [] }
        ensures pasts { self.new.pasts ≡ self.old.pasts ++ reach.past ∷ [] }
        ensures regions { self.new.regions ≡ self.old.regions ++ reach.regions ∷ [] }
        ensures beside { AreBeside self.old }
    {
        self.notes.push_reserved(Note::new());
        self.firsts.push_reserved(reach.first);
        self.pasts.push_reserved(reach.past);
        self.regions.push_reserved(reach.regions);
    }

    /// Keeps the first `count` items, the oldest, and drops the others.
    pub fn truncate(&mut self, count: usize)
        ensures notes { self.new.notes ≡ take count self.old.notes }
        ensures firsts { self.new.firsts ≡ take count self.old.firsts }
        ensures pasts { self.new.pasts ≡ take count self.old.pasts }
        ensures regions { self.new.regions ≡ take count self.old.regions }
        ensures room { count ≤ length self.old.notes → self.new.room ≡ self.old.room + (length self.old.notes - count) }
    {
        self.notes.truncate(count);
        self.firsts.truncate(count);
        self.pasts.truncate(count);
        self.regions.truncate(count);
    }

    /// Lets the oldest items go.
    pub fn drop_oldest(&mut self, count: usize)
        requires { count ≤ length self.old.notes }
        ensures notes { self.new.notes ≡ drop count self.old.notes }
        ensures firsts { self.new.firsts ≡ drop count self.old.firsts }
        ensures pasts { self.new.pasts ≡ drop count self.old.pasts }
        ensures regions { self.new.regions ≡ drop count self.old.regions }
        ensures room { self.new.room ≡ self.old.room + count }
    {
        let held = self.notes.len() - count;
        self.notes.rotate_left(count);
        self.firsts.rotate_left(count);
        self.pasts.rotate_left(count);
        self.regions.rotate_left(count);
        self.truncate(held);
    }

    /// Gives room back: there is none for one item more then.
    pub fn shrink(&mut self)
        ensures notes { self.new.notes ≡ self.old.notes }
        ensures firsts { self.new.firsts ≡ self.old.firsts }
        ensures pasts { self.new.pasts ≡ self.old.pasts }
        ensures regions { self.new.regions ≡ self.old.regions }
    {
        self.notes.shrink_to_fit();
        self.firsts.shrink_to_fit();
        self.pasts.shrink_to_fit();
        self.regions.shrink_to_fit();
    }

    /// Writes which withdrawal names an item.
    pub fn mark(&mut self, index: usize, withdrawal: Option<u64>)
        requires index { index < length self.old.notes }
        requires number { IfSome withdrawal (λ number. number < 2 ^ 64 - 1) }
        ensures notes { self.new.notes ≡ set self.old.notes index withdrawal }
        ensures firsts { self.new.firsts ≡ self.old.firsts }
        ensures pasts { self.new.pasts ≡ self.old.pasts }
        ensures regions { self.new.regions ≡ self.old.regions }
        ensures room { self.new.room ≡ self.old.room }
    {
        self.notes[index].mark(withdrawal);
    }
}
