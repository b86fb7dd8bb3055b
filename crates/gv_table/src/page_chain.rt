//! Tables of single pages that are in no tree.
ghost use Rattle.std.specs.Prelude.{◌≡◌, ℕ, ◌+◌, ◌<◌, ◌≤◌, ◌↔◌, IsTrue, OnOk, OnErr};
ghost use Rattle.gv_table.specs.PageChain.{ArePagesEmpty, IsPageChain, pages_link};

use crate::levels::SLOTS;
use crate::page_slot::{NO_PAGE, Pages};
use crate::slot::{Slot, give_pages_back, overwrite};
use std::alloc::{AllocError, Global};
use std::marker::Model;
use std::mem;

/// Empty tables of single pages, each linked to the next. Contracts see how many they are.
pub struct PageChain {
    first: Option<Box<Pages>>,
}

impl Model for PageChain {
    ghost use Rattle.std.specs.Prelude.{ℕ};
    ghost use Rattle.gv_table.specs.PageChain.{IsPageChain, pages_linked, pages_link};

    ghost Value = { ℕ };

    ghost view = { λ s. pages_linked (pages_link s.first) };

    ghost invariant = { λ s. IsPageChain (pages_linked (pages_link s.first)) (pages_link s.first) };
}

impl Drop for PageChain {
    fn drop(mut self) {
        if !self.is_empty() {
            self.give_all_back();
        }
        let PageChain { first } = self;
        if let Some(table) = first {
            give_pages_back(table);
        }
    }
}

/// The slot that links to a table, if there is one.
fn pages_link(first: Option<Box<Pages>>) -> Slot
    ensures { result ≡ pages_link first }
{
    match first {
        Some(table) => Slot::Pages(table),
        None => Slot::Empty,
    }
}

/// The table to which a slot links, if it does.
fn linked_pages(slot: Slot) -> Option<Box<Pages>>
    ensures { (count : ℕ) → IsPageChain count slot → pages_link result ≡ slot }
{
    match slot {
        Slot::Pages(table) => Some(table),
        Slot::Table(_) => None,
        Slot::Empty | Slot::Zero { .. } | Slot::Buffer { .. } => None,
    }
}

impl PageChain {
    /// No table. It takes no memory.
    pub fn new() -> PageChain
        ensures { result ≡ 0 }
    {
        PageChain { first: None }
    }

    /// Whether there is no table.
    #[inline(always)]
    pub fn is_empty(&self) -> bool
        ensures { IsTrue result ↔ (self.now ≡ 0) }
    {
        self.first.is_none()
    }

    /// Gives all tables back to the system, one after another, as `Chain` does.
    #[cold]
    #[inline(never)]
    fn give_all_back(&mut self)
        ensures { self.new ≡ 0 }
    {
        while !self.is_empty() {
            give_pages_back(self.take());
        }
    }

    /// Adds an empty table.
    pub fn put(&mut self, mut table: Box<Pages>)
        requires { ArePagesEmpty table.value.0 }
        ensures { self.new ≡ self.old + 1 }
    {
        overwrite(&mut table.1, pages_link(self.first.take()));
        self.first = Some(table);
    }

    /// Takes an empty table off.
    pub fn take(&mut self) -> Box<Pages>
        requires { 0 < self.old }
        ensures empty { ArePagesEmpty result.value.0 }
        ensures fewer { self.new + 1 ≡ self.old }
    {
        match self.first.take() {
            Some(mut table) => {
                self.first = linked_pages(mem::replace(&mut table.1, Slot::Empty));
                table
            }
            None => unreachable!(),
        }
    }

    /// Makes one more empty table. The table is made in a frame of its own, which is as large as it.
    #[cold]
    #[inline(never)]
    pub fn grow(&mut self, alloc: Global) -> Result<(), AllocError>
        ensures grown { OnOk result (self.new ≡ self.old + 1) }
        ensures unchanged { OnErr result (self.new ≡ self.old) }
    {
        let table = Box::new(alloc, ([NO_PAGE; SLOTS], Slot::Empty))?;
        self.put(table);
        Ok(())
    }
}
