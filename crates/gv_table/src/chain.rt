//! Empty tables of slots that are in no tree (of single pages: page_chain.rt).
ghost use Rattle.std.specs.Prelude.{◌≡◌, ℕ, ◌+◌, ◌<◌, ◌≤◌, ◌↔◌, IsTrue, OnOk, OnErr};
ghost use Rattle.gv_table.specs.Chain.{AreEmpty, IsChainOf, link_to};

use crate::levels::SLOTS;
use crate::slot::{Slot, give_back, overwrite};
use std::alloc::{AllocError, Global};
use std::marker::Model;
use std::mem;

/// Empty tables, linked through their first slots. Contracts see how many they are.
pub struct Chain {
    first: Option<Box<[Slot; SLOTS]>>,
}

impl Model for Chain {
    ghost use Rattle.std.specs.Prelude.{ℕ};
    ghost use Rattle.gv_table.specs.Chain.{IsChainOf, chain_length, link_to};

    ghost Value = { ℕ };

    ghost view = { λ s. chain_length (link_to s.first) };

    ghost invariant = { λ s. IsChainOf (chain_length (link_to s.first)) (link_to s.first) };
}

impl Drop for Chain {
    fn drop(mut self) {
        if !self.is_empty() {
            self.give_all_back();
        }
        let Chain { first } = self;
        if let Some(slots) = first {
            give_back(slots);
        }
    }
}

/// The slot that links to a table, if there is one.
fn link_to(first: Option<Box<[Slot; SLOTS]>>) -> Slot
    ensures { result ≡ link_to first }
{
    match first {
        Some(slots) => Slot::Table(slots),
        None => Slot::Empty,
    }
}

/// The table to which a slot links, if it does.
fn linked(slot: Slot) -> Option<Box<[Slot; SLOTS]>>
    ensures { (count : ℕ) → IsChainOf count slot → link_to result ≡ slot }
{
    match slot {
        Slot::Table(slots) => Some(slots),
        Slot::Pages(_) => None,
        Slot::Empty | Slot::Zero { .. } | Slot::Buffer { .. } => None,
    }
}

impl Chain {
    /// No table. It takes no memory.
    pub fn new() -> Chain
        ensures { result ≡ 0 }
    {
        Chain { first: None }
    }

    /// Whether there is no table.
    pub fn is_empty(&self) -> bool
        ensures { IsTrue result ↔ (self.now ≡ 0) }
    {
        self.first.is_none()
    }

    /// Gives all tables back to the system, one after another. Mostly there is none, and a table needs a frame as large as it.
    #[cold]
    #[inline(never)]
    fn give_all_back(&mut self)
        ensures { self.new ≡ 0 }
    {
        while !self.is_empty() {
            give_back(self.take());
        }
    }

    /// Adds an empty table.
    pub fn put(&mut self, mut slots: Box<[Slot; SLOTS]>)
        requires { AreEmpty slots.value }
        ensures { self.new ≡ self.old + 1 }
    {
        overwrite(&mut slots[0], link_to(self.first.take()));
        self.first = Some(slots);
    }

    /// Takes an empty table off.
    pub fn take(&mut self) -> Box<[Slot; SLOTS]>
        requires { 0 < self.old }
        ensures empty { AreEmpty result.value }
        ensures fewer { self.new + 1 ≡ self.old }
    {
        match self.first.take() {
            Some(mut slots) => {
                self.first = linked(mem::replace(&mut slots[0], Slot::Empty));
                slots
            }
            None => unreachable!(),
        }
    }

    /// Makes one more empty table. The table is made in a frame of its own, which is as large as it.
    #[cold]
    #[inline(never)]
    pub fn grow(&mut self, alloc: Global) -> Result<(), AllocError>
        ensures grown { OnOk result (self.new ≡ self.old + 1) }
        ensures unchanged { OnErr result (self.new ≡ self.old) }
    {
        let slots = Box::new(alloc, [const { Slot::Empty }; SLOTS])?;
        self.put(slots);
        Ok(())
    }
}
