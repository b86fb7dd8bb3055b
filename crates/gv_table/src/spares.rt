//! Empty tables that are in no tree.
ghost use Rattle.std.specs.Prelude.{◌≡◌, ◌≢◌, ◌≤◌, ◌+◌, IfOk, OnErr};
ghost use Rattle.gv_table.specs.Chain.{AreEmpty};
ghost use Rattle.gv_table.specs.PageChain.{ArePagesEmpty};
ghost use Rattle.gv_table.specs.Kinds.{Kind, of, one_of, none};

use crate::chain::Chain;
use crate::kind_counts::KindCounts;
use crate::levels::SLOTS;
use crate::page_chain::PageChain;
use crate::page_slot::Pages;
use crate::slot::Slot;
use std::alloc::{AllocError, Global};
use std::marker::Model;

/// Empty tables of both kinds: a paint takes from some and puts to others. Contracts see how many they are of each kind.
#[derive(Drop)]
pub struct Spares {
    pages: PageChain,
    slots: Chain,
}

impl Model for Spares {
    ghost use Rattle.gv_table.specs.declared.kind_counts.KindCounts.{KindCounts};

    ghost Value = { KindCounts };

    ghost view = { λ s. record { pages = s.pages; slots = s.slots } };
}

impl Spares {
    /// No table. It takes no memory.
    pub fn new() -> Spares
        ensures { result ≡ none }
    {
        Spares {
            pages: PageChain::new(),
            slots: Chain::new(),
        }
    }

    /// So many empty tables. Where memory for one is refused, those made so far are given back to the system.
    pub(crate) fn make(alloc: Global, need: KindCounts) -> Result<Spares, AllocError>
        ensures number { IfOk result (λ spares. spares ≡ need) }
        ensures some_needed { OnErr result (need ≢ none) }
    {
        let mut spares = Spares::new();
        for _ in 0..need.slots {
            spares.slots.grow(alloc)?;
        }
        for _ in 0..need.pages {
            spares.pages.grow(alloc)?;
        }
        Ok(spares)
    }

    /// Adds an empty table of pages.
    pub(crate) fn put_pages(&mut self, table: Box<Pages>)
        requires { ArePagesEmpty table.value.0 }
        ensures { (kind : Kind) → of kind self.new ≡ of kind self.old + one_of kind 0 }
    {
        self.pages.put(table);
    }

    /// Adds an empty table of other slots.
    pub(crate) fn put_slots(&mut self, table: Box<[Slot; SLOTS]>)
        requires { AreEmpty table.value }
        ensures { (kind : Kind) → of kind self.new ≡ of kind self.old + one_of kind 1 }
    {
        self.slots.put(table);
    }

    /// Takes an empty table of pages off.
    pub(crate) fn take_pages(&mut self) -> Box<Pages>
        requires { (kind : Kind) → one_of kind 0 ≤ of kind self.old }
        ensures empty { ArePagesEmpty result.value.0 }
        ensures taken { (kind : Kind) → of kind self.new + one_of kind 0 ≡ of kind self.old }
    {
        self.pages.take()
    }

    /// Takes an empty table of other slots off.
    pub(crate) fn take_slots(&mut self) -> Box<[Slot; SLOTS]>
        requires { (kind : Kind) → one_of kind 1 ≤ of kind self.old }
        ensures empty { AreEmpty result.value }
        ensures taken { (kind : Kind) → of kind self.new + one_of kind 1 ≡ of kind self.old }
    {
        self.slots.take()
    }
}
