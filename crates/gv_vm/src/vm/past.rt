//! What the entries of the journal did to an address.
ghost use Rattle.std.specs.Prelude.{◌≡◌, ◌<◌, ◌≤◌, IfOk, IsErr, length};
ghost use Rattle.std.specs.Option.{option_and_then};
ghost use Rattle.gv_journal.specs.Items.{entries, is_withdrawn, next};
ghost use Rattle.gv_journal.specs.Withdrawing.{item_at};
ghost use Rattle.gv_vm.specs.AddressPast.{effect_at, past_of, place_under};

use super::Vm;
use crate::places::{Place, Target, place_by};
use gv_types::{Backing, Flags, OutOfMemory, PAGE_BYTES};
use std::alloc::Global;

/// What a held item of the journal did to an address: its number, whether a later item withdraws it, and what the address reaches
/// by it, which is nothing if its last operation that covers the page is an unmap.
#[derive(Clone, Copy, Debug, PartialEq, Eq)]
pub struct PastItem {
    pub entry: u64,
    pub is_withdrawn: bool,
    pub place: Option<Place>,
}

impl Vm {
    /// What the held items did to an address, in bytes: those with an operation that covers its page, the newest first. Nothing is
    /// undone. `OutOfMemory` only if there is something to list.
    pub fn past(&self, alloc: Global, addr: u64) -> Result<Vec<PastItem>, OutOfMemory>
        ensures items { IfOk result (λ list. list.items ≡ past_of self.now.journal addr) }
        ensures some { IsErr result → 0 < length (past_of self.now.journal addr) }
    {
        // The borrow checker proves this only where the function names the types inside what is listed.
        let _place = Some(Place {
            target: Target::Zero,
            flags: Flags { read_only: false },
        });
        let mut list = Vec::new(alloc);
        for number in (self.first()..self.next()).rev() {
            if let Some(item) = self.effect_at(number, addr) {
                list.push(item)?;
            }
        }
        Ok(list)
    }

    /// What an address, in bytes, would reach if all held items were undone. None if no mapping would hold its page, and past
    /// the end of the address space. It takes no memory.
    pub fn base_at(&self, addr: u64) -> Option<Place>
        ensures { result ≡ place_under self.now addr }
    {
        // The borrow checker proves this only where the function names the types inside the entry.
        let _backing = Backing::Zero;
        let entry = self.journal.base_at(&self.space, addr / PAGE_BYTES)?;
        Some(Place::of(entry, addr % PAGE_BYTES))
    }

    /// What the item with this number did to an address.
    fn effect_at(&self, number: u64, addr: u64) -> Option<PastItem>
        requires not_settled { self.now.journal.first ≤ number }
        requires there { number < next self.now.journal }
        ensures { result ≡ option_and_then (λ item. effect_at (is_withdrawn (entries self.now.journal)) addr
            (record { number = number; item = item })) (item_at self.now.journal number) }
    {
        // For the prover: what always holds of the machine and of the items.
        let (_space, _items) = (self.space(), self.journal.items());
        // The borrow checker proves this only where the function names the types inside what is said and what is answered.
        let (_backing, _target) = (Backing::Zero, Target::Zero);
        let said = self.journal.covering_op(number, addr / PAGE_BYTES)?;
        Some(PastItem {
            entry: number,
            is_withdrawn: said.is_withdrawn,
            place: place_by(&said.op, addr),
        })
    }
}
