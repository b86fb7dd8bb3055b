//! The journal of an address space.
ghost use Rattle.std.specs.Prelude.{◌≡◌, ℕ, ◌+◌, ◌<◌, ◌≤◌, [], length, reverse, IsTrue, ◌↔◌, Some, None, position};
ghost use Rattle.std.specs.Prelude.{IfOk, IfErr, OnOk, OnErr};

use crate::applying::{Work, apply_all};
use crate::item::{Item, ItemKind};
use crate::item_store::ItemStore;
use crate::ready::ReadyRequest;
use crate::refusal::{Refusal, whole};
use crate::restoring::restore_all;
use crate::settling::first_crossing;
use crate::undoing::revert_all;
use gv_space::Space;
use gv_types::Fault;
use std::alloc::Global;
use std::marker::Model;

mod entry;

pub use entry::{CoveringOp, HeldItem};

/// A request has at most so many operations.
pub const MAX_OPS: usize = 256;

/// Items have numbers below this one.
const NUMBERS: u64 = 1 << 63;

/// The accepted requests and the withdrawals of an address space, each with the undo values that take it back. An item's
/// number is how many items stood before it, settled ones counted; after a rewind the number is given out again. A journal
/// has to be closed: it isn't `Drop`, so a program that lets one go is refused.
pub struct Journal {
    item_store: ItemStore,
    first: u64,
    limit: u64,
}

impl Model for Journal {
    ghost use Rattle.gv_journal.specs.Items.{JournalState};

    ghost Value = { JournalState };

    ghost use Rattle.gv_journal.specs.Inside.{journal_of, IsSoundJournal};

    ghost view = { journal_of };

    ghost invariant = { IsSoundJournal };
}

impl Journal {
    ghost use Rattle.gv_space.specs.State.{SpaceState, AreKept, IsUnchanged};
    ghost use Rattle.gv_space.specs.Undo.{released};
    ghost use Rattle.gv_journal.specs.Items.{entries, next};
    ghost use Rattle.gv_journal.specs.Covering.{WereLive};
    ghost use Rattle.gv_journal.specs.History.{back, kept_by};
    ghost use Rattle.gv_journal.specs.Fits.{FitsSpace};
    ghost use Rattle.gv_journal.specs.Verdict.{verdict, full_fault, IsRefused};
    ghost use Rattle.gv_journal.specs.Settling.{settle_fault, later, crosses, IsSettled};
    ghost use Rattle.gv_journal.specs.Withdrawing.{withdraw_fault, IsWithdrawRefused, IsWithdrawn, GrowsForWithdrawal};
    ghost use Rattle.gv_journal.specs.Applying.{all_do, GrowsFor};
    ghost use Rattle.gv_journal.specs.Binding.{IsBound, IsApplied, IsRewound};

    /// No items, and room for none: it takes no memory. It may hold `limit` items.
    pub fn new(alloc: Global, limit: u64) -> Journal
        ensures { result ≡ record { limit = limit; first = 0; items = [] } }
    {
        Journal {
            item_store: ItemStore::new(alloc),
            first: 0,
            limit,
        }
    }

    /// The items held, the oldest one first.
    pub fn items(&self) -> &[Item]
        ensures value { result.now ≡ reverse self.now.items }
        ensures were_live { WereLive (entries self.now) }
    {
        self.item_store.items()
    }

    /// The number of the oldest item held, or of the next one where none is.
    pub fn first(&self) -> u64
        ensures { result ≡ self.now.first }
    {
        self.first
    }

    /// The number of the next item.
    pub fn next(&self) -> u64
        ensures { result ≡ next self.now }
    {
        self.first + self.item_store.len() as u64
    }

    /// Whether it holds as many items as it may, or has no number left.
    fn is_full(&self) -> bool
        ensures { IsTrue result ↔ (full_fault self.now ≡ Some Fault.JournalFull) }
    {
        self.item_store.len() as u64 >= self.limit || self.next() >= NUMBERS
    }

    /// Applies a request whole or not at all, and answers the number of its item. The refusals in this order:
    /// `TooManyOps` over 256 operations, `JournalFull` where the limit's items are held or no number is left, `OutOfMemory`
    /// for the item's slot, then at the first operation that has one the faults of `Space::apply`. An unmap of a whole
    /// buffer is, at its turn, an unmap of each of its mappings in ascending order: `NoBuffer`, then `OutOfMemory` for
    /// their list. After a refusal space and journal are as before, but for room.
    pub fn bind(
        &mut self,
        alloc: Global,
        space: &mut Space,
        ready: ReadyRequest,
    ) -> Result<u64, Refusal>
        requires { FitsSpace space.old self.old }
        ensures accepted { OnOk result (verdict space.old self.old ready.request.ops.items ≡ None) }
        ensures refused { IfErr result (IsRefused space.old self.old ready.request.ops.items) }
        ensures number { IfOk result (λ n. n ≡ next self.old) }
        ensures item { OnOk result
            (IsBound space.old self.old self.new ready.queue ready.number ready.request ready.seen) }
        ensures space { OnOk result (IsApplied space.old space.new ready.request) }
        ensures back { OnOk result ((n : ℕ)
            → back space.new.mappings self.new.items (n + 1) ≡ back space.old.mappings self.old.items n) }
        ensures fits { FitsSpace space.new self.new }
        ensures space_unchanged { OnErr result (IsUnchanged space.old space.new) }
        ensures unchanged { OnErr result (self.new ≡ self.old) }
        ensures grown { GrowsFor (all_do space.old.mappings ready.request.ops.items) space.old space.new }
    {
        if ready.request.ops.len() > MAX_OPS {
            return Err(whole(Fault::TooManyOps));
        }
        if self.is_full() {
            return Err(whole(Fault::JournalFull));
        }
        if self.item_store.make_room().is_err() {
            return Err(whole(Fault::OutOfMemory));
        }
        let Work { ops: done, undos } = match apply_all(alloc, space, &ready.request.ops) {
            Ok(work) => work,
            Err(refusal) => return Err(refusal),
        };
        let entry = self.next();
        let kind = ItemKind::Bind {
            queue: ready.queue,
            number: ready.number,
            request: ready.request,
            seen: ready.seen,
            done,
        };
        self.item_store.push(Item { kind, undos });
        Ok(entry)
    }

    /// Takes the newest item back and answers its number: the list of mappings is what it was before that item, boundaries
    /// included, and so are the page table and the uses of each buffer. `NoEntry` only where no item is held. It takes no
    /// memory.
    pub fn rewind(&mut self, space: &mut Space) -> Result<u64, Fault>
        requires { FitsSpace space.old self.old }
        ensures number { IfOk result (λ n. n ≡ next self.new) }
        ensures item { OnOk result (IsRewound space.old space.new self.old self.new) }
        ensures back { OnOk result ((n : ℕ)
            → back space.new.mappings self.new.items n ≡ back space.old.mappings self.old.items (n + 1)) }
        ensures fits { FitsSpace space.new self.new }
        ensures none { IfErr result (λ fault. (fault ≡ Fault.NoEntry) × (self.old.items ≡ [])) }
        ensures space_unchanged { OnErr result (space.new ≡ space.old) }
        ensures unchanged { OnErr result (self.new ≡ self.old) }
    {
        match self.item_store.take(self.first) {
            None => Err(Fault::NoEntry),
            Some(Item { kind: _, undos }) => {
                revert_all(space, undos);
                Ok(self.next())
            }
        }
    }

    /// Withdraws an older request that no later live one touches: the pages that its operations cover hold again what they
    /// held before each of them, boundaries apart, and the withdrawal is an item of its own, whose number is answered. The
    /// refusals in this order: `NoEntry`, `NotABind`, `Withdrawn`, `Touched` with the least live later item that touches it,
    /// `JournalFull`, `OutOfMemory` for the item's slot, then for each operation from the last to the first
    /// `TooManyMappings` and `OutOfMemory`. After a refusal space and journal are as before, but for room.
    pub fn withdraw(&mut self, alloc: Global, space: &mut Space, entry: u64) -> Result<u64, Fault>
        requires { FitsSpace space.old self.old }
        ensures accepted { OnOk result (withdraw_fault space.old self.old entry ≡ None) }
        ensures refused { IfErr result (IsWithdrawRefused space.old self.old entry) }
        ensures number { IfOk result (λ n. n ≡ next self.old) }
        ensures withdrawn { OnOk result (IsWithdrawn space.old space.new self.old self.new entry) }
        ensures back { OnOk result ((n : ℕ)
            → back space.new.mappings self.new.items (n + 1) ≡ back space.old.mappings self.old.items n) }
        ensures fits { FitsSpace space.new self.new }
        ensures space_unchanged { OnErr result (IsUnchanged space.old space.new) }
        ensures unchanged { OnErr result (self.new ≡ self.old) }
        ensures grown { GrowsForWithdrawal self.old entry space.old space.new }
    {
        let index = match self.find_entry(entry) {
            Ok(index) => index,
            Err(fault) => return Err(fault),
        };
        if self.is_full() {
            return Err(Fault::JournalFull);
        }
        if self.item_store.make_room().is_err() {
            return Err(Fault::OutOfMemory);
        }
        let saved = &self.item_store.items()[index].undos;
        let undos = match restore_all(alloc, space, saved) {
            Ok(undos) => undos,
            Err(fault) => return Err(fault),
        };
        let number = self.next();
        let kind = ItemKind::Withdrawal { of: entry };
        self.item_store.mark(index, Some(number));
        self.item_store.push(Item { kind, undos });
        Ok(number)
    }

    /// Settles the items below a number: what their undo values keep is given up and they go, so they can't be taken back or
    /// withdrawn any more. It answers how many. `NoEntry` where the number is below that of the oldest item held or above the
    /// next one, then `Crossed` with the least later item that withdraws one of them. It takes no memory.
    pub fn settle(&mut self, space: &mut Space, to: u64) -> Result<u64, Fault>
        requires { FitsSpace space.old self.old }
        ensures accepted { OnOk result (settle_fault self.old to ≡ None) }
        ensures refused { IfErr result (λ fault. settle_fault self.old to ≡ Some fault) }
        ensures number { IfOk result (λ count. self.old.first + count ≡ to) }
        ensures settled { OnOk result (IsSettled space.old space.new self.old self.new to) }
        ensures fits { FitsSpace space.new self.new }
        ensures space_unchanged { OnErr result (space.new ≡ space.old) }
        ensures unchanged { OnErr result (self.new ≡ self.old) }
    {
        let count = match self.count_below(to) {
            Ok(count) => count,
            Err(fault) => return Err(fault),
        };
        self.item_store.settle(space, count as usize);
        self.first = to;
        Ok(count)
    }

    /// Gives back the room that no held item needs.
    pub fn trim(&mut self)
        ensures { self.new ≡ self.old }
    {
        self.item_store.shrink();
    }

    /// How many items are below a number, where they can be settled.
    fn count_below(&self, to: u64) -> Result<u64, Fault>
        ensures accepted { OnOk result (settle_fault self.now to ≡ None) }
        ensures refused { IfErr result (λ fault. settle_fault self.now to ≡ Some fault) }
        ensures number { IfOk result (λ count. self.now.first + count ≡ to) }
        ensures within { OnOk result (to ≤ next self.now) }
        ensures none { OnOk result (position (λ item. crosses to item.kind) (reverse (later self.now to)) ≡ None) }
    {
        if to < self.first || self.next() < to {
            return Err(Fault::NoEntry);
        }
        let count = to - self.first;
        let settled = &self.item_store.notes()[..count as usize];
        match first_crossing(settled, to) {
            Some(by) => Err(Fault::Crossed { by }),
            None => Ok(count),
        }
    }

    /// Gives up all undo values: what was bound stays. It takes no memory.
    pub fn close(self, space: &mut Space)
        requires { AreKept space.old (kept_by self.items) }
        ensures state { space.new ≡ released space.old (kept_by self.items) }
        ensures kept { AreKept space.new [] }
    {
        let Journal {
            item_store,
            first: _,
            limit: _,
        } = self;
        item_store.close(space);
    }
}
