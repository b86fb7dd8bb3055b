//! Entries of the journal undone, withdrawn and settled.
ghost use Rattle.std.specs.Prelude.{◌≡◌, ◌+◌, [], ℕ, Some, None, IfOk, IfErr, IfSome, IfNone, OnOk, OnErr};
ghost use Rattle.gv_journal.specs.Items.{entries, is_withdrawn, next};
ghost use Rattle.gv_journal.specs.History.{back};
ghost use Rattle.gv_journal.specs.Binding.{IsRewound};
ghost use Rattle.gv_journal.specs.Settling.{settle_fault, IsSettled};
ghost use Rattle.gv_journal.specs.Withdrawing.{item_at, withdraw_fault, IsWithdrawRefused, IsWithdrawn};

use super::Vm;
use gv_journal::HeldItem;
use gv_types::Fault;
use std::alloc::Global;

impl Vm {
    /// The item of the journal with this number, if it is held.
    pub fn entry(&self, number: u64) -> Option<HeldItem<'_>>
        ensures none { IfNone result (item_at self.now.journal number ≡ None) }
        ensures item { IfSome result (λ held. item_at self.now.journal number ≡ Some held.item.now) }
        ensures withdrawn { IfSome result (λ held. held.is_withdrawn ≡ is_withdrawn (entries self.now.journal) number) }
    {
        self.journal.entry(number)
    }

    /// Undoes the newest entry and answers its number: the list of mappings is what it was before that entry, boundaries
    /// included, and so are the page table and the uses of each buffer. `NoEntry` only if no entry is held. It takes no
    /// memory. Outcomes, jobs and the making of buffers are not undone.
    pub fn rewind(&mut self) -> Result<u64, Fault>
        ensures number { IfOk result (λ n. n ≡ next self.new.journal) }
        ensures item { OnOk result
            (IsRewound self.old.space self.new.space self.old.journal self.new.journal) }
        ensures back { OnOk result ((n : ℕ) → back self.new.space.mappings self.new.journal.items n
            ≡ back self.old.space.mappings self.old.journal.items (n + 1)) }
        ensures rest { self.new
            ≡ record self.old { space = self.new.space; journal = self.new.journal } }
        ensures none { IfErr result (λ fault.
            (fault ≡ Fault.NoEntry) × (self.old.journal.items ≡ [])) }
        ensures err { OnErr result (self.new ≡ self.old) }
    {
        let rewound = self.journal.rewind(&mut self.space);
        // For the prover: what always holds of the space.
        let _list = self.space.list();
        rewound
    }

    /// Withdraws an older request that no later live one touches: the pages that its operations cover hold again what they
    /// held before each of them, and each page is what the other entries say. The withdrawal is an entry of its own, whose
    /// number is answered. `NoEntry`, `NotABind`, `Withdrawn`, `Touched` with the least live later entry that touches it,
    /// `JournalFull`, `OutOfMemory` for the entry's place, then for each operation from the last to the first
    /// `TooManyMappings` and `OutOfMemory`. After a refusal all is as before.
    pub fn withdraw(&mut self, alloc: Global, entry: u64) -> Result<u64, Fault>
        ensures accepted { OnOk result (withdraw_fault self.old.space self.old.journal entry ≡ None) }
        ensures refused { IfErr result (IsWithdrawRefused self.old.space self.old.journal entry) }
        ensures number { IfOk result (λ n. n ≡ next self.old.journal) }
        ensures withdrawn { OnOk result
            (IsWithdrawn self.old.space self.new.space self.old.journal self.new.journal entry) }
        ensures back { OnOk result ((n : ℕ)
            → back self.new.space.mappings self.new.journal.items (n + 1)
            ≡ back self.old.space.mappings self.old.journal.items n) }
        ensures rest { self.new
            ≡ record self.old { space = self.new.space; journal = self.new.journal } }
        ensures room { self.new.space.room ≡ self.old.space.room }
        ensures err { OnErr result (self.new ≡ self.old) }
    {
        let withdrawn = self.journal.withdraw(alloc, &mut self.space, entry);
        // For the prover: what always holds of the space.
        let _list = self.space.list();
        withdrawn
    }

    /// Settles the entries below a number: they can't be undone or withdrawn any more, and their undo values are
    /// dropped. It answers how many. `NoEntry` if the number is below that of the oldest entry held or above the next
    /// one, then `Crossed` with the least later entry that withdraws one of them. It takes no memory.
    pub fn settle(&mut self, to: u64) -> Result<u64, Fault>
        ensures accepted { OnOk result (settle_fault self.old.journal to ≡ None) }
        ensures refused { IfErr result (λ fault. settle_fault self.old.journal to ≡ Some fault) }
        ensures count { IfOk result (λ count. self.old.journal.first + count ≡ to) }
        ensures settled { OnOk result
            (IsSettled self.old.space self.new.space self.old.journal self.new.journal to) }
        ensures rest { self.new
            ≡ record self.old { space = self.new.space; journal = self.new.journal } }
        ensures err { OnErr result (self.new ≡ self.old) }
    {
        let settled = self.journal.settle(&mut self.space, to);
        // For the prover: what always holds of the space.
        let _list = self.space.list();
        settled
    }
}
