//! One item of a journal.
ghost use Rattle.std.specs.Prelude.{◌≡◌, ◌+◌, ◌<◌, length, Some, None, IfSome, IfNone, IfOk, IfErr, OnOk, is_some};
ghost use Rattle.std.specs.Option.{option_map, option_and_then};

use super::Journal;
use crate::item::{Item, ItemKind};
use crate::note::Note;
use crate::touching::{first_taken_by, first_touched, last_covering};
use gv_space::Space;
use gv_types::{Entry, Fault, PageOp, SPACE_PAGES};

/// An item that a journal holds, and whether a later item withdraws it.
pub struct HeldItem<'a> {
    pub item: &'a Item,
    pub is_withdrawn: bool,
}

/// What a held item says of a page: the last of its operations that covers it. And whether a later item withdraws the item.
#[derive(Clone, Copy, Debug, PartialEq, Eq)]
pub struct CoveringOp {
    pub op: PageOp,
    pub is_withdrawn: bool,
}

impl Journal {
    ghost use Rattle.gv_types.specs.Page.{IsPage};
    ghost use Rattle.gv_journal.specs.Items.{entries, is_withdrawn};
    ghost use Rattle.gv_journal.specs.Reach.{IsSilent};
    ghost use Rattle.gv_journal.specs.History.{base};
    ghost use Rattle.gv_journal.specs.Covering.{last_covering, live_taken};
    ghost use Rattle.gv_journal.specs.Fits.{FitsSpace};
    ghost use Rattle.gv_journal.specs.Withdrawing.{item_at, found_fault};

    /// The item with this number, if it is held.
    pub fn entry(&self, number: u64) -> Option<HeldItem<'_>>
        ensures none { IfNone result (item_at self.now number ≡ None) }
        ensures item { IfSome result (λ held. item_at self.now number ≡ Some held.item.now) }
        ensures withdrawn { IfSome result (λ held. held.is_withdrawn ≡ is_withdrawn (entries self.now) number) }
    {
        let index = self.index_of(number)?;
        let (item, note) = self.noted(index);
        Some(HeldItem {
            item,
            is_withdrawn: note.is_withdrawn(),
        })
    }

    /// What the item with this number says of a page. None where it isn't held, and where no operation of it covers the page. An
    /// item that doesn't reach there isn't read. It is asked of many items one after another, so it is inlined as far as that.
    #[inline(always)]
    pub fn covering_op(&self, number: u64, page: u64) -> Option<CoveringOp>
        ensures op { option_map (λ said. said.op) result
            ≡ option_and_then (λ item. last_covering item.kind page) (item_at self.now number) }
        ensures withdrawn { IfSome result (λ said. said.is_withdrawn ≡ is_withdrawn (entries self.now) number) }
        ensures in_space { IfSome result (λ _. IsPage page) }
    {
        let index = self.reaching(number, page)?;
        self.said_at(index, page)
    }

    /// What the item at an index says of a page.
    #[inline(never)]
    fn said_at(&self, index: usize, page: u64) -> Option<CoveringOp>
        requires { index < length self.now.items }
        ensures op { option_map (λ said. said.op) result
            ≡ option_and_then (λ item. last_covering item.kind page) (item_at self.now (self.now.first + index)) }
        ensures withdrawn { IfSome result (λ said. said.is_withdrawn ≡ is_withdrawn (entries self.now) (self.now.first + index)) }
        ensures in_space { IfSome result (λ _. IsPage page) }
    {
        let (item, note) = self.noted(index);
        let op = last_covering(&item.kind, page)?;
        Some(CoveringOp {
            op,
            is_withdrawn: note.is_withdrawn(),
        })
    }

    /// What the page holds under the oldest item: what the first operation of a live item that covers it took out, and where
    /// there is none, what it holds now. It takes no memory.
    pub fn base_at(&self, space: &Space, page: u64) -> Option<Entry>
        requires { FitsSpace space.now self.now }
        ensures { result ≡ base space.now.mappings self.now.items page }
    {
        // For the prover: what always holds of the space.
        let _list = space.list();
        if page >= SPACE_PAGES {
            return None;
        }
        for number in self.first..self.next() {
            match self.taken_by(number, page) {
                Some(taken) => return taken,
                None => continue,
            }
        }
        space.find(page)
    }

    /// What the item with this number took out of a page first, where it is live and an operation of it covers the page.
    #[inline(always)]
    fn taken_by(&self, number: u64, page: u64) -> Option<Option<Entry>>
        ensures { result ≡ option_and_then (λ item. live_taken (is_withdrawn (entries self.now) number) item page) (item_at self.now number) }
    {
        let index = self.reaching(number, page)?;
        self.taken_at(index, page)
    }

    /// The same of the item at an index.
    #[inline(never)]
    fn taken_at(&self, index: usize, page: u64) -> Option<Option<Entry>>
        requires { index < length self.now.items }
        ensures { result ≡ option_and_then (λ item. live_taken (is_withdrawn (entries self.now) (self.now.first + index)) item page)
            (item_at self.now (self.now.first + index)) }
    {
        let (item, note) = self.noted(index);
        if note.is_withdrawn() {
            return None;
        }
        first_taken_by(item, page)
    }

    /// The index among the held items of the one with this number, if it is held.
    #[inline(always)]
    fn index_of(&self, number: u64) -> Option<usize>
        ensures none { IfNone result (item_at self.now number ≡ None) }
        ensures index { IfSome result (λ index. (self.now.first + index ≡ number) × (index < length self.now.items)) }
    {
        if number < self.first || self.next() <= number {
            return None;
        }
        Some((number - self.first) as usize)
    }

    /// The same, if the item reaches the page. It is asked of many items one after another, and reads none.
    #[inline(always)]
    fn reaching(&self, number: u64, page: u64) -> Option<usize>
        ensures none { IfNone result (IsSilent (item_at self.now number) page) }
        ensures index { IfSome result (λ index. (self.now.first + index ≡ number) × (index < length self.now.items)) }
    {
        let index = self.index_of(number)?;
        if !self.item_store.spans_page(index, page) {
            return None;
        }
        Some(index)
    }

    /// The item at an index, with its note.
    fn noted(&self, index: usize) -> (&Item, &Note)
        requires { index < length self.now.items }
        ensures item { item_at self.now (self.now.first + index) ≡ Some result.0.now }
        ensures withdrawn { is_some result.1.now ≡ is_withdrawn (entries self.now) (self.now.first + index) }
    {
        let (items, notes) = (self.item_store.items(), self.item_store.notes());
        (&items[index], &notes[index])
    }

    /// The index among the held items of an item that can be withdrawn, if there is room for one more.
    pub(super) fn find_entry(&self, entry: u64) -> Result<usize, Fault>
        ensures accepted { OnOk result (found_fault self.now entry (item_at self.now entry) ≡ None) }
        ensures refused { IfErr result (λ fault. found_fault self.now entry (item_at self.now entry) ≡ Some fault) }
        ensures index { IfOk result (λ index. (self.now.first + index ≡ entry) × (index < length self.now.items)) }
    {
        let first = self.first();
        if entry < first || self.next() <= entry {
            return Err(Fault::NoEntry);
        }
        let held = self.item_store.held();
        let index = (entry - first) as usize;
        let ItemKind::Bind { done, .. } = &held.items[index].kind else {
            return Err(Fault::NotABind);
        };
        if held.notes[index].is_withdrawn() {
            return Err(Fault::Withdrawn);
        }
        let own = held.reach(index);
        let later = held.between(index + 1, held.items.len());
        match first_touched(&later, &own, done, entry + 1) {
            Some(by) => Err(Fault::Touched { by }),
            None => Ok(index),
        }
    }
}
