//! The items that a journal holds, in one slice that older items leave in front.
ghost use Rattle.std.specs.Prelude.{◌≡◌, ◌++◌, ◌<◌, ◌≤◌, ◌-◌, ◌*◌, ◌^◌, max, IfSome, [], ◌∷◌, List, length, take, drop, set, reverse, slice_index_or, option_to_list, vec_len, vec_capacity, None, MatchOption, OnOk, OnErr, ◌⊎◌};
ghost use Rattle.std.specs.List.{All};
ghost use Rattle.gv_types.specs.declared.mapping.Mapping.{Mapping};
ghost use Rattle.gv_space.specs.State.{AreKept};
ghost use Rattle.gv_space.specs.Undo.{AreAmongKept, released};
ghost use Rattle.gv_journal.specs.History.{kept_by};
ghost use Rattle.gv_journal.specs.ItemStore.{IsSpent};
ghost use Rattle.gv_journal.specs.Reach.{item_covers};

use crate::columns::Columns;
use crate::item::{Item, ItemKind};
use crate::note::Note;
use crate::part::Part;
use crate::reach::Reach;
use crate::room::grow;
use crate::settling::release_items;
use crate::touching::done_by;
use crate::undoing::release_all;
use gv_space::Space;
use gv_types::OutOfMemory;
use std::alloc::Global;
use std::marker::Model;

/// The items held, the oldest one first, and what stands beside each. What is left of settled items stands in front of them, and
/// gives way before the vectors grow: once at least half of what stands here is spent, the rest is moved to the front.
pub struct ItemStore {
    items: Vec<Item>,
    columns: Columns,
    spent: usize,
}

impl Model for ItemStore {
    ghost use Rattle.gv_journal.specs.ItemStore.{ItemStoreState};

    ghost Value = { ItemStoreState };

    ghost use Rattle.gv_journal.specs.ItemStore.{stored, IsItemStore};

    ghost view = { stored };

    ghost invariant = { IsItemStore };
}

impl ItemStore {
    ghost use Rattle.gv_journal.specs.ItemStore.{HasSlot, MustGiveWay, HasGivenWay, HasFewSlots};
    ghost use Rattle.gv_journal.specs.Notes.{NamesWithin, cleared};

    /// No items. It takes no memory.
    pub fn new(alloc: Global) -> ItemStore
        ensures items { result.items ≡ [] }
        ensures notes { result.notes ≡ [] }
    {
        ItemStore {
            items: Vec::new(alloc),
            columns: Columns::new(alloc),
            spent: 0,
        }
    }

    /// The items, the oldest one first.
    pub fn items(&self) -> &[Item]
        ensures { result.now ≡ self.now.items }
    {
        &self.items[self.spent..]
    }

    /// The notes, that of the oldest item first.
    pub fn notes(&self) -> &[Note]
        ensures value { result.now ≡ self.now.notes }
        ensures beside { length self.now.notes ≡ length self.now.items }
    {
        &self.columns.notes()[self.spent..]
    }

    /// The items with what stands beside each.
    pub fn held(&self) -> Part<'_>
        ensures items { result.items.now ≡ self.now.items }
        ensures notes { result.notes.now ≡ self.now.notes }
    {
        let columns = &self.columns;
        Part {
            items: &self.items[self.spent..],
            notes: &columns.notes()[self.spent..],
            firsts: &columns.firsts()[self.spent..],
            pasts: &columns.pasts()[self.spent..],
            regions: &columns.regions()[self.spent..],
        }
    }

    /// Whether a page lies between the least and the greatest that an item covers. The item isn't read. By what the pages are past the
    /// first one, which wraps for a page before it, one comparison tells both: of many items one after another, nobody can foretell
    /// on which side of them a page lies.
    #[inline(always)]
    pub fn spans_page(&self, index: usize, page: u64) -> bool
        requires { index < length self.now.items }
        ensures { (item : Item) → result ≡ item_covers (slice_index_or self.now.items index item) page }
    {
        let at = self.spent + index;
        let first = self.columns.firsts()[at];
        page.wrapping_sub(first) < self.columns.pasts()[at].wrapping_sub(first)
    }

    /// How many items.
    pub fn len(&self) -> usize
        ensures { result ≡ length self.now.items }
    {
        self.items.len() - self.spent
    }

    /// Makes room for one item more, where there is none: what is left of settled items gives way where that is at least half
    /// of what stands here, and else the slots are doubled. `OutOfMemory` comes only where room was missing.
    pub fn make_room(&mut self) -> Result<(), OutOfMemory>
        ensures items { self.new.items ≡ self.old.items }
        ensures notes { self.new.notes ≡ self.old.notes }
        ensures room { OnOk result (HasSlot self.new) }
        ensures needed { OnErr result ((self.old.item_room ≡ 0) ⊎ (self.old.note_room ≡ 0)) }
        ensures enough { HasSlot self.old → self.new ≡ self.old }
        ensures gives_way { MustGiveWay self.old → HasGivenWay self.old self.new }
        ensures few { HasFewSlots self.old self.new }
    {
        let full = self.items.len() == self.items.capacity() || !self.columns.has_room();
        if full && self.items.len() - self.spent <= self.spent {
            self.compact();
        }
        grow(&mut self.items)?;
        self.columns.make_room()?;
        Ok(())
    }

    /// Lets go of what is left of settled items.
    fn compact(&mut self)
        ensures items { self.new.items ≡ self.old.items }
        ensures notes { self.new.notes ≡ self.old.notes }
        ensures given_way { HasGivenWay self.old self.new }
    {
        let held = self.items.len() - self.spent;
        self.items.rotate_left(self.spent);
        drop_spent(&mut self.items, held);
        self.columns.drop_oldest(self.spent);
        self.spent = 0;
    }

    /// Lets go of what is left of settled items, and gives back the room that no held item needs.
    pub fn shrink(&mut self)
        ensures items { self.new.items ≡ self.old.items }
        ensures notes { self.new.notes ≡ self.old.notes }
    {
        self.compact();
        self.items.shrink_to_fit();
        self.columns.shrink();
    }

    /// Adds an item, which nothing withdraws.
    pub fn push(&mut self, item: Item)
        requires { HasSlot self.old }
        ensures items { self.new.items ≡ self.old.items ++ item ∷ [] }
        ensures notes { self.new.notes ≡ self.old.notes ++ None ∷ [] }
    {
        self.columns.push(Reach::of(done_by(&item.kind)));
        self.items.push_reserved(item);
    }

    /// Takes the newest item, and writes that what it names isn't withdrawn. The oldest item has the number `first`.
    pub fn take(&mut self, first: u64) -> Option<Item>
        requires { (rest : List Item) (item : Item) → self.old.items ≡ rest ++ item ∷ []
            → NamesWithin item.kind first (length rest) }
        ensures items { self.old.items ≡ self.new.items ++ option_to_list result }
        ensures notes { MatchOption result ((self.old.items ≡ []) × (self.new ≡ self.old)) (λ item. self.new.notes
            ≡ cleared item.kind first (take (length self.new.items) self.old.notes)) }
    {
        let item = match self.pop() {
            Some(item) => item,
            None => return None,
        };
        if let ItemKind::Withdrawal { of } = item.kind {
            self.mark((of - first) as usize, None);
        }
        Some(item)
    }

    /// Takes the newest item.
    fn pop(&mut self) -> Option<Item>
        ensures items { self.old.items ≡ self.new.items ++ option_to_list result }
        ensures notes { MatchOption result ((self.old.items ≡ []) × (self.new ≡ self.old))
            (λ item. self.new.notes ≡ take (length self.new.items) self.old.notes) }
        ensures beside { length self.new.notes ≡ length self.new.items }
    {
        if self.items.len() == self.spent {
            return None;
        }
        self.columns.truncate(self.items.len() - 1);
        Some(self.items.take_last())
    }

    /// Writes which withdrawal names an item.
    pub fn mark(&mut self, index: usize, withdrawal: Option<u64>)
        requires index { index < length self.old.notes }
        requires number { IfSome withdrawal (λ number. number < 2 ^ 64 - 1) }
        ensures items { self.new.items ≡ self.old.items }
        ensures notes { self.new.notes ≡ set self.old.notes index withdrawal }
        ensures item_room { self.new.item_room ≡ self.old.item_room }
        ensures note_room { self.new.note_room ≡ self.old.note_room }
    {
        self.columns.mark(self.spent + index, withdrawal);
    }

    /// Gives up what the oldest items keep, and lets them go. It takes no memory.
    pub fn settle(&mut self, space: &mut Space, count: usize)
        requires few { count ≤ length self.old.items }
        requires kept { AreAmongKept space.old (kept_by (reverse (take count self.old.items))) }
        ensures items { self.new.items ≡ drop count self.old.items }
        ensures notes { self.new.notes ≡ drop count self.old.notes }
        ensures state { space.new ≡ released space.old (kept_by (reverse (take count self.old.items))) }
        ensures kept { (others : List Mapping)
            → AreKept space.old (kept_by (reverse (take count self.old.items)) ++ others) → AreKept space.new others }
    {
        let end = self.spent + count;
        release_items(space, &mut self.items[self.spent..end]);
        self.spent = end;
    }

    /// Gives up all undo values. It takes no memory.
    pub fn close(self, space: &mut Space)
        requires { AreKept space.old (kept_by (reverse self.items)) }
        ensures state { space.new ≡ released space.old (kept_by (reverse self.items)) }
        ensures kept { AreKept space.new [] }
    {
        let ItemStore {
            items,
            columns: _,
            spent: _,
        } = self;
        let mut items = items;
        while let Some(Item { kind: _, undos }) = items.pop() {
            release_all(space, undos);
        }
        items.destroy_empty();
    }
}

/// Lets go of what is left of settled items behind those held.
fn drop_spent(items: &mut Vec<Item>, held: usize)
    requires held { held ≤ vec_len items.old }
    requires spent { All IsSpent (drop held items.old.items) }
    ensures items { items.new.items ≡ take held items.old.items }
    ensures capacity { vec_capacity items.new ≡ vec_capacity items.old }
{
    while items.len() > held {
        let Item { kind: _, undos } = items.take_last();
        undos.destroy_empty();
    }
}
