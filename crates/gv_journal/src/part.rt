//! A slice of a journal's items, with what the columns have beside them.
ghost use Rattle.std.specs.Prelude.{◌≡◌, ◌-◌, ◌<◌, ◌≤◌, length, take, drop, slice_index_or};
ghost use Rattle.gv_types.specs.Page.{PAGES};
ghost use Rattle.gv_journal.specs.Items.{done_by};
ghost use Rattle.gv_journal.specs.Columns.{AreInSpace};
ghost use Rattle.gv_journal.specs.Reach.{AreReaches, IsReachOf};

use crate::item::Item;
use crate::note::Note;
use crate::reach::Reach;

/// Items that a journal holds, the oldest one first, with what stands beside each: which withdrawal names it, its least page, the
/// page past its greatest, and the bits of its regions.
#[derive(Drop)]
pub struct Part<'a> {
    pub items: &'a [Item],
    pub notes: &'a [Note],
    pub firsts: &'a [u64],
    pub pasts: &'a [u64],
    pub regions: &'a [u128],
    ghost beside: { length notes.now ≡ length items.now },
    ghost reaches: { AreReaches firsts.now pasts.now regions.now items.now },
    ghost in_space: { AreInSpace pasts.now },
}

impl<'a> Part<'a> {
    /// The items from one index up to another. Inlined, so that the number of the items of a block is known.
    #[inline(always)]
    pub fn between(&self, start: usize, end: usize) -> Part<'a>
        requires ordered { start ≤ end }
        requires within { end ≤ length self.now.items.now }
        ensures items { result.items.now ≡ take (end - start) (drop start self.now.items.now) }
        ensures notes { result.notes.now ≡ take (end - start) (drop start self.now.notes.now) }
    {
        Part {
            items: &self.items[start..end],
            notes: &self.notes[start..end],
            firsts: &self.firsts[start..end],
            pasts: &self.pasts[start..end],
            regions: &self.regions[start..end],
        }
    }

    /// What an item reaches.
    pub fn reach(&self, index: usize) -> Reach
        requires { index < length self.now.items.now }
        ensures reach { (item : Item) → IsReachOf result (done_by (slice_index_or self.now.items.now index item).kind) }
        ensures in_space { result.past ≤ PAGES }
    {
        Reach {
            first: self.firsts[index],
            past: self.pasts[index],
            regions: self.regions[index],
        }
    }
}
