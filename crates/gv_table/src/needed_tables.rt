//! How many tables a paint may need.
ghost use Rattle.std.specs.Prelude.{◌≡◌, ◌+◌, ◌-◌, ◌*◌, ◌≤◌, ◌<◌, ℕ, false, IsTrue, List};
ghost use Rattle.gv_types.specs.Page.{PAGES};
ghost use Rattle.gv_types.specs.PageRange.{span, meets, end_of, PageRangeState};
ghost use Rattle.gv_types.specs.declared.mapping.Mapping.{Mapping};
ghost use Rattle.gv_ranges.specs.List.{IsLaidOut, IsIndexOfPage, AreEnded};
ghost use Rattle.gv_table.specs.declared.slot.Slot.TheVariants.{Empty};
ghost use Rattle.gv_table.specs.Kinds.{Kind, of, one_of, unless};
ghost use Rattle.gv_table.specs.Levels.{top_level, root_level, slots_per_table, pages_of, slot_pages, first_within};
ghost use Rattle.gv_table.specs.Sums.{sum_below};
ghost use Rattle.gv_table.specs.Tree.{is_table, child};
ghost use Rattle.gv_table.specs.Counts.{needed, may_divide, HasSameTables};

use crate::alike::alike_from;
use crate::deciding_mapping::advance;
use crate::kind_counts::KindCounts;
use crate::levels::{TOP_LEVEL, pages_of, part_around, slots_met};
use crate::slot::Slot;
use crate::slot_position::{Excerpt, SlotPosition};
use crate::unnamed_list::UnnamedList;
use crate::wanted::{Wanted, slot_wanted};
use gv_types::PageRange;

/// A slot of the slot's table, or an empty one: no page is a table.
fn child_of<'a>(slot: &'a Slot, index: usize, empty: &'a Slot) -> &'a Slot
    requires within { index < slots_per_table }
    requires empty { empty.now ≡ Empty }
    ensures { HasSameTables (child slot.now index) result.now }
{
    match slot {
        Slot::Table(slots) => &slots[index],
        Slot::Pages(_) => empty,
        Slot::Empty | Slot::Zero { .. } | Slot::Buffer { .. } => empty,
    }
}

/// The table that a slot at a level has to be made, unless it is one.
fn missing(slot: &Slot, level: usize) -> KindCounts
    requires { 0 < level }
    ensures { (kind : Kind) → of kind result ≡ unless (is_table slot.now) (one_of kind (level - 1)) }
{
    let one = u64::from(!slot.is_table());
    if level == 1 {
        KindCounts {
            pages: one,
            slots: 0,
        }
    } else {
        KindCounts {
            pages: 0,
            slots: one,
        }
    }
}

/// Whether a slot needs no table, whatever the pieces are: it is a page, or its one table stands.
fn needs_none(slot: &Slot, level: usize) -> bool
    ensures none { IsTrue result → (kind : Kind) (pieces : List Mapping) (range : PageRangeState) (first : ℕ) → needed kind pieces range level first slot.now ≡ 0 }
    ensures some { result ≡ false → 0 < level }
{
    match slot {
        Slot::Pages(_) | Slot::Table(_) => level <= 1,
        Slot::Empty | Slot::Zero { .. } | Slot::Buffer { .. } => level == 0,
    }
}

/// Whether a slot may have to be a table, where a list will have the pieces in the range.
fn may_be_table(excerpt: &Excerpt<'_, '_>, slot_at: SlotPosition) -> bool
    requires known { slot_at.level ≤ top_level }
    requires in_space { end_of (slot_pages slot_at.level slot_at.first) ≤ PAGES }
    requires laid_out { IsLaidOut excerpt.now.mappings.now }
    requires position { IsIndexOfPage excerpt.now.mappings.now (first_within excerpt.now.range slot_at.first)
        excerpt.now.position }
    ensures { result ≡ may_divide excerpt.now.mappings.now excerpt.now.range slot_at.level slot_at.first }
{
    let Some(pages) = PageRange::new(slot_at.first, pages_of(slot_at.level)) else {
        return false;
    };
    if !pages.meets(excerpt.range) {
        return false;
    }
    if !pages.lies_in(excerpt.range) {
        return true;
    }
    match slot_wanted(excerpt, slot_at) {
        Wanted::Table => true,
        Wanted::Nothing | Wanted::Entry(_) => false,
    }
}

/// How many slots from a slot on lie in the range and need no table: one piece holds them whole, or no piece meets them.
#[inline(always)]
fn undivided_from(excerpt: &Excerpt<'_, '_>, slot_at: SlotPosition) -> u64
    requires known { slot_at.level ≤ top_level }
    requires laid_out { IsLaidOut excerpt.now.mappings.now }
    requires position { IsIndexOfPage excerpt.now.mappings.now (first_within excerpt.now.range slot_at.first)
        excerpt.now.position }
    ensures { (k : ℕ) → k < result → may_divide excerpt.now.mappings.now excerpt.now.range slot_at.level
        (slot_at.first + k * pages_of slot_at.level) ≡ false }
{
    alike_from(excerpt, slot_at).count
}

/// How many positions of a slot may need a table where it has none.
#[cycle(needed_tables)]
#[inline(always)]
fn needed_in(slot: &Slot, slot_at: SlotPosition, excerpt: &Excerpt<'_, '_>) -> KindCounts
    requires known { slot_at.level ≤ top_level }
    requires in_space { end_of (slot_pages slot_at.level slot_at.first) ≤ PAGES }
    requires laid_out { IsLaidOut excerpt.now.mappings.now }
    requires position { IsIndexOfPage excerpt.now.mappings.now (first_within excerpt.now.range slot_at.first)
        excerpt.now.position }
    ensures count { (kind : Kind) → of kind result
        ≡ needed kind excerpt.now.mappings.now excerpt.now.range slot_at.level slot_at.first slot.now }
    ensures bound { (kind : Kind) → of kind result + 1 ≤ pages_of slot_at.level }
{
    let SlotPosition { level, first } = slot_at;
    if needs_none(slot, level) || !may_be_table(excerpt, slot_at) {
        return KindCounts::NONE;
    }
    let one = missing(slot, level);
    if level == 1 {
        return one;
    }
    let slot_at = SlotPosition {
        level: level - 1,
        first,
    };
    one.with(needed_below(slot, slot_at, excerpt))
}

/// The same for the slots of its table, which are at the level.
#[cycle(needed_tables)]
fn needed_below(slot: &Slot, slot_at: SlotPosition, excerpt: &Excerpt<'_, '_>) -> KindCounts
    requires known { slot_at.level ≤ root_level }
    requires in_space { slot_at.first + slots_per_table * pages_of slot_at.level ≤ PAGES }
    requires laid_out { IsLaidOut excerpt.now.mappings.now }
    requires position { AreEnded excerpt.now.mappings.now (first_within excerpt.now.range slot_at.first)
        excerpt.now.position }
    requires met { IsTrue (meets (span slot_at.first (slots_per_table * pages_of slot_at.level)) excerpt.now.range) }
    ensures count { (kind : Kind) → of kind result ≡ sum_below slots_per_table
        (λ k. needed kind excerpt.now.mappings.now excerpt.now.range slot_at.level
        (slot_at.first + k * pages_of slot_at.level) (child slot.now k)) }
    ensures bound { (kind : Kind) → of kind result + slots_per_table ≤ slots_per_table * pages_of slot_at.level }
{
    let SlotPosition { level, first } = slot_at;
    let Excerpt {
        mappings: pieces,
        range,
        mut position,
    } = *excerpt;
    let pages = pages_of(level);
    let empty = Slot::Empty;
    let mut total = KindCounts::NONE;
    let (low, high) = slots_met(level, first, range);
    let mut index = low;
    while index < high {
        let start = first + index as u64 * pages;
        position = advance(pieces, position, start.max(range.first()));
        let slot_at = SlotPosition {
            level,
            first: start,
        };
        let excerpt = Excerpt {
            mappings: pieces,
            range,
            position,
        };
        let undivided = undivided_from(&excerpt, slot_at).min((high - index) as u64);
        if undivided == 0 {
            let part = child_of(slot, index, &empty);
            total = total.with(needed_in(part, slot_at, &excerpt));
            index += 1;
        } else {
            index += undivided as usize;
        }
    }
    total
}

/// How many positions of the tree may need a table where it has none. As long as the range lies in one part of a slot, only that
/// part is looked at: the slot has to be a table whatever the pieces are.
pub fn needed_in_tree(root: &Slot, pieces: &UnnamedList<'_>, range: PageRange) -> KindCounts
    requires { IsLaidOut pieces.now }
    ensures { (kind : Kind) → of kind result ≡ needed kind pieces.now range top_level 0 root.now }
{
    let empty = Slot::Empty;
    let page = range.first();
    let mut slot = root;
    let mut level = TOP_LEVEL;
    let mut first = 0;
    let mut count = KindCounts::NONE;
    while let Some(index) = part_around(level, first, range) {
        count = count.with(missing(slot, level));
        slot = child_of(slot, index, &empty);
        level -= 1;
        first += index as u64 * pages_of(level);
    }
    // So it mostly ends: no piece is read.
    if needs_none(slot, level) {
        return count;
    }
    let excerpt = Excerpt {
        mappings: pieces,
        range,
        position: advance(pieces, 0, page),
    };
    count.with(needed_in(slot, SlotPosition { level, first }, &excerpt))
}
