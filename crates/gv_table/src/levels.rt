//! The levels of the tree: how many pages a slot covers, and which slots a range meets.
ghost use Rattle.std.specs.Prelude.{◌≡◌, ◌+◌, ◌*◌, ◌-◌, ◌/◌, ◌<◌, ◌≤◌, ℕ, IsTrue, IfSome};
ghost use Rattle.gv_types.specs.Page.{PAGES};
ghost use Rattle.gv_types.specs.PageRange.{span, end_of, meets};
ghost use Rattle.gv_table.specs.Levels.{top_level, root_level, slots_per_table};
ghost use Rattle.gv_table.specs.Levels.{pages_of, slot_pages, IsInPart};

use gv_types::PageRange;

/// How many slots a table has.
pub const SLOTS: usize = 512;

/// The level of the slots of the root.
pub const ROOT_LEVEL: usize = 4;

/// The level of the slot that the root fills.
pub const TOP_LEVEL: usize = ROOT_LEVEL + 1;

/// The greatest level whose slots may be leaves.
pub const GREATEST_LEAF_LEVEL: usize = 2;

/// How many pages a slot at a level covers.
pub fn pages_of(level: usize) -> u64
    requires { level ≤ top_level }
    ensures pages { result ≡ pages_of level }
    ensures some { 0 < result }
    ensures bound { result ≤ PAGES }
{
    match level {
        0 => 1,
        1 => 512,
        2 => 262_144,
        3 => 134_217_728,
        4 => 68_719_476_736,
        _ => 35_184_372_088_832,
    }
}

/// How many whole slots at a level lie in so many pages.
pub fn slots_in(level: usize, pages: u64) -> u64
    requires { level ≤ top_level }
    ensures { result ≡ pages / pages_of level }
{
    match level {
        0 => pages,
        1 => pages / 512,
        2 => pages / 262_144,
        3 => pages / 134_217_728,
        4 => pages / 68_719_476_736,
        _ => pages / 35_184_372_088_832,
    }
}

/// Which slots of a table meet the range, where some does: from the first up to, and without, the
/// second. The table's slots are at the level, and begin at the page `first`.
pub fn slots_met(level: usize, first: u64, range: PageRange) -> (usize, usize)
    requires known { level ≤ root_level }
    requires in_space { first + slots_per_table * pages_of level ≤ PAGES }
    requires met { IsTrue (meets (span first (slots_per_table * pages_of level)) range) }
    ensures ordered { result.0 ≤ result.1 }
    ensures within { result.1 ≤ slots_per_table }
    ensures before { (k : ℕ) → k < result.0
        → end_of (slot_pages level (first + k * pages_of level)) ≤ range.first }
    ensures met { (k : ℕ) → result.0 ≤ k → k < result.1
        → IsTrue (meets (slot_pages level (first + k * pages_of level)) range) }
    ensures beyond { (k : ℕ) → result.1 ≤ k → k < slots_per_table
        → end_of range ≤ first + k * pages_of level }
{
    let low = slots_in(level, range.first().saturating_sub(first));
    let high = slots_in(level, range.end() - first - 1) + 1;
    (low as usize, high.min(SLOTS as u64) as usize)
}

/// Which part of a slot the whole range lies in, if one above level 0 does. The slot meets the range.
#[inline(always)]
pub fn part_around(level: usize, first: u64, range: PageRange) -> Option<usize>
    requires known { level ≤ top_level }
    requires in_space { end_of (slot_pages level first) ≤ PAGES }
    requires met { IsTrue (meets (slot_pages level first) range) }
    ensures part { IfSome result (λ index. IsInPart range level first index) }
    ensures met { IfSome result (λ index.
        IsTrue (meets (slot_pages (level - 1) (first + index * pages_of (level - 1))) range)) }
{
    if level <= 1 || range.first() < first {
        return None;
    }
    let pages = pages_of(level - 1);
    let index = slots_in(level - 1, range.first() - first);
    if first + index * pages + pages < range.end() {
        return None;
    }
    Some(index as usize)
}
