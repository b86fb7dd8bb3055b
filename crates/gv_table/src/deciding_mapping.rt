//! The mapping of a list that decides what a slot holds.
ghost use Rattle.std.specs.Prelude.{◌≡◌, ◌≤◌, ◌<◌, ◌+◌, IsTrue, MatchOption, None, Some, length};
ghost use Rattle.gv_types.specs.Page.{PAGES};
ghost use Rattle.gv_types.specs.PageRange.{meets, end_of};
ghost use Rattle.gv_ranges.specs.List.{IsLaidOut, AreEnded, IsIndexOfPage};
ghost use Rattle.gv_table.specs.Levels.{top_level, slot_pages, first_within};
ghost use Rattle.gv_table.specs.Reads.{IsReadBy, EndsBefore, IsNeighbour};

use crate::levels::pages_of;
use crate::slot_position::{Excerpt, SlotPosition};
use crate::unnamed_list::UnnamedList;
use gv_types::Mapping;

/// The position of the first mapping that ends past the page, given a position that is not behind it. It looks at the mappings
/// from there on, one after another.
pub fn advance(mappings: &UnnamedList<'_>, position: usize, page: u64) -> usize
    requires laid_out { IsLaidOut mappings.now }
    requires ended { AreEnded mappings.now page position }
    ensures { IsIndexOfPage mappings.now page result }
{
    let mut position = position;
    while position < mappings.len() && mappings.get(position).range.end() <= page {
        position += 1;
    }
    position
}

/// The mapping before the position, where it reaches into a slot that begins before the range.
#[inline(always)]
fn neighbour(excerpt: &Excerpt<'_, '_>, first: u64) -> Option<Mapping>
    requires { excerpt.now.position ≤ length excerpt.now.mappings.now }
    ensures { MatchOption result (EndsBefore excerpt.now.mappings.now excerpt.now.range excerpt.now.position first)
        (λ m. IsNeighbour excerpt.now.mappings.now excerpt.now.range excerpt.now.position first m) }
{
    if excerpt.position == 0 || excerpt.range.first() <= first {
        return None;
    }
    let m = excerpt.mappings.get(excerpt.position - 1);
    if m.range.end() <= first {
        return None;
    }
    Some(m)
}

/// A mapping that meets the pages of a slot which meets the range, if one does: it decides what the list says of them.
/// The position is that of the first mapping which ends past the slot's first page in the range.
#[inline(always)]
pub fn met_by(excerpt: &Excerpt<'_, '_>, slot_at: SlotPosition) -> Option<Mapping>
    requires known { slot_at.level ≤ top_level }
    requires in_space { end_of (slot_pages slot_at.level slot_at.first) ≤ PAGES }
    requires laid_out { IsLaidOut excerpt.now.mappings.now }
    requires position { IsIndexOfPage excerpt.now.mappings.now (first_within excerpt.now.range slot_at.first)
        excerpt.now.position }
    requires met { IsTrue (meets (slot_pages slot_at.level slot_at.first) excerpt.now.range) }
    ensures { MatchOption result (IsReadBy excerpt.now.mappings.now (slot_pages slot_at.level slot_at.first) None)
        (λ m. IsReadBy excerpt.now.mappings.now (slot_pages slot_at.level slot_at.first) (Some m)) }
{
    if let Some(m) = neighbour(excerpt, slot_at.first) {
        return Some(m);
    }
    if excerpt.position == excerpt.mappings.len() {
        return None;
    }
    let m = excerpt.mappings.get(excerpt.position);
    if slot_at.first + pages_of(slot_at.level) <= m.range.first() {
        return None;
    }
    Some(m)
}
