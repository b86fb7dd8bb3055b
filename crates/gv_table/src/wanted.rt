//! What a slot is to hold.
ghost use Rattle.std.specs.Prelude.{◌≡◌, ◌≤◌, IsTrue};
ghost use Rattle.gv_types.specs.Page.{PAGES};
ghost use Rattle.gv_types.specs.PageRange.{meets, end_of};
ghost use Rattle.gv_ranges.specs.List.{IsLaidOut, IsIndexOfPage};
ghost use Rattle.gv_table.specs.Levels.{top_level, slot_pages, first_within};
ghost use Rattle.gv_table.specs.Wanted.{wanted};

use crate::deciding_mapping::met_by;
use crate::levels::{GREATEST_LEAF_LEVEL, pages_of};
use crate::slot_position::{Excerpt, SlotPosition};
use gv_types::Entry;

/// What a slot is to hold.
pub enum Wanted {
    Nothing,
    Entry(Entry),
    Table,
}

/// What the list wants of a slot that meets the range. The position is that of the first mapping which ends past the slot's
/// first page in the range.
#[inline(always)]
pub fn slot_wanted(excerpt: &Excerpt<'_, '_>, slot_at: SlotPosition) -> Wanted
    requires known { slot_at.level ≤ top_level }
    requires in_space { end_of (slot_pages slot_at.level slot_at.first) ≤ PAGES }
    requires laid_out { IsLaidOut excerpt.now.mappings.now }
    requires position { IsIndexOfPage excerpt.now.mappings.now (first_within excerpt.now.range slot_at.first)
        excerpt.now.position }
    requires met { IsTrue (meets (slot_pages slot_at.level slot_at.first) excerpt.now.range) }
    ensures { result ≡ wanted excerpt.now.mappings.now slot_at.level slot_at.first }
{
    let Some(m) = met_by(excerpt, slot_at) else {
        return Wanted::Nothing;
    };
    let SlotPosition { level, first } = slot_at;
    let end = first + pages_of(level);
    if level <= GREATEST_LEAF_LEVEL && m.range.first() <= first && end <= m.range.end() {
        Wanted::Entry(m.part(first))
    } else {
        Wanted::Table
    }
}
