//! How many slots of a row, from one on, one mapping fills as leaves, or none meets.
ghost use Rattle.std.specs.Prelude.{◌≡◌, ◌≤◌, ◌<◌, ◌+◌, ◌*◌, ℕ, false, IsTrue, IfSome, MatchOption};
ghost use Rattle.gv_types.specs.Page.{PAGES};
ghost use Rattle.gv_types.specs.PageRange.{covers, lies_in};
ghost use Rattle.gv_types.specs.Mapping.{part, IsMapping};
ghost use Rattle.gv_ranges.specs.List.{IsLaidOut, IsIndexOfPage};
ghost use Rattle.gv_table.specs.Levels.{top_level, pages_of, slot_pages, first_within};
ghost use Rattle.gv_table.specs.Wanted.{wanted, is_divided};

use crate::levels::{GREATEST_LEAF_LEVEL, slots_in};
use crate::slot_position::{Excerpt, SlotPosition};
use crate::wanted::Wanted;
use gv_types::Mapping;

/// So many slots, each of which one mapping holds whole, or else no mapping meets.
#[derive(Clone, Copy)]
pub struct Alike {
    pub count: u64,
    pub held: Option<Mapping>,
}

/// The slots from a slot on that lie whole in the range and are alike: none where the slot is before the range. The position is
/// that of the first mapping which ends past the slot's first page in the range.
#[inline(always)]
pub fn alike_from(excerpt: &Excerpt<'_, '_>, slot_at: SlotPosition) -> Alike
    requires known { slot_at.level ≤ top_level }
    requires laid_out { IsLaidOut excerpt.now.mappings.now }
    requires position { IsIndexOfPage excerpt.now.mappings.now (first_within excerpt.now.range slot_at.first)
        excerpt.now.position }
    ensures wanted { (k : ℕ) → k < result.count → MatchOption result.held
        (wanted excerpt.now.mappings.now slot_at.level (slot_at.first + k * pages_of slot_at.level) ≡ Wanted.Nothing)
        (λ m. wanted excerpt.now.mappings.now slot_at.level (slot_at.first + k * pages_of slot_at.level)
        ≡ Wanted.Entry (part m (slot_at.first + k * pages_of slot_at.level))) }
    ensures mapping { IfSome result.held (λ m. IsMapping m) }
    ensures covered { (k : ℕ) → k < result.count
        → IfSome result.held (λ m. IsTrue (covers m.range (slot_at.first + k * pages_of slot_at.level))) }
    ensures within { (k : ℕ) → k < result.count
        → IsTrue (lies_in (slot_pages slot_at.level (slot_at.first + k * pages_of slot_at.level)) excerpt.now.range) }
    ensures few { result.count ≤ PAGES }
    ensures some { IsTrue (lies_in (slot_pages slot_at.level slot_at.first) excerpt.now.range)
        → is_divided (wanted excerpt.now.mappings.now slot_at.level slot_at.first) ≡ false → 0 < result.count }
{
    let SlotPosition { level, first } = slot_at;
    let mut end = excerpt.range.end();
    let mut held = None;
    if first < excerpt.range.first() {
        end = first;
    } else if excerpt.position < excerpt.mappings.len() {
        let m = excerpt.mappings.get(excerpt.position);
        if first < m.range.first() {
            end = end.min(m.range.first());
        } else if level <= GREATEST_LEAF_LEVEL {
            end = end.min(m.range.end());
            held = Some(m);
        } else {
            end = first;
        }
    }
    let count = slots_in(level, end.saturating_sub(first));
    Alike { count, held }
}
