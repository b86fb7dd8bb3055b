//! What is left of mappings in order on both sides of a range that each of them meets.
ghost use Rattle.std.specs.Prelude.{◌≡◌, ◌<◌, ◌≤◌};
ghost use Rattle.std.specs.List.{All};
ghost use Rattle.std.specs.Option.{option_to_list};
ghost use Rattle.gv_types.specs.Page.{PAGES};
ghost use Rattle.gv_types.specs.PageRange.{end_of};
ghost use Rattle.gv_ranges.specs.List.{IsLaidOut};
ghost use Rattle.gv_ranges.specs.Edit.{clipped};

use gv_types::{Packed, SPACE_PAGES};

/// What of the mappings lies below `page`, where each of them ends past the page: at most the rest of the first.
#[inline(always)]
pub fn prev_rest(mappings: &[Packed], page: u64) -> Option<Packed>
    requires laid_out { IsLaidOut mappings.now }
    requires past { All (λ m. page < end_of m.range) mappings.now }
    ensures { option_to_list result ≡ clipped 0 page mappings.now }
{
    if mappings.is_empty() {
        return None;
    }
    mappings[0].clip(0, page)
}

/// What of the mappings lies at `page` or behind it, where each of them begins before the page: at most the rest of the last.
#[inline(always)]
pub fn next_rest(mappings: &[Packed], page: u64) -> Option<Packed>
    requires laid_out { IsLaidOut mappings.now }
    requires before { All (λ m. m.range.first < page) mappings.now }
    ensures { option_to_list result ≡ clipped page PAGES mappings.now }
{
    if mappings.is_empty() {
        return None;
    }
    mappings[mappings.len() - 1].clip(page, SPACE_PAGES)
}
