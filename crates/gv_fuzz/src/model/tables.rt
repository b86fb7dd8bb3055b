//! How many tables the page table of a list has.
use gv_types::Mapping;

/// Slots of levels 4 and 3 are tables wherever a mapping meets them: so many times two pages, by level.
const WIDE: [u32; 2] = [36, 27];

/// Slots of levels 2 and 1 are leaves where one mapping covers them.
const LARGE: [u32; 2] = [18, 9];

/// The numbers of tables at the levels 4, 3, 2, 1 and 0.
pub fn tables(list: &[Mapping]) -> [u64; 5] {
    [
        u64::from(!list.is_empty()),
        slots_met(list, WIDE[0]),
        slots_met(list, WIDE[1]),
        slots_broken(list, LARGE[0]),
        slots_broken(list, LARGE[1]),
    ]
}

/// How many slots of `2^bits` pages have a page of some mapping.
fn slots_met(list: &[Mapping], bits: u32) -> u64 {
    let mut count: u64 = 0;
    let mut counted: u64 = 0;
    for mapping in list {
        let first = slot_of(mapping.range.first(), bits).max(counted);
        let end = slot_of(mapping.range.end().saturating_sub(1), bits).saturating_add(1);
        count = count.saturating_add(end.saturating_sub(first));
        counted = counted.max(end);
    }
    count
}

/// How many slots of `2^bits` pages have a page of some mapping, and none that covers them: each has an end of one.
fn slots_broken(list: &[Mapping], bits: u32) -> u64 {
    let mut count: u64 = 0;
    let mut counted: u64 = 0;
    for mapping in list {
        let first = slot_of(mapping.range.first(), bits);
        let last = slot_of(mapping.range.end().saturating_sub(1), bits);
        count = count.saturating_add(u64::from(is_new(list, first, bits, &mut counted)));
        count = count.saturating_add(u64::from(is_new(list, last, bits, &mut counted)));
    }
    count
}

/// Whether a slot that some mapping meets is broken, and not counted yet: it is from then on, with those below it.
fn is_new(list: &[Mapping], slot: u64, bits: u32, counted: &mut u64) -> bool {
    let is_new = *counted <= slot && !is_covered(list, slot, bits);
    if is_new {
        *counted = slot.saturating_add(1);
    }
    is_new
}

fn slot_of(page: u64, bits: u32) -> u64 {
    page.checked_shr(bits).unwrap_or(0)
}

fn is_covered(list: &[Mapping], slot: u64, bits: u32) -> bool {
    let pages = 1u64.checked_shl(bits).unwrap_or(0);
    let first = slot.saturating_mul(pages);
    let end = first.saturating_add(pages);
    list.iter().any(|mapping| mapping.range.first() <= first && end <= mapping.range.end())
}
