//! The list of mappings, and what is left of the mappings that a range meets.
ghost use Rattle.gv_ranges.specs.Examples.{EditOfNothing, EditOfLastPage, HoleLeavesBothRests};
ghost use Rattle.gv_ranges.specs.Examples.{MapOverThree, MapAtSamePages, UnmapOfNothing};
ghost use Rattle.gv_ranges.specs.Examples.{RestsKeepFlags, RestsOfZeros, NeighboursStayApart};
ghost use Rattle.gv_ranges.specs.Examples.{RestoreOfPieces};

use super::fixtures::{Pages, edit, entry, list_of, mapping, packed, spread, to_vec, unmap};
use gv_chunks::Spot;
use gv_ranges::{RangeList, laws, next_rest, prev_rest};
use gv_types::{Packed, PageRange, SPACE_PAGES};
use std::alloc::Global;
use std::test::Fail;

/// What the definitions say of worked examples.
fn examples()
    ensures nothing { EditOfNothing }
    ensures last_page { EditOfLastPage }
    ensures hole { HoleLeavesBothRests }
    ensures three { MapOverThree }
    ensures same_pages { MapAtSamePages }
    ensures unmap_nothing { UnmapOfNothing }
    ensures flags { RestsKeepFlags }
    ensures zeros { RestsOfZeros }
    ensures neighbours { NeighboursStayApart }
    ensures restore { RestoreOfPieces }
{}

#[test]
fn definitions_hold(_rt: HostRuntime) {
    examples();
    laws::edits();
    laws::restores();
    laws::overlaps();
}

/// Four maps, the last of which cuts three others.
const OVER_THREE: [Pages; 4] = [(0, 2, 1, 0), (2, 2, 1, 2), (4, 2, 1, 4), (1, 4, 1, 100)];

/// What is left of them with a hole at page 2.
const WITH_A_HOLE: [Pages; 4] = [(0, 1, 1, 0), (1, 1, 1, 100), (3, 2, 1, 102), (5, 1, 1, 5)];

#[test]
fn edits_leave_rests(rt: HostRuntime) -> Result<(), Fail> {
    let alloc = rt.alloc();
    let mut list = list_of(alloc, &OVER_THREE)?;
    edit(alloc, &mut list, &unmap(2, 1)?)?;
    let wanted = packed(alloc, &WITH_A_HOLE)?;
    assert!(rt; list.iter().eq(&wanted));
    Ok(())
}

/// Whether a list's mappings from these spots on are those of `wanted`, by its index and by the spot, and the first by itself.
fn are_read(list: &RangeList, spots: &[Spot], wanted: &[Packed]) -> bool {
    let len = list.len();
    let count = wanted.len();
    for spot in spots {
        let index = spot.index;
        if index >= len || count > len - index || list.get_at(*spot) != list.get(index) {
            return false;
        }
        if !list.run(index, count).eq(wanted) || !list.run_at(*spot, count).eq(wanted) {
            return false;
        }
    }
    true
}

/// Three maps, in no order.
const UNORDERED: [Pages; 3] = [(5, 2, 1, 4), (0, 2, 1, 0), (2, 1, 1, 9)];

/// The places of runs of their list, and their mappings in order.
const RUNS: [(usize, &[Pages]); 3] = [
    (0, &[(0, 2, 1, 0), (2, 1, 1, 9), (5, 2, 1, 4)]),
    (1, &[(2, 1, 1, 9), (5, 2, 1, 4)]),
    (0, &[(0, 2, 1, 0)]),
];

/// Whether these pages are a list's mappings from an index on, in one block and one by one.
fn is_read(alloc: Global, list: &RangeList, index: usize, pages: &[Pages]) -> Result<bool, Fail> {
    let wanted = packed(alloc, pages)?;
    let is_block = index < list.len() && list.piece(index).starts_with(&wanted);
    Ok(is_block && are_read(list, &[Spot::anywhere(index)], &wanted))
}

#[test]
fn lists_are_read_by_place_and_by_run(rt: HostRuntime) -> Result<(), Fail> {
    let alloc = rt.alloc();
    let list = list_of(alloc, &UNORDERED)?;
    assert_eq!(rt; (list.len(), list.iter().len()), (3, 3));
    for (index, pages) in &RUNS {
        assert!(rt; is_read(alloc, &list, *index, pages)?);
    }
    Ok(())
}

#[test]
fn rests_of_one_mapping(rt: HostRuntime) -> Result<(), Fail> {
    let whole = [Packed::new(&mapping(0, 4, 1, 7)?)];
    let before = Packed::new(&mapping(0, 1, 1, 7)?);
    let behind = Packed::new(&mapping(3, 1, 1, 10)?);
    assert_eq!(rt; prev_rest(&whole, 1), Some(before));
    assert_eq!(rt; next_rest(&whole, 3), Some(behind));
    Ok(())
}

#[test]
fn a_thousand_mappings(rt: HostRuntime) -> Result<(), Fail> {
    let list = spread(rt.alloc(), 1000, 2)?;
    assert_eq!(rt; list.len(), 1000);
    for k in 0..1000u32 {
        let page = u64::from(k) * 2;
        let is_right = list.at(page) == Some(entry(k)) && list.at(page + 1).is_none();
        assert!(rt; is_right, "at {page}");
    }
    Ok(())
}

/// Whether the list of every second page, which has all these mappings, answers the same about three pages from twice `k` on, wherever
/// it looks first.
fn is_found_alike(list: &RangeList, all: &[Packed], k: u32) -> bool {
    let page = u64::from(k) * 2;
    let index = k as usize;
    let count = if k < 999 { 2 } else { 1 };
    let (Some(range), Some(wanted)) = (PageRange::new(page, 3), all.get(index..index + count))
    else {
        return false;
    };
    let overlap = list.overlap(range);
    let spots = [
        overlap.spot,
        Spot::anywhere(index),
        Spot {
            index,
            hint: index * 613 % 13,
        },
        Spot {
            index,
            hint: list.hint(page),
        },
    ];
    list.overlapping(range) == (index, count)
        && (overlap.spot.index, overlap.count) == (index, count)
        && are_read(list, &spots, wanted)
}

const NEAR: [u64; 7] = [0, 1, 700, 1_998, SPACE_PAGES - 1, SPACE_PAGES, u64::MAX];

#[test]
fn a_list_answers_the_same_wherever_it_looks_first(rt: HostRuntime) -> Result<(), Fail> {
    let alloc = rt.alloc();
    let list = spread(alloc, 1000, 2)?;
    let all = to_vec(alloc, &list)?;
    for k in 0..1000u32 {
        assert!(rt; is_found_alike(&list, &all, k), "at {k}");
    }
    for page in &NEAR {
        let hint = list.hint(*page);
        let whole = [Spot { index: 0, hint }];
        assert!(rt; are_read(&list, &whole, &all), "looked at {page}");
    }
    Ok(())
}
