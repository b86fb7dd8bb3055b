//! The steps of an operation.
ghost use Rattle.gv_types.specs.Operation.{IsChecked};
ghost use Rattle.gv_split.specs.Examples.{HoleKeepsBothRests, MapUnmapsTheMiddle, SameMapIsKept};
ghost use Rattle.gv_split.specs.Examples.{PartOfMapIsKept, ZerosAreNotKept};
ghost use Rattle.gv_split.specs.Examples.{UnmapOfBuffer, HoleCarriedOut, MapOverThreeCarriedOut};
ghost use Rattle.gv_split.specs.Examples.{SameMapCarriedOut, UnmapOfBufferCarriedOut, NothingToUnmap};
ghost use Rattle.gv_split.specs.Examples.{MapFindsPagesFree};

use super::fixtures::{Pages, list_of, map, mapping, unmap};
use gv_split::{Step, plan};
use gv_types::{BufferId, Flags, Mapping, PageOp};
use std::alloc::Global;
use std::test::Fail;

/// What the definitions say of worked examples.
fn examples()
    ensures hole { HoleKeepsBothRests }
    ensures three { MapUnmapsTheMiddle }
    ensures kept { SameMapIsKept }
    ensures part_kept { PartOfMapIsKept }
    ensures zeros { ZerosAreNotKept }
    ensures buffer { UnmapOfBuffer }
    ensures hole_carried_out { HoleCarriedOut }
    ensures three_carried_out { MapOverThreeCarriedOut }
    ensures same_carried_out { SameMapCarriedOut }
    ensures buffer_carried_out { UnmapOfBufferCarriedOut }
    ensures nothing { NothingToUnmap }
    ensures free { MapFindsPagesFree }
{}

/// What a step is.
#[derive(Clone, Copy)]
enum Kind {
    Unmap,
    Remap,
    Map,
}

/// A step; whether its pages are kept, or of a map whether it is read-only; its mapping, and the rests before and behind.
type Row = (Kind, bool, Pages, Pages, Pages);

/// Stands for no rest.
const NO_REST: Pages = (0, 0, 0, 0);

/// The mapping of these pages, if there are any.
fn mapping_of(pages: Pages) -> Result<Mapping, &'static str> {
    let (first, count, index, page) = pages;
    mapping(first, count, index, page)
}

fn step_of(row: &Row) -> Result<Step, &'static str> {
    let (kind, flag, whole, prev, next) = *row;
    let mapping = mapping_of(whole)?;
    Ok(match kind {
        Kind::Unmap => Step::Unmap {
            mapping,
            keep: flag,
        },
        Kind::Remap => Step::Remap {
            mapping,
            prev: mapping_of(prev).ok(),
            next: mapping_of(next).ok(),
            keep: flag,
        },
        Kind::Map => Step::Map {
            mapping: Mapping {
                flags: Flags { read_only: flag },
                ..mapping
            },
        },
    })
}

/// Fails where an operation has other steps on the list of these pages.
fn expect(alloc: Global, pages: &[Pages], op: &PageOp, rows: &[Row]) -> Result<(), Fail>
    requires { IsChecked op.now }
{
    let list = list_of(alloc, pages)?;
    let steps = plan(alloc, &list, op)?;
    compare(&steps, rows)
}

/// Fails where steps are others than these.
fn compare(steps: &[Step], rows: &[Row]) -> Result<(), Fail> {
    if steps.len() != rows.len() {
        return Err("another number of steps".into());
    }
    for (step, row) in steps.iter().zip(rows) {
        let wanted = step_of(row)?;
        if *step != wanted {
            return Err(Fail::new(format_args!("{step:?}")));
        }
    }
    Ok(())
}

#[test]
fn definitions_hold(_rt: HostRuntime) {
    examples();
}

/// Four pages of a buffer.
const FOUR: &[Pages] = &[(0, 4, 1, 0)];

const HOLE: &[Row] = &[(Kind::Remap, false, (0, 4, 1, 0), (0, 1, 1, 0), (2, 2, 1, 2))];

#[test]
fn hole_leaves_both_rests(rt: HostRuntime) -> Result<(), Fail> {
    expect(rt.alloc(), FOUR, &unmap(1, 1)?, HOLE)
}

const THREE: &[Pages] = &[(0, 2, 1, 0), (2, 2, 1, 2), (4, 2, 1, 4)];

const OVER_THREE: &[Row] = &[
    (Kind::Remap, false, (0, 2, 1, 0), (0, 1, 1, 0), NO_REST),
    (Kind::Unmap, false, (2, 2, 1, 2), NO_REST, NO_REST),
    (Kind::Remap, false, (4, 2, 1, 4), NO_REST, (5, 1, 1, 5)),
    (Kind::Map, false, (1, 4, 2, 0), NO_REST, NO_REST),
];

#[test]
fn map_over_three(rt: HostRuntime) -> Result<(), Fail> {
    expect(rt.alloc(), THREE, &map(1, 4, 2, 0)?, OVER_THREE)
}

const SAME: &[Row] = &[
    (Kind::Unmap, true, (0, 4, 1, 0), NO_REST, NO_REST),
    (Kind::Map, false, (0, 4, 1, 0), NO_REST, NO_REST),
];

const READ_ONLY: &[Row] = &[
    (Kind::Unmap, false, (0, 4, 1, 0), NO_REST, NO_REST),
    (Kind::Map, true, (0, 4, 1, 0), NO_REST, NO_REST),
];

/// Whether the map is read-only, and its steps.
const AGAIN: [(bool, &[Row]); 2] = [(false, SAME), (true, READ_ONLY)];

#[test]
fn same_map_is_kept(rt: HostRuntime) -> Result<(), Fail> {
    let whole = mapping(0, 4, 1, 0)?;
    for (read_only, rows) in &AGAIN {
        let op = PageOp::Map {
            range: whole.range,
            backing: whole.backing,
            flags: Flags {
                read_only: *read_only,
            },
        };
        expect(rt.alloc(), FOUR, &op, rows)?;
    }
    Ok(())
}

const OF_TWO: &[Pages] = &[(0, 2, 1, 0), (2, 2, 2, 2), (4, 2, 1, 9)];

/// A buffer's index and generation, and the steps of its unmap.
const OF_BUFFERS: &[(u32, u64, &[Row])] = &[
    (
        1,
        1,
        &[
            (Kind::Unmap, false, (0, 2, 1, 0), NO_REST, NO_REST),
            (Kind::Unmap, false, (4, 2, 1, 9), NO_REST, NO_REST),
        ],
    ),
    (
        2,
        1,
        &[(Kind::Unmap, false, (2, 2, 2, 2), NO_REST, NO_REST)],
    ),
    (1, 2, &[]),
    (3, 1, &[]),
];

#[test]
fn all_mappings_of_a_buffer_go(rt: HostRuntime) -> Result<(), Fail> {
    for (index, generation, rows) in OF_BUFFERS {
        let buffer = BufferId::new(*index, *generation);
        expect(rt.alloc(), OF_TWO, &PageOp::UnmapBuffer { buffer }, rows)?;
    }
    Ok(())
}
