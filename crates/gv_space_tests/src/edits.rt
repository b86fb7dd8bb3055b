//! Edits by chance of an address space and of a plain list, in batches, each of which is undone and applied again. After each edit the
//! test compares what both hold around it, after each batch all of it.
use crate::chance::{Area, Spread, operation};
use crate::changes::keep_first;
use crate::judge::is_held;
use crate::playing::{ONE, THREE, TWO, expect};
use crate::text::tell;
use crate::watch::{Row, Watch};
use crate::words::Verb;
use gv_model::{Edit, PlainList, Random};
use gv_space::Space;
use gv_types::{Backing, Bounds, BufferId, Fault};
use std::alloc::{AllocError, Global};

/// So many edits a batch has. Each takes a frame of the stack until it is taken back.
const EDITS: u64 = 20;

/// The middle of the pages: where three levels of tables have an edge.
const MIDDLE: u64 = 1 << 30;

/// Where edits of whole slots are, and few others: so that most of its slots are no tables. Three levels of tables have an edge there too.
const LEAVES: u64 = (3 << 30) - 32 * 512;

/// Pages of buffers.
const OFFSETS: Spread = Spread(0, 1 << 20, 1);

/// Whole slots of 512 pages.
const SLOTS: Area = Area {
    first: Spread(LEAVES, 64, 512),
    count: Spread(512, 8, 512),
    page: OFFSETS,
};

/// A few pages of a slot, which make it a table.
const PARTS: Area = Area {
    first: Spread(LEAVES, 64 * 512, 1),
    count: Spread(1, 29, 1),
    page: OFFSETS,
};

/// The pages of an edit of a list of about so many mappings: mostly few, now and then up to a table's or whole slots elsewhere, and seldom
/// all. A mapping and a hole have 16 pages on average.
fn area_of(random: &mut Random, size: u64) -> Area {
    let pages = size.saturating_mul(16).saturating_add(1);
    let low = MIDDLE.saturating_sub(pages / 2);
    let (first, count) = match random.below(4_000) {
        0..=437 => return SLOTS,
        438..=499 => return PARTS,
        500 => (Spread(low, 1, 0), Spread(pages.saturating_add(32), 1, 0)),
        501..=535 => (
            Spread(low / 512 * 512, pages / 512 + 1, 512),
            Spread(1, 1_024, 1),
        ),
        _ => (Spread(low, pages, 1), Spread(1, 29, 1)),
    };
    Area {
        first,
        count,
        page: OFFSETS,
    }
}

fn edits_of(
    alloc: Global,
    random: &mut Random,
    ids: &[BufferId],
    size: u64,
) -> Result<Vec<Edit>, AllocError> {
    let mut edits = Vec::new(alloc);
    for _ in 0..EDITS {
        let area = area_of(random, size);
        edits.push(Edit::new(operation(random, ids, &area)))?;
    }
    Ok(edits)
}

/// Whether both hold the same mappings.
fn agree(space: &Space, list: &PlainList) -> bool {
    space
        .list()
        .iter()
        .map(|mapping| mapping.mapping())
        .eq(list.mappings().copied())
}

/// Applies to a plain list an edit that was applied to a space, where so many were before it. Whether both hold the same at and beside the
/// edges of its range, and at the end of a batch everywhere.
pub fn follow(
    space: &Space,
    list: &mut PlainList,
    edit: &Edit,
    before: u64,
) -> Result<bool, Fault> {
    // The borrow checker proves this only where the function names the types inside the entries.
    let _backing = Backing::Zero;
    list.apply(edit)?;
    let range = Bounds::whole().check(edit.op())?.range();
    let (first, end) = (range.first(), range.end());
    let pages = [first.saturating_sub(1), first, end.saturating_sub(1), end];
    let is_last = before % EDITS == EDITS - 1;
    Ok(
        pages
            .iter()
            .all(|page| is_held(space, *page, list.find(*page)))
            && (!is_last || agree(space, list)),
    )
}

/// A batch applied and undone, and applied again for good. Its edits count where the space was then as before, and is as the plain list.
fn batch(alloc: Global, space: &mut Space, watch: &mut Watch, edits: &[Edit]) -> Result<(), Fault> {
    let (tables, right) = (space.tables(), watch.right_count);
    watch.asked.verb = Verb::Beside;
    keep_first(alloc, space, watch, edits, 0)?;
    let is_undone = space.tables() == tables && agree(space, &watch.whole_batches);
    watch.asked.verb = Verb::Nothing;
    keep_first(alloc, space, watch, edits, EDITS)?;
    watch.whole_batches.apply_all(edits)?;
    if !is_undone || !agree(space, &watch.whole_batches) {
        watch.right_count = right;
    }
    Ok(())
}

/// Plays so many batches on a list of about so many mappings.
pub fn play(
    alloc: Global,
    space: &mut Space,
    watch: &mut Watch,
    size: u64,
    batches: u64,
) -> Result<(), Fault> {
    let mut random = Random::new(size);
    for _ in 0..batches {
        let edits = edits_of(alloc, &mut random, &watch.ids, size)?;
        batch(alloc, space, watch, &edits)?;
    }
    tell(&mut watch.text, &[("right ", Some(watch.right_count))]);
    Ok(())
}

/// Limits that are not reached.
const MANY: (u64, u64) = (3, 1_048_576);

/// About how many mappings there are: none, few, as many as a block of the list holds, one more or less, and a few blocks.
const SIZES: [Row; 7] = [
    ("edits 0 7000", "right 140000"),
    ("edits 1 7000", "right 140000"),
    ("edits 5 7000", "right 140000"),
    ("edits 64 7000", "right 140000"),
    ("edits 127 7000", "right 140000"),
    ("edits 129 7000", "right 140000"),
    ("edits 300 7000", "right 140000"),
];

#[test]
fn edits_are_undone_and_applied_again(rt: HostRuntime) {
    for row in SIZES {
        expect(&rt, MANY, &[ONE, TWO, THREE, row]);
    }
}

/// Many blocks.
const THOUSAND: Row = ("edits 1000 7000", "right 140000");

#[test]
fn edits_of_a_thousand_mappings_are_undone(rt: HostRuntime) {
    expect(&rt, MANY, &[ONE, TWO, THREE, THOUSAND]);
}

const FIVE_THOUSAND: Row = ("edits 5000 7000", "right 140000");

#[test]
fn edits_of_five_thousand_mappings_are_undone(rt: HostRuntime) {
    expect(&rt, MANY, &[ONE, TWO, THREE, FIVE_THOUSAND]);
}

/// More than 64 blocks, of which the list's index makes a group.
const MANY_BLOCKS: Row = ("edits 8192 7000", "right 140000");

#[test]
fn edits_of_many_blocks_are_undone(rt: HostRuntime) {
    expect(&rt, MANY, &[ONE, TWO, THREE, MANY_BLOCKS]);
}
