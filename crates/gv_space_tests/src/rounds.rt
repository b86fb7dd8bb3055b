//! Rounds of operations by chance on 64 runs of pages ("places"), each look at which is compared with the definitions.
use crate::chance::{Area, Spread, operation};
use crate::changes::{bring_back, keep_first};
use crate::playing::{ONE, THREE, TWO, expect_in};
use crate::text::tell;
use crate::watch::{Row, Watch};
use crate::words::{Clause, Verb};
use gv_model::{Edit, Random};
use gv_space::Space;
use gv_types::{Bounds, Fault};
use std::alloc::{AllocError, Global};

/// How many rounds are played on a space.
const ROUNDS: u64 = 250;

/// How many places there are.
const PLACES: u64 = 64;

/// The first and the last page of each place.
fn pages_of(alloc: Global, first: u64, unit: u64) -> Result<Vec<u64>, AllocError> {
    let mut pages = Vec::new(alloc);
    for place in 0..PLACES {
        let page = place.saturating_mul(unit).saturating_add(first);
        pages.push(page)?;
        pages.push(page.saturating_add(unit).saturating_sub(1))?;
    }
    Ok(pages)
}

/// Plays a round: both edits are undone, or both stay; or both stay, and a range is restored from the first, not for good or for good.
fn round(
    alloc: Global,
    space: &mut Space,
    watch: &mut Watch,
    random: &mut Random,
    area: &Area,
    way: u64,
) -> Result<(), Fault> {
    let edits = [
        Edit::new(operation(random, &watch.ids, area)),
        Edit::new(operation(random, &watch.ids, area)),
    ];
    let range = Clause {
        verb: if way == 2 { Verb::Range } else { Verb::Stays },
        numbers: [area.first.number(random), area.count.number(random), 0, 0],
    };
    match way {
        0 => keep_first(alloc, space, watch, &edits, 0),
        1 => keep_first(alloc, space, watch, &edits, 2),
        _ => bring_back(alloc, space, watch, &edits, &[range]),
    }
}

/// Plays rounds on places of `unit` pages each, from the page `first` on. The ways take turns.
pub fn play(
    alloc: Global,
    space: &mut Space,
    watch: &mut Watch,
    first: u64,
    unit: u64,
) -> Result<(), Fault> {
    let area = Area {
        first: Spread(first, PLACES - 11, unit),
        count: Spread(unit, 12, unit),
        page: Spread(0, 36, unit),
    };
    watch.judge.pages = pages_of(alloc, first, unit)?;
    watch.asked.verb = Verb::Judge;
    let mut random = Random::new(1);
    for number in 0..ROUNDS {
        round(alloc, space, watch, &mut random, &area, number % 4)?;
    }
    tell(&mut watch.text, &[("right ", Some(watch.right_count))]);
    Ok(())
}

/// Spaces that begin at a page and have so many, in places of a page; on both sides of a table; of a quarter of a leaf.
const SPACES: [(u64, u64, Row); 3] = [
    (0, 64, ("rounds 0 1", "right 1872")),
    (480, 64, ("rounds 480 1", "right 1872")),
    (384, 8_192, ("rounds 384 128", "right 1872")),
];

#[test]
fn places_agree_with_the_model(rt: HostRuntime) {
    for (first, count, row) in SPACES {
        let bounds = Bounds::new(first, count, 0, 0).expect(&rt, "bounds");
        expect_in(&rt, bounds, (3, 1_000), &[ONE, TWO, THREE, row]);
    }
}
