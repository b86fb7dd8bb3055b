//! Thousands of events by chance, each answered by a world as by the definitions; what both come to is compared after each.
use crate::machine::chance::Chance;
use crate::machine::play::WorldSetup;
use crate::machine::stage::Stage;
use crate::machine::tally::{EVENTS, REPLIES, Tally};
use gv_types::Bounds;
use std::alloc::Global;
use std::process::Abort;
use std::test::Fail;

/// Two queues and two timelines.
const SIZES: [u64; 3] = [2, 2, 2];

/// Limits that are seldom met, those of mappings that often are, and those of entries and outcomes.
const WIDE: WorldSetup = WorldSetup {
    limits: [3, 64, 40, 200],
    sizes: SIZES,
    compares: true,
};

const NARROW: WorldSetup = WorldSetup {
    limits: [2, 3, 12, 200],
    sizes: SIZES,
    compares: true,
};

const SHORT: WorldSetup = WorldSetup {
    limits: [3, 9, 3, 12],
    sizes: SIZES,
    compares: true,
};

/// One event by chance, answered by both. Whether they agree.
fn one_event(
    alloc: Global,
    stage: &mut Stage,
    chance: &mut Chance,
    tally: &mut Tally,
) -> Result<bool, Fail> {
    let line = chance.line(alloc, &stage.model)?;
    tally.take_event(line.as_str());
    let event = stage.event(line.as_str())?;
    let (reply, is_same) = stage.ask(event)?;
    tally.take_reply(format!(in alloc; "{reply:?}")?.as_str());
    Ok(is_same)
}

fn many_events(
    rt: &(impl Abort + AllocGlobal),
    stage: &mut Stage,
    seed: u64,
    events: u64,
    tally: &mut Tally,
) -> Result<(), Fail> {
    let mut chance = Chance::new(seed);
    for done in 0..events {
        let agreed = one_event(rt.alloc(), stage, &mut chance, tally)?;
        assert!(rt; agreed, "seed {seed}, event {done}");
    }
    Ok(())
}

/// So many events from a seed, on a world of pages 1 to 31, of which page 30 is reserved.
fn round<R: Abort + AllocGlobal>(
    rt: &R,
    room: &WorldSetup,
    seed: u64,
    events: u64,
    tally: &mut Tally,
) -> Result<(), Fail> {
    let bounds = Bounds::new(1, 31, 30, 1).ok_or("bounds")?;
    let mut stage = Stage::new(rt.alloc(), &room.setting(bounds)?, room.compares)?;
    let end = many_events(rt, &mut stage, seed, events, tally);
    stage.close();
    end
}

/// Asserts that each kind came.
fn expect_each_kind(rt: &impl Abort, tally: &Tally) {
    for (came, kind) in tally.events.iter().zip(EVENTS) {
        assert!(rt; *came, "{kind}");
    }
    for (came, (start, part)) in tally.replies.iter().zip(REPLIES) {
        assert!(rt; *came, "{start} {part}");
    }
}

#[test]
fn chance_agrees_with_the_definitions(rt: HostRuntime) -> Result<(), Fail> {
    let mut tally = Tally::new(rt.alloc())?;
    for seed in 0..16u64 {
        round(&rt, &WIDE, seed, 800, &mut tally)?;
        round(&rt, &NARROW, seed, 800, &mut tally)?;
        round(&rt, &SHORT, seed, 500, &mut tally)?;
    }
    expect_each_kind(&rt, &tally);
    Ok(())
}
