//! Requests for memory that are refused. In a run where none is, each step is answered at once.
use crate::machine::events::TURNS;
use gv_model::event_in;
use gv_types::{Bounds, Limits};
use gv_vm::{Reply, Sizes, World};
use std::alloc::{AllocError, Global};
use std::process::Abort;
use std::test::Fail;

/// A request was refused for want of memory, which its queue was told.
const WANTED_MEMORY: &str = "Told { number: 0, outcome: Refused { op: 0, fault: OutOfMemory } }";

/// A world with two queues of depth 1 and one timeline. Where memory is refused, it is made again.
fn small_at_last(alloc: Global) -> Result<World, Fail> {
    let sizes = Sizes {
        queues: 2,
        depth: 1,
        timelines: 1,
    };
    for _ in 0..2 {
        if let Ok(world) = World::new(alloc, Bounds::whole(), Limits::full(), sizes) {
            return Ok(world);
        }
    }
    Err("memory".into())
}

/// A reply as text. Where memory is refused, it is written again.
fn text_at_last(alloc: Global, reply: &Reply) -> Result<String, AllocError> {
    match format!(in alloc; "{reply:?}") {
        Ok(text) => Ok(text),
        Err(_) => format!(in alloc; "{reply:?}"),
    }
}

/// How many outcomes the first queue was told, how many entries and mappings there are, and whether the first byte leads
/// anywhere.
fn sight(world: &World) -> (usize, usize, usize, bool) {
    let vm = world.vm();
    (
        vm.told(0).len(),
        vm.items().len(),
        vm.space().list().len(),
        vm.translate(0).is_some(),
    )
}

/// What the event of a line answers. None where its memory is refused, and then nothing changed.
fn step(
    rt: &impl Abort,
    alloc: Global,
    world: &mut World,
    line: &str,
) -> Result<Option<String>, Fail> {
    let Ok(event) = event_in(alloc, &[], line) else {
        return Ok(None);
    };
    let before = sight(world);
    let Ok(reply) = world.step(alloc, event.ok_or("event")?) else {
        assert!(rt; sight(world) == before);
        return Ok(None);
    };
    Ok(Some(text_at_last(alloc, &reply)?))
}

#[test]
fn refused_step_changes_nothing(rt: HostRuntime) -> Result<(), Fail> {
    let mut world = small_at_last(rt.alloc())?;
    let end = each_step(&rt, rt.alloc(), &mut world);
    world.close();
    end
}

/// What the event of a line answers, and again where its memory is refused.
fn step_at_last(
    rt: &impl Abort,
    alloc: Global,
    world: &mut World,
    line: &str,
) -> Result<String, Fail> {
    match step(rt, alloc, world, line)? {
        Some(reply) => Ok(reply),
        None => Ok(step(rt, alloc, world, line)?.ok_or("memory")?),
    }
}

/// Each event of a queue's turns.
fn each_step(rt: &impl Abort, alloc: Global, world: &mut World) -> Result<(), Fail> {
    for line in TURNS.lines() {
        let (asked, wanted) = line.split_once(" = ").unwrap_or((line, ""));
        let reply = step_at_last(rt, alloc, world, asked)?;
        if reply.as_str() == WANTED_MEMORY {
            break;
        }
        assert!(rt; reply.as_str() == wanted, "{asked} = {reply}");
    }
    Ok(())
}
