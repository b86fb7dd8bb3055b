//! A list of events, run by one call.
use gv_model::event_in;
use gv_types::{Bounds, Limits};
use gv_vm::{Event, Sizes, World};
use std::alloc::Global;
use std::test::Fail;

const EVENTS: [&str; 7] = [
    "put 0 ; zero 0",
    "take 0",
    "bind 0",
    "at 0",
    "take 0",
    "rewind",
    "at 0",
];

/// The replies to the events, in their order.
const REPLIES: &str = "[Put { number: 0 }, Taken { number: 0 }, \
Told { number: 0, outcome: Accepted { entry: 0 } }, \
Found { place: Some(Place { target: Zero, flags: Flags { read_only: false } }) }, \
Idle, Rewound { item: 0 }, Found { place: None }]";

fn events(alloc: Global) -> Result<Vec<Event>, Fail> {
    let mut events = Vec::with_capacity(alloc, EVENTS.len())?;
    for line in EVENTS {
        events.push(event_in(alloc, &[], line)?.ok_or("event")?)?;
    }
    Ok(events)
}

/// The replies of a world to the events, as text.
fn replies(alloc: Global, world: &mut World) -> Result<String, Fail> {
    match world.run_events(alloc, events(alloc)?) {
        Ok(replies) => Ok(format!(in alloc; "{replies:?}")?),
        Err(_) => Err("memory".into()),
    }
}

#[test]
fn events_run_one_after_another(rt: HostRuntime) -> Result<(), Fail> {
    let sizes = Sizes {
        queues: 1,
        depth: 1,
        timelines: 1,
    };
    let mut world = World::new(rt.alloc(), Bounds::whole(), Limits::full(), sizes)?;
    let given = replies(rt.alloc(), &mut world);
    world.close();
    let given = given?;
    assert!(rt; given.as_str() == REPLIES, "{given}");
    Ok(())
}
