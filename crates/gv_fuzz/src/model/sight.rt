//! What a line by chance may name: how many buffers, timelines, entries and jobs there are.
use super::world::World;

/// How many buffers and timelines are declared, which entries are held, and how many jobs were begun.
#[derive(Clone, Copy)]
pub struct Sight {
    pub buffers: u64,
    pub timelines: u64,
    pub first: u64,
    pub next: u64,
    pub jobs: u64,
}

impl Sight {
    /// Of a world that holds nothing.
    pub fn nothing() -> Sight {
        Sight {
            buffers: 0,
            timelines: 0,
            first: 0,
            next: 0,
            jobs: 0,
        }
    }

    pub fn of(world: &World) -> Sight {
        let history = &world.model.space.history;
        Sight {
            buffers: world.names.buffers.len() as u64,
            timelines: world.names.timelines.len() as u64,
            first: history.first,
            next: history.next(),
            jobs: world.model.running.begun(),
        }
    }
}
