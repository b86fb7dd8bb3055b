//! Any list of events, run on a world.
ghost use Rattle.std.specs.Prelude.{IfOk, IfErr};

use super::World;
use crate::event::{Event, Reply};
use std::alloc::Global;

/// Out of memory: the replies to the events before that.
#[derive(Drop)]
pub struct Stopped {
    pub replies: Vec<Reply>,
}

impl World {
    ghost use Rattle.gv_vm.specs.Headline.{Headline, StoppedHeadline};

    /// Runs the events one after another. After any of them every page translates, by list and by page table alike, to what
    /// the newest live operation that covers it says; a refused request left list, tables and uses as they were; undoing an
    /// entry restores the state before it; and a withdrawn entry leaves the map of the history without it.
    /// `Stopped` if memory is refused, for the room of all replies, which is asked for first, or at an event that may
    /// grow: it has the replies of those before, and the world is after them.
    pub fn run_events(&mut self, alloc: Global, events: Vec<Event>) -> Result<Vec<Reply>, Stopped>
        ensures headline { IfOk result (λ replies. Headline self.old events.items replies.items self.new) }
        ensures stopped { IfErr result (λ s. StoppedHeadline self.old events.items s.replies.items self.new) }
    {
        let mut replies = match Vec::with_capacity(alloc, events.len()) {
            Ok(replies) => replies,
            Err(_) => {
                return Err(Stopped {
                    replies: Vec::new(alloc),
                });
            }
        };
        for event in events {
            match self.step(alloc, event) {
                Ok(reply) => replies.push_reserved(reply),
                Err(_) => return Err(Stopped { replies }),
            }
        }
        Ok(replies)
    }
}
