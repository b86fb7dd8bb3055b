//! Settles old entries and destroys freed buffers, so that new ones have room.

use super::Replay;
use crate::fault::ReplayFault;
use crate::text::number_of;
use crate::watcher::Watcher;
use gv_types::BufferId;

/// At each line at most so many buffers that were freed are tried.
const TRIES: usize = 4;

impl Replay {
    /// Lets the oldest entries go until a further one can be held.
    pub(super) fn make_room<V: Watcher>(&mut self, watcher: &mut V) -> Result<(), ReplayFault> {
        for _entry in 0..=self.machine.held() {
            if !self.machine.is_full() {
                return Ok(());
            }
            self.settle_one(watcher)?;
            self.destroy_some(watcher)?;
        }
        Ok(())
    }

    /// Lets the oldest entry go.
    fn settle_one<V: Watcher>(&mut self, watcher: &mut V) -> Result<(), ReplayFault> {
        if self.machine.settle() {
            let _oldest = self.acts.pop_front();
            watcher.settled(self.machine.first())?;
        }
        Ok(())
    }

    /// Tries to destroy a few of the buffers that were freed and that no entry keeps, the oldest first. One that a mapping
    /// still has waits on.
    fn destroy_some<V: Watcher>(&mut self, watcher: &mut V) -> Result<(), ReplayFault> {
        for _tries in 0..TRIES {
            let Some(id) = self.freed.take_due(self.machine.first()) else {
                return Ok(());
            };
            self.destroy(id, watcher)?;
        }
        Ok(())
    }

    /// Destroys a buffer, or lets it wait on.
    fn destroy<V: Watcher>(&mut self, id: BufferId, watcher: &mut V) -> Result<(), ReplayFault> {
        if self.is_destroyed(&id) {
            watcher.destroyed(number_of(&id))
        } else {
            self.destroy_later(id)
        }
    }

    fn is_destroyed(&mut self, id: &BufferId) -> bool {
        self.machine.destroy(*id).is_ok()
    }

    /// Where buffers were freed, settles all entries and destroys those that no mapping has.
    pub(super) fn destroy_freed<V: Watcher>(&mut self, watcher: &mut V) -> Result<(), ReplayFault> {
        if self.freed.len() == 0 {
            return Ok(());
        }
        for _entry in 0..self.machine.held() {
            self.settle_one(watcher)?;
        }
        for _round in 0..self.freed.len() / TRIES + 1 {
            self.destroy_some(watcher)?;
        }
        Ok(())
    }
}
