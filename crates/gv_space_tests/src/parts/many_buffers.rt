//! As many buffers as there may be, made and destroyed in any order, beside a plain list of what is alive.
use gv_buffers::Buffers;
use gv_model::Random;
use gv_types::{BufferId, Fault, MAX_BUFFERS};
use std::alloc::Global;
use std::test::Fail;

/// The buffers, and of each that was made, in order, its id and its size while it is alive.
#[derive(Drop)]
struct Both {
    buffers: Buffers,
    made: Vec<(BufferId, Option<u64>)>,
    alive: u64,
}

impl Both {
    /// Makes a buffer of some size. Whether it is the next, or is refused where all that there may be are alive.
    fn create(&mut self, alloc: Global, random: &mut Random) -> Result<bool, Fail> {
        let pages = random.below(1_000_000) + 1;
        match self.buffers.create(alloc, pages) {
            Ok(id) => {
                let is_next = id.generation.get() == self.made.len() as u64;
                self.made.push((id, Some(pages)))?;
                self.alive = self.alive.saturating_add(1);
                Ok(is_next)
            }
            Err(fault) => Ok(fault == Fault::TooManyBuffers && self.alive == MAX_BUFFERS),
        }
    }

    /// Destroys one of those that were made. Whether it is refused just where that was destroyed before.
    fn destroy(&mut self, random: &mut Random) -> Result<bool, Fail> {
        let position = random.below((self.made.len() as u64).max(1));
        let (id, pages) = self.made.get_mut(position as usize).ok_or("none was made")?;
        let was_alive = pages.take().is_some();
        self.alive = self.alive.saturating_sub(u64::from(was_alive));
        let wanted = (!was_alive).then_some(Fault::NoBuffer);
        Ok(self.buffers.destroy(*id).err() == wanted)
    }

    /// Makes or destroys buffers: it makes one in `times` times.
    fn play(
        &mut self,
        alloc: Global,
        random: &mut Random,
        count: u64,
        times: u64,
    ) -> Result<(), Fail> {
        for _ in 0..count {
            let is_right = if random.is_one_in(times.max(1)) {
                self.create(alloc, random)?
            } else {
                self.destroy(random)?
            };
            if !is_right {
                return Err("another answer".into());
            }
        }
        Ok(())
    }

    /// Each that is alive has its size, and no other has one.
    fn agree(&self) -> bool {
        for (id, pages) in &self.made {
            if self.buffers.pages(*id) != *pages {
                return false;
            }
        }
        true
    }
}

/// How many buffers are made or destroyed, once in how many times one is made, and whether all that there may be are alive then.
const ROUNDS: [(u64, u64, bool); 2] = [(MAX_BUFFERS + 1, 1, true), (200_000, 3, false)];

#[test]
fn all_buffers_in_any_order(rt: HostRuntime) -> Result<(), Fail> {
    let alloc = rt.alloc();
    let mut random = Random::new(54);
    let mut both = Both {
        buffers: Buffers::new(alloc, MAX_BUFFERS)?,
        made: Vec::new(alloc),
        alive: 0,
    };
    for (count, times, is_full) in &ROUNDS {
        both.play(alloc, &mut random, *count, *times)?;
        assert!(rt; both.agree() && *is_full == (both.alive == MAX_BUFFERS));
    }
    Ok(())
}
