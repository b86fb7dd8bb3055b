//! Operations by chance.
ghost use Rattle.std.specs.Prelude.{IsTrue};
ghost use Rattle.gv_types.specs.Operation.{has_range};

use crate::operations::id_of;
use gv_model::Random;
use gv_types::{BufferId, Flags, Op, PAGE_BYTES};

/// Numbers: the least, how many there are, and how far apart.
#[derive(Clone, Copy)]
pub struct Spread(pub u64, pub u64, pub u64);

impl Spread {
    /// One of them by chance.
    pub fn number(self, random: &mut Random) -> u64 {
        let Spread(least, many, apart) = self;
        random
            .below(many.max(1))
            .saturating_mul(apart)
            .saturating_add(least)
    }

    fn bytes(self, random: &mut Random) -> u64 {
        self.number(random).saturating_mul(PAGE_BYTES)
    }
}

/// What operations may name: the first page, how many pages, and the page of a buffer.
#[derive(Clone, Copy)]
pub struct Area {
    pub first: Spread,
    pub count: Spread,
    pub page: Spread,
}

/// A map of one of three buffers or of zeros, or an unmap.
pub fn operation(random: &mut Random, ids: &[BufferId], area: &Area) -> Op
    ensures { IsTrue (has_range result) }
{
    let addr = area.first.bytes(random);
    let len = area.count.bytes(random);
    let offset = area.page.bytes(random);
    let buffer = id_of(ids, random.below(3));
    let flags = Flags {
        read_only: random.is_one_in(4),
    };
    match random.below(8) {
        0 => Op::MapZero { addr, len, flags },
        1..=4 => Op::Map {
            addr,
            len,
            buffer,
            offset,
            flags,
        },
        _ => Op::Unmap { addr, len },
    }
}
