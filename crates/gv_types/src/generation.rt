//! How many buffers were made before a buffer.
ghost use Rattle.std.specs.Prelude.{◌≡◌};

use std::marker::Model;

const HALF_BITS: u32 = 32;

const LOW_HALF: u64 = 0xffff_ffff;

/// A number of 64 bits that needs only an alignment of four bytes, so that a mapping has 48 bytes.
#[derive(Clone, Copy, Debug, PartialEq, Eq)]
pub struct Generation {
    high: u32,
    low: u32,
}

impl Model for Generation {
    ghost use Rattle.std.specs.Prelude.{ℕ};

    ghost Value = { ℕ };

    ghost use Rattle.gv_types.specs.Generation.{joined, AreHalves, halves_of, halves_of-joined};

    ghost view = { joined };

    ghost invariant = { AreHalves };

    ghost inverse = { halves_of };

    ghost inverse_ok = { halves_of-joined };
}

impl Generation {
    pub fn new(number: u64) -> Generation
        ensures { result ≡ number }
    {
        Generation {
            high: (number >> HALF_BITS) as u32,
            low: (number & LOW_HALF) as u32,
        }
    }

    /// The number itself.
    pub fn get(self) -> u64
        ensures { result ≡ self }
    {
        (u64::from(self.high) << HALF_BITS) + u64::from(self.low)
    }
}
