//! Seeded numbers.
ghost use Rattle.std.specs.Prelude.{◌<◌};

use rand_core::utils::NextWord;
use rand_pcg::Pcg64;

/// The stream of the generator that all numbers come from.
const STREAM: u128 = 1;

/// The numbers of a seed: the same ones in every run.
#[derive(Drop)]
pub struct Random {
    words: Pcg64,
}

impl Random {
    /// The numbers that a seed begins.
    pub fn new(seed: u64) -> Random {
        Random {
            words: Pcg64::new(u128::from(seed), STREAM),
        }
    }

    /// The next number, below `bound`.
    pub fn below(&mut self, bound: u64) -> u64
        requires { 0 < bound }
        ensures { result < bound }
    {
        self.words.next_word() % bound
    }

    /// Once in so many times.
    pub fn is_one_in(&mut self, times: u64) -> bool
        requires { 0 < times }
    {
        self.below(times) == 0
    }

    /// One of the numbers, 0 where there are none.
    pub fn among(&mut self, numbers: &[u64]) -> u64 {
        let position = self.below((numbers.len() as u64).max(1));
        numbers.get(position as usize).copied().unwrap_or(0)
    }
}
