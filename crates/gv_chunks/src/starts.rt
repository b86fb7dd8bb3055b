//! How many mappings stand before each chunk.
ghost use Rattle.std.specs.Prelude.{◌≡◌, ◌≢◌, ◌+◌, ◌-◌, ◌*◌, ◌<◌, ◌≤◌, ◌^◌, ℕ, [], ◌∷◌, length, max, min, slice_index_or, OnOk};
ghost use Rattle.gv_chunks.specs.Starts.{sum_at};

use crate::BLOCK;
use crate::index::{add, pad};
use crate::row::{put_entry, take_entry};
use gv_types::OutOfMemory;
use std::alloc::Global;
use std::marker::Model;

/// For each chunk, how many mappings stand before it. A number of its own and one that its block of 64 chunks has in common are that
/// together, and wrap: so an edit moves the numbers behind it in the block, and those of the blocks behind that.
#[derive(Debug, Drop)]
pub struct Starts {
    numbers: Vec<usize>,
    bases: Vec<usize>,
}

impl Model for Starts {
    ghost use Rattle.std.specs.Prelude.{◌*◌, ◌≤◌, [], ◌∷◌, length, vec_capacity};
    ghost use Rattle.gv_chunks.specs.declared.TheConstants.{BLOCK};
    ghost use Rattle.gv_chunks.specs.Starts.{StartsState, sums};

    ghost Value = { StartsState };

    ghost view = { λ s. record {
      numbers = sums s.numbers.items s.bases.items;
      capacities = vec_capacity s.numbers ∷ vec_capacity s.bases ∷ [];
    } };

    ghost invariant = { λ s. length s.numbers.items ≤ BLOCK * length s.bases.items };
}

impl Starts {
    /// None. It takes no memory.
    pub fn new(alloc: Global) -> Starts
        ensures numbers { result.numbers ≡ [] }
        ensures capacities { result.capacities ≡ 0 ∷ 0 ∷ [] }
    {
        Starts {
            numbers: Vec::new(alloc),
            bases: Vec::new(alloc),
        }
    }

    /// Puts numbers behind those that there are, until there are `count`. Where the system refuses the memory nothing changes.
    pub fn pad(&mut self, count: usize) -> Result<(), OutOfMemory>
        ensures more { length self.old.numbers ≤ length self.new.numbers }
        ensures kept { (k d : ℕ) → k < length self.old.numbers → slice_index_or self.new.numbers k d ≡ slice_index_or self.old.numbers k d }
        ensures ok { OnOk result (count ≤ length self.new.numbers) }
    {
        pad(&mut self.bases, count.div_ceil(BLOCK), 0)?;
        pad(&mut self.numbers, count, 0)
    }

    /// Lets all but the first `count` numbers go, and gives their room back.
    pub fn shorten(&mut self, count: usize)
        ensures len { length self.new.numbers ≡ min count (length self.old.numbers) }
        ensures kept { (k d : ℕ) → k < count → k < length self.old.numbers → slice_index_or self.new.numbers k d ≡ slice_index_or self.old.numbers k d }
    {
        self.bases.truncate(count.div_ceil(BLOCK));
        self.bases.shrink_to_fit();
        self.numbers.truncate(count);
        self.numbers.shrink_to_fit();
    }

    /// How many mappings stand before a chunk.
    #[inline(always)]
    pub fn get(&self, chunk: usize) -> usize
        requires { chunk < length self.now.numbers }
        ensures { (d : ℕ) → result ≡ slice_index_or self.now.numbers chunk d }
    {
        self.numbers[chunk].wrapping_add(self.bases[chunk / BLOCK])
    }

    /// Writes how many mappings stand before a chunk.
    pub fn set(&mut self, chunk: usize, start: usize)
        requires { chunk < length self.old.numbers }
        ensures len { length self.new.numbers ≡ length self.old.numbers }
        ensures here { (d : ℕ) → slice_index_or self.new.numbers chunk d ≡ start }
        ensures others { (k d : ℕ) → k < length self.old.numbers → k ≢ chunk → slice_index_or self.new.numbers k d ≡ slice_index_or self.old.numbers k d }
        ensures capacities { self.new.capacities ≡ self.old.capacities }
    {
        self.numbers[chunk] = start.wrapping_sub(self.bases[chunk / BLOCK]);
    }

    /// Writes where a chunk begins if none stands yet: else it is written already. Answers how many stand now, with that chunk.
    pub(crate) fn set_if_unused(&mut self, used_count: usize, chunk: usize, start: usize) -> usize
        requires within { chunk < length self.old.numbers }
        requires was { (d : ℕ) → 0 < used_count → slice_index_or self.old.numbers chunk d ≡ start }
        ensures used_count { result ≡ max used_count 1 }
        ensures len { length self.new.numbers ≡ length self.old.numbers }
        ensures here { (d : ℕ) → slice_index_or self.new.numbers chunk d ≡ start }
        ensures others { (k d : ℕ) → k < length self.old.numbers → k ≢ chunk → slice_index_or self.new.numbers k d ≡ slice_index_or self.old.numbers k d }
        ensures capacities { self.new.capacities ≡ self.old.capacities }
    {
        if used_count > 0 {
            return used_count;
        }
        self.set(chunk, start);
        1
    }

    /// Moves the numbers from `from` up to `to` by what went out and what came in. What those behind them are is left open.
    pub fn shift(&mut self, from: usize, to: usize, out_count: usize, in_count: usize)
        requires within { to ≤ length self.old.numbers }
        requires out { (k d : ℕ) → from ≤ k → k < to → out_count ≤ slice_index_or self.old.numbers k d }
        requires fits { (k d : ℕ) → from ≤ k → k < to → slice_index_or self.old.numbers k d + in_count < out_count + 2 ^ 64 }
        ensures len { length self.new.numbers ≡ length self.old.numbers }
        ensures moved { (k d : ℕ) → from ≤ k → k < to
            → slice_index_or self.new.numbers k d + out_count ≡ slice_index_or self.old.numbers k d + in_count }
        ensures before { (k d : ℕ) → k < from → k < length self.old.numbers → slice_index_or self.new.numbers k d ≡ slice_index_or self.old.numbers k d }
        ensures capacities { self.new.capacities ≡ self.old.capacities }
    {
        // Where as many came in as went out no number moves, and none is read.
        if out_count == in_count || to <= from {
            return;
        }
        let more = in_count.wrapping_sub(out_count);
        let end = from + (BLOCK - from % BLOCK).min(to - from);
        add(&mut self.numbers, from, end, more);
        add(&mut self.bases, from / BLOCK + 1, to.div_ceil(BLOCK), more);
    }

    /// Puts a number in at `at`: what stands from there up to `count` moves up by one, and what stood at `count` is gone.
    pub fn put(&mut self, at: usize, count: usize, start: usize)
        requires at { at ≤ count }
        requires within { count < length self.old.numbers }
        ensures len { length self.new.numbers ≡ length self.old.numbers }
        ensures before { (k d : ℕ) → k < at → slice_index_or self.new.numbers k d ≡ slice_index_or self.old.numbers k d }
        ensures value { (d : ℕ) → slice_index_or self.new.numbers at d ≡ start }
        ensures behind { (k d : ℕ) → at < k → k ≤ count → slice_index_or self.new.numbers k d ≡ slice_index_or self.old.numbers (k - 1) d }
        ensures capacities { self.new.capacities ≡ self.old.capacities }
    {
        let base = self.bases[at / BLOCK];
        put_entry(&mut self.numbers, at, count, start.wrapping_sub(base));
        mend_firsts(&mut self.numbers, &self.bases, at, count);
    }

    /// Takes the number at `at` out: what stands behind it up to `count` moves down by one.
    pub fn take(&mut self, at: usize, count: usize)
        requires at { at < count }
        requires within { count ≤ length self.old.numbers }
        ensures len { length self.new.numbers ≡ length self.old.numbers }
        ensures before { (k d : ℕ) → k < at → slice_index_or self.new.numbers k d ≡ slice_index_or self.old.numbers k d }
        ensures behind { (k d : ℕ) → at ≤ k → k + 1 < count → slice_index_or self.new.numbers k d ≡ slice_index_or self.old.numbers (k + 1) d }
        ensures capacities { self.new.capacities ≡ self.old.capacities }
    {
        take_entry(&mut self.numbers, at, count);
        mend_lasts(&mut self.numbers, &self.bases, at, count - 1);
    }
}

/// The numbers behind `at` up to `to` came up by one, so the first of each block still goes with the base of the block before: it is
/// made to go with its own block's.
fn mend_firsts(numbers: &mut [usize], bases: &[usize], at: usize, to: usize)
    requires within { to < length numbers.old }
    requires blocks { length numbers.old ≤ BLOCK * length bases.now }
    ensures len { length numbers.new ≡ length numbers.old }
    ensures before { (k d : ℕ) → k ≤ at → slice_index_or numbers.new k d ≡ slice_index_or numbers.old k d }
    ensures same_sum { (k d : ℕ) → at < k → k ≤ to
        → sum_at bases.now k (slice_index_or numbers.new k d) ≡ sum_at bases.now (k - 1) (slice_index_or numbers.old k d) }
{
    for block in at / BLOCK + 1..to / BLOCK + 1 {
        let moved = bases[block - 1].wrapping_sub(bases[block]);
        let first = block * BLOCK;
        numbers[first] = numbers[first].wrapping_add(moved);
    }
}

/// The numbers from `at` up to `to` came down by one, so the last of each block still goes with the base of the block behind: it is
/// made to go with its own block's.
fn mend_lasts(numbers: &mut [usize], bases: &[usize], at: usize, to: usize)
    requires within { to < length numbers.old }
    requires blocks { length numbers.old ≤ BLOCK * length bases.now }
    ensures len { length numbers.new ≡ length numbers.old }
    ensures before { (k d : ℕ) → k < at → slice_index_or numbers.new k d ≡ slice_index_or numbers.old k d }
    ensures same_sum { (k d : ℕ) → at ≤ k → k < to
        → sum_at bases.now k (slice_index_or numbers.new k d) ≡ sum_at bases.now (k + 1) (slice_index_or numbers.old k d) }
{
    for block in at / BLOCK..to / BLOCK {
        let moved = bases[block + 1].wrapping_sub(bases[block]);
        let last = block * BLOCK + BLOCK - 1;
        numbers[last] = numbers[last].wrapping_add(moved);
    }
}
