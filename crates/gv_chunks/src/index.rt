//! The index of a list in chunks (where each begins): grown, searched, written.
ghost use Rattle.std.specs.Prelude.{◌≡◌, ◌+◌, ◌<◌, ◌≤◌, ◌^◌, ◌%◌, ℕ, length, max, take, slice_index_or, slice_set, vec_len, vec_capacity, OnOk, IfSome};
ghost use Rattle.gv_types.specs.declared.mapping.Mapping.{Mapping};
ghost use Rattle.gv_chunks.specs.Chunks.{chunks_joined, AreFilled, AreStarts, AreFirsts};

use crate::starts::Starts;
use gv_types::{OutOfMemory, Packed};

/// Puts copies of a value behind the items until there are `count`. Where the system refuses the memory nothing changes.
pub fn pad<T: Copy>(items: &mut Vec<T>, count: usize, value: T) -> Result<(), OutOfMemory>
    ensures kept { take (length items.old.items) items.new.items ≡ items.old.items }
    ensures ok { OnOk result (count ≤ length items.new.items) }
    ensures at_most { length items.new.items ≤ max (length items.old.items) count }
{
    let have = items.len();
    items.reserve(count.saturating_sub(have))?;
    for _ in have..count {
        items.push_reserved(value);
    }
    Ok(())
}

/// The last of the first `used_count` numbers that is at most `index`. Each step halves what remains.
pub fn last_at_most(starts: &Starts, used_count: usize, index: usize) -> usize
    requires some { 0 < used_count }
    requires within { used_count ≤ length starts.now.numbers }
    requires first { (d : ℕ) → slice_index_or starts.now.numbers 0 d ≤ index }
    ensures within { result < used_count }
    ensures begun { (d : ℕ) → slice_index_or starts.now.numbers result d ≤ index }
    ensures next { (d : ℕ) → result + 1 < used_count → index < slice_index_or starts.now.numbers (result + 1) d }
{
    let mut low = 0;
    let mut remaining = used_count;
    while remaining > 1 {
        let half = remaining / 2;
        if starts.get(low + half) <= index {
            low += half;
            remaining -= half;
        } else {
            remaining = half;
        }
    }
    low
}

/// Where the chunk `hint` begins, if it is the last of the first `used_count` that begin at `index` or before it. `hint` may be any
/// number. Mostly it is that chunk, so this is tried where it is asked for.
#[inline(always)]
pub(crate) fn start_of_hint(
    starts: &Starts,
    used_count: usize,
    index: usize,
    hint: usize,
) -> Option<usize>
    requires within { used_count ≤ length starts.now.numbers }
    ensures within { IfSome result (λ _. hint < used_count) }
    ensures start { IfSome result (λ start. (d : ℕ) → start ≡ slice_index_or starts.now.numbers hint d) }
    ensures begun { IfSome result (λ start. start ≤ index) }
    ensures next { IfSome result (λ _. (d : ℕ) → hint + 1 < used_count → index < slice_index_or starts.now.numbers (hint + 1) d) }
{
    if hint >= used_count {
        return None;
    }
    let start = starts.get(hint);
    if index < start || (hint + 1 < used_count && starts.get(hint + 1) <= index) {
        return None;
    }
    Some(start)
}

/// Adds a number to those from `from` up to `to`. The sums wrap.
pub fn add(numbers: &mut [usize], from: usize, to: usize, more: usize)
    requires { to ≤ length numbers.old }
    ensures len { length numbers.new ≡ length numbers.old }
    ensures added { (k d : ℕ) → from ≤ k → k < to → slice_index_or numbers.new k d ≡ (slice_index_or numbers.old k d + more) % 2 ^ 64 }
    ensures before { (k d : ℕ) → k < from → slice_index_or numbers.new k d ≡ slice_index_or numbers.old k d }
    ensures behind { (k d : ℕ) → to ≤ k → slice_index_or numbers.new k d ≡ slice_index_or numbers.old k d }
{
    for k in from..to {
        numbers[k] = numbers[k].wrapping_add(more);
    }
}

/// Writes the page at which a chunk begins, of which the first `remaining` mappings stayed: where one did, the page is written already,
/// and the chunk isn't read.
pub(crate) fn write_first(firsts: &mut Vec<u64>, chunk: usize, held: &Vec<Packed>, remaining: usize)
    requires chunk { chunk < vec_len firsts.old }
    requires some { 0 < vec_len held.now }
    requires was { (m : Mapping) → 0 < remaining → slice_index_or firsts.old.items chunk 0 ≡ (slice_index_or held.now.items 0 m).range.first }
    ensures items { (m : Mapping) → firsts.new.items ≡ slice_set firsts.old.items chunk (slice_index_or held.now.items 0 m).range.first }
    ensures capacity { vec_capacity firsts.new ≡ vec_capacity firsts.old }
{
    if remaining > 0 {
        return;
    }
    firsts[chunk] = held[0].first();
}

/// Writes where the chunks begin, from the chunk `from` on. Where those before it begin is written already.
pub fn write_index(chunks: &[Vec<Packed>], starts: &mut Starts, firsts: &mut [u64], from: usize)
    requires from { from ≤ length chunks.now }
    requires filled { AreFilled chunks.now }
    requires few { length (chunks_joined chunks.now) < 2 ^ 64 }
    requires starts { AreStarts starts.old.numbers (take from chunks.now) }
    requires firsts { AreFirsts firsts.old (take from chunks.now) }
    requires starts_within { length chunks.now ≤ length starts.old.numbers }
    requires firsts_within { length chunks.now ≤ length firsts.old }
    ensures starts { AreStarts starts.new.numbers chunks.now }
    ensures firsts { AreFirsts firsts.new chunks.now }
    ensures starts_len { length starts.new.numbers ≡ length starts.old.numbers }
    ensures firsts_len { length firsts.new ≡ length firsts.old }
    ensures capacities { starts.new.capacities ≡ starts.old.capacities }
{
    let mut start = end_of(chunks, starts, from);
    for k in from..chunks.len() {
        starts.set(k, start);
        firsts[k] = chunks[k][0].first();
        start += chunks[k].len();
    }
}

/// How many mappings stand before a chunk, told by the one before it.
fn end_of(chunks: &[Vec<Packed>], starts: &Starts, chunk: usize) -> usize
    requires within { chunk ≤ length chunks.now }
    requires few { length (chunks_joined chunks.now) < 2 ^ 64 }
    requires starts { AreStarts starts.now.numbers (take chunk chunks.now) }
    ensures { result ≡ length (chunks_joined (take chunk chunks.now)) }
{
    if chunk == 0 {
        return 0;
    }
    starts.get(chunk - 1) + chunks[chunk - 1].len()
}
