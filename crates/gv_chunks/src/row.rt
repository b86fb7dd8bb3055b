//! A row of numbers into which one is put, or out of which one is taken: the others move by one, as a block.
ghost use Rattle.std.specs.Prelude.{◌≡◌, ◌+◌, ◌-◌, ◌<◌, ◌≤◌, ℕ, length, slice_index_or};

/// Puts a value in at `at`: what stands from there up to `count` moves up by one, and what stood at `count` is gone.
pub(crate) fn put_entry<T: Copy>(row: &mut [T], at: usize, count: usize, value: T)
    requires at { at ≤ count }
    requires within { count < length row.old }
    ensures len { length row.new ≡ length row.old }
    ensures before { (k : ℕ) (d : T) → k < at → slice_index_or row.new k d ≡ slice_index_or row.old k d }
    ensures value { (d : T) → slice_index_or row.new at d ≡ value }
    ensures behind { (k : ℕ) (d : T) → at < k → k ≤ count → slice_index_or row.new k d ≡ slice_index_or row.old (k - 1) d }
    ensures after { (k : ℕ) (d : T) → count < k → slice_index_or row.new k d ≡ slice_index_or row.old k d }
{
    rotate_up(row, at, count);
    row[at] = value;
}

/// Moves the values from `at` on up by one; the one at `count` comes to stand at `at`.
fn rotate_up<T: Copy>(row: &mut [T], at: usize, count: usize)
    requires at { at ≤ count }
    requires within { count < length row.old }
    ensures len { length row.new ≡ length row.old }
    ensures before { (k : ℕ) (d : T) → k < at → slice_index_or row.new k d ≡ slice_index_or row.old k d }
    ensures behind { (k : ℕ) (d : T) → at < k → k ≤ count → slice_index_or row.new k d ≡ slice_index_or row.old (k - 1) d }
    ensures after { (k : ℕ) (d : T) → count < k → slice_index_or row.new k d ≡ slice_index_or row.old k d }
{
    row[at..count + 1].rotate_right(1);
}

/// Takes the value at `at` out: what stands behind it up to `count` moves down by one, and it comes to stand behind that.
pub(crate) fn take_entry<T: Copy>(row: &mut [T], at: usize, count: usize)
    requires at { at < count }
    requires within { count ≤ length row.old }
    ensures len { length row.new ≡ length row.old }
    ensures before { (k : ℕ) (d : T) → k < at → slice_index_or row.new k d ≡ slice_index_or row.old k d }
    ensures behind { (k : ℕ) (d : T) → at ≤ k → k + 1 < count → slice_index_or row.new k d ≡ slice_index_or row.old (k + 1) d }
    ensures last { (d : T) → slice_index_or row.new (count - 1) d ≡ slice_index_or row.old at d }
    ensures after { (k : ℕ) (d : T) → count ≤ k → slice_index_or row.new k d ≡ slice_index_or row.old k d }
{
    row[at..count].rotate_left(1);
}
