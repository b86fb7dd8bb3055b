//! How vectors grow: a full one doubles.
ghost use Rattle.std.specs.Prelude.{◌≡◌, ◌<◌, ◌≤◌, ◌*◌, max, vec_len, vec_capacity, OnOk, OnErr};

use std::alloc::AllocError;

/// So many slots the first growth makes.
const FIRST_SLOTS: usize = 4;

/// Makes room for one thing more where there is none: twice the slots, and four at first.
pub fn grow<T>(things: &mut Vec<T>) -> Result<(), AllocError>
    ensures items { things.new.items ≡ things.old.items }
    ensures ok { OnOk result (vec_len things.new < vec_capacity things.new) }
    ensures needed { OnErr result (vec_len things.old ≡ vec_capacity things.old) }
    ensures enough { vec_len things.old < vec_capacity things.old → vec_capacity things.new ≡ vec_capacity things.old }
    ensures few { vec_capacity things.new ≤ max (2 * vec_capacity things.old) 4 }
{
    let len = things.len();
    if len < things.capacity() {
        return Ok(());
    }
    things.reserve_exact(len.saturating_mul(2).max(FIRST_SLOTS) - len)
}
