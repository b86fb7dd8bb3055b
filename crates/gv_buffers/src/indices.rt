//! The indices of the buffers that each job uses.
ghost use Rattle.std.specs.Prelude.{◌≡◌, ◌≢◌, ℕ, OnOk, IsSomeAnd, Contains};
ghost use Rattle.gv_buffers.specs.Indices.{IsNoted};

use std::alloc::{AllocError, Global};
use std::collections::HashMap;

/// For each job the indices of the buffers that it uses.
pub type Indices = HashMap<u64, Vec<u32>>;

/// Notes that the job uses the buffer at an index.
pub fn note(alloc: Global, indices: &mut Indices, job: u64, index: u32) -> Result<(), AllocError>
    ensures noted { OnOk result (IsNoted indices.new job index) }
    ensures kept { (other at : ℕ) → IsNoted indices.old other at → IsNoted indices.new other at }
{
    if let Some(noted) = indices.get_mut(&job) {
        noted.push(index)?;
        return Ok(());
    }
    let mut noted = Vec::new(alloc);
    noted.push(index)?;
    indices.insert(job, noted)?;
    Ok(())
}

/// Gives up what was noted of the job.
pub fn forget(indices: &mut Indices, job: u64) -> Option<Vec<u32>>
    ensures noted { (at : ℕ) → IsNoted indices.old job at
        → IsSomeAnd result (λ noted. Contains noted.items at) }
    ensures kept { (other at : ℕ) → other ≢ job
        → IsNoted indices.old other at → IsNoted indices.new other at }
{
    indices.remove(&job)
}
