//! The accesses that a `job` line asks for.
ghost use Rattle.std.specs.Prelude.{◌≡◌, ◌↔◌, IsTrue, IfOk, map, length, ◌<◌};
ghost use Rattle.gv_vm.specs.Jobs.{most_accesses};
ghost use Rattle.gv_session.specs.Requests.{access_named};

use gv_buffers::Usage;
use gv_lines::{Access as NamedAccess, AccessList};
use gv_types::OutOfMemory;
use gv_vm::{Access, MAX_ACCESSES};
use std::alloc::Global;

/// An access of a job.
fn access_named(access: NamedAccess) -> Access
    ensures { result ≡ access_named access }
{
    match access {
        NamedAccess::Read { addr } => Access {
            addr,
            usage: Usage::Read,
        },
        NamedAccess::Write { addr } => Access {
            addr,
            usage: Usage::Write,
        },
    }
}

/// The accesses of a job.
pub fn accesses_of(alloc: Global, accesses: AccessList<'_>) -> Result<Vec<Access>, OutOfMemory>
    ensures { IfOk result (λ list. list.items ≡ map access_named accesses.entry) }
{
    let mut list = Vec::new(alloc);
    let mut remaining = accesses;
    while let Some(access) = remaining.take() {
        list.reserve(1)?;
        list.push_reserved(access_named(access));
    }
    Ok(list)
}

/// Whether a job has more accesses than any job may have. It takes no memory.
pub fn are_too_many(accesses: &AccessList<'_>) -> bool
    ensures { IsTrue result ↔ most_accesses < length accesses.now }
{
    let mut remaining = accesses.again();
    for done in 0..=MAX_ACCESSES {
        if remaining.take().is_none() {
            return false;
        }
    }
    true
}
