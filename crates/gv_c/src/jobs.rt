//! The C call that begins a job.
ghost use Rattle.std.specs.Prelude.{◌≡◌};
ghost use Rattle.gv_c.specs.Binding.{AreRead, IsJobBegun, usage_of};

use crate::events::number_of;
use crate::handle::Handle;
use crate::status::{BAD_ARGUMENT, NO_VM, OUT_OF_MEMORY, of_reply};
use crate::values::JobAccess;
use gv_buffers::Usage;
use gv_vm::{Access, Event};
use std::alloc::Global;

/// Begins a job, and writes its number, or the one that its fault carries.
#[unsafe(no_mangle)]
pub extern "C" fn vmbind_job_begin(
    alloc: Global,
    vm: &mut Handle,
    accesses: &[JobAccess],
    number: &mut u64,
) -> u32
    ensures { IsJobBegun accesses.now vm.old.value result number.new vm.new.value }
{
    *number = 0;
    let Some(held) = vm.take(alloc) else {
        return NO_VM;
    };
    vm.put(held);
    let accesses = match read(alloc, accesses) {
        Ok(accesses) => accesses,
        Err(status) => return status,
    };
    let reply = vm.step(alloc, Event::JobBegin { accesses });
    *number = number_of(&reply);
    of_reply(&reply)
}

fn read(alloc: Global, accesses: &[JobAccess]) -> Result<Vec<Access>, u32>
    ensures { AreRead accesses.now result }
{
    let Ok(mut list) = Vec::with_capacity(alloc, accesses.len()) else {
        return Err(OUT_OF_MEMORY);
    };
    for access in accesses {
        let Some(usage) = usage_in(access.usage) else {
            return Err(BAD_ARGUMENT);
        };
        list.push_reserved(Access {
            addr: access.address,
            usage,
        });
    }
    Ok(list)
}

fn usage_in(usage: u32) -> Option<Usage>
    ensures { result ≡ usage_of usage }
{
    match usage {
        0 => Some(Usage::Read),
        1 => Some(Usage::Write),
        _ => None,
    }
}
