//! The C calls that make a world and free it.
ghost use Rattle.std.specs.Prelude.{◌≡◌, IfOk, None};
ghost use Rattle.gv_c.specs.Making.{IsCreated, IsGood, IsNew, destroyed};

use crate::handle::Handle;
use crate::held::Held;
use crate::status::{BAD_ARGUMENT, NO_VM, NOT_NULL, OK, OUT_OF_MEMORY};
use crate::values::Config;
use gv_types::{Bounds, Limits};
use gv_vm::{Sizes, World};
use std::alloc::{AllocFailed, Global};

/// Makes a world. `NOT_NULL` if the handle has one, `BAD_ARGUMENT` if a number is out of its range, then `OUT_OF_MEMORY`:
/// the handle is as it was.
#[unsafe(no_mangle)]
pub extern "C" fn vmbind_create(alloc: Global, vm: &mut Handle, config: &Config) -> u32
    ensures { IsCreated config.now vm.old.value result vm.new.value }
{
    if let Some(there) = vm.take(alloc) {
        vm.put(there);
        return NOT_NULL;
    }
    let world = match made(alloc, config) {
        Ok(world) => world,
        Err(NotMade::BadArgument) => return BAD_ARGUMENT,
        Err(NotMade::NoMemory) => return OUT_OF_MEMORY,
    };
    match Box::new(alloc, Held { world }) {
        Ok(held) => {
            vm.put(held);
            OK
        }
        Err(AllocFailed { value }) => {
            drop(value);
            OUT_OF_MEMORY
        }
    }
}

/// Frees the world, and leaves the handle empty. It takes no memory. `NO_VM` if it was empty.
#[unsafe(no_mangle)]
pub extern "C" fn vmbind_destroy(alloc: Global, vm: &mut Handle) -> u32
    ensures status { result ≡ destroyed vm.old.value }
    ensures empty { vm.new.value ≡ None }
{
    match vm.take(alloc) {
        Some(there) => {
            drop(there);
            OK
        }
        None => NO_VM,
    }
}

/// Why no world is made.
enum NotMade {
    BadArgument,
    NoMemory,
}

fn made(alloc: Global, config: &Config) -> Result<World, NotMade>
    ensures new { IfOk result (λ w. IsNew config.now w) }
    ensures bad { result ≡ Err NotMade.BadArgument → ¬ IsGood config.now }
    ensures memory { result ≡ Err NotMade.NoMemory → IsGood config.now }
{
    let Some(limits) = Limits::new(config.buffers, config.mappings, config.items, config.told)
    else {
        return Err(NotMade::BadArgument);
    };
    let Some(bounds) = Bounds::from_bytes(
        config.start,
        config.size,
        config.reserved_start,
        config.reserved_size,
    ) else {
        return Err(NotMade::BadArgument);
    };
    let (queues, depth, timelines) = (config.queues, config.depth, config.timelines);
    if queues < 1 || queues > 16 || depth < 1 || depth > 65_536 || timelines < 1 || timelines > 64 {
        return Err(NotMade::BadArgument);
    }
    let sizes = Sizes {
        queues,
        depth,
        timelines,
    };
    match World::new(alloc, bounds, limits, sizes) {
        Ok(world) => Ok(world),
        Err(_) => Err(NotMade::NoMemory),
    }
}
