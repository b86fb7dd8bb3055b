//! What the entries of the journal did to an address, as it crosses to C.
ghost use Rattle.std.specs.Prelude.{◌≡◌, map, length};
ghost use Rattle.gv_vm.specs.AddressPast.{past_of, place_under};
ghost use Rattle.gv_c.specs.Lists.{IsWritten};
ghost use Rattle.gv_c.specs.Past.{IsPast, ArePast, IsBase, c_past};
ghost use Rattle.gv_c.specs.Values.{c_place};

use crate::handle::Handle;
use crate::lists::{Listing, fitting};
use crate::space_values::{Translation, bit};
use crate::status::{NO_VM, OK, OUT_OF_MEMORY};
use gv_vm::{PastItem, Vm};
use std::alloc::Global;

/// What an entry did to an address: what the address reached by it, and whether a later entry withdraws it.
#[repr(C)]
#[derive(Clone, Copy)]
pub struct PastEntry {
    pub entry: u64,
    pub withdrawn: u32,
    pub reserved: u32,
    pub place: Translation,
}

/// Lists what the held entries did to an address, the newest first: from the one with the number `from` on, as room
/// allows. Nothing is undone.
#[unsafe(no_mangle)]
pub extern "C" fn vmbind_past(
    alloc: Global,
    vm: &mut Handle,
    address: u64,
    from: u64,
    list: &mut [PastEntry],
    count: &mut u64,
    total: &mut u64,
) -> u32
    ensures past { IsPast vm.old.value address from list.old result list.new count.new total.new }
    ensures same { vm.new.value ≡ vm.old.value }
{
    *count = 0;
    *total = 0;
    let Some(held) = vm.take(alloc) else {
        return NO_VM;
    };
    let listing = write_past(alloc, held.world.vm(), address, from, list);
    vm.put(held);
    *count = listing.count;
    *total = listing.total;
    listing.status
}

/// What an address would reach if all held entries were undone.
#[unsafe(no_mangle)]
pub extern "C" fn vmbind_base(
    alloc: Global,
    vm: &mut Handle,
    address: u64,
    translation: &mut Translation,
) -> u32
    ensures base { IsBase vm.old.value address result translation.new }
    ensures same { vm.new.value ≡ vm.old.value }
{
    let Some(held) = vm.take(alloc) else {
        *translation = Translation::of(None, 0);
        return NO_VM;
    };
    *translation = under(held.world.vm(), address);
    vm.put(held);
    OK
}

fn under(vm: &Vm, address: u64) -> Translation
    ensures { result ≡ c_place (place_under vm.now address) 0 }
{
    Translation::of(vm.base_at(address), 0)
}

fn write_past(alloc: Global, vm: &Vm, address: u64, from: u64, list: &mut [PastEntry]) -> Listing
    ensures { ArePast (past_of vm.now.journal address) from list.old result.status list.new result.count result.total }
{
    match vm.past(alloc, address) {
        Ok(past) => {
            let all = past.as_slice();
            Listing {
                status: OK,
                count: write_entries(list, all, from),
                total: all.len() as u64,
            }
        }
        Err(_) => Listing {
            status: OUT_OF_MEMORY,
            count: 0,
            total: 0,
        },
    }
}

fn write_entries(list: &mut [PastEntry], past: &[PastItem], from: u64) -> u64
    ensures { IsWritten (map c_past past.now) from list.old list.new result (length past.now) }
{
    let count = fitting(list.len(), past.len(), from);
    for k in 0..count {
        list[k] = PastEntry::of(&past[from as usize + k]);
    }
    count as u64
}

impl PastEntry {
    fn of(item: &PastItem) -> PastEntry
        ensures { result ≡ c_past item.now }
    {
        PastEntry {
            entry: item.entry,
            withdrawn: bit(item.is_withdrawn),
            reserved: 0,
            place: Translation::of(item.place, 0),
        }
    }
}
