//! Calls that change nothing, and write a value.
ghost use Rattle.std.specs.Prelude.{◌≡◌, length, map};
ghost use Rattle.gv_c.specs.Values.{id_of};
ghost use Rattle.gv_c.specs.Reading.{found_in, walked_in, look_in, IsFound, AreFound, IsWalked, AreWalked, IsValue, AreUses, uses_in, AreTables, AreEntries};

use crate::handle::Handle;
use crate::space_values::{BufferUses, TableCounts, Translation};
use crate::status::{BAD_ARGUMENT, NO_VM, OK, of};
use crate::values::Buffer;
use gv_space::Space;
use gv_types::{BufferId, Fault};
use gv_vm::{Stretch, Vm};
use std::alloc::Global;

/// What an address reaches, and how many bytes from there on are in the same mapping or hole: one search in the list.
#[unsafe(no_mangle)]
pub extern "C" fn vmbind_translate(
    alloc: Global,
    vm: &mut Handle,
    address: u64,
    translation: &mut Translation,
) -> u32
    ensures found { IsFound vm.old.value address result translation.new }
    ensures same { vm.new.value ≡ vm.old.value }
{
    let Some(held) = vm.take(alloc) else {
        *translation = Translation::of(None, 0);
        return NO_VM;
    };
    *translation = found(held.world.vm(), address);
    vm.put(held);
    OK
}

/// What each of the addresses reaches. The two lists must have the same length.
#[unsafe(no_mangle)]
pub extern "C" fn vmbind_translate_many(
    alloc: Global,
    vm: &mut Handle,
    addresses: &[u64],
    translations: &mut [Translation],
) -> u32
    ensures found { AreFound vm.old.value addresses.now translations.old result translations.new }
    ensures same { vm.new.value ≡ vm.old.value }
{
    let Some(held) = vm.take(alloc) else {
        return NO_VM;
    };
    let status = if addresses.len() == translations.len() {
        look_all(held.world.vm(), addresses, translations, false);
        OK
    } else {
        BAD_ARGUMENT
    };
    vm.put(held);
    status
}

/// What an address reaches by the page table: at most five steps. `run` is 0.
#[unsafe(no_mangle)]
pub extern "C" fn vmbind_walk(
    alloc: Global,
    vm: &mut Handle,
    address: u64,
    translation: &mut Translation,
) -> u32
    ensures walked { IsWalked vm.old.value address result translation.new }
    ensures same { vm.new.value ≡ vm.old.value }
{
    let Some(held) = vm.take(alloc) else {
        *translation = Translation::of(None, 0);
        return NO_VM;
    };
    *translation = walked(held.world.vm(), address);
    vm.put(held);
    OK
}

/// What each of the addresses reaches by the page table. The two lists must have the same length.
#[unsafe(no_mangle)]
pub extern "C" fn vmbind_walk_many(
    alloc: Global,
    vm: &mut Handle,
    addresses: &[u64],
    translations: &mut [Translation],
) -> u32
    ensures walked { AreWalked vm.old.value addresses.now translations.old result translations.new }
    ensures same { vm.new.value ≡ vm.old.value }
{
    let Some(held) = vm.take(alloc) else {
        return NO_VM;
    };
    let status = if addresses.len() == translations.len() {
        look_all(held.world.vm(), addresses, translations, true);
        OK
    } else {
        BAD_ARGUMENT
    };
    vm.put(held);
    status
}

/// What an address reaches, with `run`, by one search in the list.
fn found(vm: &Vm, address: u64) -> Translation
    ensures { result ≡ found_in vm.now.space.mappings address }
{
    let Stretch { place, run } = vm.find(address);
    Translation::of(place, run)
}

/// What an address reaches by the page table.
fn walked(vm: &Vm, address: u64) -> Translation
    ensures { result ≡ walked_in vm.now.space.mappings address }
{
    Translation::of(vm.translate(address), 0)
}

/// By the page table or by the list.
fn look(vm: &Vm, address: u64, walks: bool) -> Translation
    ensures { result ≡ look_in walks vm.now.space.mappings address }
{
    if walks {
        walked(vm, address)
    } else {
        found(vm, address)
    }
}

/// What each of the addresses reaches.
fn look_all(vm: &Vm, addresses: &[u64], translations: &mut [Translation], walks: bool)
    requires { length addresses.now ≡ length translations.old }
    ensures { translations.new ≡ map (look_in walks vm.now.space.mappings) addresses.now }
{
    for k in 0..addresses.len() {
        translations[k] = look(vm, addresses[k], walks);
    }
}

/// The number of a timeline.
#[unsafe(no_mangle)]
pub extern "C" fn vmbind_timeline_value(
    alloc: Global,
    vm: &mut Handle,
    timeline: u64,
    value: &mut u64,
) -> u32
    ensures value { IsValue vm.old.value timeline result value.new }
    ensures same { vm.new.value ≡ vm.old.value }
{
    *value = 0;
    let Some(held) = vm.take(alloc) else {
        return NO_VM;
    };
    let clock = held.world.clock();
    let status = if timeline < clock.count() {
        *value = clock.value(timeline);
        OK
    } else {
        BAD_ARGUMENT
    };
    vm.put(held);
    status
}

/// How many pages a buffer has, and how many mappings of it are in the list and in undo values.
#[unsafe(no_mangle)]
pub extern "C" fn vmbind_buffer_uses(
    alloc: Global,
    vm: &mut Handle,
    buffer: Buffer,
    uses: &mut BufferUses,
) -> u32
    ensures uses { AreUses vm.old.value (id_of buffer) result uses.new }
    ensures same { vm.new.value ≡ vm.old.value }
{
    *uses = BufferUses::none();
    let Some(held) = vm.take(alloc) else {
        return NO_VM;
    };
    let status = match uses_of(held.world.vm().space(), buffer.id()) {
        Some(found) => {
            *uses = found;
            OK
        }
        None => of(Fault::NoBuffer),
    };
    vm.put(held);
    status
}

fn uses_of(space: &Space, id: BufferId) -> Option<BufferUses>
    ensures { result ≡ uses_in space.now.buffers id }
{
    Some(BufferUses {
        pages: space.pages(id)?,
        mapped: space.uses(id)?,
        kept: space.kept(id)?,
    })
}

/// How many tables there are at the levels 4 to 0.
#[unsafe(no_mangle)]
pub extern "C" fn vmbind_tables(alloc: Global, vm: &mut Handle, counts: &mut TableCounts) -> u32
    ensures tables { AreTables vm.old.value result counts.new }
    ensures same { vm.new.value ≡ vm.old.value }
{
    let Some(held) = vm.take(alloc) else {
        counts.tables = [0; 5];
        return NO_VM;
    };
    counts.tables = held.world.vm().space().tables();
    vm.put(held);
    OK
}

/// The number of the oldest entry that is held, and that of the next one.
#[unsafe(no_mangle)]
pub extern "C" fn vmbind_journal(
    alloc: Global,
    vm: &mut Handle,
    first: &mut u64,
    next: &mut u64,
) -> u32
    ensures entries { AreEntries vm.old.value result first.new next.new }
    ensures same { vm.new.value ≡ vm.old.value }
{
    *first = 0;
    *next = 0;
    let Some(held) = vm.take(alloc) else {
        return NO_VM;
    };
    *first = held.world.vm().first();
    *next = held.world.vm().next();
    vm.put(held);
    OK
}
