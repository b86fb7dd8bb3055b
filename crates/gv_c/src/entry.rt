//! Entries of the journal, as they cross to C.
ghost use Rattle.std.specs.Prelude.{◌≡◌, map, length};
ghost use Rattle.gv_c.specs.Entries.{IsEntry, asked_in, c_op, c_info, no_info};
ghost use Rattle.gv_c.specs.Lists.{IsWritten};

use crate::handle::Handle;
use crate::lists::fitting;
use crate::status::{NO_VM, OK, of};
use crate::values::{Buffer, MAP, MAP_ZERO, Operation, UNMAP, UNMAP_ALL, bits_of};
use gv_journal::{HeldItem, Item, ItemKind};
use gv_types::{Fault, Op};
use std::alloc::Global;

/// Kinds of entries.
pub const BIND: u32 = 1;

pub const WITHDRAWAL: u32 = 2;

/// An entry of the journal.
#[repr(C)]
#[derive(Clone, Copy)]
pub struct EntryInfo {
    pub kind: u32,
    pub withdrawn: u32,
    pub queue: u64,
    pub number: u64,
    pub ops: u64,
    pub of: u64,
}

/// Writes an entry that is held, and its first operations as they were asked for, as room allows.
#[unsafe(no_mangle)]
pub extern "C" fn vmbind_entry(
    alloc: Global,
    vm: &mut Handle,
    entry: u64,
    info: &mut EntryInfo,
    list: &mut [Operation],
    count: &mut u64,
) -> u32
    ensures entry { IsEntry vm.old.value entry list.old result info.new list.new count.new }
    ensures same { vm.new.value ≡ vm.old.value }
{
    *info = EntryInfo::none();
    *count = 0;
    let Some(held) = vm.take(alloc) else {
        return NO_VM;
    };
    let status = match held.world.vm().entry(entry) {
        Some(HeldItem { item, is_withdrawn }) => {
            *info = EntryInfo::of(item, is_withdrawn);
            *count = write_asked(list, item);
            OK
        }
        None => of(Fault::NoEntry),
    };
    vm.put(held);
    status
}

impl EntryInfo {
    /// No entry.
    fn none() -> EntryInfo
        ensures { result ≡ no_info }
    {
        EntryInfo {
            kind: 0,
            withdrawn: 0,
            queue: 0,
            number: 0,
            ops: 0,
            of: 0,
        }
    }

    fn of(item: &Item, is_withdrawn: bool) -> EntryInfo
        ensures { result ≡ c_info item.now.kind is_withdrawn }
    {
        match &item.kind {
            ItemKind::Bind {
                queue,
                number,
                request,
                ..
            } => EntryInfo {
                kind: BIND,
                withdrawn: if is_withdrawn { 1 } else { 0 },
                queue: *queue,
                number: *number,
                ops: request.ops.len() as u64,
                of: 0,
            },
            ItemKind::Withdrawal { of } => EntryInfo {
                kind: WITHDRAWAL,
                withdrawn: if is_withdrawn { 1 } else { 0 },
                of: *of,
                ..EntryInfo::none()
            },
        }
    }
}

/// Writes the operations of a request as they were asked for, and answers how many.
fn write_asked(list: &mut [Operation], item: &Item) -> u64
    ensures { IsWritten (map c_op (asked_in item.now.kind)) 0 list.old list.new result (length (asked_in item.now.kind)) }
{
    match &item.kind {
        ItemKind::Bind { request, .. } => write_ops(list, &request.ops),
        ItemKind::Withdrawal { .. } => 0,
    }
}

fn write_ops(list: &mut [Operation], ops: &[Op]) -> u64
    ensures { IsWritten (map c_op ops.now) 0 list.old list.new result (length ops.now) }
{
    let count = fitting(list.len(), ops.len(), 0);
    for k in 0..count {
        list[k] = operation_of(&ops[k]);
    }
    count as u64
}

/// An operation in bytes, with zeros in the fields that its kind doesn't have.
fn operation_of(op: &Op) -> Operation
    ensures { result ≡ c_op op.now }
{
    let none = Operation {
        kind: 0,
        flags: 0,
        start: 0,
        size: 0,
        buffer: Buffer::none(),
        offset: 0,
    };
    match *op {
        Op::Map {
            addr,
            len,
            buffer,
            offset,
            flags,
        } => Operation {
            kind: MAP,
            flags: bits_of(flags),
            start: addr,
            size: len,
            buffer: Buffer::of(buffer),
            offset,
        },
        Op::MapZero { addr, len, flags } => Operation {
            kind: MAP_ZERO,
            flags: bits_of(flags),
            start: addr,
            size: len,
            ..none
        },
        Op::Unmap { addr, len } => Operation {
            kind: UNMAP,
            start: addr,
            size: len,
            ..none
        },
        Op::UnmapBuffer { buffer } => Operation {
            kind: UNMAP_ALL,
            buffer: Buffer::of(buffer),
            ..none
        },
    }
}
