//! What addresses reached before, worked out without asking the journal: the held entries are rewound one after another, the
//! newest first.

use crate::logs::mirror::{DIFFERS, Mirror};
use gv_journal::{Item, ItemKind};
use gv_replay::{Act, ReplayFault, Terms, number_of, watch, write_act};
use gv_text::MemorySource;
use gv_types::{Backing, Entry, Op, PAGE_BYTES, PageOp};
use gv_vm::Vm;
use std::alloc::{AllocError, Global};
use std::collections::VecDeque;
use std::fmt::Write;

/// An address, and what the report has to say of it.
#[derive(Drop)]
struct Past {
    addr: u64,
    told: String,
}

impl Past {
    /// Writes what the address reaches.
    fn write_entry(&mut self, vm: &Vm) -> Result<(), AllocError> {
        let addr = self.addr;
        let Some(Entry { backing, flags }) = vm.space().walk(addr / PAGE_BYTES) else {
            return self.told.push_str("none");
        };
        match backing {
            Backing::Buffer { id, page } => {
                let number = number_of(&id);
                let byte = page
                    .wrapping_mul(PAGE_BYTES)
                    .wrapping_add(addr % PAGE_BYTES);
                write!(self.told, "b{number} 0x{byte:x}")?;
            }
            Backing::Zero => self.told.push_str("zero")?,
        }
        self.told.push_str(if flags.read_only { " ro" } else { "" })
    }

    /// Writes what it reaches now that the newest entry, which did this, is taken back, if that covers it.
    fn add(&mut self, vm: &Vm, act: &Act, done: &[PageOp]) -> Result<(), AllocError> {
        // The borrow checker proves this only where the function names the types inside the act.
        let _op = Op::Unmap { addr: 0, len: 0 };
        if !covers(done, self.addr / PAGE_BYTES) {
            return Ok(());
        }
        self.told.push_str("  ")?;
        write_act(&mut self.told, act)?;
        self.told.push_str(": ")?;
        self.write_entry(vm)?;
        self.told.push_str(" before\n")
    }
}

/// Whether an operation covers the page.
fn covers(done: &[PageOp], page: u64) -> bool {
    for op in done {
        if let PageOp::Map { range, .. } | PageOp::Unmap { range } = op {
            if range.covers(page) {
                return true;
            }
        }
    }
    false
}

/// The operations of the newest entry as they were done: an unmap of a whole buffer is the unmaps that it stood for.
fn newest(alloc: Global, vm: &Vm) -> Result<Vec<PageOp>, AllocError> {
    match vm.items().last() {
        Some(
            Item {
                kind: ItemKind::Bind { done, .. },
                ..
            },
        ) => Vec::from_slice(alloc, done.as_slice()),
        _ => Ok(Vec::new(alloc)),
    }
}

/// Each address that is asked, as the format writes it, and what it reaches.
fn asked(alloc: Global, vm: &Vm, terms: &Terms<'_>) -> Result<Vec<Past>, AllocError> {
    let mut pasts = Vec::new(alloc);
    for addr in terms.addresses {
        pasts.push(asked_at(alloc, vm, terms.format.address(*addr))?)?;
    }
    Ok(pasts)
}

/// An address, and what it reaches.
fn asked_at(alloc: Global, vm: &Vm, addr: u64) -> Result<Past, AllocError> {
    let told = format!(in alloc; "0x{addr:x}: ")?;
    let mut past = Past { addr, told };
    past.write_entry(vm)?;
    past.told.push_str("\n")?;
    Ok(past)
}

/// Takes the newest entry back, which did this, and adds what the addresses reach then.
fn take_back(
    alloc: Global,
    vm: &mut Vm,
    act: &Act,
    pasts: &mut Vec<Past>,
) -> Result<(), ReplayFault> {
    let done = newest(alloc, vm)?;
    if vm.rewind().is_err() {
        return Err(DIFFERS);
    }
    for past in pasts.iter_mut() {
        past.add(vm, act, &done)?;
    }
    Ok(())
}

/// All that is said of the addresses, where so many of the first binds are no longer held.
fn all_told(alloc: Global, pasts: &[Past], first: u64) -> Result<String, AllocError> {
    let mut told = String::new(alloc);
    for past in pasts {
        told.push_str(past.told.as_str())?;
        if first > 0 {
            writeln!(told, "  the first {first} binds are no longer held")?;
        }
    }
    Ok(told)
}

/// What the report has to say of the addresses. Each entry that is held is taken back.
fn pasts_of(
    alloc: Global,
    vm: &mut Vm,
    acts: VecDeque<Act>,
    terms: &Terms<'_>,
) -> Result<String, ReplayFault> {
    let first = vm.first();
    let mut pasts = asked(alloc, vm, terms)?;
    for act in acts.iter().rev() {
        take_back(alloc, vm, act, &mut pasts)?;
    }
    Ok(all_told(alloc, &pasts, first)?)
}

/// The pasts that come of a log where its entries are taken back, as the report has them.
pub fn rewound(alloc: Global, log: &[u8], terms: &Terms<'_>) -> Result<String, ReplayFault> {
    let mut mirror = Mirror::new(alloc)?;
    let watched = watch(alloc, &mut MemorySource::new(log), terms, &mut mirror);
    let Mirror {
        vm,
        acts,
        made: _,
        requests: _,
        alloc: _,
    } = mirror;
    let mut vm = vm;
    let pasts = pasts_of(alloc, &mut vm, acts, terms);
    vm.close();
    watched?;
    pasts
}
