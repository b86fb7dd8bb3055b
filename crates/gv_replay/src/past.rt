//! What addresses reached before, told by the held entries that cover them.

use crate::act::Act;
use crate::machine::Machine;
use gv_types::Op;
use gv_vm::Place as Reached;
use std::alloc::{AllocError, Global};
use std::collections::VecDeque;

/// An entry that covers an address, and what the address reached before it.
#[derive(Clone, Copy)]
pub struct Before {
    pub act: Act,
    pub reached: Option<Reached>,
}

/// An address: what it reaches, and what it reached before each entry that covers it, the newest first.
#[derive(Drop)]
pub struct Past {
    pub addr: u64,
    pub now: Option<Reached>,
    pub before: Vec<Before>,
}

impl Past {
    /// An entry covers the address, before which it reached this.
    fn add(&mut self, act: &Act, reached: Option<Reached>) -> Result<(), AllocError> {
        // The borrow checker proves this only where the function names the types inside the act.
        let _op = Op::Unmap { addr: 0, len: 0 };
        self.before.push(Before { act: *act, reached })?;
        Ok(())
    }
}

/// The past of each address, as far as entries are held, whose acts these are. Nothing is taken back.
pub fn pasts_of(
    alloc: Global,
    machine: &Machine,
    acts: &VecDeque<Act>,
    addresses: &[u64],
) -> Result<Vec<Past>, AllocError> {
    let mut pasts = Vec::new(alloc);
    for addr in addresses {
        pasts.push(past_of(alloc, machine, acts, *addr)?)?;
    }
    Ok(pasts)
}

/// The past of an address. What an entry says that covers it is what the next newer one found there; the oldest one found what lies
/// under all that are held.
fn past_of(
    alloc: Global,
    machine: &Machine,
    acts: &VecDeque<Act>,
    addr: u64,
) -> Result<Past, AllocError> {
    let mut past = Past {
        addr,
        now: machine.reached(addr),
        before: Vec::new(alloc),
    };
    let mut newer: Option<&Act> = None;
    let items = match machine.past(alloc, addr) {
        Ok(items) => items,
        Err(_) => return Err(AllocError),
    };
    for item in &items {
        if let Some(act) = newer {
            past.add(act, item.place)?;
        }
        newer = acts.get(item.entry.saturating_sub(machine.first()) as usize);
    }
    if let Some(act) = newer {
        past.add(act, machine.base_at(addr))?;
    }
    Ok(past)
}
