//! Logs of VMAs by chance, against pages that are kept by the rules alone.

use crate::logs::forms::{Given, write_form};
use crate::logs::told::{expect_lines, told_at};
use gv_model::Random;
use std::alloc::{AllocError, Global};
use std::fmt::Write;

/// The pages that VMAs lie in, and how many pointers there are.
const PAGES: u64 = 16;

const POINTERS: u64 = 5;

/// The first byte of each page.
const ADDRESSES: [u64; 16] = [
    0x20_0000, 0x20_1000, 0x20_2000, 0x20_3000, 0x20_4000, 0x20_5000, 0x20_6000, 0x20_7000,
    0x20_8000, 0x20_9000, 0x20_a000, 0x20_b000, 0x20_c000, 0x20_d000, 0x20_e000, 0x20_f000,
];

/// So many logs, of so many lines.
const LOGS: u64 = 60;

const LINES: u64 = 40;

/// The event that a log begins with, which tells its address space.
const HEAD: &str =
    "xe_vma_flush: vma=f0, asid=0x00021, start=0x000000200000, end=0x000000200fff, userptr=0x0,\n";

/// Events.
const EVENTS: [&str; 16] = [
    "xe_vm_free: vm=00000000aa, asid=0x00021\n",
    "xe_vm_create: vm=00000000aa, asid=0x00021\n",
    "xe_vma_evict: vma=f$p, asid=0x00021, start=0x$S, end=0x$E, userptr=0x0,\n",
    "xe_vma_evict: vma=f$p, asid=0x00021, start=0x$S, end=0x$E, userptr=0x0,\n",
    "xe_vma_unbind: vma=f$p, asid=0x00021, start=0x$S, end=0x$E, userptr=0x0,\n",
    "xe_vma_unbind: vma=f$p, asid=0x00021, start=0x$S, end=0x$E, userptr=0x0,\n",
    "xe_vma_unbind: vma=f$p, asid=0x00021, start=0x$S, end=0x$E, userptr=0x0,\n",
    "xe_vma_unbind: vma=f$p, asid=0x00021, start=0x$S, end=0x$E, userptr=0x0,\n",
    "xe_vma_unbind: vma=f$p, asid=0x00021, start=0x$S, end=0x$E, userptr=0x0,\n",
    "xe_vma_bind: vma=f$p, asid=0x00021, start=0x$S, end=0x$E, userptr=0x0,\n",
    "xe_vma_bind: vma=f$p, asid=0x00021, start=0x$S, end=0x$E, userptr=0x0,\n",
    "xe_vma_bind: vma=f$p, asid=0x00021, start=0x$S, end=0x$E, userptr=0x0,\n",
    "xe_vma_bind: vma=f$p, asid=0x00021, start=0x$S, end=0x$E, userptr=0x0,\n",
    "xe_vma_bind: vma=f$p, asid=0x00021, start=0x$S, end=0x$E, userptr=0x0,\n",
    "xe_vma_bind: vma=f$p, asid=0x00021, start=0x$S, end=0x$E, userptr=0x0,\n",
    "xe_vma_bind: vma=f$p, asid=0x00021, start=0x$S, end=0x$E, userptr=0x0,\n",
];

/// A VMA: its first page, how many it has, and the number of its buffer; buffer 0 where none is known.
#[derive(Clone, Copy)]
struct Known {
    first: u64,
    count: u64,
    buffer: u64,
}

const UNKNOWN: Known = Known {
    first: 0,
    count: 0,
    buffer: 0,
};

/// What a page reaches: a buffer by its number, and a page of it; buffer 0 where it reaches nothing.
#[derive(Clone, Copy)]
struct Reached {
    buffer: u64,
    page: u64,
}

const NOTHING: Reached = Reached { buffer: 0, page: 0 };

/// What each page reaches, the VMA that each pointer is, and what was counted.
#[derive(Clone, Copy)]
struct Rules {
    pages: [Reached; 16],
    known: [Known; 5],
    buffers: u64,
    touched: u64,
    of_nothing: u64,
}

const EMPTY: Rules = Rules {
    pages: [NOTHING; 16],
    known: [UNKNOWN; 5],
    buffers: 0,
    touched: 1,
    of_nothing: 0,
};

impl Rules {
    fn known(&self, pointer: u64) -> Known {
        self.known.get(pointer as usize).copied().unwrap_or(UNKNOWN)
    }

    fn set_known(&mut self, pointer: u64, known: Known) {
        if let Some(slot) = self.known.get_mut(pointer as usize) {
            *slot = known;
        }
    }

    /// How many pages of a range reach anything, and how many just their page of the buffer.
    fn reached(&self, range: Known) -> (u64, u64) {
        let (mut anything, mut standing) = (0u64, 0u64);
        for page in 0..range.count {
            let at = range.first.wrapping_add(page) as usize;
            let reached = self.pages.get(at).copied().unwrap_or(NOTHING);
            let is_there = reached.buffer == range.buffer && reached.page == page;
            anything = anything.wrapping_add(u64::from(reached.buffer != 0));
            standing = standing.wrapping_add(u64::from(is_there));
        }
        (anything, standing)
    }

    /// The pages of a range reach those of the buffer.
    fn reach(&mut self, range: Known) {
        for page in 0..range.count {
            if let Some(slot) = self.pages.get_mut(range.first.wrapping_add(page) as usize) {
                let buffer = range.buffer;
                *slot = Reached { buffer, page };
            }
        }
    }

    /// A buffer is reached nowhere.
    fn drop_buffer(&mut self, buffer: u64) {
        for reached in self.pages.iter_mut() {
            if reached.buffer == buffer {
                *reached = NOTHING;
            }
        }
    }

    fn bind(&mut self, pointer: u64, first: u64, count: u64) {
        let known = self.known(pointer);
        let is_there = known.buffer != 0 && known.first == first && known.count == count;
        if is_there && self.reached(known).1 == count {
            self.touched = self.touched.wrapping_add(1);
            return;
        }
        self.drop_buffer(known.buffer);
        self.buffers = self.buffers.wrapping_add(1);
        let known = Known {
            first,
            count,
            buffer: self.buffers,
        };
        self.set_known(pointer, known);
        self.reach(known);
    }

    fn unbind(&mut self, pointer: u64, first: u64, count: u64) {
        let known = self.known(pointer);
        let is_there = known.buffer != 0 && known.first == first && known.count == count;
        if !is_there {
            self.drop_buffer(known.buffer);
        }
        let is_good = is_there && self.reached(known).0 > 0;
        self.of_nothing = self.of_nothing.wrapping_add(u64::from(!is_good));
        self.set_known(pointer, UNKNOWN);
        let buffer = 0;
        self.reach(Known {
            first,
            count,
            buffer,
        });
    }

    /// An event is carried out.
    fn take(&mut self, event: &str, pointer: u64, first: u64, count: u64) {
        if event.contains("_bind") {
            self.bind(pointer, first, count);
        } else if event.contains("_unbind") {
            self.unbind(pointer, first, count);
        } else if event.contains("_evict") {
            self.touched = self.touched.wrapping_add(1);
        } else {
            let pages = EMPTY.pages;
            let known = EMPTY.known;
            self.pages = pages;
            self.known = known;
        }
    }
}

/// Writes a line, and carries it out by the rules. Half of the ranges are those of the VMA.
fn write_line(log: &mut String, random: &mut Random, rules: &mut Rules) -> Result<(), AllocError> {
    let pointer = random.below(POINTERS);
    let known = rules.known(pointer);
    let mut first = random.below(PAGES);
    let most = PAGES.wrapping_sub(first).min(6);
    let mut count = random.below(most.max(1)).wrapping_add(1);
    if known.buffer != 0 && random.is_one_in(2) {
        (first, count) = (known.first, known.count);
    }
    let event = EVENTS.get(random.below(16) as usize).copied().unwrap_or("");
    rules.take(event, pointer, first, count);
    let start = first.wrapping_mul(0x1000).wrapping_add(0x20_0000);
    let end = count
        .wrapping_mul(0x1000)
        .wrapping_add(start)
        .wrapping_sub(1);
    let numbers = [(b'p', pointer), (b'S', start), (b'E', end)];
    write_form(log, event, &mut Given(&numbers))
}

/// Writes the line of the report that the page of an address comes to.
fn write_page(wanted: &mut String, addr: u64, reached: Reached) -> Result<(), AllocError> {
    let Reached { buffer, page } = reached;
    let offset = page.wrapping_mul(0x1000);
    if buffer == 0 {
        writeln!(wanted, "0x{addr:x}: none")
    } else {
        writeln!(wanted, "0x{addr:x}: b{buffer} 0x{offset:x}")
    }
}

/// Writes the lines of the report that counts and pages come to.
fn write_wanted(wanted: &mut String, rules: &Rules) -> Result<(), AllocError> {
    let (touched, of_nothing) = (rules.touched, rules.of_nothing);
    writeln!(
        wanted,
        "{touched:>6} events that only touch what stands\n{of_nothing:>6} unmaps of nothing"
    )?;
    for (addr, reached) in ADDRESSES.iter().zip(rules.pages.iter()) {
        write_page(wanted, *addr, *reached)?;
    }
    Ok(())
}

/// The log of a seed, whose lines are carried out by the rules.
fn log_of(alloc: Global, seed: u64, rules: &mut Rules) -> Result<String, AllocError> {
    let mut random = Random::new(seed);
    let mut log = String::from_str(alloc, HEAD)?;
    for _ in 0..LINES {
        write_line(&mut log, &mut random, rules)?;
    }
    Ok(log)
}

#[test]
fn logs_of_xe_come_to_what_the_rules_say(rt: HostRuntime) -> Result<(), AllocError> {
    for seed in 0..LOGS {
        let mut rules = EMPTY;
        let log = log_of(rt.alloc(), seed, &mut rules)?;
        let mut wanted = String::new(rt.alloc());
        write_wanted(&mut wanted, &rules)?;
        let told = told_at(rt.alloc(), "--format xe", &ADDRESSES, log.as_bytes())?;
        expect_lines(&rt, log.as_str(), told.as_str(), wanted.as_str());
    }
    Ok(())
}
