//! Queues run on a new address space, and what is compared at the end.
use crate::plan::{ScriptedDriver, is_wanted};
use crate::row::{Sent, Setting, Wanted, WantedEntry};
use gv_journal::{Item, ItemKind};
use gv_queues::{Driver, Gate, QueueEnd, Queues, QueuesFault};
use gv_sync::Timelines;
use gv_types::{Bounds, Limits, Request};
use gv_vm::{QUEUES, Vm};
use std::alloc::Global;
use std::process::Abort;
use std::sync::Wait;
use std::sync::atomic::AtomicBool;
use std::test::Fail;
use std::thread::Threads;

/// How often a test of threads is run.
pub const TIMES: u32 = 100;

/// How many places a queue may have.
const MOST_PLACES: usize = 65_536;

/// What a run of queues left: the address space, the numbers of timelines 0 and 1, the driver, and what became of each queue.
pub struct Ran<'a> {
    vm: Vm,
    numbers: [u64; 2],
    plan: ScriptedDriver<'a>,
    ends: Result<Vec<QueueEnd>, QueuesFault>,
}

/// Runs queues with two new timelines. The gate tells by the flag that it was asked.
pub fn run<'a, G: Gate + Sync, R: Threads + Wait + Sync>(
    rt: &R,
    alloc: Global,
    setting: &Setting,
    gate: &G,
    asked: &'a AtomicBool,
) -> Result<Ran<'a>, Fail> {
    let [buffers, mappings, items, told] = setting.limits;
    let limits = Limits::new(buffers, mappings, items, told).ok_or("limits")?;
    let (count, depth) = (setting.count, setting.depth);
    if count == 0 || count > QUEUES as u64 || depth == 0 || depth > MOST_PLACES {
        return Err("queues".into());
    }
    let (timelines, mut seat) = Timelines::new(alloc, 2)?;
    let mut plan = ScriptedDriver::new(alloc, asked, setting.steps);
    let vm = Vm::new(alloc, Bounds::whole(), limits)?;
    let queues = Queues {
        count,
        depth,
        timelines: &timelines,
        gate,
    };
    let (vm, ends) = queues.run_queues(rt, alloc, vm, &mut seat, &mut plan);
    let first = timelines.value(&mut seat, 0);
    let second = timelines.value(&mut seat, 1);
    Ok(Ran {
        vm,
        numbers: [first, second],
        plan,
        ends,
    })
}

impl Ran<'_> {
    /// Asserts that each step was answered as wanted, that the numbers of each of so many queues agree, and that no other
    /// queue was told anything.
    pub fn expect_ends(&self, rt: &impl Abort, count: u64) {
        assert_eq!(rt; self.plan.other(), None);
        let ends = self.ends();
        let seen = [
            (count..QUEUES as u64).all(|queue| self.is_untold(queue)),
            ends.len() as u64 == count,
            self.agree(ends),
        ];
        assert_eq!(rt; seen, [true; 3]);
    }

    /// What became of each queue; of none, where they were not run.
    fn ends(&self) -> &[QueueEnd] {
        match &self.ends {
            Ok(ends) => ends.as_slice(),
            Err(_) => &[],
        }
    }

    fn agree(&self, ends: &[QueueEnd]) -> bool {
        (0..QUEUES as u64)
            .zip(ends)
            .all(|(queue, end)| self.agrees_on(queue, end))
    }

    /// Whether what was put on a queue is what was told and what is left, is the driver's count and how many of its puts were
    /// answered with a number, and whether what was told is what the address space tells.
    fn agrees_on(&self, queue: u64, end: &QueueEnd) -> bool {
        if queue >= QUEUES as u64 {
            return false;
        }
        let told = self.vm.told_next(queue);
        let put = self.plan.count(queue);
        end.told == told
            && end.put == put
            && put == self.plan.put_well(queue)
            && told <= put
            && end.left.len() as u64 == put.saturating_sub(told)
    }

    fn is_untold(&self, queue: u64) -> bool {
        queue < QUEUES as u64 && self.vm.told(queue).is_empty()
    }

    /// Asserts that these requests were left on queue 0, in order.
    pub fn expect_left(&self, rt: &impl Abort, wanted: &[Sent]) {
        let is_left = match self.ends() {
            [end, ..] => are(end.left.as_slice(), wanted),
            [] => false,
        };
        assert!(rt; is_left);
    }

    /// How many entries there are.
    pub fn entries(&self) -> usize {
        self.vm.items().len()
    }

    /// Asserts that the address space and the timelines are as wanted.
    pub fn expect(&self, rt: &impl Abort, wanted: &Wanted) {
        let vm = &self.vm;
        let seen = [
            vm.told(0) == wanted.told[0],
            vm.told(1) == wanted.told[1],
            has_entries(vm.items(), wanted.entries),
            vm.space().list().len() == wanted.mappings,
            leads(vm, wanted.zeros, true),
            leads(vm, wanted.nowhere, false),
            self.numbers == wanted.numbers,
        ];
        assert_eq!(rt; seen, [true; 7]);
    }

    pub fn close(self) {
        let Ran {
            vm,
            numbers: _,
            plan: _,
            ends: _,
        } = self;
        vm.close();
    }
}

/// Whether these are the requests that were sent, in order.
fn are(requests: &[Request], wanted: &[Sent]) -> bool {
    requests.len() == wanted.len()
        && requests
            .iter()
            .zip(wanted)
            .all(|(request, sent)| sent.is(request))
}

/// Whether all addresses lead to zeros, or all nowhere.
fn leads(vm: &Vm, addresses: &[u64], zeros: bool) -> bool {
    addresses
        .iter()
        .all(|addr| is_wanted(vm.translate(*addr), zeros))
}

/// Whether the items stand for these requests, in order.
fn has_entries(items: &[Item], wanted: &[WantedEntry]) -> bool {
    items.len() == wanted.len()
        && items
            .iter()
            .zip(wanted)
            .all(|(item, kept)| is_kept(item, kept))
}

fn is_kept(item: &Item, kept: &WantedEntry) -> bool {
    match &item.kind {
        ItemKind::Bind {
            queue,
            number,
            request,
            ..
        } => *queue == kept.0 && *number == kept.1 && kept.2.is(request),
        ItemKind::Withdrawal { .. } => false,
    }
}
