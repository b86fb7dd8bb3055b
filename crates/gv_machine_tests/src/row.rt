//! Runs of queues as data: the driver's steps, the setting, and what is wanted at the end.
use gv_types::{
    Fault, Flags, MAX_BUFFERS, MAX_ITEMS, MAX_MAPPINGS, MAX_TOLD, Op, PAGE_BYTES, Point, Request,
};
use gv_vm::Outcome;
use std::alloc::{AllocError, Global};

/// A request that maps a page of zeros at each of some addresses.
pub struct Sent {
    pub zeros: &'static [u64],
    pub waits: &'static [Point],
    pub signals: &'static [Point],
}

impl Sent {
    pub fn request(&self, alloc: Global) -> Result<Request, AllocError> {
        let mut ops = Vec::new(alloc);
        for addr in self.zeros {
            ops.push(zero(*addr))?;
        }
        Ok(Request {
            ops,
            waits: Vec::from_slice(alloc, self.waits)?,
            signals: Vec::from_slice(alloc, self.signals)?,
        })
    }

    /// Whether a request is this one.
    pub fn is(&self, request: &Request) -> bool {
        request.ops.len() == self.zeros.len()
            && request
                .ops
                .iter()
                .zip(self.zeros)
                .all(|(op, addr)| *op == zero(*addr))
            && request.waits.as_slice() == self.waits
            && request.signals.as_slice() == self.signals
    }
}

/// A map of a page of zeros.
fn zero(addr: u64) -> Op {
    Op::MapZero {
        addr,
        len: PAGE_BYTES,
        flags: Flags { read_only: false },
    }
}

/// A put of a request on this queue. It is to be answered with this number, or to come back as it was.
pub struct Put(pub u64, pub Sent, pub Result<u64, Fault>);

/// What a driver does at once, and what it is to be answered.
pub enum Step {
    Put(Put),
    /// Raises a timeline.
    Raise {
        point: Point,
    },
    /// Waits until the gate was asked for queue 0.
    AwaitAsked,
    /// Waits until queue 0 was told so many outcomes, forgotten or not.
    AwaitTold {
        outcomes: u64,
    },
    /// Withdraws an entry, under the lock.
    Withdraw {
        entry: u64,
        number: Result<u64, Fault>,
    },
    /// Takes the newest entry back, under the lock.
    Rewind {
        number: Result<u64, Fault>,
    },
    /// Lets the outcomes of queue 0 below a number go, under the lock.
    Forget {
        to: u64,
        count: Result<u64, Fault>,
    },
    /// Puts a new address space in the place of the one under the lock. Each of its queues may be told so many outcomes.
    Replace {
        told: u64,
    },
    /// Looks, under the lock, whether an address leads to zeros or nowhere.
    Look {
        addr: u64,
        zeros: bool,
    },
}

/// What queues are run on.
pub struct Setting {
    /// The limits of buffers, of mappings, of entries and of outcomes told a queue.
    pub limits: [u64; 4],
    /// How many queues there are.
    pub count: u64,
    /// How many places each has.
    pub depth: usize,
    pub steps: &'static [Step],
}

/// An entry that stands for the request of this queue with this number there.
pub struct WantedEntry(pub u64, pub u64, pub Sent);

/// What is wanted of the address space and of the timelines at the end.
pub struct Wanted {
    /// What queues 0 and 1 are told, but for what is forgotten.
    pub told: [&'static [Outcome]; 2],
    /// The entries, the oldest first.
    pub entries: &'static [WantedEntry],
    /// How many mappings are in the list.
    pub mappings: usize,
    /// Addresses that lead to zeros, and some that lead nowhere.
    pub zeros: &'static [u64],
    pub nowhere: &'static [u64],
    /// The numbers of timelines 0 and 1.
    pub numbers: [u64; 2],
}

/// The greatest limits.
pub const FULL: [u64; 4] = [MAX_BUFFERS, MAX_MAPPINGS, MAX_ITEMS, MAX_TOLD];

/// A request of nothing.
pub const NOTHING: Sent = Sent {
    zeros: &[],
    waits: &[],
    signals: &[],
};

/// Point 1 of timelines 0 and 1.
pub const FIRST: Point = Point {
    timeline: 0,
    value: 1,
};

pub const SECOND: Point = Point {
    timeline: 1,
    value: 1,
};

/// A page of zeros at the first address.
pub const NOUGHT: Sent = Sent {
    zeros: &[0],
    ..NOTHING
};

/// The same, once point 1 of timeline 0 is reached.
pub const WAITS: Sent = Sent {
    zeros: &[0],
    waits: &[FIRST],
    ..NOTHING
};

/// A page of zeros one page, two and three pages further on.
pub const ONE: Sent = Sent {
    zeros: &[PAGE_BYTES],
    ..NOTHING
};

pub const TWO: Sent = Sent {
    zeros: &[2 * PAGE_BYTES],
    ..NOTHING
};

pub const THREE: Sent = Sent {
    zeros: &[3 * PAGE_BYTES],
    ..NOTHING
};
