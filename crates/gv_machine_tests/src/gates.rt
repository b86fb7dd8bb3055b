//! Gates, each of which gives up or stops holding a worker after a stated number of turns.
ghost use Rattle.std.specs.Prelude.{◌<◌, IfSome};

use gv_queues::{Gate, Turn};
use gv_sync::Lacking;
use gv_types::Point;
use std::sync::atomic::Ordering::SeqCst;
use std::sync::atomic::{AtomicBool, AtomicU64};
use std::thread;

/// How often a test turns for another thread at most.
pub const TURNS: u64 = 10_000_000;

/// Turns until a flag is set, `TURNS` times at most. Whether it was seen set.
pub fn await_flag(flag: &AtomicBool) -> bool {
    for _ in 0..TURNS {
        if flag.load(SeqCst) {
            return true;
        }
        thread::yield_now();
    }
    false
}

/// Gives a request up at so many turns, and tells by a flag that it was asked for queue 0. It may hold queue 1 before the
/// lock until then.
#[derive(Drop)]
pub struct Patience<'a> {
    pub turns: u64,
    pub asked: &'a AtomicBool,
    pub holds: bool,
}

impl Gate for Patience<'_> {
    fn turn(&self, queue: u64, _number: u64, _lacking: &Lacking, turns: u64) -> Turn {
        if queue == 0 {
            self.asked.store(true, SeqCst);
        }
        if turns < self.turns {
            Turn::GoOn
        } else {
            Turn::GiveUp
        }
    }

    fn before_lock(&self, queue: u64, _number: u64) {
        if self.holds && queue == 1 {
            await_flag(self.asked);
        }
    }
}

/// Lets the workers of queues 0 and 1 meet: each turns before the lock until it sees that the other came there.
#[derive(Drop)]
pub struct Meeting {
    came: [AtomicBool; 2],
    met: [AtomicBool; 2],
}

impl Meeting {
    pub fn new() -> Meeting {
        Meeting {
            came: [AtomicBool::new(false), AtomicBool::new(false)],
            met: [AtomicBool::new(false), AtomicBool::new(false)],
        }
    }

    /// Whether each saw the other.
    pub fn both_met(&self) -> bool {
        self.met[0].load(SeqCst) && self.met[1].load(SeqCst)
    }
}

impl Gate for Meeting {
    fn turn(&self, _queue: u64, _number: u64, _lacking: &Lacking, _turns: u64) -> Turn {
        Turn::GiveUp
    }

    fn before_lock(&self, queue: u64, _number: u64) {
        let (own, other) = if queue == 0 { (0, 1) } else { (1, 0) };
        self.came[own].store(true, SeqCst);
        let met = await_flag(&self.came[other]);
        self.met[own].store(met, SeqCst);
    }
}

/// Counts how often it is asked, for one request. It tells by a flag that it was asked, and gives the request up when it was
/// asked ten times for timeline 1.
#[derive(Drop)]
pub struct Counting<'a> {
    pub asked: &'a AtomicBool,
    calls: AtomicU64,
    calls_of_second: AtomicU64,
    miscounted: AtomicBool,
}

impl<'a> Counting<'a> {
    pub fn new(asked: &'a AtomicBool) -> Counting<'a> {
        Counting {
            asked,
            calls: AtomicU64::new(0),
            calls_of_second: AtomicU64::new(0),
            miscounted: AtomicBool::new(false),
        }
    }

    /// How often it was asked in all, and how often of that for timeline 1. None where a number of turns was not how often
    /// it had been asked.
    pub fn calls(&self) -> Option<(u64, u64)> {
        if self.miscounted.load(SeqCst) {
            return None;
        }
        Some((self.calls.load(SeqCst), self.calls_of_second.load(SeqCst)))
    }
}

impl Gate for Counting<'_> {
    fn turn(&self, _queue: u64, _number: u64, lacking: &Lacking, turns: u64) -> Turn {
        let before = self.calls.fetch_add(1, SeqCst);
        if turns != before.wrapping_add(1) {
            self.miscounted.store(true, SeqCst);
        }
        self.asked.store(true, SeqCst);
        if lacking.point().timeline == 0 {
            return if turns < TURNS {
                Turn::GoOn
            } else {
                Turn::GiveUp
            };
        }
        if self.calls_of_second.fetch_add(1, SeqCst) < 9 {
            Turn::GoOn
        } else {
            Turn::GiveUp
        }
    }

    fn before_lock(&self, _queue: u64, _number: u64) {}
}

/// At how many turns each request is given up: those of queue 0 first, two of each queue.
const PATIENCE: [u64; 4] = [3, 5, 7, 9];

/// The points that the requests wait for where a roll is called, those of queue 0 first.
const AWAITED: [Point; 4] = [
    Point {
        timeline: 0,
        value: 10,
    },
    Point {
        timeline: 0,
        value: 11,
    },
    Point {
        timeline: 1,
        value: 10,
    },
    Point {
        timeline: 1,
        value: 11,
    },
];

/// Gives each of two requests on each of two queues up at a number of turns of its own. It counts how often it is asked for
/// each, and how often each comes to the lock.
#[derive(Drop)]
pub struct Roll {
    turns: [AtomicU64; 4],
    locks: [AtomicU64; 4],
    mistaken: AtomicBool,
}

/// The position of a request, by its queue and its number.
fn position_of(queue: u64, number: u64) -> Option<usize>
    ensures { IfSome result (λ position. position < 4) }
{
    match (queue, number) {
        (0, 0) => Some(0),
        (0, 1) => Some(1),
        (1, 0) => Some(2),
        (1, 1) => Some(3),
        _ => None,
    }
}

impl Roll {
    pub fn new() -> Roll {
        Roll {
            turns: [
                AtomicU64::new(0),
                AtomicU64::new(0),
                AtomicU64::new(0),
                AtomicU64::new(0),
            ],
            locks: [
                AtomicU64::new(0),
                AtomicU64::new(0),
                AtomicU64::new(0),
                AtomicU64::new(0),
            ],
            mistaken: AtomicBool::new(false),
        }
    }

    /// Whether each request was asked for as often as it has patience, came to the lock once, and was never named otherwise.
    pub fn is_called(&self) -> bool {
        let asked = self
            .turns
            .iter()
            .zip(PATIENCE)
            .all(|(turns, patience)| turns.load(SeqCst) == patience);
        let came = self.locks.iter().all(|locks| locks.load(SeqCst) == 1);
        asked && came && !self.mistaken.load(SeqCst)
    }
}

impl Gate for Roll {
    fn turn(&self, queue: u64, number: u64, lacking: &Lacking, turns: u64) -> Turn {
        let Some(position) = position_of(queue, number) else {
            self.mistaken.store(true, SeqCst);
            return Turn::GiveUp;
        };
        let before = self.turns[position].fetch_add(1, SeqCst);
        if turns != before.wrapping_add(1) || lacking.point() != AWAITED[position] {
            self.mistaken.store(true, SeqCst);
        }
        if turns < PATIENCE[position] {
            Turn::GoOn
        } else {
            Turn::GiveUp
        }
    }

    fn before_lock(&self, queue: u64, number: u64) {
        match position_of(queue, number) {
            Some(position) => {
                self.locks[position].fetch_add(1, SeqCst);
            }
            None => self.mistaken.store(true, SeqCst),
        }
    }
}
