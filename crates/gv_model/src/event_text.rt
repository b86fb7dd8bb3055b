//! Events as text: a word with its numbers, and behind each semicolon a part of what is asked for.
//!
//! ```text
//! put QUEUE [; PART ..]    take QUEUE   look QUEUE   bind QUEUE   give_up QUEUE   pay QUEUE   raise TIMELINE VALUE
//! create PAGES   destroy BUFFER   rewind   withdraw ENTRY   settle TO   forget QUEUE TO   trim   job [; PART ..]   end JOB   at ADDR
//!
//! map PAGE [COUNT BUFFER OF TIMES STRIDE SHIFT READ_ONLY]    zero PAGE [COUNT ..]   unmap PAGE [COUNT ..]   unmap_all BUFFER
//! wait TIMELINE VALUE   signal TIMELINE VALUE   read ADDR   write ADDR
//! ```
//!
//! A part comes TIMES over, each time STRIDE pages further on. Numbers that are left out are those of `OMITTED`. A line with another
//! word, or with what is no number, is no event.
use gv_buffers::Usage;
use gv_types::{BufferId, Flags, Op, OutOfMemory, PAGE_BYTES, Point, Request};
use gv_vm::{Access, Event};
use std::alloc::Global;

/// What stands between the parts of a line.
const BETWEEN: &str = " ; ";

/// How many numbers a word has at most.
const NUMBERS: usize = 8;

/// The numbers that are left out.
const OMITTED: [u64; NUMBERS] = [0, 1, 0, 0, 1, 1, 0, 0];

/// The words.
const WORDS: &[&str] = &[
    "put",
    "take",
    "look",
    "bind",
    "give_up",
    "pay",
    "raise",
    "create",
    "destroy",
    "rewind",
    "withdraw",
    "settle",
    "forget",
    "trim",
    "job",
    "end",
    "at",
    "map",
    "zero",
    "unmap",
    "unmap_all",
    "wait",
    "signal",
    "read",
    "write",
];

/// What stands for an operation that is none of these: every space refuses it.
const NO_OPERATION: Op = Op::Unmap { addr: 1, len: 1 };

/// A word with its numbers.
#[derive(Clone, Copy)]
struct Part<'a> {
    word: &'a str,
    numbers: [u64; NUMBERS],
}

/// A number in decimal, or in hexadecimal behind 0x.
pub fn number_of(word: &str) -> u64 {
    let (digits, radix) = match word.strip_prefix("0x") {
        Some(digits) => (digits, 16u64),
        None => (word, 10),
    };
    let mut number = 0u64;
    for digit in digits.bytes() {
        number = number.wrapping_mul(radix).wrapping_add(value_of(digit));
    }
    number
}

fn value_of(digit: u8) -> u64 {
    match digit {
        b'0'..=b'9' => u64::from(digit - b'0'),
        b'a'..=b'f' => u64::from(digit - b'a') + 10,
        _ => 0,
    }
}

/// Whether a word is a number, as `number_of` reads it.
fn is_number(word: &str) -> bool {
    match word.strip_prefix("0x") {
        Some(digits) => digits
            .bytes()
            .all(|digit| matches!(digit, b'0'..=b'9' | b'a'..=b'f')),
        None => word.bytes().all(|digit| digit.is_ascii_digit()),
    }
}

/// Whether a text is a known word with its numbers.
fn is_part(text: &str) -> bool {
    for (position, word) in text.split_whitespace().enumerate() {
        let is_known = match position {
            0 => WORDS.contains(&word),
            1..=NUMBERS => is_number(word),
            _ => false,
        };
        if !is_known {
            return false;
        }
    }
    true
}

/// Whether each part of a line is one.
fn is_known(text: &str) -> bool {
    for part in text.split(BETWEEN) {
        if !is_part(part) {
            return false;
        }
    }
    true
}

fn part_of(text: &str) -> Part<'_> {
    let mut part = Part {
        word: "",
        numbers: OMITTED,
    };
    for (position, word) in text.split_whitespace().enumerate() {
        part.take(position, word);
    }
    part
}

impl<'a> Part<'a> {
    /// The word first, then its numbers.
    fn take(&mut self, position: usize, word: &'a str) {
        if position == 0 {
            self.word = word;
        } else if position <= NUMBERS {
            self.numbers[position - 1] = number_of(word);
        }
    }

    /// The operation that comes `k` times later.
    fn op(&self, ids: &[BufferId], k: u64) -> Option<Op> {
        let [first, count, buffer, of, _, stride, shift, read_only] = self.numbers;
        let addr = bytes(first.wrapping_add(k.wrapping_mul(stride))).wrapping_add(shift);
        let len = bytes(count);
        let flags = Flags {
            read_only: read_only > 0,
        };
        match self.word {
            "map" => Some(Op::Map {
                addr,
                len,
                buffer: id_at(ids, buffer),
                offset: bytes(of.wrapping_add(k)),
                flags,
            }),
            "zero" => Some(Op::MapZero { addr, len, flags }),
            "unmap" => Some(Op::Unmap { addr, len }),
            "unmap_all" => Some(Op::UnmapBuffer {
                buffer: id_at(ids, first),
            }),
            _ => None,
        }
    }

    fn point(&self) -> Point {
        Point {
            timeline: self.numbers[0],
            value: self.numbers[1],
        }
    }

    fn access(&self, usage: Usage) -> Access {
        Access {
            addr: self.numbers[0],
            usage,
        }
    }
}

fn bytes(pages: u64) -> u64 {
    pages.wrapping_mul(PAGE_BYTES)
}

/// The buffer at a position, and one that there never was where there is none.
fn id_at(ids: &[BufferId], position: u64) -> BufferId {
    match ids.get(position as usize) {
        Some(id) => *id,
        None => BufferId::new(u32::MAX, 0),
    }
}

/// What a line asks for behind its first part.
#[derive(Drop)]
struct Asked {
    ops: Vec<Op>,
    waits: Vec<Point>,
    signals: Vec<Point>,
    accesses: Vec<Access>,
}

impl Asked {
    fn add(&mut self, ids: &[BufferId], part: &Part<'_>, k: u64) -> Result<(), OutOfMemory> {
        match part.word {
            "wait" => self.waits.push(part.point())?,
            "signal" => self.signals.push(part.point())?,
            "read" => self.accesses.push(part.access(Usage::Read))?,
            "write" => self.accesses.push(part.access(Usage::Write))?,
            _ => self.ops.push(part.op(ids, k).unwrap_or(NO_OPERATION))?,
        }
        Ok(())
    }

    /// Adds a part as often as it comes.
    fn add_all(&mut self, ids: &[BufferId], part: &Part<'_>) -> Result<(), OutOfMemory> {
        for k in 0..part.numbers[4] {
            self.add(ids, part, k)?;
        }
        Ok(())
    }
}

fn asked_by(alloc: Global, ids: &[BufferId], text: &str) -> Result<Asked, OutOfMemory> {
    let mut asked = Asked {
        ops: Vec::new(alloc),
        waits: Vec::new(alloc),
        signals: Vec::new(alloc),
        accesses: Vec::new(alloc),
    };
    for part in text.split(BETWEEN).skip(1) {
        asked.add_all(ids, &part_of(part))?;
    }
    Ok(asked)
}

/// The request that a line asks for. A buffer is named by its position among these.
pub fn request_in(alloc: Global, ids: &[BufferId], text: &str) -> Result<Request, OutOfMemory> {
    let Asked {
        ops,
        waits,
        signals,
        accesses: _,
    } = asked_by(alloc, ids, text)?;
    Ok(Request {
        ops,
        waits,
        signals,
    })
}

/// The event that a line stands for, if it is one. A buffer is named by its position among these.
pub fn event_in(alloc: Global, ids: &[BufferId], text: &str) -> Result<Option<Event>, OutOfMemory> {
    if !is_known(text) {
        return Ok(None);
    }
    let part = part_of(text);
    let number = part.numbers[0];
    match part.word {
        "put" => Ok(Some(Event::Put {
            queue: number,
            request: request_in(alloc, ids, text)?,
        })),
        "job" => Ok(Some(Event::JobBegin {
            accesses: asked_by(alloc, ids, text)?.accesses,
        })),
        "destroy" => Ok(Some(Event::Destroy {
            id: id_at(ids, number),
        })),
        _ => Ok(of_numbers(&part)),
    }
}

/// An event that is a word and numbers alone.
fn of_numbers(part: &Part<'_>) -> Option<Event> {
    let [first, second, ..] = part.numbers;
    Some(match part.word {
        "take" => Event::Take { queue: first },
        "look" => Event::Look { queue: first },
        "bind" => Event::Bind { queue: first },
        "give_up" => Event::GiveUp { queue: first },
        "pay" => Event::Pay { queue: first },
        "raise" => Event::Raise {
            point: part.point(),
        },
        "create" => Event::Create { pages: first },
        "rewind" => Event::Rewind,
        "withdraw" => Event::Withdraw { entry: first },
        "settle" => Event::Settle { to: first },
        "forget" => Event::Forget {
            queue: first,
            to: second,
        },
        "trim" => Event::Trim,
        "end" => Event::JobEnd { job: first },
        "at" => Event::Translate { addr: first },
        _ => return None,
    })
}
