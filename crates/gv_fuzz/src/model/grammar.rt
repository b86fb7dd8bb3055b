//! The words of a line, read by its form. A name is read as its index.
use super::forms::{Form, Verb};
use super::names::{Names, id_of, index_of};
use gv_types::{Flags, Op, Point};

/// So many queues there are.
const QUEUES: u64 = 16;

/// What a line, a clause or an access says: a number for each word behind its keyword.
#[derive(Clone, Copy)]
pub struct Said {
    pub verb: Verb,
    pub numbers: [u64; 5],
}

/// What some words between single spaces say, if they are of one of the forms.
pub fn said_by(names: &Names, forms: &[Form], text: &str) -> Option<Said> {
    let mut words = text.split(' ');
    let keyword = words.next()?;
    let (_, letters, verb) = *forms.iter().find(|form| form.0 == keyword)?;
    let mut numbers = [0; 5];
    for (letter, number) in letters.bytes().zip(numbers.iter_mut()) {
        *number = number_for(names, letter, words.next())?;
    }
    match words.next() {
        Some(_) => None,
        None => Some(Said { verb, numbers }),
    }
}

/// The number that a word stands for, if it is what the letter asks for.
fn number_for(names: &Names, letter: u8, word: Option<&str>) -> Option<u64> {
    match (letter, word) {
        (b'r', word) => read_only_of(word),
        (b'n', Some(word)) => number_of(word),
        (b'q', Some(word)) => number_of(word).filter(|queue| *queue < QUEUES),
        (b'd', Some(word)) => decimal_of(word).filter(|queue| *queue < QUEUES),
        (b'b', Some(word)) => index_of(&names.buffers, word),
        (b't', Some(word)) => index_of(&names.timelines, word),
        (_, word) => word.filter(is_name).map(|_| 0),
    }
}

fn read_only_of(word: Option<&str>) -> Option<u64> {
    match word {
        None => Some(0),
        Some("ro") => Some(1),
        Some(_) => None,
    }
}

/// Whether a word is a name: up to 16 letters, digits and `_` behind a letter, and not `zero`.
fn is_name(word: &&str) -> bool {
    let is_short = 0 < word.len() && word.len() <= 16;
    is_short && *word != "zero" && word.bytes().enumerate().all(is_name_byte)
}

fn is_name_byte((index, byte): (usize, u8)) -> bool {
    match byte {
        b'a'..=b'z' => true,
        b'0'..=b'9' | b'_' => index > 0,
        _ => false,
    }
}

/// A number of 64 bits, in decimal digits or in up to 16 hexadecimal ones behind `0x`.
fn number_of(word: &str) -> Option<u64> {
    match word.strip_prefix("0x") {
        Some(digits) if digits.len() <= 16 => digits_of(digits, 16),
        Some(_) => None,
        None => decimal_of(word),
    }
}

fn decimal_of(word: &str) -> Option<u64> {
    if word.len() > 1 && word.starts_with('0') {
        return None;
    }
    digits_of(word, 10)
}

fn digits_of(digits: &str, base: u64) -> Option<u64> {
    if digits.is_empty() {
        return None;
    }
    let mut number: u64 = 0;
    for byte in digits.bytes() {
        let digit = digit_of(byte).filter(|digit| *digit < base)?;
        number = number.checked_mul(base)?.checked_add(digit)?;
    }
    Some(number)
}

fn digit_of(byte: u8) -> Option<u64> {
    match byte {
        b'0'..=b'9' => Some(u64::from(byte - b'0')),
        b'a'..=b'f' => Some(u64::from(byte - b'a') + 10),
        _ => None,
    }
}

impl Said {
    /// The first number.
    pub fn first(&self) -> u64 {
        self.numbers[0]
    }

    /// The point that a timeline and a number are.
    pub fn point(&self) -> Point {
        Point {
            timeline: self.numbers[0],
            value: self.numbers[1],
        }
    }

    /// The operation. One that isn't on a range unmaps a buffer.
    pub fn op(&self) -> Op {
        let [addr, len, third, offset, last] = self.numbers;
        match self.verb {
            Verb::MapBuffer => Op::Map {
                addr,
                len,
                buffer: id_of(third),
                offset,
                flags: flags_of(last),
            },
            Verb::MapZero => Op::MapZero {
                addr,
                len,
                flags: flags_of(third),
            },
            Verb::Unmap => Op::Unmap { addr, len },
            _ => Op::UnmapBuffer {
                buffer: id_of(addr),
            },
        }
    }
}

fn flags_of(number: u64) -> Flags {
    Flags {
        read_only: number > 0,
    }
}
