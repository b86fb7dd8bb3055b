//! Words that are not what their position in a form requires.
use super::cursor::{Found, past};
use crate::name::Name;
use crate::number::{decimal_of, number_of};
use crate::reason::{Form, NameSlip, NumberSlip, Reason, Slip};
use crate::words::{QUEUES, queue_of};

/// Which bytes a word may have.
#[derive(Clone, Copy)]
enum Bytes {
    OfNames,
    Hexadecimal,
    Decimal,
}

impl Bytes {
    fn has(self, byte: u8) -> bool {
        match self {
            Bytes::OfNames => matches!(byte, b'a'..=b'z' | b'0'..=b'9' | b'_'),
            Bytes::Hexadecimal => matches!(byte, b'0'..=b'9' | b'a'..=b'f'),
            Bytes::Decimal => byte.is_ascii_digit(),
        }
    }
}

/// The position of the first byte that is none of these.
fn first_other(bytes: &[u8], wanted: Bytes) -> Option<usize> {
    for (position, byte) in bytes.iter().enumerate() {
        if !wanted.has(*byte) {
            return Some(position);
        }
    }
    None
}

/// Why a word is not allowed where a form has this part. A part is a number, unless it is a name or a queue.
pub fn word_slip<'a>(part: &[u8], found: Found<'a>) -> Option<Slip<'a>> {
    let word = found.word;
    if word == b";".as_slice() {
        return Some(Slip {
            column: found.column,
            reason: Reason::Form(Form::StraySeparator),
        });
    }
    if part == b"NAME".as_slice() {
        let (position, slip) = name_slip(word)?;
        return Some(Slip {
            column: past(found.column, position),
            reason: Reason::Name { word, slip },
        });
    }
    let (position, slip) = if part == b"Q".as_slice() {
        queue_named_slip(word)?
    } else if part == b"QUEUE".as_slice() {
        queue_slip(word)?
    } else {
        number_slip(word)?
    };
    Some(Slip {
        column: past(found.column, position),
        reason: Reason::Number { word, slip },
    })
}

/// Why a word is no name, and at which of its bytes.
fn name_slip(word: &[u8]) -> Option<(usize, NameSlip)> {
    if Name::from_word(word).is_some() {
        return None;
    }
    if word == b"zero".as_slice() {
        return Some((0, NameSlip::Zero));
    }
    let (first, rest) = word.split_first()?;
    if !first.is_ascii_lowercase() {
        return Some((0, NameSlip::Start));
    }
    match first_other(rest, Bytes::OfNames) {
        Some(position) => Some((position.saturating_add(1), NameSlip::Byte)),
        None => Some((0, NameSlip::Long)),
    }
}

/// Why a word is no number, and at which of its bytes.
fn number_slip(word: &[u8]) -> Option<(usize, NumberSlip)> {
    if number_of(word).is_some() {
        return None;
    }
    if let Some(digits) = word.strip_prefix(b"0x") {
        return Some(hex_slip(digits));
    }
    let first = *word.first()?;
    Some(if first == b'-' || first == b'+' {
        (0, NumberSlip::Signed)
    } else if word.starts_with(b"0X") {
        (1, NumberSlip::CapitalPrefix)
    } else if first.is_ascii_digit() {
        decimal_slip(word)
    } else {
        (0, NumberSlip::NoNumber)
    })
}

fn hex_slip(digits: &[u8]) -> (usize, NumberSlip) {
    if digits.is_empty() {
        return (0, NumberSlip::NoDigits);
    }
    match first_other(digits, Bytes::Hexadecimal) {
        Some(position) => (position.saturating_add(2), NumberSlip::HexDigit),
        None => (0, NumberSlip::ManyDigits),
    }
}

fn decimal_slip(word: &[u8]) -> (usize, NumberSlip) {
    match first_other(word, Bytes::Decimal) {
        Some(position) => (position, NumberSlip::DecimalDigit),
        None if word.first() == Some(&b'0') => (0, NumberSlip::LeadingZero),
        None => (0, NumberSlip::TooGreat),
    }
}

/// Why a word names no queue by a number.
fn queue_slip(word: &[u8]) -> Option<(usize, NumberSlip)> {
    match number_of(word) {
        Some(number) => absent_slip(number),
        None => number_slip(word),
    }
}

/// Why a word names no queue by a decimal number.
fn queue_named_slip(word: &[u8]) -> Option<(usize, NumberSlip)> {
    match decimal_of(word) {
        Some(number) => absent_slip(number),
        None => Some(number_slip(word).unwrap_or((0, NumberSlip::HexQueue))),
    }
}

/// Whether the number is of no queue.
fn absent_slip(number: u64) -> Option<(usize, NumberSlip)> {
    match queue_of(number) {
        Some(_) => None,
        None => Some((0, NumberSlip::NoSuchQueue { queues: QUEUES })),
    }
}
