//! Texts by chance.

use gv_model::Random;
use std::alloc::AllocError;
use std::fmt::Write;

/// One of some texts.
pub fn pick<'a>(random: &mut Random, texts: &[&'a str]) -> &'a str {
    let index = random.below((texts.len() as u64).max(1));
    texts.get(index as usize).copied().unwrap_or("")
}

/// Writes a form, in which `$` and a letter stand for a number by chance in hexadecimal digits. What a letter means may go by a
/// number that is given.
pub fn write_filled(
    text: &mut String,
    random: &mut Random,
    form: &str,
    given: u64,
) -> Result<(), AllocError> {
    let mut parts = form.split('$');
    text.push_str(parts.next().unwrap_or(""))?;
    for part in parts {
        let letter = part.as_bytes().first().copied().unwrap_or(b'n');
        let number = number_of(random, letter, given);
        write!(text, "{number:x}")?;
        text.push_str(part.get(1..).unwrap_or(""))?;
    }
    Ok(())
}

/// What letters stand for: a number below a bound, to which a share of the given number is added, so many times, and so much more.
const LETTERS: &[(u8, u64, u64, u64, u64)] = &[
    (b'a', 64, 0, 0x1000, 0),
    (b'l', 9, 0, 0x1000, 0),
    (b'o', 4, 0, 0x1000, 0),
    (b'b', 3, 0, 1, 0),
    (b'v', 4, 0, 1, 0),
    (b'h', 0, 2, 1, 0),
    (b'q', 0, 4, 1, 0),
    (b'A', 4_000, 0, 0x1000, 0),
    (b'F', 4_000, 0, 1 << 30, 0),
    (b'L', 9, 0, 0x1000, 0x1000),
    (b'B', 0, 1, 1, 0x100),
];

/// The number that a letter stands for; the given one where it isn't known.
fn number_of(random: &mut Random, letter: u8, given: u64) -> u64 {
    for (other, bound, share, times, more) in LETTERS {
        if *other == letter {
            let bound = given
                .checked_div(*share)
                .unwrap_or(0)
                .saturating_add(*bound);
            let number = random.below(bound.max(1));
            return number.saturating_mul(*times).saturating_add(*more);
        }
    }
    given
}
