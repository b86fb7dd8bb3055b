//! Lines of logs, written from forms.

use std::alloc::AllocError;
use std::fmt::Write;

/// What the letters of a form stand for.
pub trait Numbers {
    fn number(&mut self, letter: u8) -> u64;
}

/// Letters with a number each.
#[derive(Drop)]
pub struct Given<'a>(pub &'a [(u8, u64)]);

impl Numbers for Given<'_> {
    fn number(&mut self, letter: u8) -> u64 {
        for (other, number) in self.0 {
            if *other == letter {
                return *number;
            }
        }
        0
    }
}

/// Writes a form, in which `$` and a letter stand for a number: in decimal for a small letter, and in sixteen hexadecimal digits for a
/// capital one.
pub fn write_form<N: Numbers>(
    out: &mut String,
    form: &str,
    numbers: &mut N,
) -> Result<(), AllocError> {
    let mut parts = form.split('$');
    out.push_str(parts.next().unwrap_or(""))?;
    for part in parts {
        let letter = part.as_bytes().first().copied().unwrap_or(0);
        let number = numbers.number(letter);
        if letter.is_ascii_uppercase() {
            write!(out, "{number:016x}")?;
        } else {
            write!(out, "{number}")?;
        }
        out.push_str(part.get(1..).unwrap_or(""))?;
    }
    Ok(())
}
