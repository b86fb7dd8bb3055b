//! The words of a reply's line.
use crate::stop::Stop;

/// Digits of an address in a mapping or a place.
const HEX_DIGITS: usize = 16;

const HEX_BASE: u32 = 16;

/// Words that are left, with one space between them.
#[derive(Clone, Copy, Drop)]
pub struct Words<'a> {
    rest: Option<&'a str>,
}

impl<'a> Words<'a> {
    /// All words of a line, given without its end.
    pub fn new(line: &'a str) -> Words<'a> {
        Words { rest: Some(line) }
    }

    /// The next word.
    pub fn take(&mut self) -> Result<&'a str, Stop> {
        let text = self.rest.ok_or(Stop::NotUnderstood)?;
        match text.split_once(' ') {
            Some((word, rest)) => {
                self.rest = Some(rest);
                Ok(word)
            }
            None => {
                self.rest = None;
                Ok(text)
            }
        }
    }

    /// Whether the next word is sixteen hexadecimal digits.
    fn begin_with_hex(&self) -> bool {
        let mut ahead = *self;
        ahead.hex().is_ok()
    }

    /// Whether the next word is this one, which is then taken.
    pub fn take_if(&mut self, word: &str) -> bool {
        let mut ahead = *self;
        let found = ahead.expect(word).is_ok();
        if found {
            *self = ahead;
        }
        found
    }

    /// Whether the next word is `none` and no buffer's name, which an offset follows. It is then taken.
    pub fn take_none(&mut self) -> bool {
        let mut ahead = *self;
        let found = ahead.take_if("none") && !ahead.begin_with_hex();
        if found {
            *self = ahead;
        }
        found
    }

    /// The next word, if it is a number, which is then taken.
    pub fn number_if(&mut self) -> Option<u64> {
        let mut ahead = *self;
        let number = ahead.number().ok()?;
        *self = ahead;
        Some(number)
    }

    /// The next word has to be this one.
    pub fn expect(&mut self, word: &str) -> Result<(), Stop> {
        understood(self.take()? == word)
    }

    /// The next word, a decimal number without zeros before it.
    pub fn number(&mut self) -> Result<u64, Stop> {
        let word = self.take()?;
        understood(is_short(word) && !word.starts_with('+'))?;
        Ok(word.parse::<u64>()?)
    }

    /// The next word, sixteen hexadecimal digits.
    pub fn hex(&mut self) -> Result<u64, Stop> {
        let digits = self.take()?;
        understood(digits.len() == HEX_DIGITS)?;
        hexadecimal(digits)
    }

    /// The next word, a hexadecimal number behind `0x`, without zeros before it.
    pub fn address(&mut self) -> Result<u64, Stop> {
        let word = self.take()?;
        let digits = word.strip_prefix("0x").ok_or(Stop::NotUnderstood)?;
        understood(is_short(digits))?;
        hexadecimal(digits)
    }

    /// The next word, one of two: whether it is the first.
    pub fn either(&mut self, yes: &str, no: &str) -> Result<bool, Stop> {
        let word = self.take()?;
        understood(word == yes || word == no)?;
        Ok(word == yes)
    }

    /// No word is left.
    pub fn end(&self) -> Result<(), Stop> {
        understood(self.rest.is_none())
    }
}

/// Goes on where the text is as its kind asks.
pub fn understood(fits: bool) -> Result<(), Stop> {
    if fits {
        Ok(())
    } else {
        Err(Stop::NotUnderstood)
    }
}

/// Whether digits have no zero before them.
fn is_short(digits: &str) -> bool {
    digits == "0" || !digits.starts_with('0')
}

/// The number of these digits, of 0-9 and a-f.
fn hexadecimal(digits: &str) -> Result<u64, Stop> {
    let is_plain = digits
        .as_bytes()
        .iter()
        .all(|digit| matches!(*digit, b'0'..=b'9' | b'a'..=b'f'));
    understood(is_plain)?;
    Ok(u64::from_str_radix(digits, HEX_BASE)?)
}
