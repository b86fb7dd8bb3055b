//! Numbers in decimal, and in hexadecimal behind 0x.
ghost use Rattle.std.specs.Prelude.{◌≡◌, ◌≤◌, ◌+◌, ◌*◌, ◌^◌, MatchOption, length};
ghost use Rattle.gv_lines.specs.Hex.{number_limit};
ghost use Rattle.gv_lines.specs.Words.{number_of, decimal_of, digits_of, digit_value};
ghost use Rattle.gv_lines.specs.Words.{decimal_base, hex_base};

use super::digit::{DECIMAL_BASE, HEX_BASE, digit_value};

/// How many hexadecimal digits the greatest number has: so many never make one too large.
const HEX_DIGITS: usize = 16;

/// How many decimal digits never make a number too large: 10^19 is below 2^64.
const SAFE_DECIMAL_DIGITS: usize = 19;

/// The number that a word is, if it is one below 2^64.
#[tactic(auto, unfolding(crate::specs::Words::number_of))]
pub fn number_of(word: &[u8]) -> Option<u64>
    ensures { result ≡ number_of word.now }
{
    if let Some(digits) = word.strip_prefix(b"0x") {
        if digits.len() > HEX_DIGITS {
            return None;
        }
        return hex_digits_of(digits);
    }
    decimal_of(word)
}

/// The decimal number that a word is, if it is one below 2^64.
#[tactic(auto, unfolding(crate::specs::Words::decimal_of))]
pub fn decimal_of(word: &[u8]) -> Option<u64>
    ensures { result ≡ decimal_of word.now }
{
    if word.len() > 1 && word[0] == b'0' {
        return None;
    }
    if word.len() <= SAFE_DECIMAL_DIGITS {
        few_digits_of(word)
    } else {
        many_digits_of(word)
    }
}

/// The number of these hexadecimal digits, at least one, where they are so few that no number is too large. It is a hot
/// path, and has steps that need not look whether they fit.
#[tactic(auto, unfolding(crate::specs::Words::digits_of))]
fn hex_digits_of(digits: &[u8]) -> Option<u64>
    requires short { hex_base ^ length digits.now ≤ number_limit }
    ensures { result ≡ digits_of hex_base digits.now }
{
    if digits.is_empty() {
        return None;
    }
    let mut value: u64 = 0;
    for digit in digits {
        let digit = digit_value(*digit);
        if digit >= HEX_BASE {
            return None;
        }
        value = value * HEX_BASE + digit;
    }
    Some(value)
}

/// The number of these decimal digits, at least one, where they are so few that no number is too large: a hot path too.
#[tactic(auto, unfolding(crate::specs::Words::digits_of))]
fn few_digits_of(digits: &[u8]) -> Option<u64>
    requires short { decimal_base ^ length digits.now ≤ number_limit }
    ensures { result ≡ digits_of decimal_base digits.now }
{
    if digits.is_empty() {
        return None;
    }
    let mut value: u64 = 0;
    for digit in digits {
        let digit = digit_value(*digit);
        if digit >= DECIMAL_BASE {
            return None;
        }
        value = value * DECIMAL_BASE + digit;
    }
    Some(value)
}

/// The number of these decimal digits, at least one, however many they are.
#[tactic(auto, unfolding(crate::specs::Words::digits_of))]
fn many_digits_of(digits: &[u8]) -> Option<u64>
    ensures { result ≡ digits_of decimal_base digits.now }
{
    if digits.is_empty() {
        return None;
    }
    let mut value: u64 = 0;
    for digit in digits {
        let digit = digit_value(*digit);
        if digit >= DECIMAL_BASE {
            return None;
        }
        value = with_digit(value, digit)?;
    }
    Some(value)
}

fn with_digit(value: u64, digit: u64) -> Option<u64>
    ensures { MatchOption result (number_limit ≤ value * decimal_base + digit)
        (λ new. new ≡ value * decimal_base + digit) }
{
    value.checked_mul(DECIMAL_BASE)?.checked_add(digit)
}
