//! Why a word is no number.
use std::fmt;

/// Why a word is no number, or none that is allowed at its place.
#[derive(Clone, Copy)]
pub enum NumberSlip {
    /// It begins with no digit.
    NoNumber,
    /// It begins with `-` or `+`.
    Signed,
    /// It begins with `0X`.
    CapitalPrefix,
    /// Nothing follows `0x`.
    NoDigits,
    /// A byte after `0x` is none of 0-9a-f.
    HexDigit,
    /// Over 16 digits follow `0x`.
    ManyDigits,
    /// Without `0x`, a byte is none of 0-9.
    DecimalDigit,
    LeadingZero,
    /// It is 2^64 or more.
    TooGreat,
    /// A queue clause has only a decimal number.
    HexQueue,
    /// There are only `queues` queues, numbered from 0.
    NoSuchQueue { queues: u64 },
}

impl NumberSlip {
    fn wanted(self) -> &'static str {
        match self {
            NumberSlip::NoNumber => "a number is decimal, or 0x and digits 0-9a-f",
            NumberSlip::Signed => "a number has no sign",
            NumberSlip::CapitalPrefix => "hexadecimal begins with 0x",
            NumberSlip::NoDigits => "digits 0-9a-f follow 0x",
            NumberSlip::HexDigit => "hexadecimal digits are 0-9a-f",
            NumberSlip::ManyDigits => "at most 16 digits follow 0x",
            NumberSlip::DecimalDigit => "decimal digits are 0-9, and hexadecimal begins with 0x",
            NumberSlip::LeadingZero => "a number has no leading zero",
            NumberSlip::TooGreat => "a number is below 2^64",
            NumberSlip::HexQueue => "the number of a queue clause is decimal",
            NumberSlip::NoSuchQueue { .. } => "a queue is below",
        }
    }
}

impl fmt::Display for NumberSlip {
    fn fmt<W: fmt::Write>(&self, f: &mut fmt::Formatter<W>) -> fmt::Result {
        let wanted = self.wanted();
        match self {
            NumberSlip::NoSuchQueue { queues } => write!(f, "{wanted} {queues}"),
            _ => f.write_str(wanted),
        }
    }
}
