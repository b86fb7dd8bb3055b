//! Why a word is no name.
use std::fmt;

/// Why a word is no name.
#[derive(Clone, Copy)]
pub enum NameSlip {
    /// It is `zero`.
    Zero,
    /// Its first byte is no lower-case letter.
    Start,
    /// Another of its bytes is no lower-case letter, digit or underscore.
    Byte,
    /// It has over 16 bytes.
    Long,
}

impl fmt::Display for NameSlip {
    fn fmt<W: fmt::Write>(&self, f: &mut fmt::Formatter<W>) -> fmt::Result {
        f.write_str(match self {
            NameSlip::Zero => "zero is no name",
            NameSlip::Start => "a name begins with a-z",
            NameSlip::Byte => "a name has only a-z, 0-9 and _",
            NameSlip::Long => "a name has at most 16 bytes",
        })
    }
}
