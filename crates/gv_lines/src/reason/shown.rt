//! How the words of a line are shown.
use std::fmt;

/// How many bytes of a word are shown.
const SHOWN: usize = 40;

/// A word in printable ASCII: its first bytes, and two dots if it is longer. Another byte is shown as its number.
#[derive(Clone, Copy)]
pub struct Shown<'a>(pub &'a [u8]);

impl fmt::Display for Shown<'_> {
    fn fmt<W: fmt::Write>(&self, f: &mut fmt::Formatter<W>) -> fmt::Result {
        for byte in self.0.iter().take(SHOWN) {
            write_byte(f, *byte)?;
        }
        if self.0.len() > SHOWN {
            f.write_str("..")?;
        }
        Ok(())
    }
}

/// Writes a word, and the text `said` after it.
pub fn write_word<W: fmt::Write>(
    f: &mut fmt::Formatter<W>,
    word: &[u8],
    said: &str,
) -> fmt::Result {
    let word = Shown(word);
    write!(f, "{word}{said}")
}

/// Writes a word, and why it is bad.
pub fn write_slip<W: fmt::Write, S: fmt::Display + Drop>(
    f: &mut fmt::Formatter<W>,
    word: &[u8],
    slip: S,
) -> fmt::Result {
    let word = Shown(word);
    write!(f, "{word}; {slip}")
}

fn write_byte<W: fmt::Write>(f: &mut fmt::Formatter<W>, byte: u8) -> fmt::Result {
    if byte.is_ascii_graphic() || byte == b' ' {
        f.write_char(char::from(byte))
    } else {
        write!(f, "(byte 0x{byte:02x})")
    }
}
