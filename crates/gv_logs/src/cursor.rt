//! Parses a line of a log from left to right.

/// A number of a line has at most so many hexadecimal digits.
const HEX_DIGITS: usize = 16;

/// The bases of numbers.
const HEX: u64 = 16;

const DECIMAL: u64 = 10;

/// How a number is written.
#[derive(Clone, Copy)]
pub enum Kind {
    /// In decimal digits, below 2^64.
    Decimal,
    /// In hexadecimal digits, without `0x`.
    Hex,
    /// A pointer behind spaces: hexadecimal digits, with or without `0x`, or a word for none, which is 0.
    Pointer,
    /// Hexadecimal digits behind `0x`, between spaces.
    Cell,
}

/// A number, and the text right before it.
#[derive(Clone, Copy)]
pub struct Field {
    pub before: &'static str,
    pub kind: Kind,
}

/// What is left of a line, and how many digits a hexadecimal number of it may have.
#[derive(Clone, Copy)]
pub struct Cursor<'a> {
    rest: &'a [u8],
    hex_digits: usize,
}

impl<'a> Cursor<'a> {
    /// Numbers have at most 16 hexadecimal digits.
    pub fn new(line: &'a [u8]) -> Cursor<'a> {
        Cursor {
            rest: line,
            hex_digits: HEX_DIGITS,
        }
    }

    /// Numbers have as many digits as they like.
    pub fn with_long_numbers(line: &'a [u8]) -> Cursor<'a> {
        Cursor {
            rest: line,
            hex_digits: usize::MAX,
        }
    }

    /// What is left.
    pub fn rest(&self) -> &'a [u8] {
        self.rest
    }

    /// Whether nothing is left.
    pub fn is_done(&self) -> bool {
        self.rest.is_empty()
    }

    /// Whether the text comes next, which is passed then.
    pub fn take_if(&mut self, text: &[u8]) -> bool {
        match self.rest.strip_prefix(text) {
            Some(rest) => {
                self.rest = rest;
                true
            }
            None => false,
        }
    }

    /// The text, which has to come next.
    pub fn expect_text(&mut self, text: &[u8]) -> Option<()> {
        self.take_if(text).then_some(())
    }

    /// Passes the spaces that come next.
    pub fn spaces(&mut self) {
        self.rest = self.rest.trim_ascii_start();
    }

    /// The numbers of these fields, which have to come next, one behind the other.
    pub fn numbers<const N: usize>(&mut self, fields: &[Field]) -> Option<[u64; N]> {
        let mut numbers = [0; N];
        for (number, field) in numbers.iter_mut().zip(fields) {
            self.expect_text(field.before.as_bytes())?;
            *number = self.number(field.kind)?;
        }
        Some(numbers)
    }

    /// A number of this kind.
    fn number(&mut self, kind: Kind) -> Option<u64> {
        match kind {
            Kind::Decimal => self.decimal(),
            Kind::Hex => self.hex(),
            Kind::Pointer => self.pointer(),
            Kind::Cell => self.cell(),
        }
    }

    fn pointer(&mut self) -> Option<u64> {
        self.spaces();
        if self.take_if(b"(nil)") || self.take_if(b"(null)") {
            return Some(0);
        }
        self.any_hex()
    }

    fn cell(&mut self) -> Option<u64> {
        self.spaces();
        self.expect_text(b"0x")?;
        let number = self.hex();
        self.spaces();
        number
    }

    /// A number of hexadecimal digits, with or without `0x`.
    fn any_hex(&mut self) -> Option<u64> {
        let _prefix = self.take_if(b"0x");
        self.hex()
    }

    /// A number of hexadecimal digits below 2^64.
    fn hex(&mut self) -> Option<u64> {
        self.digits(HEX, self.hex_digits)
    }

    /// A decimal number below 2^64.
    fn decimal(&mut self) -> Option<u64> {
        self.digits(DECIMAL, usize::MAX)
    }

    /// A number of at least one digit of a base and at most so many, below 2^64.
    fn digits(&mut self, base: u64, most: usize) -> Option<u64> {
        let mut value: u64 = 0;
        let mut len: usize = 0;
        for byte in self.rest {
            let digit = digit_value(*byte);
            if digit >= base {
                break;
            }
            value = value.checked_mul(base)?.checked_add(digit)?;
            len = len.saturating_add(1);
        }
        if len == 0 || len > most {
            return None;
        }
        self.rest = self.rest.get(len..)?;
        Some(value)
    }
}

/// The value of a digit, and of another byte more than that of any.
fn digit_value(byte: u8) -> u64 {
    let value = match byte {
        b'0'..=b'9' => byte - b'0',
        b'a'..=b'f' => byte - b'a' + 10,
        b'A'..=b'F' => byte - b'A' + 10,
        _ => u8::MAX,
    };
    u64::from(value)
}

/// The decimal number that a text is, if it is one below 2^64.
pub fn decimal_of(text: &[u8]) -> Option<u64> {
    let mut cursor = Cursor::new(text);
    let number = cursor.decimal()?;
    cursor.is_done().then_some(number)
}

/// The number that a text is: hexadecimal digits, with or without `0x`.
pub fn hex_of(text: &[u8]) -> Option<u64> {
    let mut cursor = Cursor::new(text);
    let number = cursor.any_hex()?;
    cursor.is_done().then_some(number)
}
