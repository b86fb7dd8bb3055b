//! Lengths in pixels.

/// Tenths of a pixel.
#[derive(Clone, Copy)]
pub struct Tenths(pub u64);

impl Tenths {
    /// Both.
    pub fn plus(self, other: Tenths) -> Tenths {
        Tenths(self.0.saturating_add(other.0))
    }

    /// How much longer it is than the other.
    pub fn minus(self, other: Tenths) -> Tenths {
        Tenths(self.0.saturating_sub(other.0))
    }
}

/// The share `part` of `whole` parts of a length, rounded down; nothing of none.
pub fn share(length: u64, part: u64, whole: u64) -> u64 {
    length.saturating_mul(part) / whole.max(1)
}

/// The width of a text whose characters are each this wide, in tenths of a pixel.
pub fn width_of(text: &str, each: u64) -> Tenths {
    Tenths((text.chars().count() as u64).saturating_mul(each))
}

/// The width of an address in hexadecimal digits after `0x`, likewise.
pub fn address_width(addr: u64, each: u64) -> Tenths {
    let more_digits = u64::from(addr.max(1).ilog2() / 4);
    Tenths(more_digits.saturating_add(3).saturating_mul(each))
}
