//! What picture is wanted.

/// The least width of a picture, in pixels.
const LEAST: u64 = 900;

/// The greatest width of a picture, in pixels.
const GREATEST: u64 = 16_384;

/// What picture is wanted.
#[derive(Clone, Copy, Debug, PartialEq, Eq)]
pub struct Options {
    /// The address, in bytes, around which it is drawn; none: all of the address space.
    pub at: Option<u64>,
    /// How wide it is, in pixels; one from 900 to 16,384 is taken in place of what lies outside.
    pub width: u64,
}

impl Options {
    /// How wide the picture becomes, in pixels.
    pub fn pixels(&self) -> u64 {
        self.width.max(LEAST).min(GREATEST)
    }
}

impl Default for Options {
    /// All of the address space, 1,600 pixels wide.
    fn default() -> Options {
        Options {
            at: None,
            width: 1600,
        }
    }
}
