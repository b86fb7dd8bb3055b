//! What is drawn of a mapping.

use gv_types::{Backing, Packed};

/// The pages of a mapping that are drawn, and what stands behind the first of them.
#[derive(Clone, Copy, PartialEq, Eq)]
pub struct Piece {
    pub first: u64,
    pub end: u64,
    pub backing: Backing,
    pub read_only: bool,
}

impl Piece {
    /// What of a mapping lies at the page `low` or above and below the page `high`, if anything does.
    pub fn of(mapping: &Packed, low: u64, high: u64) -> Option<Piece> {
        let drawn = mapping.clip(low, high)?;
        Some(Piece {
            first: drawn.first(),
            end: drawn.end(),
            backing: drawn.backing(),
            read_only: drawn.flags().read_only,
        })
    }

    /// How many pages it has.
    pub fn pages(&self) -> u64 {
        self.end.saturating_sub(self.first)
    }
}
