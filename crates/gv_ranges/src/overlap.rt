//! Where a range meets a list.

use gv_chunks::Spot;
use gv_types::Packed;

/// Where a range meets a list: the spot of the first mapping that meets it, and how many do. Where none does, the spot is that behind
/// all mappings that end before the range.
#[derive(Clone, Copy, Debug)]
pub struct Overlap<'a> {
    pub spot: Spot,
    pub count: usize,
    /// The mappings from the spot on that stand in one block of memory: mostly all that meet the range, and some behind.
    pub block: &'a [Packed],
}
