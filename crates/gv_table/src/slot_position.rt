//! Where a slot of the tree stands, and what is read for it.
use crate::unnamed_list::UnnamedList;
use gv_types::PageRange;

/// A slot's level and its first page. For the slots of a table, those of the first one.
#[derive(Clone, Copy)]
pub struct SlotPosition {
    pub level: usize,
    pub first: u64,
}

/// The mappings that a list has in a range, read from a position on.
#[derive(Clone, Copy)]
pub struct Excerpt<'a, 'l> {
    pub mappings: &'a UnnamedList<'l>,
    pub range: PageRange,
    pub position: usize,
}
