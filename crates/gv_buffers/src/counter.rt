//! The counts of mappings that a buffer has, and how they move.

/// Which mappings of a buffer are counted.
#[derive(Clone, Copy, Debug, PartialEq, Eq)]
pub enum Counter {
    /// Those in the list.
    Uses,
    /// Those in undo values.
    Kept,
}

/// How a mapping of a buffer moves.
#[derive(Clone, Copy)]
pub enum Move {
    /// Into the list.
    In,
    /// Out of the list.
    Out,
    /// Out of the list, into an undo value.
    TakenOut,
    /// Back into the list, out of an undo value.
    BroughtBack,
    /// Into an undo value, while another stands in its place in the list.
    Saved,
    /// Out of an undo value.
    Released,
}
