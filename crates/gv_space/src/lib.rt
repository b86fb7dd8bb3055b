//! An address space: the list of mappings, its page table and the buffers, changed together by one operation, and undo
//! values that take a change back.
//!
//! `Space::apply` goes from bytes to pages (`check`), finds the run of mappings that meets the range, and asks for all memory that
//! the change may take. Only then it changes anything, and from there no step can fail: the run is replaced by its rests and the new
//! mapping, the page table is painted, the counts move, and what was taken out goes into the undo value.
//!
//! ```text
//!   before       |------- a -------|     |--- b ---|
//!   map c                 |------- c -------|
//!   after        |-- a --||------- c -------||- b -|        b's rest begins further on in its buffer
//!   undo value            holds a and b as they were, and the tables that the change no longer wants
//! ```
//!
//! An undo value goes one of three ways: `revert` puts the list, the table and the counts back as they were, where the change is the
//! newest; `restore` puts back what the change took out of a range, whatever was changed there since; `release` gives it up.
#![tactic(auto)]

mod counts;
pub mod laws;
mod list_with_table;
mod pieces;
mod ranges;
mod space;
mod undo;

pub use space::Space;
pub use undo::OpUndo;
