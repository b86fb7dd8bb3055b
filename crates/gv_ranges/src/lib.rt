//! The list of mappings of an address space, and what is left of the mappings that a range meets.
#![tactic(auto)]

mod chunk_search;
pub mod laws;
mod overlap;
mod range_list;
mod reader;
mod rest;
mod run;
mod search;

pub use overlap::Overlap;
pub use range_list::RangeList;
pub use reader::Reader;
pub use rest::{next_rest, prev_rest};
pub use run::Run;
