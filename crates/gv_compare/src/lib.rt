//! Two lists of mappings, page by page: the output of a script's line `map`, or a kernel's `gpuvas`.
#![tactic(auto)]

mod fault;
mod listing;
mod objects;
mod part;
mod report;
mod row;
mod walk;

pub use fault::{CompareFault, Which};
pub use listing::{Kind, Listing, is_of_dump};
pub use objects::{Object, Objects};
pub use part::Part;
pub use report::{compare, compare_of};
pub use row::Row;
pub use walk::{Difference, Walk};
