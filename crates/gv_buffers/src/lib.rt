//! The buffers of an address space: which are alive, how many mappings name each of them, and which
//! jobs use them.
#![tactic(auto)]

mod buffers;
mod counter;
mod first_page_table;
mod first_pages;
mod indices;
pub mod laws;
mod live_buffer;
mod slots;
mod usage;
mod users;

pub use buffers::Buffers;
pub use first_page_table::FirstPageTable;
pub use usage::{Usage, User};
pub use users::Users;
