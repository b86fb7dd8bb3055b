//! The page table of an address space: a tree of tables of 512 slots, with leaves of one page, of
//! 512 pages and of 262,144 pages.
#![tactic(auto)]

mod alike;
mod buffer_index;
mod chain;
mod deciding_mapping;
mod divide;
mod fast_path;
mod fast_row;
mod fill;
mod kind_counts;
pub mod laws;
mod leaves;
mod levels;
mod names;
mod needed_tables;
mod page_chain;
mod page_slot;
mod page_table;
mod pages;
mod paint;
mod release;
mod slot;
mod slot_position;
mod spares;
mod table_counts;
mod unnamed_list;
mod walk;
mod wanted;

pub use kind_counts::KindCounts;
pub use page_table::PageTable;
pub use spares::Spares;
