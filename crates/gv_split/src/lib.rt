//! The steps by which an operation changes a list of mappings.
#![tactic(auto)]

pub mod laws;
mod step;

pub use step::{Step, plan};
