//! Names of buffers.

use crate::history::History;
use std::alloc::{AllocError, Global};

/// A buffer's name.
pub fn name_of(alloc: Global, history: &History, buffer: u64) -> Result<String, AllocError> {
    match history.names.get(&buffer) {
        Some(name) => String::from_str(alloc, name.as_str()),
        None => format!(in alloc; "b{buffer}"),
    }
}
