//! Tests of the crates below the space: mappings in 32 bytes, chunks and ranges, split steps, page table, buffers.

mod buffers;
mod calls;
mod chunks;
mod first_pages;
mod fixtures;
mod full_buffer_tables;
mod many_buffers;
mod packed;
mod ranges;
mod split;
mod table;
mod users;
