//! Mappings in chunks, so that an edit of a long list moves what lies near it and not all that stands behind.
#![tactic(auto)]

mod chunk_list;
mod chunk_row;
mod chunk_splice;
mod cut;
mod grow;
mod index;
mod join;
pub mod laws;
mod locate;
mod merge_chunks;
mod piece;
mod put;
mod replace;
mod row;
mod run;
mod spot;
mod starts;
mod store;

pub use chunk_list::{ChunkList, UsedChunks};
pub use piece::piece_of;
pub use spot::Spot;

/// How many mappings a chunk has room for.
pub const CHUNK: usize = 128;

/// How many chunks a block has, whose starts share a base in `Starts`.
pub const BLOCK: usize = 64;
