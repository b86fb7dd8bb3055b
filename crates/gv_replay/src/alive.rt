//! What is alive at the end of a replay.

use gv_space::Space;
use gv_types::{Backing, PAGE_BYTES, Packed};
use std::alloc::{AllocError, Global};
use std::collections::HashSet;

/// How many mappings are alive, of how many buffers, how many bytes they map, and the tables of the levels 4 to 0.
#[derive(Clone, Copy)]
pub struct Alive {
    pub mappings: u64,
    pub buffers: u64,
    pub bytes: u64,
    pub tables: [u64; 5],
}

impl Alive {
    pub fn of(alloc: Global, space: &Space) -> Result<Alive, AllocError> {
        let mut buffers = HashSet::new(alloc);
        let mut pages: u64 = 0;
        for mapping in space.list().iter() {
            pages = pages.saturating_add(mapping.count());
            note_buffer(&mut buffers, mapping)?;
        }
        Ok(Alive {
            mappings: space.list().len() as u64,
            buffers: buffers.len() as u64,
            bytes: pages.saturating_mul(PAGE_BYTES),
            tables: space.tables(),
        })
    }
}

/// A mapping's buffer is one of those that are mapped, by the number that no other has.
fn note_buffer(buffers: &mut HashSet<u64>, mapping: &Packed) -> Result<(), AllocError> {
    if let Backing::Buffer { id, .. } = mapping.backing() {
        let _is_new = buffers.insert(id.generation.get())?;
    }
    Ok(())
}
