//! What a script has declared, in the order of its lines.
use gv_types::BufferId;

/// The names of buffers, which stay their own when they are destroyed, and of timelines.
#[derive(Drop)]
pub struct Names {
    pub buffers: Vec<String>,
    pub timelines: Vec<String>,
}

/// The index of a name.
pub fn index_of(names: &[String], wanted: &str) -> Option<u64> {
    let index = names.iter().position(|name| name.as_str() == wanted)?;
    Some(index as u64)
}

/// The name at an index.
pub fn name_at(names: &[String], index: u64) -> &str {
    match names.get(index as usize) {
        Some(name) => name.as_str(),
        None => "",
    }
}

/// The id that the model gives to the buffer at an index.
pub fn id_of(index: u64) -> BufferId {
    BufferId::new(u32::MAX, index)
}
