//! A model of scripts: the language read by forms of its own, the world of gv_model behind it, and the texts of replies. It knows
//! nothing of how the program reads and prints.
mod area;
mod asking;
mod forms;
mod grammar;
mod names;
mod request;
mod sight;
mod steps;
mod tables;
mod text;
mod world;

pub use sight::Sight;
use std::alloc::{AllocError, Global};
pub use world::World;

/// What a script comes to.
#[derive(Drop)]
pub struct Ending {
    pub text: String,
    /// Where the reply to each line ends.
    pub ends: Vec<usize>,
    pub bad_line: Option<u64>,
}

/// What a script of these bytes comes to. Its last line is bad where it has no end.
pub fn ending_of(alloc: Global, script: &[u8]) -> Result<Ending, AllocError> {
    let mut world = World::new(alloc)?;
    let mut ending = Ending {
        text: String::new(alloc),
        ends: Vec::new(alloc),
        bad_line: None,
    };
    let ended = script.iter().filter(|byte| **byte == b'\n').count();
    for (index, line) in script.split(|byte| *byte == b'\n').enumerate() {
        let is_rest = index == ended;
        if is_rest && line.is_empty() {
            break;
        }
        if is_rest || !world.run_line(alloc, line, &mut ending.text)? {
            ending.bad_line = Some((index as u64).saturating_add(1));
            break;
        }
        ending.ends.push(ending.text.len())?;
    }
    Ok(ending)
}
