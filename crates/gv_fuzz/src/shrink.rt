//! Shorter scripts that still differ.
use crate::trial::Trial;
use std::alloc::{AllocError, Global};

/// How often a script is gone through.
const PASSES: u32 = 6;

/// A script without parts that its difference doesn't need: first lines, then clauses.
pub fn shrunk(alloc: Global, script: &[u8]) -> Result<Vec<u8>, AllocError> {
    let mut script = Vec::from_slice(alloc, script)?;
    for _ in 0..PASSES {
        let before = script.len();
        script = without_parts(alloc, &script, b"\n")?;
        script = without_parts(alloc, &script, b" ; ")?;
        if script.len() == before {
            break;
        }
    }
    Ok(script)
}

/// The script without each part, up to and with this end, that its difference doesn't need.
fn without_parts(alloc: Global, script: &[u8], end: &[u8]) -> Result<Vec<u8>, AllocError> {
    let mut kept = Vec::from_slice(alloc, script)?;
    for index in (0..script.len()).rev() {
        let begins = index == 0 || script.get(..index).unwrap_or(&[]).ends_with(end);
        if begins {
            let shorter = without_part(alloc, &kept, index, end)?;
            if !Trial::new(alloc, &shorter)?.agrees() {
                kept = shorter;
            }
        }
    }
    Ok(kept)
}

/// The script without the part that begins at an index.
fn without_part(
    alloc: Global,
    script: &[u8],
    index: usize,
    end: &[u8],
) -> Result<Vec<u8>, AllocError> {
    let front = script.get(..index).unwrap_or(script);
    let part = script.get(index..).unwrap_or(&[]);
    let len = part
        .windows(end.len().max(1))
        .position(|window| window == end)
        .map_or(part.len(), |at| at.saturating_add(end.len()));
    let mut shorter = Vec::from_slice(alloc, front)?;
    shorter.extend_from_slice(part.get(len..).unwrap_or(&[]))?;
    Ok(shorter)
}
