//! Scripts by chance.
use crate::chance::Chance;
use crate::model::{Sight, World};
use crate::patterns::LIMITS;
use gv_model::Random;
use std::alloc::{AllocError, Global};

/// Words and signs that a soup is made of.
const SOUP: [&str; 40] = [
    "bind", "map", "zero", "unmap", "unmapall", "plan", "buffer", "destroy", "uses", "timeline",
    "raise", "value", "wait", "signal", "queue", "job", "read", "write", "end", "at", "tables",
    "rewind", "journal", "withdraw", "settle", "told", "space", "limits", "ro", "b", "c", "0", "1",
    "4096", "0x1000", "0x0", ";", " ; ", "#", "\n",
];

/// Bytes that take another's place.
const BYTES: &[u8] = b" \n;#0x19afgzbm_-\r\t\x00\x80\xff";

/// The script of a seed: lines that name what there is; such lines with some bytes changed; or words and bytes at random.
pub fn by_chance(alloc: Global, seed: u64) -> Result<Vec<u8>, AllocError> {
    let mut chance = Chance::new(seed);
    match chance.random.below(20) {
        0 => soup(alloc, &mut chance.random),
        1 => noise(alloc, &mut chance.random),
        2..=4 => {
            let script = lines(alloc, &mut chance)?;
            mutated(alloc, &mut chance.random, &script)
        }
        _ => lines(alloc, &mut chance),
    }
}

/// Lines, each chosen by what the model knows after those before it.
fn lines(alloc: Global, chance: &mut Chance) -> Result<Vec<u8>, AllocError> {
    let mut world = World::new(alloc)?;
    let mut script = Vec::new(alloc);
    let count = chance.random.below(60).saturating_add(4);
    for number in 0..count {
        chance.sight = Sight::of(&world);
        push_line(alloc, chance, number, &mut world, &mut script)?;
    }
    Ok(script)
}

/// Adds the line of this number, and runs it by the model.
fn push_line(
    alloc: Global,
    chance: &mut Chance,
    number: u64,
    world: &mut World,
    script: &mut Vec<u8>,
) -> Result<(), AllocError> {
    let mut line = String::new(alloc);
    match number {
        0 if chance.random.is_one_in(2) => chance.write_space(&mut line)?,
        0 | 1 if chance.random.is_one_in(2) => chance.write(LIMITS, &mut line)?,
        _ => chance.write_line(&mut line)?,
    }
    run_line(alloc, world, line.as_bytes())?;
    script.extend_from_slice(line.as_bytes())?;
    Ok(script.push(b'\n')?)
}

/// Runs a line by the model, whose replies nobody asks.
fn run_line(alloc: Global, world: &mut World, line: &[u8]) -> Result<(), AllocError> {
    let mut replies = String::new(alloc);
    let _good = world.run_line(alloc, line, &mut replies)?;
    Ok(())
}

/// A script with few of its bytes changed, left out or doubled.
fn mutated(alloc: Global, random: &mut Random, script: &[u8]) -> Result<Vec<u8>, AllocError> {
    let mut changed = Vec::new(alloc);
    for byte in script {
        if !random.is_one_in(300) {
            changed.push(*byte)?;
            continue;
        }
        match random.below(4) {
            0 => {}
            1 => changed.extend_from_slice(&[*byte, *byte])?,
            2 => changed.extend_from_slice(&[any(random), *byte])?,
            _ => changed.push(any(random))?,
        }
    }
    Ok(changed)
}

fn any(random: &mut Random) -> u8 {
    let place = random.below(BYTES.len() as u64);
    BYTES.get(place as usize).copied().unwrap_or(b' ')
}

/// Words at random.
fn soup(alloc: Global, random: &mut Random) -> Result<Vec<u8>, AllocError> {
    let mut script = Vec::new(alloc);
    for _ in 0..random.below(200) {
        let place = random.below(SOUP.len() as u64);
        let word = SOUP.get(place as usize).copied().unwrap_or("b");
        script.extend_from_slice(word.as_bytes())?;
        if !random.is_one_in(6) {
            script.push(if random.is_one_in(4) { b'\n' } else { b' ' })?;
        }
    }
    Ok(script)
}

/// Bytes at random.
fn noise(alloc: Global, random: &mut Random) -> Result<Vec<u8>, AllocError> {
    let mut script = Vec::new(alloc);
    for _ in 0..random.below(400) {
        let byte = random.below(256) as u8;
        script.push(if random.is_one_in(8) { b'\n' } else { byte })?;
    }
    Ok(script)
}
