//! A list in chunks beside the same mappings in one block.
use super::fixtures::mapping;
use gv_chunks::{CHUNK, ChunkList, Spot};
use gv_model::Random;
use gv_types::Packed;
use std::alloc::Global;
use std::test::Fail;

/// So many changes one after another, each of which takes out and puts in at most so many mappings.
#[derive(Drop)]
struct Phase {
    rounds: u32,
    most_out: u64,
    most_in: u64,
    // All changes are made at the end of the list.
    at_end: bool,
}

/// A list in chunks, the same mappings in one block, and how many were made for them so far.
#[derive(Drop)]
struct Lists {
    list: ChunkList,
    block: Vec<Packed>,
    made: u64,
}

/// Lists that grow at their end, grow anywhere, stay as long as they are, change by runs longer than chunks, and shrink until they hold
/// little.
const PHASES: [Phase; 6] = [
    Phase {
        rounds: 600,
        most_out: 1,
        most_in: 2,
        at_end: true,
    },
    Phase {
        rounds: 800,
        most_out: 2,
        most_in: 3,
        at_end: false,
    },
    Phase {
        rounds: 400,
        most_out: 4,
        most_in: 4,
        at_end: false,
    },
    Phase {
        rounds: 60,
        most_out: 400,
        most_in: 400,
        at_end: false,
    },
    Phase {
        rounds: 1_500,
        most_out: 3,
        most_in: 2,
        at_end: false,
    },
    Phase {
        rounds: 40,
        most_out: 400,
        most_in: 1,
        at_end: false,
    },
];

/// Whether the list has these mappings and no others, chunk by chunk, no chunk is empty, and chunks are few.
fn holds(list: &ChunkList, wanted: &[Packed]) -> bool {
    let chunks = list.chunks().chunks;
    let mut rest = wanted;
    for chunk in chunks {
        match rest.strip_prefix(chunk.as_slice()) {
            Some(behind) if !chunk.is_empty() => rest = behind,
            _ => return false,
        }
    }
    rest.is_empty()
        && list.len() == wanted.len()
        && chunks.len() <= wanted.len().div_ceil(CHUNK / 2) + 1
}

/// New mappings, each of them another.
fn fresh(alloc: Global, count: u64, made: &mut u64) -> Result<Vec<Packed>, Fail> {
    let mut pieces = Vec::new(alloc);
    for _ in 0..count {
        pieces.push(Packed::new(&mapping(*made % (1 << 40), 1, 1, 0)?))?;
        *made = made.saturating_add(1);
    }
    Ok(pieces)
}

impl Lists {
    /// A run of both replaced.
    fn replace(
        &mut self,
        alloc: Global,
        position: usize,
        out_count: usize,
        pieces: &[Packed],
    ) -> Result<(), Fail> {
        let len = self.block.len();
        if self.list.len() != len || position > len || out_count > len - position {
            return Err("a run that is not there".into());
        }
        let head = &self.block[..position];
        let tail = &self.block[position + out_count..];
        let changed = [head, pieces, tail].concat(alloc)?;
        self.block = changed;
        self.list.reserve(pieces.len())?;
        // Wherever the position is looked for first, the list is the same.
        let spot = Spot {
            index: position,
            hint: self.made as usize % 5,
        };
        self.list.splice(spot, out_count, pieces);
        Ok(())
    }
}

/// The changes of a phase, with a look at the whole list behind each twentieth.
fn play(alloc: Global, lists: &mut Lists, phase: &Phase, random: &mut Random) -> Result<(), Fail> {
    for round in 0..phase.rounds {
        let len = lists.block.len() as u64;
        let out_count = random.below(phase.most_out.saturating_add(1)).min(len);
        let left = len - out_count;
        let position = if phase.at_end {
            left
        } else {
            random.below(left.saturating_add(1))
        };
        let count = random.below(phase.most_in.saturating_add(1));
        let pieces = fresh(alloc, count, &mut lists.made)?;
        lists.replace(alloc, position as usize, out_count as usize, &pieces)?;
        if round % 20 == 0 && !holds(&lists.list, &lists.block) {
            return Err("another list".into());
        }
    }
    Ok(())
}

#[test]
fn lists_in_chunks_are_as_in_one_block(rt: HostRuntime) -> Result<(), Fail> {
    let alloc = rt.alloc();
    for seed in 0..8u64 {
        let mut random = Random::new(seed);
        let mut lists = Lists {
            list: ChunkList::new(alloc),
            block: Vec::new(alloc),
            made: 0,
        };
        for phase in &PHASES {
            play(alloc, &mut lists, phase, &mut random)?;
        }
        assert!(rt; holds(&lists.list, &lists.block), "seed {seed}");
    }
    Ok(())
}
