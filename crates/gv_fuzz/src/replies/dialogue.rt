//! Replies by chance to the lines that only a dialogue has.
use super::says_the_same;
use crate::chance::Chance;
use crate::patterns::{REPLIES, Replies};
use std::alloc::{AllocError, Global};

/// How many replies a seed gives.
const COUNT: u64 = 8;

/// A reply, and the first word of its line.
#[derive(Drop)]
pub struct Reply {
    pub word: &'static str,
    pub text: String,
}

/// The first reply of a seed whose JSON doesn't say just what its text does.
pub fn changed_reply(alloc: Global, seed: u64) -> Result<Option<Reply>, AllocError> {
    let mut chance = Chance::new(seed);
    for _ in 0..COUNT {
        let index = chance.random.below(REPLIES.len() as u64);
        let Some(replies) = REPLIES.get(index as usize) else {
            continue;
        };
        let text = reply_of(alloc, &mut chance, replies)?;
        let low = chance.random.below(20);
        let line = chance
            .random
            .among(&[low, low, low, (1 << 53) + 1, u64::MAX]);
        if !says_the_same(alloc, line, replies.word.as_bytes(), text.as_str())? {
            return Ok(Some(Reply {
                word: replies.word,
                text,
            }));
        }
    }
    Ok(None)
}

/// One of some replies.
fn reply_of(alloc: Global, chance: &mut Chance, replies: &Replies) -> Result<String, AllocError> {
    let mut text = String::new(alloc);
    let head = chance.pick(replies.heads);
    chance.write(head, &mut text)?;
    if !head.is_empty() {
        return Ok(text);
    }
    let count = chance.random.below(4).saturating_add(replies.least_rows);
    for _ in 0..count {
        let row = chance.pick(replies.rows);
        chance.write(row, &mut text)?;
    }
    let end = chance.pick(replies.ends);
    chance.write(end, &mut text)?;
    Ok(text)
}
