//! Replies as JSON, read back by the toolchain's reader and written as text once more, by the forms of docs/SCRIPT.md.
mod dialogue;
mod forms;
mod reading;

pub use dialogue::changed_reply;
use gv_json::write_reply;
use reading::text_of;
use serde_json::Value;
use std::alloc::{AllocError, Global};

/// The first line whose reply's JSON doesn't say just what its text does. `ends` is where each line's reply ends.
pub fn first_changed(
    alloc: Global,
    script: &[u8],
    replies: &[u8],
    ends: &[usize],
) -> Result<Option<u64>, AllocError> {
    let mut start = 0;
    let mut number: u64 = 0;
    for (line, end) in script.split(|byte| *byte == b'\n').zip(ends.iter()) {
        number = number.saturating_add(1);
        let reply = replies.get(start..*end).unwrap_or(&[]);
        let text = std::str::from_utf8(reply).unwrap_or("");
        start = *end;
        if is_answered(line) && !says_the_same(alloc, number, first_word(line), text)? {
            return Ok(Some(number));
        }
    }
    Ok(None)
}

fn is_answered(line: &[u8]) -> bool {
    !line.is_empty() && !line.starts_with(b"#")
}

fn first_word(line: &[u8]) -> &[u8] {
    line.split(|byte| *byte == b' ').next().unwrap_or(line)
}

/// Whether the JSON of a reply is one line, which says its number and just what the text does.
fn says_the_same(alloc: Global, number: u64, word: &[u8], text: &str) -> Result<bool, AllocError> {
    let mut json = String::new(alloc);
    write_reply(alloc, &mut json, number, word, text)?;
    let said = said_back(alloc, number, word, json.as_str());
    Ok(said.is_some_and(|said| said.as_str() == text))
}

/// What a line of JSON says, if it is one object and names this line's number.
fn said_back(alloc: Global, number: u64, word: &[u8], json: &str) -> Option<String> {
    let (object, rest) = json.split_once('\n')?;
    let value = Value::from_str(alloc, object).ok()?;
    if !rest.is_empty() || value.get("line")?.as_u64()? != number {
        return None;
    }
    text_of(alloc, std::str::from_utf8(word).ok()?, &value)
}
