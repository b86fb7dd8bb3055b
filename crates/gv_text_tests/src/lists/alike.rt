//! Lists by chance: what is said of lines and of texts has the digests that the first, plain way of reading gave them.

use super::digests::{LINES, TEXTS};
use super::made::RandomLists;
use crate::digest::digest_of;
use gv_compare::{Kind, Listing, Objects, Row, Which, is_of_dump};
use std::alloc::{AllocError, Global};
use std::fmt::Write;
use std::test::Fail;

/// Adds what is said of a line. Whether it is a row of a `map`.
fn push_line(
    alloc: Global,
    said: &mut String,
    made: &mut RandomLists,
    is_dump: bool,
) -> Result<bool, AllocError> {
    let mut line = Vec::new(alloc);
    made.push_line(alloc, &mut line, is_dump)?;
    let row = Row::of_map(&line);
    writeln!(said, "{row:?} {}", is_of_dump(&line))?;
    Ok(row.is_some())
}

#[test]
fn lines_are_read_alike(rt: HostRuntime) -> Result<(), Fail> {
    let alloc = rt.alloc();
    let mut made = RandomLists::new(1);
    let mut rows = 0u64;
    for (block, wanted) in LINES.iter().enumerate() {
        let mut said = String::new(alloc);
        for number in 0..100u64 {
            let is_row = push_line(alloc, &mut said, &mut made, number % 4 == 0)?;
            rows = rows.wrapping_add(u64::from(is_row));
        }
        assert_eq!(rt; digest_of(said.as_str()), *wanted, "block {block}");
    }
    assert!(rt; rows > 1000 && rows < 2900, "{rows}");
    Ok(())
}

/// What is said of texts, one of which each: a list of either kind, or either fault. More than 50 texts come to each.
const OUTCOMES: [&str; 4] = ["{ kind: Map", "{ kind: Dump", "NoMapping", "Overlapping"];

/// Adds what is said of a text.
fn push_text(
    alloc: Global,
    said: &mut String,
    made: &mut RandomLists,
    objects: &mut Objects,
    list: Which,
) -> Result<(), AllocError> {
    let text = made.text(alloc)?;
    let listing = Listing::read(alloc, objects, list, &text);
    writeln!(said, "{listing:?}")
}

/// Adds the names of the first objects.
fn push_names(said: &mut String, objects: &Objects) -> Result<(), AllocError> {
    for number in 0..32 {
        objects.write(said, number, Kind::Map)?;
        said.push_str("\n")?;
    }
    Ok(())
}

/// Adds what is said of two texts, as the first list and the second.
fn push_pair(alloc: Global, said: &mut String, made: &mut RandomLists) -> Result<(), AllocError> {
    let mut objects = Objects::new(alloc);
    push_text(alloc, said, made, &mut objects, Which::First)?;
    push_text(alloc, said, made, &mut objects, Which::Second)?;
    push_names(said, &objects)
}

#[test]
fn lists_are_read_alike(rt: HostRuntime) -> Result<(), Fail> {
    let alloc = rt.alloc();
    let mut made = RandomLists::new(2);
    let mut seen = String::new(alloc);
    for (block, wanted) in TEXTS.iter().enumerate() {
        let mut said = String::new(alloc);
        for _ in 0..25u64 {
            push_pair(alloc, &mut said, &mut made)?;
        }
        assert_eq!(rt; digest_of(said.as_str()), *wanted, "block {block}");
        seen.push_str(said.as_str())?;
    }
    let mut count = 0;
    for outcome in OUTCOMES {
        let texts = seen.as_str().matches(outcome).count();
        assert!(rt; texts > 50, "{outcome} {texts}");
        count = texts.saturating_add(count);
    }
    assert_eq!(rt; count, 1000);
    Ok(())
}
