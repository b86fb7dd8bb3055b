//! Lines of any length: requests and jobs.
use super::{Question, Row, check, expect};
use gv_lines::{Clause, Line, parse_line};
use std::alloc::{AllocError, Global};
use std::test::Fail;

const ANY_ORDER: [Row; 1] = [(
    b"bind signal t 2 ; unmap 0x0 0x1000 ; wait t 1 ; queue 15 ; unmap 0x2000 0x1000 ; wait u 0x3 ; signal u 4 ; unmap 0x1000 0x1000",
    "15 [Unmap { addr: 0, len: 4096 }, Unmap { addr: 8192, len: 4096 }, Unmap { addr: 4096, len: 4096 }] [NamedPoint { timeline: Name { text: \"t\" }, value: 1 }, NamedPoint { timeline: Name { text: \"u\" }, value: 3 }] [NamedPoint { timeline: Name { text: \"t\" }, value: 2 }, NamedPoint { timeline: Name { text: \"u\" }, value: 4 }]",
)];

#[test]
fn reads_clauses_in_any_order(rt: HostRuntime) -> Result<(), Fail> {
    expect(rt.alloc(), Question::Meaning, &ANY_ORDER)
}

const FEW: [Row; 2] = [(b"bind", "0 [] [] []"), (b"bind queue 3", "3 [] [] []")];

/// Requests, and the queue of the only clause of each, where it has one.
const TAKEN: [(&[u8], Option<u64>); 2] = [(b"bind", None), (b"bind queue 3", Some(3))];

/// Whether a request has a clause of this queue and no other, or none at all.
fn has_only(text: &[u8], wanted: Option<u64>) -> bool {
    let Some(Line::Bind { mut clauses }) = parse_line(text) else {
        return false;
    };
    let is_first = match clauses.take() {
        Some(Clause::Queue { queue }) => wanted == Some(queue),
        Some(_) => false,
        None => wanted.is_none(),
    };
    is_first && clauses.take().is_none()
}

#[test]
fn takes_clauses(rt: HostRuntime) -> Result<(), Fail> {
    expect(rt.alloc(), Question::Meaning, &FEW)?;
    for (text, wanted) in &TAKEN {
        assert!(rt; has_only(text, *wanted), "{wanted:?}");
    }
    Ok(())
}

/// What a text begins with, what follows again and again, and its end.
type Repeated = [&'static str; 3];

/// A request of many operations, and what it is read as.
const OPERATIONS: [Repeated; 2] = [
    ["bind unmap 0x0 0x1000", " ; unmap 0x0 0x1000", ""],
    [
        "0 [Unmap { addr: 0, len: 4096 }",
        ", Unmap { addr: 0, len: 4096 }",
        "] [] []",
    ],
];

/// A job of many accesses, and what it is read as.
const ACCESSES: [Repeated; 2] = [
    ["job read 0x0", " ; read 0x0", ""],
    ["[Read { addr: 0 }", ", Read { addr: 0 }", "]"],
];

/// A text that says something `count` times.
fn repeated(alloc: Global, parts: Repeated, count: usize) -> Result<String, AllocError> {
    let [first, more, end] = parts;
    let rest = more.repeat(alloc, count.saturating_sub(1))?;
    [first, rest.as_str(), end].concat(alloc)
}

/// Fails where a line that says something `count` times is read as another.
fn check_repeated(alloc: Global, line: &[Repeated; 2], count: usize) -> Result<(), Fail> {
    let [text, wanted] = *line;
    let text = repeated(alloc, text, count)?;
    let wanted = repeated(alloc, wanted, count)?;
    check(alloc, Question::Meaning, text.as_bytes(), wanted.as_str())
}

#[test]
fn reads_requests_of_any_length(rt: HostRuntime) -> Result<(), Fail> {
    for count in [2, 256, 257, 4000] {
        check_repeated(rt.alloc(), &OPERATIONS, count)?;
    }
    Ok(())
}

const JOBS: [Row; 1] = [(
    b"job read 0x0 ; write 4096 ; read 0x1",
    "[Read { addr: 0 }, Write { addr: 4096 }, Read { addr: 1 }]",
)];

#[test]
fn reads_jobs(rt: HostRuntime) -> Result<(), Fail> {
    expect(rt.alloc(), Question::Meaning, &JOBS)
}

#[test]
fn reads_jobs_of_any_length(rt: HostRuntime) -> Result<(), Fail> {
    check_repeated(rt.alloc(), &ACCESSES, 257)
}
