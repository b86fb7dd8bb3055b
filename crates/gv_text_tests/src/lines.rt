//! Lines of one form, and the words in them.

mod no_lines;
mod reasons;
mod requests;

use gv_lines::{
    AccessList, Clause, ClauseList, Line, Name, Slip, explain, explain_serve, parse_line,
    split_once, write_hex,
};
use std::alloc::{AllocError, Global};
use std::fmt::Write;
use std::test::Fail;

/// A line, and the answer to a question about it.
pub type Row = (&'static [u8], &'static str);

/// A question about a line.
#[derive(Clone, Copy)]
pub enum Question {
    /// What it is read as.
    Meaning,
    /// Why it is no line of a script.
    Slip,
    /// Why it is no line of a dialogue.
    DialogueSlip,
}

const PLAIN_LINES: [Row; 32] = [
    (b"", "Silent"),
    (b"# any text", "Silent"),
    (b"#", "Silent"),
    (b"map", "Map"),
    (b"tables", "Tables"),
    (b"rewind", "Rewind"),
    (b"journal", "Journal"),
    (b"destroy b", "Destroy { name: Name { text: \"b\" } }"),
    (b"uses ring_0", "Uses { name: Name { text: \"ring_0\" } }"),
    (b"at 0", "At { addr: 0 }"),
    (
        b"at 18446744073709551615",
        "At { addr: 18446744073709551615 }",
    ),
    (
        b"at 0xffffffffffffffff",
        "At { addr: 18446744073709551615 }",
    ),
    (b"at 0x00ab", "At { addr: 171 }"),
    (
        b"buffer b 0x10",
        "Buffer { name: Name { text: \"b\" }, pages: 16 }",
    ),
    (
        b"buffer zeros 4",
        "Buffer { name: Name { text: \"zeros\" }, pages: 4 }",
    ),
    (
        b"buffer a_3456789012345z 1",
        "Buffer { name: Name { text: \"a_3456789012345z\" }, pages: 1 }",
    ),
    (
        b"space 0x0 0x1000000 8192 0x1000",
        "Space { start: 0, len: 16777216, reserved_start: 8192, reserved_len: 4096 }",
    ),
    (
        b"limits 1 0x3 8",
        "Limits { buffers: 1, mappings: 3, items: 8 }",
    ),
    (
        b"limits 0 1 1",
        "Limits { buffers: 0, mappings: 1, items: 1 }",
    ),
    (b"timeline t", "Timeline { name: Name { text: \"t\" } }"),
    (
        b"raise t 0x5",
        "Raise { point: NamedPoint { timeline: Name { text: \"t\" }, value: 5 } }",
    ),
    (b"value t", "Value { name: Name { text: \"t\" } }"),
    (
        b"plan map 0 4096 c 0 ro",
        "Plan { operation: Map { addr: 0, len: 4096, buffer: Name { text: \"c\" }, offset: 0, read_only: true } }",
    ),
    (
        b"plan zero 0x5000 0x1000",
        "Plan { operation: Zero { addr: 20480, len: 4096, read_only: false } }",
    ),
    (
        b"plan unmap 0x1000 0x2000",
        "Plan { operation: Unmap { addr: 4096, len: 8192 } }",
    ),
    (b"withdraw 1", "Withdraw { entry: 1 }"),
    (b"settle 0", "Settle { to: 0 }"),
    (b"told 15", "Told { queue: 15 }"),
    (b"told 0xf", "Told { queue: 15 }"),
    (b"told 0", "Told { queue: 0 }"),
    (b"end 1023", "End { job: 1023 }"),
    (b"end 0x0", "End { job: 0 }"),
];

/// Lists of a request, each of clauses of one kind.
#[derive(Clone, Copy)]
enum Kind {
    Operations,
    Waits,
    Signals,
}

/// Writes a clause behind a separator if it is of a kind. Whether it is.
fn write_clause(
    out: &mut String,
    separator: &str,
    kind: Kind,
    clause: &Clause,
) -> Result<bool, AllocError> {
    match (kind, clause) {
        (Kind::Operations, Clause::Change { operation }) => {
            write!(out, "{separator}{operation:?}")?
        }
        (Kind::Waits, Clause::Wait { point }) => write!(out, "{separator}{point:?}")?,
        (Kind::Signals, Clause::Signal { point }) => write!(out, "{separator}{point:?}")?,
        _ => return Ok(false),
    }
    Ok(true)
}

/// Writes the clauses of a kind as a list.
fn write_list(out: &mut String, clauses: &ClauseList<'_>, kind: Kind) -> Result<(), AllocError> {
    out.push('[')?;
    let mut rest = clauses.again();
    let mut separator = "";
    for _ in 0..u64::MAX {
        let Some(clause) = rest.take() else { break };
        if write_clause(out, separator, kind, &clause)? {
            separator = ", ";
        }
    }
    out.push(']')
}

/// Writes what a request says: its queue, operations, waits and signals.
fn write_request(out: &mut String, clauses: &ClauseList<'_>) -> Result<(), AllocError> {
    write!(out, "{} ", clauses.queue())?;
    write_list(out, clauses, Kind::Operations)?;
    out.push(' ')?;
    write_list(out, clauses, Kind::Waits)?;
    out.push(' ')?;
    write_list(out, clauses, Kind::Signals)
}

/// Writes the accesses of a job as a list.
fn write_accesses(out: &mut String, accesses: &AccessList<'_>) -> Result<(), AllocError> {
    out.push('[')?;
    let mut rest = accesses.again();
    let mut separator = "";
    for _ in 0..u64::MAX {
        let Some(access) = rest.take() else { break };
        write!(out, "{separator}{access:?}")?;
        separator = ", ";
    }
    out.push(']')
}

/// Writes what a line is read as.
fn write_meaning(out: &mut String, text: &[u8]) -> Result<(), AllocError> {
    match parse_line(text) {
        Some(Line::Bind { clauses }) => write_request(out, &clauses),
        Some(Line::Job { accesses }) => write_accesses(out, &accesses),
        Some(line) => write!(out, "{line:?}"),
        None => out.push_str("none"),
    }
}

/// Writes what is wrong with a line, if anything is.
fn write_slip(out: &mut String, slip: Option<Slip<'_>>) -> Result<(), AllocError> {
    match slip {
        Some(slip) => write!(out, "{slip}"),
        None => out.push_str("none"),
    }
}

/// Fails where the answer to a question about a line is another.
pub fn check(alloc: Global, question: Question, text: &[u8], wanted: &str) -> Result<(), Fail> {
    let mut said = String::new(alloc);
    let written = match question {
        Question::Meaning => write_meaning(&mut said, text),
        Question::Slip => write_slip(&mut said, explain(alloc, text)),
        Question::DialogueSlip => write_slip(&mut said, explain_serve(alloc, text)),
    };
    written?;
    if said.as_str() != wanted {
        return Err(Fail::new(format_args!("{said}, not {wanted}")));
    }
    Ok(())
}

/// Fails where the answer to a question about one of these lines is another.
pub fn expect(alloc: Global, question: Question, rows: &[Row]) -> Result<(), Fail> {
    for (text, wanted) in rows {
        check(alloc, question, text, wanted)?;
    }
    Ok(())
}

#[test]
fn reads_plain_lines(rt: HostRuntime) -> Result<(), Fail> {
    expect(rt.alloc(), Question::Meaning, &PLAIN_LINES)
}

const OPERATIONS: [Row; 5] = [
    (
        b"bind map 0x2000 0x1000 b 0x3000",
        "0 [Map { addr: 8192, len: 4096, buffer: Name { text: \"b\" }, offset: 12288, read_only: false }] [] []",
    ),
    (
        b"bind map 0 4096 c 0 ro",
        "0 [Map { addr: 0, len: 4096, buffer: Name { text: \"c\" }, offset: 0, read_only: true }] [] []",
    ),
    (
        b"bind zero 0x0 0x1000 ro",
        "0 [Zero { addr: 0, len: 4096, read_only: true }] [] []",
    ),
    (
        b"bind unmap 0x1000 0x1000",
        "0 [Unmap { addr: 4096, len: 4096 }] [] []",
    ),
    (
        b"bind unmapall ring",
        "0 [UnmapAll { buffer: Name { text: \"ring\" } }] [] []",
    ),
];

#[test]
fn reads_operations(rt: HostRuntime) -> Result<(), Fail> {
    expect(rt.alloc(), Question::Meaning, &OPERATIONS)
}

/// What stands before the first end of a line, and behind it.
const SPLIT: Option<(&[u8], &[u8])> = Some((b"map", b"\nat 0\n"));

#[test]
fn splits_at_the_first_byte(rt: HostRuntime) {
    assert_eq!(rt; split_once(b"map\n\nat 0\n", b'\n'), SPLIT);
    assert_eq!(rt; split_once(b"map", b'\n'), None);
}

/// Numbers, which are written in sixteen digits each.
const NUMBERS: [u64; 3] = [0, 0x1234_ab00, u64::MAX];

#[test]
fn prints_numbers_and_names(rt: HostRuntime) -> Result<(), Fail> {
    let name = Name::from_word(b"ring_0").ok_or("no name")?;
    let mut text = String::from_str(rt.alloc(), name.as_str())?;
    for number in &NUMBERS {
        text.push(' ')?;
        write_hex(&mut text, *number)?;
    }
    let wanted = "ring_0 0000000000000000 000000001234ab00 ffffffffffffffff";
    assert_eq!(rt; text.as_str(), wanted);
    Ok(())
}
