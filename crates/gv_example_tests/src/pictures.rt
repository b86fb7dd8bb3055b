//! The page of pictures, whose drawings and answers are to be what the program gives. A picture is the mappings or the tables, drawn
//! before and after a change, and below them the line that asks for it or for its steps, with the answer, which may be broken into
//! more lines.

use gv_text::{MemorySink, MemorySource, run_script};
use std::alloc::{AllocError, Global};
use std::fmt::Write;

/// What stands before a mark and behind it; nothing where it isn't there.
fn parts<'a>(text: &'a str, mark: &str) -> (&'a str, &'a str) {
    text.split_once(mark).unwrap_or(("", ""))
}

/// The row of a drawing with this label.
fn row<'a>(rows: &'a str, label: &str) -> &'a str {
    let (_, behind) = parts(rows, label);
    behind.lines().next().unwrap_or("")
}

/// Whether the script has the line of a picture, answers it so, and has the mappings or the tables drawn before and after it. A
/// `plan` line changes nothing: the change is its operation.
pub fn matches_script(alloc: Global, block: &str, script: &str) -> Result<bool, AllocError> {
    let (rows, lines) = parts(block, "\n\n  ");
    let (line, told) = parts(lines, "\n");
    let has_tables = rows.contains("\n              level ");
    let question = if has_tables { "\ntables\n" } else { "\nmap\n" };
    let asked = format!(in alloc; "\n{line}\n")?;
    let (front, _) = parts(script, asked.as_str());
    let change = match line.strip_prefix("plan ") {
        Some(operation) => format!(in alloc; "\nbind {operation}{question}")?,
        None => format!(in alloc; "\n{line}{question}")?,
    };
    let answer = replies(alloc, front, asked.as_str())?;
    let before = replies(alloc, front, question)?;
    let changed = replies(alloc, front, change.as_str())?;
    let (_, after) = parts(changed.as_str(), "\n");
    let before = drawn(alloc, has_tables, before.as_str())?;
    let after = drawn(alloc, has_tables, after)?;
    let has_rows = before.as_str().trim_end() == row(rows, "\n  before      ")
        && after.as_str().trim_end() == row(rows, "\n  after       ");
    Ok(has_rows && !front.is_empty() && are_alike(answer.as_str(), told))
}

/// Whether two texts have the same words.
fn are_alike(left: &str, right: &str) -> bool {
    left.split_whitespace().eq(right.split_whitespace())
}

/// What the last lines of a script are answered behind its front; nothing where it isn't run to its end.
fn replies(alloc: Global, front: &str, last: &str) -> Result<String, AllocError> {
    let first = all_replies(alloc, front, "\n")?;
    let whole = all_replies(alloc, front, last)?;
    let rest = whole.as_str().strip_prefix(first.as_str());
    String::from_str(alloc, rest.unwrap_or(""))
}

/// What a script in two parts is answered; nothing where it isn't run to its end.
fn all_replies(alloc: Global, front: &str, last: &str) -> Result<String, AllocError> {
    let script = format!(in alloc; "{front}{last}")?;
    let mut sink = MemorySink::new(alloc);
    let ended = run_script(alloc, &mut MemorySource::new(script.as_bytes()), &mut sink);
    let mut text = String::new(alloc);
    if let (Ok(()), Ok(bytes)) = (ended, str::from_utf8(sink.bytes())) {
        text.push_str(bytes)?;
    }
    Ok(text)
}

/// Mappings or counts of tables, as they are printed, drawn in a row.
fn drawn(alloc: Global, has_tables: bool, told: &str) -> Result<String, AllocError> {
    let mut row = String::new(alloc);
    if has_tables {
        draw_tables(&mut row, told)?;
    } else {
        for line in told.lines() {
            draw(&mut row, line)?;
        }
    }
    Ok(row)
}

/// Draws the tables of each level, the highest first: a mark for a level that has some.
fn draw_tables(row: &mut String, counts: &str) -> Result<(), AllocError> {
    row.push_str("          ")?;
    for count in counts.split_whitespace() {
        row.push_str(if count == "0" { "  " } else { "# " })?;
    }
    Ok(())
}

/// Draws one mapping of a buffer between its bars; two neighbours share one.
fn draw(row: &mut String, line: &str) -> Result<(), AllocError> {
    let Some(offset) = line.split(' ').nth(3) else {
        return Ok(());
    };
    let (first, end) = (column(line, 12), column(line, 29));
    let name = line.split(' ').nth(2).unwrap_or("");
    let digits = offset.trim_start_matches('0');
    let digits = if digits.is_empty() { "0" } else { digits };
    push_times(row, ' ', first.saturating_sub(row.len()))?;
    if row.len() <= first {
        row.push('|')?;
    }
    let width = end.saturating_sub(row.len());
    let length = name.len().saturating_add(digits.len()).saturating_add(3);
    let space = if length.saturating_add(2) > width {
        ""
    } else {
        " "
    };
    let taken = space.len().saturating_mul(2).saturating_add(length);
    let dashes = width.saturating_sub(taken);
    push_times(row, '-', dashes / 2)?;
    write!(row, "{space}{name}@0x{digits}{space}")?;
    push_times(row, '-', dashes - dashes / 2)?;
    row.push('|')
}

fn push_times(row: &mut String, letter: char, count: usize) -> Result<(), AllocError> {
    for _ in 0..count {
        row.push(letter)?;
    }
    Ok(())
}

/// The column of an address of the first ten pages, each of which is ten columns wide, whose digit of pages is that byte of a line.
fn column(line: &str, place: usize) -> usize {
    match line.as_bytes().get(place) {
        Some(digit @ b'0'..=b'9') => usize::from(*digit - b'0') * 10,
        _ => 0,
    }
}
