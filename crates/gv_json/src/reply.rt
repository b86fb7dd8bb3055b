//! A line of JSON for each reply.
use crate::form::write_line;
use crate::forms::{
    Form, ITEMS, MAPPINGS, OPERATIONS, OUTCOME, OUTCOMES, REACHED, Rows, STEPS, TABLES, VALUE,
    WITHDRAWAL,
};
use crate::list::{write_job, write_list, write_past};
use crate::object::Json;
use crate::stop::Stop;
use crate::words::understood;
use std::alloc::{AllocError, Global};

/// What a reply is.
#[derive(Clone, Copy)]
enum Reply {
    /// One line of one of these forms.
    Line(&'static [Form]),
    List(Rows),
    Job,
    Past,
}

/// The first word of a line, what its reply begins with, and what that reply is. The first row that fits holds, and where none does the
/// reply says what the line did.
static REPLIES: [(&[u8], &str, Reply); 16] = [
    (b"map", "", Reply::List(MAPPINGS)),
    (b"journal", "", Reply::List(ITEMS)),
    (b"told", "", Reply::List(OUTCOMES)),
    (b"at", "", Reply::Line(REACHED)),
    (b"raise", "", Reply::Line(VALUE)),
    (b"value", "", Reply::Line(VALUE)),
    (b"tables", "", Reply::Line(TABLES)),
    (b"plan", "refused ", Reply::Line(OUTCOME)),
    (b"plan", "", Reply::List(STEPS)),
    (b"job", "refused ", Reply::Line(OUTCOME)),
    (b"job", "", Reply::Job),
    (b"past", "refused ", Reply::Line(OUTCOME)),
    (b"past", "", Reply::Past),
    (b"show", "refused ", Reply::Line(OUTCOME)),
    (b"show", "withdrawal ", Reply::Line(WITHDRAWAL)),
    (b"show", "", Reply::List(OPERATIONS)),
];

/// Adds the reply to the line of this number, which begins with this word: an object on a line of its own. `text` is the
/// reply as it is written, with its line ends. One that is of no form of its kind stands whole under `text`. On an
/// error, which is want of memory, `out` is as before.
pub fn write_reply(
    alloc: Global,
    out: &mut String,
    line: u64,
    word: &[u8],
    text: &str,
) -> Result<(), AllocError> {
    let mut json = Json::new(alloc, line)?;
    match write_answer(&mut json, word, text) {
        Ok(()) => json.finish(out),
        Err(Stop::OutOfMemory) => Err(AllocError),
        Err(Stop::NotUnderstood) => {
            let mut json = Json::new(alloc, line)?;
            json.text("text", text)?;
            json.finish(out)
        }
    }
}

/// Adds that the line of this number is bad, why, and at which column, counted from 1, if at one. On an error, which is
/// want of memory, `out` is as before.
pub fn write_bad(
    alloc: Global,
    out: &mut String,
    line: u64,
    column: Option<u64>,
    reason: &str,
) -> Result<(), AllocError> {
    let mut json = Json::new(alloc, line)?;
    json.text("bad", reason)?;
    if let Some(column) = column {
        json.number("column", column)?;
    }
    json.finish(out)
}

/// Adds that the system refused memory for the line of this number, which did nothing. On an error, which is want of
/// memory again, `out` is as before.
pub fn write_no_memory(alloc: Global, out: &mut String, line: u64) -> Result<(), AllocError> {
    let mut json = Json::new(alloc, line)?;
    json.flag("outofmemory", true)?;
    json.finish(out)
}

/// Writes the members of a reply to a line that begins with this word.
fn write_answer(json: &mut Json, word: &[u8], text: &str) -> Result<(), Stop> {
    let text = text.strip_suffix('\n').ok_or(Stop::NotUnderstood)?;
    match reply_of(word, text) {
        Reply::Line(forms) => {
            understood(!text.contains('\n'))?;
            write_line(json, None, forms, text)
        }
        Reply::List(rows) => write_list(json, &rows, text),
        Reply::Job => write_job(json, text),
        Reply::Past => write_past(json, text),
    }
}

/// What the reply to a line that begins with this word is.
fn reply_of(word: &[u8], text: &str) -> Reply {
    for (named, start, reply) in &REPLIES {
        if *named == word && text.starts_with(*start) {
            return *reply;
        }
    }
    Reply::Line(OUTCOME)
}
