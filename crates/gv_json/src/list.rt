//! Replies that may have many lines.
use crate::form::write_line;
use crate::forms::{JOB, PAST, PLACES, Rows, UNDER};
use crate::object::Json;
use crate::stop::Stop;

/// A list of nothing.
const NONE: &str = "empty";

/// The reply that is a list, or says that it is empty.
pub fn write_list(json: &mut Json, rows: &Rows, text: &str) -> Result<(), Stop> {
    let lines = if text == NONE { None } else { Some(text) };
    write_rows(json, rows, lines)
}

/// A list of the lines of a text, if there is one.
fn write_rows(json: &mut Json, rows: &Rows, text: Option<&str>) -> Result<(), Stop> {
    json.key(rows.key)?;
    json.open_list()?;
    if let Some(text) = text {
        for line in text.split('\n') {
            json.open_object()?;
            write_line(json, rows.number, rows.forms, line)?;
            json.close_object()?;
        }
    }
    Ok(json.close_list()?)
}

/// The reply to `job`: its number, and where its accesses lead.
pub fn write_job(json: &mut Json, text: &str) -> Result<(), Stop> {
    let (first, places) = match text.split_once('\n') {
        Some((first, places)) => (first, Some(places)),
        None => (text, None),
    };
    write_line(json, None, JOB, first)?;
    write_rows(json, &PLACES, places)
}

/// The reply to `past`: what items say of an address, newest first, and what lies under the oldest.
pub fn write_past(json: &mut Json, text: &str) -> Result<(), Stop> {
    let (items, last) = match text.rsplit_once('\n') {
        Some((items, last)) => (Some(items), last),
        None => (None, text),
    };
    write_rows(json, &PAST, items)?;
    write_line(json, None, UNDER, last)
}
