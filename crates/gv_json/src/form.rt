//! A reply's line written as members of JSON, as a form says.
use crate::forms::{Form, Kind};
use crate::object::Json;
use crate::stop::Stop;
use crate::words::Words;
use std::alloc::AllocError;

/// Tables are counted at so many levels.
const LEVELS: u32 = 5;

/// Writes the members of a line, given without its end, by the one of some forms that it begins like. A number of the key `number`, if
/// there is one, stands before.
pub fn write_line(
    json: &mut Json,
    number: Option<&str>,
    forms: &[Form],
    line: &str,
) -> Result<(), Stop> {
    let mut words = Words::new(line);
    if let Some(key) = number {
        json.number(key, words.number()?)?;
    }
    let form = parts_of(forms, &mut words)?;
    write_members(json, &mut words, form)?;
    words.end()
}

/// The parts of the only form, or those behind the word that tells which form it is.
fn parts_of(forms: &[Form], words: &mut Words<'_>) -> Result<Form, Stop> {
    match forms.first() {
        Some(form) if forms.len() == 1 => Ok(*form),
        _ => behind(forms, words.take()?),
    }
}

/// The parts behind the first one of the form that begins with this word. Of several forms each begins with a word of its own.
fn behind(forms: &[Form], first: &str) -> Result<Form, Stop> {
    for form in forms {
        if let Some(((_, word), rest)) = form.split_first() {
            if *word == first {
                return Ok(rest);
            }
        }
    }
    Err(Stop::NotUnderstood)
}

fn write_members(json: &mut Json, words: &mut Words<'_>, form: Form) -> Result<(), Stop> {
    let mut is_left_out = false;
    for (kind, key) in form {
        if is_left_out {
            is_left_out = !matches!(*kind, Kind::Close);
        } else if matches!(*kind, Kind::ObjectOrNull) && words.take_none() {
            json.key(key)?;
            json.null()?;
            is_left_out = true;
        } else {
            write_part(json, words, *kind, key)?;
        }
    }
    Ok(())
}

/// Writes a part of a form, which is there.
fn write_part(json: &mut Json, words: &mut Words<'_>, kind: Kind, key: &str) -> Result<(), Stop> {
    let written = match kind {
        Kind::Word => return words.expect(key),
        Kind::Place => return write_place(json, words),
        Kind::Mapping => return write_mapping(json, words),
        Kind::Tables => return write_tables(json, words, key),
        Kind::Number => json.number(key, words.number()?),
        Kind::NumberIfAny => write_number_if(json, words, key),
        Kind::Text => json.text(key, words.take()?),
        Kind::Address => json.address(key, words.address()?),
        Kind::True => json.flag(key, true),
        Kind::Given => json.flag(key, words.take_if(key)),
        Kind::Live => json.flag(key, words.either("live", "withdrawn")?),
        Kind::Object | Kind::ObjectOrNull => open(json, key),
        Kind::Close => json.close_object(),
    };
    Ok(written?)
}

/// Opens an object under a key.
fn open(json: &mut Json, key: &str) -> Result<(), AllocError> {
    json.key(key)?;
    json.open_object()
}

fn write_number_if(json: &mut Json, words: &mut Words<'_>, key: &str) -> Result<(), AllocError> {
    match words.number_if() {
        Some(number) => json.number(key, number),
        None => Ok(()),
    }
}

/// Writes what a mapping leads to, and whether it is read-only.
fn write_place(json: &mut Json, words: &mut Words<'_>) -> Result<(), Stop> {
    if words.take_if("zero") {
        json.flag("zero", true)?;
    } else {
        json.text("buffer", words.take()?)?;
        json.address("offset", words.hex()?)?;
    }
    Ok(json.flag("ro", words.either("ro", "rw")?)?)
}

fn write_mapping(json: &mut Json, words: &mut Words<'_>) -> Result<(), Stop> {
    json.address("start", words.hex()?)?;
    json.address("end", words.hex()?)?;
    write_place(json, words)
}

/// Writes how many tables there are, from the highest level down.
fn write_tables(json: &mut Json, words: &mut Words<'_>, key: &str) -> Result<(), Stop> {
    json.key(key)?;
    json.open_list()?;
    for _ in 0..LEVELS {
        json.item(words.number()?)?;
    }
    Ok(json.close_list()?)
}
