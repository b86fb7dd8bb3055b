//! Why a line is not of the language.
ghost use Rattle.std.specs.Prelude.{◌≡◌, ◌↔◌, None, IsSome};
ghost use Rattle.gv_lines.specs.Grammar.{parsed};
ghost use Rattle.gv_lines.specs.ServeLine.{serve_parsed};

mod bytes;
mod cursor;
mod likeness;
mod mention;
mod pattern;
mod word;

use crate::clause_words::ClauseWords;
use crate::parse::parse_line;
use crate::reason::{Beginning, Form, Reason, Slip};
use crate::serve_line::parse_serve_line;
use crate::words::Words;
use bytes::bytes_slip;
use cursor::WordCursor;
pub use cursor::{Found, word_at};
use likeness::{ACCESSES, CLAUSES, LINES, OPERATIONS, SERVE_LINES, meant};
pub use mention::{Mention, Mentions, queue_in};
use pattern::{Item, Pattern, Shape};
use std::alloc::Global;
use word::word_slip;

/// Which lines there are.
#[derive(Clone, Copy)]
enum Language {
    /// Those of scripts.
    Run,
    /// Those of scripts, and those that only a dialogue has.
    Serve,
}

/// Why a line, given without its line end, is not of the language. Only a guess at what was meant takes memory.
pub fn explain(alloc: Global, text: &[u8]) -> Option<Slip<'_>>
    ensures { IsSome result ↔ (parsed text.now ≡ None) }
{
    match parse_line(text) {
        Some(_) => None,
        None => Some(slip_in(alloc, Language::Run, text)),
    }
}

/// The same of a line of a dialogue.
pub fn explain_serve(alloc: Global, text: &[u8]) -> Option<Slip<'_>>
    ensures { IsSome result ↔ (serve_parsed text.now ≡ None) }
{
    match parse_serve_line(text) {
        Some(_) => None,
        None => Some(slip_in(alloc, Language::Serve, text)),
    }
}

/// Where a line that is not of the language is bad first.
fn slip_in(alloc: Global, language: Language, text: &[u8]) -> Slip<'_> {
    if let Some(slip) = bytes_slip(text) {
        return slip;
    }
    let mut cursor = WordCursor::new(text);
    if let Some(slip) = line_slip(alloc, language, &mut cursor) {
        return slip;
    }
    no_such_line(text)
}

/// No line begins so, and no first word is much like it.
pub fn no_such_line(word: &[u8]) -> Slip<'_> {
    beginning(
        Found { word, column: 1 },
        Beginning::NoSuchLine { meant: None },
    )
}

fn beginning(first: Found<'_>, slip: Beginning) -> Slip<'_> {
    let Found { word, column } = first;
    Slip {
        column,
        reason: Reason::Beginning { word, slip },
    }
}

fn of_form(column: u64, form: Form<'_>) -> Slip<'_> {
    Slip {
        column,
        reason: Reason::Form(form),
    }
}

/// The shape of the lines that begin with this word.
fn shape_of(language: Language, word: &[u8]) -> Option<Shape> {
    match language {
        Language::Run => Shape::of(word),
        Language::Serve => Shape::of(word).or(Shape::of_serve(word)),
    }
}

/// Where the words of a line are first not as the line has them.
fn line_slip<'a>(
    alloc: Global,
    language: Language,
    cursor: &mut WordCursor<'a>,
) -> Option<Slip<'a>> {
    let first = cursor.take()?;
    let Some(shape) = shape_of(language, first.word) else {
        let slip = unknown_line(alloc, language, first.word);
        return Some(beginning(first, slip));
    };
    match shape {
        Shape::Words { pattern } => pattern_slip(pattern, cursor),
        Shape::Clauses => items_slip(alloc, Item::Clause, cursor),
        Shape::Accesses => {
            first_missing(cursor, b"ACCESS", "job ACCESS ; ACCESS ..").or(items_slip(
                alloc,
                Item::Access,
                cursor,
            ))
        }
        Shape::Operation => {
            first_missing(cursor, b"OPERATION", "plan OPERATION").or(item_slip(
                alloc,
                Item::Operation,
                cursor,
            ))
        }
    }
}

fn unknown_line(alloc: Global, language: Language, word: &[u8]) -> Beginning {
    if Shape::of_serve(word).is_some() {
        return Beginning::ServeAlone;
    }
    let likely = meant(alloc, word, &LINES);
    let meant = match language {
        Language::Serve => likely.or(meant(alloc, word, &SERVE_LINES)),
        Language::Run => likely,
    };
    Beginning::NoSuchLine { meant }
}

/// Where no word is left, this part is missing.
fn first_missing<'a>(
    cursor: &WordCursor<'a>,
    part: &'static [u8],
    form: &'static str,
) -> Option<Slip<'a>> {
    cursor
        .words
        .is_done()
        .then_some(of_form(cursor.column, Form::Missing { part, form }))
}

/// Where the words are first not as a form has them.
fn pattern_slip<'a>(pattern: Pattern, cursor: &mut WordCursor<'a>) -> Option<Slip<'a>> {
    let form = pattern.text;
    let mut parts = Words::new(form.as_bytes());
    let _first = parts.take_word();
    while let Some(part) = parts.take_word() {
        let Some(found) = cursor.take() else {
            return Some(of_form(cursor.column, Form::Missing { part, form }));
        };
        if let Some(slip) = word_slip(part, found) {
            return Some(slip);
        }
    }
    end_slip(pattern, cursor)
}

/// Why what follows a form is bad.
fn end_slip<'a>(pattern: Pattern, cursor: &mut WordCursor<'a>) -> Option<Slip<'a>> {
    let form = pattern.text;
    let mut found = cursor.take()?;
    if found.word == b";".as_slice() {
        return Some(of_form(found.column, Form::StraySeparator));
    }
    if pattern.may_be_read_only {
        let word = found.word;
        if word != b"ro".as_slice() {
            return Some(of_form(found.column, Form::NotReadOnly { word }));
        }
        found = cursor.take()?;
    }
    let word = found.word;
    Some(of_form(found.column, Form::TooMany { word, form }))
}

/// Where clauses or accesses are first not as they should be. There are none where no word is left.
fn items_slip<'a>(alloc: Global, item: Item, cursor: &mut WordCursor<'a>) -> Option<Slip<'a>> {
    if cursor.words.is_done() {
        return None;
    }
    let mut parts = ClauseWords::new(cursor.words.again());
    let mut column = cursor.column;
    let mut has_queue = false;
    while let Some(words) = parts.take_clause() {
        let mut clause = WordCursor { words, column };
        let names_queue = matches!(item, Item::Clause) && clause.begins_with(b"queue");
        if names_queue && has_queue {
            return Some(of_form(column, Form::SecondQueue));
        }
        has_queue = has_queue || names_queue;
        if let Some(slip) = item_slip(alloc, item, &mut clause) {
            return Some(slip);
        }
        column = clause.column.saturating_add(2);
    }
    None
}

/// Where a clause, an operation or an access is first not as it should be.
fn item_slip<'a>(alloc: Global, item: Item, cursor: &mut WordCursor<'a>) -> Option<Slip<'a>> {
    let Some(first) = cursor.take() else {
        return Some(of_form(cursor.column, Form::NoClause));
    };
    match item.pattern(first.word) {
        Some(pattern) => pattern_slip(pattern, cursor),
        None => Some(beginning(first, unknown_item(alloc, item, first.word))),
    }
}

fn unknown_item(alloc: Global, item: Item, word: &[u8]) -> Beginning {
    match item {
        Item::Clause => Beginning::NoSuchClause {
            meant: meant(alloc, word, &CLAUSES),
        },
        Item::Operation if Item::Clause.pattern(word).is_some() => Beginning::NotPlanned,
        Item::Operation => Beginning::NoSuchOperation {
            meant: meant(alloc, word, &OPERATIONS),
        },
        Item::Access => Beginning::NoSuchAccess {
            meant: meant(alloc, word, &ACCESSES),
        },
    }
}
