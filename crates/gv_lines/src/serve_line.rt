//! The lines of a dialogue: those of the language, and some that act on a queue by steps, forget its outcomes, trim or ask of the journal.
ghost use Rattle.std.specs.Prelude.{◌≡◌};
ghost use Rattle.gv_lines.specs.ServeLine.{serve_parsed, added, added_line, put_line, turn_line, give_up_line};
ghost use Rattle.gv_lines.specs.ServeLine.{forget_line, trim_line, show_line, past_line};

use super::clause_words::ClauseWords;
use super::clauses::ClauseList;
use super::line::Line;
use super::parse::parse_line;
use super::words::{Words, is_word, queue_of};

/// A line of a dialogue. Its lists stay in its text, as those of a `Line` do.
#[derive(Drop)]
pub enum ServeLine<'a> {
    /// A line of the language.
    Run { line: Line<'a> },
    /// `put`, or `put CLAUSE ; CLAUSE ..`: a request is put in a queue, and not carried out. Its clauses are those of `bind`.
    Put { clauses: ClauseList<'a> },
    /// `turn NUM`: the queue, 0 to 15, goes on with its request.
    Turn { queue: u64 },
    /// `giveup NUM`: the request in hand on the queue, 0 to 15, is given up.
    GiveUp { queue: u64 },
    /// `forget NUM NUM`: the outcomes of the queue, 0 to 15, below the number are forgotten.
    Forget { queue: u64, to: u64 },
    /// `trim`: room that nothing needs is given back.
    Trim,
    /// `show NUM`: what the item of this number did.
    Show { entry: u64 },
    /// `past NUM`: what the items held say of an address in bytes.
    Past { addr: u64 },
}

/// What a line of a dialogue says, given without its line end, or `None` for one that is none. It takes no memory, and time
/// linear in the line.
#[tactic(auto, unfolding(crate::specs::ServeLine::serve_parsed))]
pub fn parse_serve_line(text: &[u8]) -> Option<ServeLine<'_>>
    ensures { result ≡ serve_parsed text.now }
{
    match parse_line(text) {
        Some(line) => Some(ServeLine::Run { line }),
        None => added(text),
    }
}

/// A line that a dialogue has beside those of the language.
fn added(text: &[u8]) -> Option<ServeLine<'_>>
    ensures { result ≡ added text.now }
{
    let mut words = Words::new(text);
    let first = words.take_word()?;
    added_line(first, words)
}

/// The line that begins with this word.
fn added_line<'a>(first: &[u8], words: Words<'a>) -> Option<ServeLine<'a>>
    ensures { result ≡ added_line first.now words.entry }
{
    if is_word(first, b"put") {
        put_line(words)
    } else if is_word(first, b"turn") {
        turn_line(words)
    } else if is_word(first, b"giveup") {
        give_up_line(words)
    } else if is_word(first, b"forget") {
        forget_line(words)
    } else if is_word(first, b"trim") {
        trim_line(words)
    } else if is_word(first, b"show") {
        show_line(words)
    } else if is_word(first, b"past") {
        past_line(words)
    } else {
        None
    }
}

fn put_line(words: Words<'_>) -> Option<ServeLine<'_>>
    ensures { result ≡ put_line words.entry }
{
    let clauses = if words.is_done() {
        ClauseList::none()
    } else {
        ClauseList::from_parts(ClauseWords::new(words))?
    };
    Some(ServeLine::Put { clauses })
}

fn turn_line(mut words: Words<'_>) -> Option<ServeLine<'_>>
    ensures { result ≡ turn_line words.entry }
{
    let queue = queue_of(words.take_number()?)?;
    words.is_done().then_some(ServeLine::Turn { queue })
}

fn give_up_line(mut words: Words<'_>) -> Option<ServeLine<'_>>
    ensures { result ≡ give_up_line words.entry }
{
    let queue = queue_of(words.take_number()?)?;
    words.is_done().then_some(ServeLine::GiveUp { queue })
}

fn forget_line(mut words: Words<'_>) -> Option<ServeLine<'_>>
    ensures { result ≡ forget_line words.entry }
{
    let queue = queue_of(words.take_number()?)?;
    let to = words.take_number()?;
    words.is_done().then_some(ServeLine::Forget { queue, to })
}

fn trim_line(words: Words<'_>) -> Option<ServeLine<'_>>
    ensures { result ≡ trim_line words.entry }
{
    words.is_done().then_some(ServeLine::Trim)
}

fn show_line(mut words: Words<'_>) -> Option<ServeLine<'_>>
    ensures { result ≡ show_line words.entry }
{
    let entry = words.take_number()?;
    words.is_done().then_some(ServeLine::Show { entry })
}

fn past_line(mut words: Words<'_>) -> Option<ServeLine<'_>>
    ensures { result ≡ past_line words.entry }
{
    let addr = words.take_number()?;
    words.is_done().then_some(ServeLine::Past { addr })
}
