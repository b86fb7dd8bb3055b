//! Parses a line of a script.
ghost use Rattle.std.specs.Prelude.{◌≡◌};
ghost use Rattle.std.specs.List.{list_all};
ghost use Rattle.std.specs.Char.{is_ascii};
ghost use Rattle.gv_lines.specs.Grammar.{parsed, line_said, worded, line_of};
ghost use Rattle.gv_lines.specs.Grammar.{space_line, limits_line, buffer_line, destroy_line, uses_line};
ghost use Rattle.gv_lines.specs.Grammar.{timeline_line, raise_line, value_line, bind_line, plan_line};
ghost use Rattle.gv_lines.specs.Grammar.{at_line, withdraw_line, settle_line, told_line, job_line, end_line};
ghost use Rattle.gv_lines.specs.Words.{ended};

use super::clause_words::ClauseWords;
use super::clauses::ClauseList;
use super::job::AccessList;
use super::keyword::Keyword;
use super::line::Line;
use super::operation::planned_operation;
use super::point::NamedPoint;
use super::words::{Words, queue_of};

/// What a line says, given without its line end, or `None` for a line that is not of the language. It takes no memory, and
/// time linear in the line.
#[tactic(auto, unfolding(crate::specs::Grammar::parsed))]
pub fn parse_line(text: &[u8]) -> Option<Line<'_>>
    ensures { result ≡ parsed text.now }
{
    if is_ascii(text) {
        line_said(text)
    } else {
        None
    }
}

fn is_ascii(text: &[u8]) -> bool
    ensures { result ≡ list_all is_ascii text.now }
{
    text.is_ascii()
}

fn line_said(text: &[u8]) -> Option<Line<'_>>
    ensures { result ≡ line_said text.now }
{
    if text.is_empty() || text[0] == b'#' {
        return Some(Line::Silent);
    }
    words_line(Words::new(text))
}

fn words_line(mut words: Words<'_>) -> Option<Line<'_>>
    ensures { result ≡ worded words.entry }
{
    let keyword = Keyword::from_word(words.take_word()?)?;
    line_of(keyword, words)
}

/// The line that begins with this keyword.
fn line_of(keyword: Keyword, words: Words<'_>) -> Option<Line<'_>>
    ensures { result ≡ line_of keyword words.entry }
{
    match keyword {
        Keyword::Space => space_line(words),
        Keyword::Limits => limits_line(words),
        Keyword::Buffer => buffer_line(words),
        Keyword::Destroy => destroy_line(words),
        Keyword::Uses => uses_line(words),
        Keyword::Timeline => timeline_line(words),
        Keyword::Raise => raise_line(words),
        Keyword::Value => value_line(words),
        Keyword::Bind => bind_line(words),
        Keyword::Plan => plan_line(words),
        Keyword::Map => bare_line(words, Line::Map),
        Keyword::At => at_line(words),
        Keyword::Tables => bare_line(words, Line::Tables),
        Keyword::Rewind => bare_line(words, Line::Rewind),
        Keyword::Journal => bare_line(words, Line::Journal),
        Keyword::Withdraw => withdraw_line(words),
        Keyword::Settle => settle_line(words),
        Keyword::Told => told_line(words),
        Keyword::Job => job_line(words),
        Keyword::End => end_line(words),
    }
}

fn space_line(mut words: Words<'_>) -> Option<Line<'_>>
    ensures { result ≡ space_line words.entry }
{
    let start = words.take_number()?;
    let len = words.take_number()?;
    let reserved_start = words.take_number()?;
    let reserved_len = words.take_number()?;
    words.is_done().then_some(Line::Space {
        start,
        len,
        reserved_start,
        reserved_len,
    })
}

fn limits_line(mut words: Words<'_>) -> Option<Line<'_>>
    ensures { result ≡ limits_line words.entry }
{
    let buffers = words.take_number()?;
    let mappings = words.take_number()?;
    let items = words.take_number()?;
    words.is_done().then_some(Line::Limits {
        buffers,
        mappings,
        items,
    })
}

fn buffer_line(mut words: Words<'_>) -> Option<Line<'_>>
    ensures { result ≡ buffer_line words.entry }
{
    let name = words.take_name()?;
    let pages = words.take_number()?;
    words.is_done().then_some(Line::Buffer { name, pages })
}

fn destroy_line(mut words: Words<'_>) -> Option<Line<'_>>
    ensures { result ≡ destroy_line words.entry }
{
    let name = words.take_name()?;
    words.is_done().then_some(Line::Destroy { name })
}

fn uses_line(mut words: Words<'_>) -> Option<Line<'_>>
    ensures { result ≡ uses_line words.entry }
{
    let name = words.take_name()?;
    words.is_done().then_some(Line::Uses { name })
}

fn timeline_line(mut words: Words<'_>) -> Option<Line<'_>>
    ensures { result ≡ timeline_line words.entry }
{
    let name = words.take_name()?;
    words.is_done().then_some(Line::Timeline { name })
}

fn raise_line(words: Words<'_>) -> Option<Line<'_>>
    ensures { result ≡ raise_line words.entry }
{
    let point = NamedPoint::from_words(words)?;
    Some(Line::Raise { point })
}

fn value_line(mut words: Words<'_>) -> Option<Line<'_>>
    ensures { result ≡ value_line words.entry }
{
    let name = words.take_name()?;
    words.is_done().then_some(Line::Value { name })
}

fn bind_line(words: Words<'_>) -> Option<Line<'_>>
    ensures { result ≡ bind_line words.entry }
{
    let clauses = if words.is_done() {
        ClauseList::none()
    } else {
        ClauseList::from_parts(ClauseWords::new(words))?
    };
    Some(Line::Bind { clauses })
}

fn plan_line(words: Words<'_>) -> Option<Line<'_>>
    ensures { result ≡ plan_line words.entry }
{
    let operation = planned_operation(words)?;
    Some(Line::Plan { operation })
}

/// A line of one word alone.
fn bare_line<'a>(words: Words<'_>, line: Line<'a>) -> Option<Line<'a>>
    ensures { result ≡ ended words.entry line.entry }
{
    words.is_done().then_some(line)
}

fn at_line(mut words: Words<'_>) -> Option<Line<'_>>
    ensures { result ≡ at_line words.entry }
{
    let addr = words.take_number()?;
    words.is_done().then_some(Line::At { addr })
}

fn withdraw_line(mut words: Words<'_>) -> Option<Line<'_>>
    ensures { result ≡ withdraw_line words.entry }
{
    let entry = words.take_number()?;
    words.is_done().then_some(Line::Withdraw { entry })
}

fn settle_line(mut words: Words<'_>) -> Option<Line<'_>>
    ensures { result ≡ settle_line words.entry }
{
    let to = words.take_number()?;
    words.is_done().then_some(Line::Settle { to })
}

fn told_line(mut words: Words<'_>) -> Option<Line<'_>>
    ensures { result ≡ told_line words.entry }
{
    let queue = queue_of(words.take_number()?)?;
    words.is_done().then_some(Line::Told { queue })
}

fn job_line(words: Words<'_>) -> Option<Line<'_>>
    ensures { result ≡ job_line words.entry }
{
    let accesses = AccessList::from_parts(ClauseWords::new(words))?;
    Some(Line::Job { accesses })
}

fn end_line(mut words: Words<'_>) -> Option<Line<'_>>
    ensures { result ≡ end_line words.entry }
{
    let job = words.take_number()?;
    words.is_done().then_some(Line::End { job })
}
