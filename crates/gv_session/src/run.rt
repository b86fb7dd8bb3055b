//! What the lines of a script do: those that set, declare or ask for an event.
ghost use Rattle.std.specs.Prelude.{◌≡◌, ◌≢◌, IsOk, OnOk, OnErr, IfErr, Some};
ghost use Rattle.gv_lines.specs.Grammar.{parsed};
ghost use Rattle.gv_lines.specs.declared.line.Line.TheVariants.{Silent};
ghost use Rattle.gv_lines.specs.declared.line.Line.TheVariants as line;
ghost use Rattle.gv_session.specs.Line.{Runs, RunsText, IsGood, IsGoodText, DoesOnce, SetsBounds, MaySetBounds};
ghost use Rattle.gv_session.specs.Question.{IsQuestion};
ghost use Rattle.gv_session.specs.LineProgress.{Wrote};
ghost use Rattle.gv_session.specs.Stopping.{Leaves, Loses};

use crate::accesses::{accesses_of, are_too_many};
use crate::caps::Caps;
use crate::fault::LineFault;
use crate::question::{NamedVm, answer};
use crate::reply_text::{write_number, write_refused, write_said, write_withdrawn};
use crate::request::{asked_by, point_named};
use crate::run_request::run_request;
use crate::session::Session;
use crate::stage::Stage;
use gv_lines::{AccessList, ClauseList, Line, Name, NamedPoint, parse_line};
use gv_types::{Bounds, Fault, Limits, MAX_TOLD};
use gv_vm::Event;
use std::alloc::Global;

/// Runs a line as it stands in a script, and writes its reply.
pub fn run_text(
    alloc: Global,
    session: &mut Session,
    text: &[u8],
    out: &mut String,
) -> Result<(), LineFault>
    ensures done { OnOk result (Wrote (RunsText text.now) session.old out.old out.new session.new) }
    ensures bad { result ≡ Err LineFault.Bad → ¬ IsGoodText text.now session.old }
    ensures memory { result ≡ Err LineFault.OutOfMemory → IsGoodText text.now session.old }
    ensures silent { parsed text.now ≡ Some Silent → IsOk result }
{
    match parse_line(text) {
        Some(line) => run(alloc, session, line, out),
        None => Err(LineFault::Bad),
    }
}

/// Runs a line, and writes its reply. A bad line changes nothing, and one that memory is wanted for only what `Leaves` says.
pub fn run(
    alloc: Global,
    session: &mut Session,
    line: Line<'_>,
    out: &mut String,
) -> Result<(), LineFault>
    ensures done { OnOk result (Wrote (Runs line.entry) session.old out.old out.new session.new) }
    ensures bad { result ≡ Err LineFault.Bad → ¬ IsGood line.entry session.old }
    ensures memory { result ≡ Err LineFault.OutOfMemory → IsGood line.entry session.old }
    ensures silent { line.entry ≡ Silent → IsOk result }
    ensures stopped { IfErr result (Leaves line.entry session.old session.new) }
{
    match line {
        Line::Silent => Ok(()),
        Line::Space {
            start,
            len,
            reserved_start,
            reserved_len,
        } => {
            let bounds = Bounds::from_bytes(start, len, reserved_start, reserved_len);
            space(alloc, session, bounds, out)
        }
        Line::Limits {
            buffers,
            mappings,
            items,
        } => limits(alloc, session, Caps::new(buffers, mappings, items), out),
        Line::Buffer { name, pages } => buffer(alloc, session, name, pages, out),
        Line::Destroy { name } => destroy(alloc, session, &name, out),
        Line::Timeline { name } => timeline(session, name, out),
        Line::Raise { point } => raise(alloc, session, &point, out),
        Line::Value { name } => value(session, &name, out),
        Line::Bind { clauses } => bind(alloc, session, &clauses, out),
        Line::Rewind => run_event(alloc, session, Event::Rewind, out),
        Line::Withdraw { entry } => withdraw(alloc, session, entry, out),
        Line::Settle { to } => run_event(alloc, session, Event::Settle { to }, out),
        Line::Job { accesses } => job(alloc, session, accesses, out),
        Line::End { job } => run_event(alloc, session, Event::JobEnd { job }, out),
        question => ask(alloc, session, &question, out),
    }
}

/// Sets the bounds, where there are such bounds and no other line has run.
fn space(
    alloc: Global,
    session: &mut Session,
    bounds: Option<Bounds>,
    out: &mut String,
) -> Result<(), LineFault>
    ensures done { OnOk result (Wrote (SetsBounds bounds) session.old out.old out.new session.new) }
    ensures bad { result ≡ Err LineFault.Bad → ¬ MaySetBounds bounds session.old }
    ensures memory { result ≡ Err LineFault.OutOfMemory → MaySetBounds bounds session.old }
    ensures bad_stopped { result ≡ Err LineFault.Bad → session.new ≡ session.old }
    ensures stopped { OnErr result (Loses (SetsBounds bounds) session.old session.new) }
{
    match session.stage() {
        Stage::Fresh => {}
        Stage::Bounded | Stage::Begun => return Err(LineFault::Bad),
    }
    let Some(bounds) = bounds else {
        return Err(LineFault::Bad);
    };
    session.set_bounds(alloc, bounds)?;
    Ok(out.push_str("ok\n")?)
}

/// Sets the limits, where there are such limits and no line has run but a setting of bounds.
fn limits(
    alloc: Global,
    session: &mut Session,
    caps: Caps,
    out: &mut String,
) -> Result<(), LineFault>
    ensures done { OnOk result
        (Wrote (Runs (line.Limits caps.buffers caps.mappings caps.items)) session.old out.old out.new session.new) }
    ensures bad { result ≡ Err LineFault.Bad
        → ¬ IsGood (line.Limits caps.buffers caps.mappings caps.items) session.old }
    ensures memory { result ≡ Err LineFault.OutOfMemory
        → IsGood (line.Limits caps.buffers caps.mappings caps.items) session.old }
    ensures stopped { IfErr result
        (Leaves (line.Limits caps.buffers caps.mappings caps.items) session.old session.new) }
{
    if session.stage() == Stage::Begun {
        return Err(LineFault::Bad);
    }
    let Some(limits) = Limits::new(caps.buffers, caps.mappings, caps.items, MAX_TOLD) else {
        return Err(LineFault::Bad);
    };
    session.set_limits(alloc, limits)?;
    Ok(out.push_str("ok\n")?)
}

/// Makes a buffer, unless its name is declared already.
fn buffer(
    alloc: Global,
    session: &mut Session,
    name: Name,
    pages: u64,
    out: &mut String,
) -> Result<(), LineFault>
    ensures done { OnOk result (Wrote (Runs (line.Buffer name pages)) session.old out.old out.new session.new) }
    ensures bad { result ≡ Err LineFault.Bad → ¬ IsGood (line.Buffer name pages) session.old }
    ensures memory { result ≡ Err LineFault.OutOfMemory → IsGood (line.Buffer name pages) session.old }
    ensures stopped { IfErr result (Leaves (line.Buffer name pages) session.old session.new) }
{
    if session.buffers().id_of(&name).is_some() {
        return Err(LineFault::Bad);
    }
    let reply = session.make_buffer(alloc, name, pages)?;
    Ok(write_said(out, session.buffers(), session.timelines(), &reply)?)
}

/// Destroys a buffer that nothing names.
fn destroy(
    alloc: Global,
    session: &mut Session,
    name: &Name,
    out: &mut String,
) -> Result<(), LineFault>
    ensures done { OnOk result (Wrote (Runs (line.Destroy name.now)) session.old out.old out.new session.new) }
    ensures bad { result ≡ Err LineFault.Bad → ¬ IsGood (line.Destroy name.now) session.old }
    ensures memory { result ≡ Err LineFault.OutOfMemory → IsGood (line.Destroy name.now) session.old }
    ensures stopped { IfErr result (Leaves (line.Destroy name.now) session.old session.new) }
{
    let id = session.buffers().id_of(name).ok_or(LineFault::Bad)?;
    run_event(alloc, session, Event::Destroy { id }, out)
}

/// Declares the next timeline, unless its name is declared already or all are.
fn timeline(session: &mut Session, name: Name, out: &mut String) -> Result<(), LineFault>
    ensures done { OnOk result (Wrote (Runs (line.Timeline name)) session.old out.old out.new session.new) }
    ensures bad { result ≡ Err LineFault.Bad → ¬ IsGood (line.Timeline name) session.old }
    ensures memory { result ≡ Err LineFault.OutOfMemory → IsGood (line.Timeline name) session.old }
    ensures stopped { IfErr result (Leaves (line.Timeline name) session.old session.new) }
{
    session.declare_timeline(name)?;
    Ok(out.push_str("ok\n")?)
}

/// Raises a timeline.
fn raise(
    alloc: Global,
    session: &mut Session,
    point: &NamedPoint,
    out: &mut String,
) -> Result<(), LineFault>
    ensures done { OnOk result (Wrote (Runs (line.Raise point.now)) session.old out.old out.new session.new) }
    ensures bad { result ≡ Err LineFault.Bad → ¬ IsGood (line.Raise point.now) session.old }
    ensures memory { result ≡ Err LineFault.OutOfMemory → IsGood (line.Raise point.now) session.old }
    ensures stopped { IfErr result (Leaves (line.Raise point.now) session.old session.new) }
{
    let point = point_named(session.timelines(), point).ok_or(LineFault::Bad)?;
    run_event(alloc, session, Event::Raise { point }, out)
}

/// Writes the number of a timeline.
fn value(session: &mut Session, name: &Name, out: &mut String) -> Result<(), LineFault>
    ensures done { OnOk result (Wrote (Runs (line.Value name.now)) session.old out.old out.new session.new) }
    ensures bad { result ≡ Err LineFault.Bad → ¬ IsGood (line.Value name.now) session.old }
    ensures memory { result ≡ Err LineFault.OutOfMemory → IsGood (line.Value name.now) session.old }
    ensures stopped { IfErr result (Leaves (line.Value name.now) session.old session.new) }
{
    let timeline = session.timelines().index_of(name).ok_or(LineFault::Bad)?;
    session.begin();
    let number = session.world().clock().value(timeline);
    Ok(write_number(out, session.timelines(), timeline, number)?)
}

/// Asks, and changes nothing.
fn ask(
    alloc: Global,
    session: &mut Session,
    question: &Line<'_>,
    out: &mut String,
) -> Result<(), LineFault>
    requires { IsQuestion question.now }
    ensures done { OnOk result (Wrote (Runs question.now) session.old out.old out.new session.new) }
    ensures bad { result ≡ Err LineFault.Bad → ¬ IsGood question.now session.old }
    ensures memory { result ≡ Err LineFault.OutOfMemory → IsGood question.now session.old }
    ensures stopped { OnErr result (session.new ≡ session.old) }
{
    let named = NamedVm {
        vm: session.world().vm(),
        buffers: session.buffers(),
        timelines: session.timelines(),
    };
    answer(alloc, question, named, out)?;
    session.begin();
    Ok(())
}

/// Puts a request on its queue, and serves it.
fn bind(
    alloc: Global,
    session: &mut Session,
    clauses: &ClauseList<'_>,
    out: &mut String,
) -> Result<(), LineFault>
    ensures done { OnOk result (Wrote (Runs (line.Bind clauses.now)) session.old out.old out.new session.new) }
    ensures bad { result ≡ Err LineFault.Bad → ¬ IsGood (line.Bind clauses.now) session.old }
    ensures memory { result ≡ Err LineFault.OutOfMemory → IsGood (line.Bind clauses.now) session.old }
    ensures stopped { IfErr result (Leaves (line.Bind clauses.now) session.old session.new) }
{
    let asked = asked_by(alloc, session.buffers(), session.timelines(), clauses)?;
    run_request(alloc, session, asked.0, asked.1, out)
}

/// One event of the world, and what it replies. Only want of memory is an error.
pub fn run_event(
    alloc: Global,
    session: &mut Session,
    event: Event,
    out: &mut String,
) -> Result<(), LineFault>
    ensures done { OnOk result (Wrote (DoesOnce event) session.old out.old out.new session.new) }
    ensures memory { result ≢ Err LineFault.Bad }
    ensures stopped { OnErr result (Loses (DoesOnce event) session.old session.new) }
{
    let reply = session.step(alloc, event)?;
    Ok(write_said(out, session.buffers(), session.timelines(), &reply)?)
}

/// Withdraws an entry.
fn withdraw(
    alloc: Global,
    session: &mut Session,
    entry: u64,
    out: &mut String,
) -> Result<(), LineFault>
    ensures done { OnOk result (Wrote (Runs (line.Withdraw entry)) session.old out.old out.new session.new) }
    ensures memory { result ≢ Err LineFault.Bad }
    ensures stopped { OnErr result (Loses (Runs (line.Withdraw entry)) session.old session.new) }
{
    let reply = session.step(alloc, Event::Withdraw { entry })?;
    Ok(write_withdrawn(out, entry, &reply)?)
}

/// Begins a job. Where its accesses are too many for any job, it is refused before there is memory for them.
fn job(
    alloc: Global,
    session: &mut Session,
    accesses: AccessList<'_>,
    out: &mut String,
) -> Result<(), LineFault>
    ensures done { OnOk result (Wrote (Runs (line.Job accesses.entry)) session.old out.old out.new session.new) }
    ensures memory { result ≢ Err LineFault.Bad }
    ensures stopped { OnErr result (Loses (Runs (line.Job accesses.entry)) session.old session.new) }
{
    if are_too_many(&accesses) {
        session.begin();
        return Ok(write_refused(out, &Fault::TooManyAccesses)?);
    }
    let accesses = accesses_of(alloc, accesses)?;
    run_event(alloc, session, Event::JobBegin { accesses }, out)
}
