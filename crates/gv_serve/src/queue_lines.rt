//! Lines that act on a queue by steps.
ghost use Rattle.std.specs.Prelude.{◌≡◌, ◌≢◌, ◌++◌, Err, OnOk, OnErr, string_bytes};
ghost use Rattle.gv_lines.specs.declared.serve_line.ServeLine.TheVariants as said;
ghost use Rattle.gv_session.specs.Line.{AreDeclared};
ghost use Rattle.gv_session.specs.LineProgress.{Wrote};
ghost use Rattle.gv_session.specs.Stopping.{Loses};
ghost use Rattle.gv_serve.specs.DialogueLine.{Puts, Turns, GivesUp, LeavesServe, put_said, give_up_said, turn_said};

use gv_lines::ClauseList;
use gv_text::{
    LineFault, Session, TimelineNames, asked_by, write_outcome_line, write_refused, write_timeline,
};
use gv_types::Point;
use gv_vm::{Event, Reply, TurnResult};
use std::alloc::{AllocError, Global};
use std::fmt::Write;

/// Puts a request on its queue.
pub fn put(
    alloc: Global,
    session: &mut Session,
    clauses: &ClauseList<'_>,
    out: &mut String,
) -> Result<(), LineFault>
    ensures done { OnOk result (Wrote (Puts clauses.now) session.old out.old out.new session.new) }
    ensures bad { result ≡ Err LineFault.Bad → ¬ AreDeclared session.old.buffers session.old.timelines clauses.now }
    ensures memory { result ≢ Err LineFault.Bad → AreDeclared session.old.buffers session.old.timelines clauses.now }
    ensures same { result ≡ Err LineFault.Bad → session.new ≡ session.old }
    ensures stopped { OnErr result (Loses (Puts clauses.now) session.old session.new) }
{
    let (queue, request) = asked_by(alloc, session.buffers(), session.timelines(), clauses)?;
    let reply = session.step(alloc, Event::Put { queue, request })?;
    Ok(write_put(out, &reply)?)
}

/// A queue takes a turn.
pub fn turn(
    alloc: Global,
    session: &mut Session,
    queue: u64,
    out: &mut String,
) -> Result<(), LineFault>
    ensures done { OnOk result (Wrote (Turns queue) session.old out.old out.new session.new) }
    ensures memory { result ≢ Err LineFault.Bad }
    ensures stopped { OnErr result (LeavesServe (said.Turn queue) session.old session.new) }
{
    let turn = session.turn(alloc, queue)?;
    Ok(write_turn(out, session.timelines(), &turn)?)
}

/// The request in hand is given up, if its last look lacked.
pub fn give_up(
    alloc: Global,
    session: &mut Session,
    queue: u64,
    out: &mut String,
) -> Result<(), LineFault>
    ensures done { OnOk result (Wrote (GivesUp queue) session.old out.old out.new session.new) }
    ensures memory { result ≢ Err LineFault.Bad }
    ensures stopped { OnErr result (Loses (GivesUp queue) session.old session.new) }
{
    let reply = session.step(alloc, Event::GiveUp { queue })?;
    Ok(write_give_up(out, session.timelines(), &reply)?)
}

/// Writes what became of a request that was to be put.
fn write_put(out: &mut String, reply: &Reply) -> Result<(), AllocError>
    ensures { OnOk result (string_bytes out.new ≡ string_bytes out.old ++ put_said reply.now) }
{
    match reply {
        Reply::Put { number } => writeln!(out, "put {number}"),
        Reply::NotPut { fault, .. } => write_refused(out, fault),
        _ => Ok(()),
    }
}

/// Writes what became of a request that was to be given up.
fn write_give_up(
    out: &mut String,
    timelines: &TimelineNames,
    reply: &Reply,
) -> Result<(), AllocError>
    ensures { OnOk result (string_bytes out.new
        ≡ string_bytes out.old ++ give_up_said timelines.now.names reply.now) }
{
    match reply {
        Reply::Told { outcome, .. } => write_outcome_line(out, timelines, outcome),
        Reply::Idle => out.push_str("idle\n"),
        _ => Ok(()),
    }
}

/// Writes what a turn came to.
fn write_turn(
    out: &mut String,
    timelines: &TimelineNames,
    turn: &TurnResult,
) -> Result<(), AllocError>
    ensures { OnOk result (string_bytes out.new
        ≡ string_bytes out.old ++ turn_said timelines.now.names turn.now) }
{
    match turn {
        TurnResult::Told { outcome, .. } => write_outcome_line(out, timelines, outcome),
        TurnResult::Waits { point, have } => write_waits(out, timelines, *point, *have),
        TurnResult::Idle => out.push_str("idle\n"),
    }
}

/// Writes that a request stays in hand, since this point lacks.
fn write_waits(
    out: &mut String,
    timelines: &TimelineNames,
    point: Point,
    have: u64,
) -> Result<(), AllocError>
    ensures { OnOk result (string_bytes out.new
        ≡ string_bytes out.old ++ turn_said timelines.now.names (TurnResult.Waits point have)) }
{
    out.push_str("waits ")?;
    write_timeline(out, timelines, point.timeline)?;
    writeln!(out, " {} have {have}", point.value)
}
