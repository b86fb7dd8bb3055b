//! The texts of what the world replies.
ghost use Rattle.std.specs.Prelude.{◌≡◌, ◌+◌, ◌≤◌, ◌++◌, ◌∷◌, [], length, OnOk, codes, decimal, string_bytes};
ghost use Rattle.std.specs.List.{flat_map};
ghost use Rattle.gv_types.specs.Fault.{fault_text};
ghost use Rattle.gv_vm.specs.Outcomes.{lifetime_told};
ghost use Rattle.gv_session.specs.State.{names_alone};
ghost use Rattle.gv_session.specs.Texts.{reply, place_text, begun_reply, refused_reply, outcome_text, outcome_line, told_reply};
ghost use Rattle.gv_session.specs.Texts.{timeline_text, number_reply, counted_reply, withdrawn_reply};
ghost use Rattle.gv_session.specs.ReplyTexts.{said, said_of_withdrawal, told};

use crate::buffer_names::BufferNames;
use crate::space_text::write_place_text;
use crate::timeline_names::TimelineNames;
use gv_types::{Fault, Point};
use gv_vm::{Outcome, Place, Reply};
use std::alloc::AllocError;
use std::fmt::Write;

/// Writes a fault: its name, and the number that it carries, if any.
fn write_fault(out: &mut String, fault: &Fault) -> Result<(), AllocError>
    ensures { OnOk result (string_bytes out.new ≡ string_bytes out.old ++ fault_text fault.now) }
{
    out.push_str(fault.name())?;
    match fault.carried() {
        Some(number) => write!(out, " {number}"),
        None => Ok(()),
    }
}

/// Writes that something is refused.
pub fn write_refused(out: &mut String, fault: &Fault) -> Result<(), AllocError>
    ensures { OnOk result (string_bytes out.new ≡ string_bytes out.old ++ refused_reply fault.now) }
{
    out.push_str("refused ")?;
    write_fault(out, fault)?;
    out.push_str("\n")
}

/// Writes the name of a timeline.
pub fn write_timeline(
    out: &mut String,
    timelines: &TimelineNames,
    timeline: u64,
) -> Result<(), AllocError>
    ensures { OnOk result (string_bytes out.new ≡ string_bytes out.old ++ timeline_text timelines.now.names timeline) }
{
    match timelines.name_of(timeline) {
        Some(name) => out.push_str(name.as_str()),
        None => Ok(()),
    }
}

/// Writes the number of a timeline.
pub fn write_number(
    out: &mut String,
    timelines: &TimelineNames,
    timeline: u64,
    number: u64,
) -> Result<(), AllocError>
    ensures { OnOk result (string_bytes out.new
        ≡ string_bytes out.old ++ number_reply timelines.now.names timeline number) }
{
    write_timeline(out, timelines, timeline)?;
    writeln!(out, " {number}")
}

/// Writes a word with a space, and a number.
fn write_counted(out: &mut String, word: &str, number: u64) -> Result<(), AllocError>
    ensures { OnOk result (string_bytes out.new ≡ string_bytes out.old ++ counted_reply word.now number) }
{
    out.push_str(word)?;
    writeln!(out, "{number}")
}

/// Writes that a request is refused at an operation.
fn write_refusal(out: &mut String, op: u64, fault: &Fault) -> Result<(), AllocError>
    ensures { OnOk result (string_bytes out.new
        ≡ string_bytes out.old ++ (codes "refused " ++ (decimal op ++ (codes " " ++ fault_text fault.now)))) }
{
    write!(out, "refused {op} ")?;
    write_fault(out, fault)
}

/// Writes that a point lacks.
fn write_not_ready(
    out: &mut String,
    timelines: &TimelineNames,
    point: Point,
    have: u64,
) -> Result<(), AllocError>
    ensures { OnOk result (string_bytes out.new
        ≡ string_bytes out.old ++ outcome_text timelines.now.names (Outcome.NotReady point have)) }
{
    out.push_str("notready ")?;
    write_timeline(out, timelines, point.timeline)?;
    write!(out, " {} have {have}", point.value)
}

/// Writes what a request was told.
fn write_outcome(
    out: &mut String,
    timelines: &TimelineNames,
    outcome: &Outcome,
) -> Result<(), AllocError>
    ensures { OnOk result (string_bytes out.new ≡ string_bytes out.old ++ outcome_text timelines.now.names outcome.now) }
{
    match outcome {
        Outcome::Accepted { entry } => write!(out, "accepted {entry}"),
        Outcome::Refused { op, fault } => write_refusal(out, *op, fault),
        Outcome::NotReady { point, have } => write_not_ready(out, timelines, *point, *have),
    }
}

/// Writes what a request was told on a line of its own.
pub fn write_outcome_line(
    out: &mut String,
    timelines: &TimelineNames,
    outcome: &Outcome,
) -> Result<(), AllocError>
    ensures { OnOk result (string_bytes out.new
        ≡ string_bytes out.old ++ reply (outcome_text timelines.now.names outcome.now ∷ [])) }
{
    write_outcome(out, timelines, outcome)?;
    out.push_str("\n")
}

/// Writes an outcome of a queue with its number, on a line of its own.
fn write_numbered(
    out: &mut String,
    timelines: &TimelineNames,
    number: u64,
    outcome: &Outcome,
) -> Result<(), AllocError>
    ensures { OnOk result (string_bytes out.new
        ≡ string_bytes out.old ++ outcome_line timelines.now.names number outcome.now) }
{
    write!(out, "{number} ")?;
    write_outcome_line(out, timelines, outcome)
}

/// Writes each outcome that a queue was told, with its number: that of the first one is `first`.
pub fn write_told(
    out: &mut String,
    timelines: &TimelineNames,
    first: u64,
    outcomes: &[Outcome],
) -> Result<(), AllocError>
    requires { first + length outcomes.now ≤ lifetime_told }
    ensures { OnOk result (string_bytes out.new ≡ string_bytes out.old ++ told_reply timelines.now.names first outcomes.now) }
{
    if outcomes.is_empty() {
        return out.push_str("empty\n");
    }
    for (index, outcome) in outcomes.iter().enumerate() {
        write_numbered(out, timelines, first + index as u64, outcome)?;
    }
    Ok(())
}

/// Writes each place on a line of its own.
fn write_places(out: &mut String, names: &BufferNames, places: &[Place]) -> Result<(), AllocError>
    ensures { OnOk result (string_bytes out.new ≡ string_bytes out.old
        ++ flat_map (λ place. reply (place_text (names_alone names.now.entries) place ∷ [])) places.now) }
{
    for place in places {
        write_place_text(out, names, place)?;
        out.push_str("\n")?;
    }
    Ok(())
}

/// Writes that a job began, and where its accesses lead.
fn write_begun(
    out: &mut String,
    names: &BufferNames,
    job: u64,
    places: &[Place],
) -> Result<(), AllocError>
    ensures { OnOk result (string_bytes out.new
        ≡ string_bytes out.old ++ begun_reply (names_alone names.now.entries) job places.now) }
{
    writeln!(out, "job {job}")?;
    write_places(out, names, places)
}

/// Writes what the world replies to a call.
pub fn write_said(
    out: &mut String,
    names: &BufferNames,
    timelines: &TimelineNames,
    reply: &Reply,
) -> Result<(), AllocError>
    ensures { OnOk result (string_bytes out.new
        ≡ string_bytes out.old ++ said (names_alone names.now.entries) timelines.now.names reply.now) }
{
    match reply {
        Reply::Raised { point, now } => write_number(out, timelines, point.timeline, *now),
        Reply::Created { .. } | Reply::Destroyed => out.push_str("ok\n"),
        Reply::Rewound { item } => write_counted(out, "rewound ", *item),
        Reply::Settled { count } => write_counted(out, "settled ", *count),
        Reply::Forgot { count } => write_counted(out, "forgot ", *count),
        Reply::Trimmed => out.push_str("trimmed\n"),
        Reply::Begun { job, places } => write_begun(out, names, *job, places),
        Reply::Ended { job } => write_counted(out, "ended ", *job),
        Reply::Refused { fault } => write_refused(out, fault),
        _ => Ok(()),
    }
}

/// Writes what the world replies to the withdrawal of an entry.
pub fn write_withdrawn(out: &mut String, entry: u64, reply: &Reply) -> Result<(), AllocError>
    ensures { OnOk result (string_bytes out.new ≡ string_bytes out.old ++ said_of_withdrawal entry reply.now) }
{
    match reply {
        Reply::Withdrawn { item } => writeln!(out, "withdrawn {entry} as {item}"),
        Reply::Refused { fault } => write_refused(out, fault),
        _ => Ok(()),
    }
}

/// Writes what the world replies on the way of a request: what it is told, or why it is not put.
pub fn write_request(
    out: &mut String,
    timelines: &TimelineNames,
    reply: &Reply,
) -> Result<(), AllocError>
    ensures { OnOk result (string_bytes out.new ≡ string_bytes out.old ++ told timelines.now.names reply.now) }
{
    match reply {
        Reply::NotPut { fault, .. } => write_refused(out, fault),
        Reply::Told { outcome, .. } => write_outcome_line(out, timelines, outcome),
        _ => Ok(()),
    }
}
