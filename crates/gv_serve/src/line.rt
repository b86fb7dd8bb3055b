//! What a line of a dialogue does.
ghost use Rattle.std.specs.Prelude.{◌≡◌, ◌↔◌, Err, Some, IsOk, IsTrue, OnOk};
ghost use Rattle.gv_lines.specs.ServeLine.{serve_parsed};
ghost use Rattle.gv_lines.specs.declared.line.Line.TheVariants.{Silent};
ghost use Rattle.gv_lines.specs.declared.serve_line.ServeLine.TheVariants as said;
ghost use Rattle.gv_session.specs.LineProgress.{Wrote};
ghost use Rattle.gv_serve.specs.DialogueLine.{Serves, ServesText, IsAlone, IsGoodServe, IsGoodText, LeavesServe, LeavesText};

use crate::{asking, queue_lines};
use gv_lines::{Line, ServeLine, parse_serve_line};
use gv_text::{LineFault, Session, run_event, run_line};
use gv_vm::Event;
use std::alloc::Global;

/// Carries out a line as it stands in a dialogue, and writes its reply. A bad line changes nothing.
pub fn serve_text(
    alloc: Global,
    session: &mut Session,
    text: &[u8],
    out: &mut String,
) -> Result<(), LineFault>
    ensures done { OnOk result (Wrote (ServesText text.now) session.old out.old out.new session.new) }
    ensures bad { result ≡ Err LineFault.Bad → ¬ IsGoodText text.now session.old }
    ensures same { result ≡ Err LineFault.Bad → session.new ≡ session.old }
    ensures memory { result ≡ Err LineFault.OutOfMemory → IsGoodText text.now session.old }
    ensures stopped { result ≡ Err LineFault.OutOfMemory → LeavesText text.now session.old session.new }
    ensures silent { serve_parsed text.now ≡ Some (said.Run Silent) → IsOk result }
{
    match parse_serve_line(text) {
        Some(line) => serve_line(alloc, session, line, out),
        None => Err(LineFault::Bad),
    }
}

/// Carries out a line of a dialogue, and writes its reply. A bad line changes nothing.
fn serve_line(
    alloc: Global,
    session: &mut Session,
    line: ServeLine<'_>,
    out: &mut String,
) -> Result<(), LineFault>
    ensures done { OnOk result (Wrote (Serves line.entry) session.old out.old out.new session.new) }
    ensures bad { result ≡ Err LineFault.Bad → ¬ IsGoodServe line.entry session.old }
    ensures same { result ≡ Err LineFault.Bad → session.new ≡ session.old }
    ensures memory { result ≡ Err LineFault.OutOfMemory → IsGoodServe line.entry session.old }
    ensures stopped { result ≡ Err LineFault.OutOfMemory → LeavesServe line.entry session.old session.new }
    ensures silent { line.entry ≡ said.Run Silent → IsOk result }
{
    match line {
        ServeLine::Run { line } => {
            if !is_alone(session, &line) {
                return Err(LineFault::Bad);
            }
            run_line(alloc, session, line, out)
        }
        ServeLine::Put { clauses } => queue_lines::put(alloc, session, &clauses, out),
        ServeLine::Turn { queue } => queue_lines::turn(alloc, session, queue, out),
        ServeLine::GiveUp { queue } => queue_lines::give_up(alloc, session, queue, out),
        ServeLine::Forget { queue, to } => run_event(
            alloc,
            session,
            Event::Forget { queue, to },
            out,
        ),
        ServeLine::Trim => run_event(alloc, session, Event::Trim, out),
        ServeLine::Show { entry } => asking::show(alloc, session, entry, out),
        ServeLine::Past { addr } => asking::past(alloc, session, addr, out),
    }
}

/// Whether no other request stands on the queue of a request that is carried out at once.
fn is_alone(session: &Session, line: &Line<'_>) -> bool
    ensures { IsTrue result ↔ IsAlone line.now session.now }
{
    match line {
        Line::Bind { clauses } => session.world().is_quiet(clauses.queue()),
        _ => true,
    }
}
