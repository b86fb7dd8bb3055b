//! Runs a request: puts it on its queue, looks at its waits, binds it, raises its signals.
ghost use Rattle.std.specs.Prelude.{◌≡◌, ◌≢◌, ◌∷◌, [], true, List, IfOk, OnOk, OnErr, length};
ghost use Rattle.gv_types.specs.declared.request.Point.{Point};
ghost use Rattle.gv_vm.specs.declared.event.Reply.{Reply as Answer};
ghost use Rattle.gv_vm.specs.Plans.{serving, looks, carrying_out, payments, IsCarriedOut, Steps, nothing, Goes, after_looks};
ghost use Rattle.gv_session.specs.LineProgress.{Tells, StopsAt};
ghost use Rattle.gv_session.specs.Stopping.{IsAmid};

use crate::fault::LineFault;
use crate::reply_text::write_request;
use crate::session::Session;
use gv_types::Request;
use gv_vm::{Event, LookResult, Reply};
use std::alloc::Global;

/// One event on the way of a request, and what it is told of it. Inlined, so that neither the event nor the reply is copied from
/// frame to frame: a copy in parts that overlap waits for what was just written.
#[inline(always)]
fn ask(
    alloc: Global,
    session: &mut Session,
    event: Event,
    out: &mut String,
) -> Result<Reply, LineFault>
    ensures step { IfOk result (λ reply. Steps session.old.world event reply session.new.world) }
    ensures tells { IfOk result (λ reply. Tells session.old session.new (reply ∷ []) out.old out.new) }
    ensures memory { result ≢ Err LineFault.Bad }
    ensures stopped { OnErr result (StopsAt event session.old session.new) }
{
    let reply = session.step(alloc, event)?;
    write_request(out, session.timelines(), &reply)?;
    Ok(reply)
}

/// Looks at so many waits of the request in hand, until one lacks.
fn look_at_all(
    alloc: Global,
    session: &mut Session,
    queue: u64,
    waits: usize,
    out: &mut String,
) -> Result<LookResult, LineFault>
    ensures goes { IfOk result (λ looked. (replies : List Answer) × Tells session.old session.new replies out.old out.new
        × ((points signals : List Point) → length points ≡ waits
        → Goes (looks true queue points signals) session.old.world replies session.new.world (after_looks true queue signals looked))) }
    ensures memory { result ≢ Err LineFault.Bad }
    ensures stopped { OnErr result ((points signals : List Point) → length points ≡ waits
        → IsAmid (looks true queue points signals) session.old session.new) }
{
    session.begin();
    for done in 0..waits {
        let reply = ask(alloc, session, Event::Look { queue }, out)?;
        match reply.looked() {
            LookResult::NoneLacked => {}
            LookResult::Lacked => return Ok(LookResult::Lacked),
            LookResult::Other => return Ok(LookResult::Other),
        }
    }
    Ok(LookResult::NoneLacked)
}

/// Pays so many signals.
fn pay_all(
    alloc: Global,
    session: &mut Session,
    queue: u64,
    signals: usize,
    out: &mut String,
) -> Result<(), LineFault>
    ensures goes { OnOk result ((replies : List Answer) × Tells session.old session.new replies out.old out.new
        × ((points : List Point) → length points ≡ signals
        → Goes (payments queue points) session.old.world replies session.new.world nothing)) }
    ensures memory { result ≢ Err LineFault.Bad }
    ensures stopped { OnErr result ((points : List Point) → length points ≡ signals
        → IsAmid (payments queue points) session.old session.new) }
{
    session.begin();
    for done in 0..signals {
        let reply = ask(alloc, session, Event::Pay { queue }, out)?;
        if !reply.is_raised() {
            return Ok(());
        }
    }
    Ok(())
}

/// Carries out the request in hand, all of whose waits are reached, and pays its signals, so many, if it is accepted.
fn carry_out(
    alloc: Global,
    session: &mut Session,
    queue: u64,
    signals: usize,
    out: &mut String,
) -> Result<(), LineFault>
    ensures goes { OnOk result ((replies : List Answer) × Tells session.old session.new replies out.old out.new
        × ((points : List Point) → length points ≡ signals
        → Goes (carrying_out queue points) session.old.world replies session.new.world nothing)) }
    ensures memory { result ≢ Err LineFault.Bad }
    ensures stopped { OnErr result ((points : List Point) → length points ≡ signals
        → IsAmid (carrying_out queue points) session.old session.new) }
{
    let reply = ask(alloc, session, Event::Bind { queue }, out)?;
    if reply.is_accepted() {
        pay_all(alloc, session, queue, signals, out)
    } else {
        Ok(())
    }
}

/// Puts a request on a queue and serves it: it is taken, its waits are looked at, and it is carried out or given up.
pub fn run_request(
    alloc: Global,
    session: &mut Session,
    queue: u64,
    request: Request,
    out: &mut String,
) -> Result<(), LineFault>
    ensures goes { OnOk result ((replies : List Answer) × Tells session.old session.new replies out.old out.new
        × IsCarriedOut (serving queue request) session.old.world replies session.new.world) }
    ensures memory { result ≢ Err LineFault.Bad }
    ensures stopped { OnErr result (IsAmid (serving queue request) session.old session.new) }
{
    let waits = request.waits.as_slice().len();
    let signals = request.signals.as_slice().len();
    let put = ask(alloc, session, Event::Put { queue, request }, out)?;
    if !put.is_put() {
        return Ok(());
    }
    let taken = ask(alloc, session, Event::Take { queue }, out)?;
    if !taken.is_taken() {
        return Ok(());
    }
    match look_at_all(alloc, session, queue, waits, out)? {
        LookResult::NoneLacked => carry_out(alloc, session, queue, signals, out),
        LookResult::Lacked => {
            ask(alloc, session, Event::GiveUp { queue }, out)?;
            Ok(())
        }
        LookResult::Other => Ok(()),
    }
}
