//! What a worker does under the lock with the request that it took.
ghost use Rattle.std.specs.Prelude.{◌≡◌, ◌<◌, Contains, IfOk, IfErr, OnErr, IsErrAnd, MatchOption, length};
ghost use Rattle.std.specs.List.{All};
ghost use Rattle.gv_types.specs.Request.{Fits as FitsTimelines};
ghost use Rattle.gv_sync.specs.Seats.{IsSeatOf, timeline_count};
ghost use Rattle.gv_sync.specs.SeatSteps.{HasRaised};
ghost use Rattle.gv_vm.specs.Outcomes.{tell_fault, with_outcome};
ghost use Rattle.gv_vm.specs.State.{told_limit};
ghost use Rattle.gv_vm.specs.BindOutcome.{IsBoundAndTold, seen_by};
ghost use Rattle.gv_queues.specs.Paying.{AreReached, IfBind, ArePaid};

use crate::taking::Taken;
use gv_journal::{Item, ItemKind};
use gv_sync::{Lacking, Reached, Seat, Timelines, laws};
use gv_types::{Fault, Point};
use gv_vm::{NotTold, Outcome, Vm};
use std::alloc::Global;

/// Raises the points in order, each by one step.
fn pay(timelines: &Timelines, seat: &mut Seat, signals: &[Point])
    requires own { IsSeatOf timelines.now seat.old }
    requires named { All (λ p. p.timeline < timeline_count timelines.now) signals.now }
    ensures own { IsSeatOf timelines.now seat.new }
    ensures paid { HasRaised signals.now seat.old seat.new }
{
    laws::seat_raises();
    seat.has_each_mark();
    for signal in signals {
        timelines.raise(seat, *signal);
    }
}

/// Raises the signals of a request that is accepted as this item.
fn pay_for(timelines: &Timelines, seat: &mut Seat, item: &Item)
    requires own { IsSeatOf timelines.now seat.old }
    requires named { IfBind item.now.kind (λ request.
        All (λ p. p.timeline < timeline_count timelines.now) request.signals.items) }
    ensures own { IsSeatOf timelines.now seat.new }
    ensures paid { IfBind item.now.kind (λ request. HasRaised request.signals.items seat.old seat.new) }
{
    match &item.kind {
        ItemKind::Bind { request, .. } => pay(timelines, seat, request.signals.as_slice()),
        ItemKind::Withdrawal { .. } => {}
    }
}

/// A request that was taken, and the numbers at which its waits were reached.
#[derive(Drop)]
pub struct ReachedRequest<'a> {
    pub taken: Taken,
    pub reached: &'a [Reached],
}

/// Binds a request whose waits are reached, as `Vm::bind` does, and raises its signals in order if it is accepted. If it is
/// not, the seat takes no step.
pub fn serve(
    alloc: Global,
    vm: &mut Vm,
    timelines: &Timelines,
    seat: &mut Seat,
    ready: ReachedRequest<'_>,
) -> Result<Outcome, NotTold>
    requires own { IsSeatOf timelines.now seat.old }
    requires fits { FitsTimelines (timeline_count timelines.now) ready.taken.request }
    requires reached { AreReached ready.taken.request.waits.items seat.old ready.reached.now }
    ensures own { IsSeatOf timelines.now seat.new }
    ensures fault { MatchOption
        (tell_fault (told_limit vm.old ready.entry.taken.queue) vm.old.told ready.entry.taken.queue ready.entry.taken.number)
        (IfErr result (λ n. n.fault ≡ Fault.OutOfMemory)) (λ fault. IsErrAnd result (λ n. n.fault ≡ fault)) }
    ensures request { IfErr result (λ n. n.request ≡ ready.entry.taken.request) }
    ensures outcome { IfOk result (IsBoundAndTold vm.old vm.new ready.entry.taken.queue ready.entry.taken.number
        ready.entry.taken.request (seen_by ready.entry.reached.now)) }
    ensures paid { IfOk result (ArePaid ready.entry.taken.request.signals.items seat.old seat.new) }
    ensures err { OnErr result ((vm.new ≡ vm.old) × (seat.new ≡ seat.old)) }
{
    let ReachedRequest { taken, reached } = ready;
    let (queue, number) = (taken.queue(), taken.number());
    let outcome = vm.bind(alloc, queue, number, taken.into_request(), reached)?;
    if let Outcome::Accepted { .. } = outcome {
        let items = vm.items();
        pay_for(timelines, seat, &items[items.len() - 1]);
    }
    Ok(outcome)
}

/// Gives up a request, a point of whose waits is not reached, as `Vm::give_up` does.
pub fn decline(vm: &mut Vm, taken: Taken, lacking: Lacking) -> Result<Outcome, NotTold>
    requires { Contains taken.request.waits.items lacking.point }
    ensures fault { MatchOption (tell_fault (told_limit vm.old taken.queue) vm.old.told taken.queue taken.number)
        (IfErr result (λ n. n.fault ≡ Fault.OutOfMemory)) (λ fault. IsErrAnd result (λ n. n.fault ≡ fault)) }
    ensures request { IfErr result (λ n. n.request ≡ taken.request) }
    ensures outcome { IfOk result (λ outcome. outcome ≡ Outcome.NotReady lacking.point lacking.number) }
    ensures told { IfOk result (λ outcome.
        vm.new ≡ record vm.old { told = with_outcome vm.old.told taken.queue outcome }) }
    ensures err { OnErr result (vm.new ≡ vm.old) }
{
    let (queue, number) = (taken.queue(), taken.number());
    vm.give_up(queue, number, taken.into_request(), lacking)
}
