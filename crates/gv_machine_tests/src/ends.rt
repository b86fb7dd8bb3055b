//! The ends of a queue: `finish` names those that don't agree.
ghost use Rattle.std.specs.Prelude.{◌≡◌, [], IfOk};
ghost use Rattle.gv_sync.specs.Seats.{IsSeatOf};

use gv_queues::{Ends, PutEnd, QueueEnd, QueuesFault, Submitter, Taker, WorkerEnd, finish, open};
use gv_sync::{Seat, Timelines};
use gv_types::{Bounds, Limits, Request};
use gv_vm::Vm;
use std::alloc::{AllocError, Global};
use std::process::Abort;
use std::sync::Wait;
use std::test::Fail;

/// How often the test is run.
const TIMES: u32 = 100;

/// The two ends of queue 0, on which a request was put, if any, and none was taken.
fn untaken<R: Wait>(
    rt: &R,
    alloc: Global,
    timelines: &Timelines,
    seat: &mut Seat,
    wanted: Option<Request>,
) -> Result<(PutEnd, WorkerEnd), Fail>
    requires own { IsSeatOf timelines.now seat.old }
    ensures own { IsSeatOf timelines.now seat.new }
    ensures put { IfOk result (λ ends. ends.0.queue ≡ 0) }
    ensures worker { IfOk result (λ ends. ends.1.queue ≡ 0) }
    ensures channel { IfOk result (λ ends. ends.0.channel ≡ ends.1.channel) }
{
    let Ends {
        sends,
        puts,
        receives,
        takes,
    } = open(alloc, 2, 0, timelines.count())?;
    let own = timelines.split(seat)?;
    let mut submitter = Submitter::new(sends, puts, 0, 2, timelines.count());
    if let Some(request) = wanted {
        if !request.fits(submitter.timelines()) || submitter.put(rt, request).is_err() {
            return Err("put".into());
        }
    }
    let taker = Taker::new(receives, takes, 0);
    let worker = WorkerEnd::new(taker, own, Vec::new(alloc), Vec::new(alloc));
    Ok((submitter.close(), worker))
}

/// What becomes of queue 0 alone, with these ends.
fn finished(
    alloc: Global,
    vm: &Vm,
    put: PutEnd,
    worker: WorkerEnd,
) -> Result<Result<Vec<QueueEnd>, QueuesFault>, Fail>
    requires put { put.queue ≡ 0 }
    requires worker { worker.queue ≡ 0 }
    requires channel { put.channel ≡ worker.channel }
{
    let puts = vec![in alloc; put]?;
    let workers = vec![in alloc; worker]?;
    let ends = Vec::with_capacity(alloc, 1)?;
    Ok(finish(vm, puts.as_slice(), workers, ends))
}

/// What becomes of queue 0 alone, where a request was put there, if any, and none was taken.
fn end_untaken<R: Wait>(
    rt: &R,
    alloc: Global,
    vm: &Vm,
    timelines: &Timelines,
    seat: &mut Seat,
    wanted: Option<Request>,
) -> Result<Result<Vec<QueueEnd>, QueuesFault>, Fail>
    requires own { IsSeatOf timelines.now seat.old }
    ensures own { IsSeatOf timelines.now seat.new }
{
    let (put, worker) = untaken(rt, alloc, timelines, seat, wanted)?;
    finished(alloc, vm, put, worker)
}

/// A request of nothing.
fn empty(alloc: Global) -> Request
    ensures { result.waits.items ≡ [] }
{
    Request {
        ops: Vec::new(alloc),
        waits: Vec::new(alloc),
        signals: Vec::new(alloc),
    }
}

fn disagrees() -> Result<Vec<QueueEnd>, QueuesFault> {
    Err(QueuesFault::Disagree { queue: 0 })
}

fn agrees(alloc: Global) -> Result<Result<Vec<QueueEnd>, QueuesFault>, AllocError> {
    let nothing = QueueEnd {
        put: 0,
        told: 0,
        left: Vec::new(alloc),
    };
    Ok(Ok(vec![in alloc; nothing]?))
}

#[test]
fn ends_that_disagree_are_named(rt: HostRuntime) -> Result<(), Fail> {
    for _ in 0..TIMES {
        let Ok(mut vm) = Vm::new(rt.alloc(), Bounds::whole(), Limits::full()) else {
            return Err("memory".into());
        };
        let end = each_end(&rt, rt.alloc(), &mut vm);
        vm.close();
        end?;
    }
    Ok(())
}

/// Nothing was put, taken and told; a request was put that no worker took; an outcome was told that no worker gave.
fn each_end<R: Wait + Abort>(rt: &R, alloc: Global, vm: &mut Vm) -> Result<(), Fail> {
    let (timelines, mut seat) = Timelines::new(alloc, 1)?;
    let end = end_untaken(rt, alloc, vm, &timelines, &mut seat, None)?;
    assert!(rt; end == agrees(alloc)?);
    let end = end_untaken(rt, alloc, vm, &timelines, &mut seat, Some(empty(alloc)))?;
    assert!(rt; end == disagrees());
    assert!(rt; vm.bind(alloc, 0, 0, empty(alloc), &[]).is_ok());
    let end = end_untaken(rt, alloc, vm, &timelines, &mut seat, None)?;
    assert!(rt; end == disagrees());
    Ok(())
}
