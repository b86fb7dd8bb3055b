//! The memory that queues need to run, taken before any of them starts.
ghost use Rattle.std.specs.Prelude.{◌≡◌, ◌<◌, ◌≤◌, ℕ, [], IfOk, IfErr, vec_len, vec_capacity};
ghost use Rattle.std.specs.List.{All};
ghost use Rattle.gv_sync.specs.Seats.{IsSeatOf, timeline_count};
ghost use Rattle.gv_types.specs.Limits.{IsFromOneTo};
ghost use Rattle.gv_vm.specs.Outcomes.{queues};
ghost use Rattle.gv_queues.specs.Ending.{AreInOrder, AreOnOwnChannels};
ghost use Rattle.gv_queues.specs.SeatSplits.{HaveSplits, TookNoStep, after_splits};
ghost use Rattle.gv_queues.specs.Submitting.{AreOpened, most_places};

use crate::channel::{Ends, open};
use crate::finishing::QueuesFault;
use crate::put_end::PutEnd;
use crate::running::OfWorker;
use crate::submitter::Submitter;
use crate::taking::Taker;
use crate::worker::Worker;
use crate::worker_end::WorkerEnd;
use gv_sync::{Seat, Timelines};
use std::alloc::Global;
use std::thread::PromisedHandle;

/// Room for the workers' handles, and for what submitters and workers leave at their ends. Each list is empty.
#[derive(Drop)]
pub struct Rooms {
    pub handles: Vec<PromisedHandle<WorkerEnd, OfWorker>>,
    pub puts: Vec<PutEnd>,
    pub workers: Vec<WorkerEnd>,
}

/// Queues on which nothing was put, and from which nothing was taken.
#[derive(Drop)]
pub struct Opened {
    pub submitters: Vec<Submitter>,
    pub workers: Vec<Worker>,
}

/// How many queues there are, how many places each has, and how many requests may be put on it.
#[derive(Clone, Copy)]
pub struct QueueSizes {
    pub count: u64,
    pub depth: usize,
    pub limit: u64,
}

/// Room for `count` queues.
pub fn make_rooms(alloc: Global, count: u64) -> Result<Rooms, QueuesFault>
    requires { count ≤ queues }
    ensures none { IfOk result (λ r. (r.handles.items ≡ []) × (r.puts.items ≡ []) × (r.workers.items ≡ [])) }
    ensures room { IfOk result (λ r. (count ≤ vec_capacity r.handles) × (count ≤ vec_capacity r.puts)
        × (count ≤ vec_capacity r.workers)) }
    ensures fault { IfErr result (λ fault. fault ≡ QueuesFault.NotMade) }
{
    let places = count as usize;
    let handles = Vec::with_capacity(alloc, places)?;
    let puts = Vec::with_capacity(alloc, places)?;
    let workers = Vec::with_capacity(alloc, places)?;
    Ok(Rooms {
        handles,
        puts,
        workers,
    })
}

/// Opens queues of these sizes, with a seat for each worker, split off the seat that is lent.
pub fn open_all(
    alloc: Global,
    timelines: &Timelines,
    seat: &mut Seat,
    sizes: QueueSizes,
) -> Result<Opened, QueuesFault>
    requires own { IsSeatOf timelines.now seat.old }
    requires count { sizes.count ≤ queues }
    requires depth { IsFromOneTo most_places sizes.depth }
    ensures own { IsSeatOf timelines.now seat.new }
    ensures no_step { TookNoStep seat.old seat.new }
    ensures share { IfOk result (λ _. seat.new ≡ after_splits seat.old sizes.count) }
    ensures seats { IfOk result (λ o. All (λ w. w.of ≡ timelines.now) o.workers.items) }
    ensures given { IfOk result (λ o. HaveSplits seat.old o.workers.items) }
    ensures opened { IfOk result (λ o.
        AreOpened sizes.limit sizes.depth (timeline_count timelines.now) o.submitters.items) }
    ensures order { IfOk result (λ o. AreInOrder (λ w. w.queue) o.workers.items) }
    ensures channels { IfOk result (λ o. AreOnOwnChannels o.submitters.items o.workers.items) }
    ensures even { IfOk result (λ o. (vec_len o.workers ≡ sizes.count) × (vec_len o.submitters ≡ sizes.count)) }
    ensures fault { IfErr result (λ fault. fault ≡ QueuesFault.NotMade) }
{
    let QueueSizes {
        count,
        depth,
        limit,
    } = sizes;
    let places = count as usize;
    let mut submitters = Vec::with_capacity(alloc, places)?;
    let mut workers = Vec::with_capacity(alloc, places)?;
    let named = timelines.count();
    for queue in 0..count {
        let left = Vec::with_capacity(alloc, depth + 1)?;
        let Ends {
            sends,
            puts,
            receives,
            takes,
        } = open(alloc, depth, queue, named)?;
        let own = timelines.split(seat)?;
        submitters.push_reserved(Submitter::new(sends, puts, queue, limit, named));
        workers.push_reserved(Worker::new(Taker::new(receives, takes, queue), own, left));
    }
    Ok(Opened {
        submitters,
        workers,
    })
}
