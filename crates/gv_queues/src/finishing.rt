//! What is known after all queues have ended.
ghost use Rattle.std.specs.Prelude.{◌≡◌, ◌<◌, ◌≤◌, ℕ, [], IfOk, IfErr, length, vec_len, vec_capacity};
ghost use Rattle.gv_vm.specs.Outcomes.{queues};
ghost use Rattle.gv_queues.specs.Ending.{AgreesAt, AreEndsOf, AreInOrder, EndOnOwnChannels, IsFirstOther};

use crate::put_end::PutEnd;
use crate::worker_end::WorkerEnd;
use gv_sync::SyncFault;
use gv_types::Request;
use gv_vm::Vm;
use std::alloc::AllocError;

/// How many requests were put on a queue, how many have an outcome, and the requests that were left, in order.
#[derive(Debug, PartialEq, Drop)]
pub struct QueueEnd {
    pub put: u64,
    pub told: u64,
    pub left: Vec<Request>,
}

/// Why queues did not run to their end.
#[derive(Clone, Copy, Debug, PartialEq, Eq)]
pub enum QueuesFault {
    /// The system refused the memory that queues start with. No request was put.
    NotMade,
    /// The system refused the thread of this queue's worker. No request was put.
    NotStarted { queue: u64 },
    /// What was put on this queue, what its worker took and the queue's outcomes don't agree.
    Disagree { queue: u64 },
}

impl From<AllocError> for QueuesFault {
    ghost use Rattle.std.specs.Prelude.{◌≡◌};
    ghost use Rattle.gv_queues.specs.declared.finishing.QueuesFault.TheVariants.{NotMade};

    ghost from_gives = { λ _ fault. fault ≡ NotMade };

    fn from(_error: AllocError) -> QueuesFault {
        QueuesFault::NotMade
    }
}

impl From<SyncFault> for QueuesFault {
    ghost use Rattle.std.specs.Prelude.{◌≡◌};
    ghost use Rattle.gv_queues.specs.declared.finishing.QueuesFault.TheVariants.{NotMade};

    ghost from_gives = { λ _ fault. fault ≡ NotMade };

    fn from(_error: SyncFault) -> QueuesFault {
        QueuesFault::NotMade
    }
}

/// The end of each queue. Ok exactly if each queue's worker took the number of requests that its submitter put, and gave
/// the outcomes that the address space has; else `Disagree` with the first other queue. It takes no memory.
pub fn finish(
    vm: &Vm,
    puts: &[PutEnd],
    workers: Vec<WorkerEnd>,
    mut ends: Vec<QueueEnd>,
) -> Result<Vec<QueueEnd>, QueuesFault>
    requires even { length puts.now ≡ vec_len workers }
    requires few { vec_len workers ≤ queues }
    requires order { AreInOrder (λ p. p.queue) puts.now × AreInOrder (λ w. w.queue) workers.items }
    requires channels { EndOnOwnChannels puts.now workers.items }
    requires none { ends.items ≡ [] }
    requires room { vec_len workers ≤ vec_capacity ends }
    ensures agree { IfOk result (λ _. (queue : ℕ) → queue < length puts.now
        → AgreesAt vm.now puts.now workers.items queue) }
    ensures len { IfOk result (λ list. vec_len list ≡ length puts.now) }
    ensures ends { IfOk result (λ list. AreEndsOf vm.now puts.now workers.items list.items) }
    ensures disagree { IfErr result (λ fault. (queue : ℕ) × (fault ≡ QueuesFault.Disagree queue)
        × IsFirstOther vm.now puts.now workers.items queue) }
{
    let mut index = 0;
    for worker in workers {
        let put = &puts[index];
        if !worker.agrees(vm, put) {
            return Err(QueuesFault::Disagree {
                queue: index as u64,
            });
        }
        ends.push_reserved(QueueEnd {
            put: put.put(),
            told: vm.told_next(index as u64),
            left: worker.into_left(),
        });
        index += 1;
    }
    Ok(ends)
}
