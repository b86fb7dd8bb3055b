//! The machine of a replay a second time. A watcher carries out on it what it is told, so that its entries can be taken back.
ghost use Rattle.std.specs.Prelude.{◌≡◌, [], IfOk};

use gv_replay::{Act, ReplayFault, Watcher, number_of};
use gv_space::Space;
use gv_types::{Bounds, BufferId, Fault, Limits, MAX_TOLD, Op, OutOfMemory, PageOp, Request};
use gv_vm::{Outcome, QUEUES, Vm};
use std::alloc::{AllocError, Global};
use std::collections::VecDeque;

/// The answer where the second machine comes to something else.
pub const DIFFERS: ReplayFault = ReplayFault::WriteFault;

/// A request of one operation, which waits for nothing.
fn request_of(alloc: Global, op: Op) -> Result<Request, AllocError>
    ensures { IfOk result (λ r. r.waits.items ≡ []) }
{
    Ok(Request {
        ops: Vec::from_slice(alloc, &[op])?,
        waits: Vec::new(alloc),
        signals: Vec::new(alloc),
    })
}

/// What a replay did, done again: the machine, the act of each entry that is held, and each buffer that was made. A queue is told of
/// its requests until it is spent, and then the next one. The machine has to be closed: it isn't `Drop`.
pub struct Mirror {
    pub vm: Vm,
    pub acts: VecDeque<Act>,
    pub made: Vec<BufferId>,
    pub requests: u64,
    pub alloc: Global,
}

impl Mirror {
    /// Nothing was done.
    pub fn new(alloc: Global) -> Result<Mirror, OutOfMemory> {
        Ok(Mirror {
            vm: Vm::new(alloc, Bounds::whole(), Limits::full())?,
            acts: VecDeque::new(alloc),
            made: Vec::new(alloc),
            requests: 0,
            alloc,
        })
    }

    /// Carries out an operation in an entry of its own. Whether it was accepted.
    fn bind(&mut self, op: Op) -> Result<bool, AllocError> {
        let (queue, number) = (self.requests / MAX_TOLD, self.requests % MAX_TOLD);
        if queue >= QUEUES as u64 {
            return Ok(false);
        }
        let request = request_of(self.alloc, op)?;
        self.requests = self.requests.saturating_add(1);
        let bound = self.vm.bind(self.alloc, queue, number, request, &[]);
        Ok(matches!(bound, Ok(Outcome::Accepted { .. })))
    }
}

impl Watcher for Mirror {
    fn made(&mut self, buffer: u64, pages: u64) -> Result<(), ReplayFault> {
        match self.vm.create(self.alloc, pages) {
            Ok(id) if number_of(&id) == buffer => Ok(self.made.push(id)?),
            _ => Err(DIFFERS),
        }
    }

    fn bound(
        &mut self,
        act: &Act,
        refused: Option<Fault>,
        _done: &[PageOp],
        _space: &Space,
    ) -> Result<(), ReplayFault> {
        if refused.is_some() {
            return Ok(());
        }
        if !self.bind(act.op)? {
            return Err(DIFFERS);
        }
        Ok(self.acts.push_back(*act)?)
    }

    fn settled(&mut self, to: u64) -> Result<(), ReplayFault> {
        let _oldest = self.acts.pop_front();
        match self.vm.settle(to) {
            Ok(1) => Ok(()),
            _ => Err(DIFFERS),
        }
    }

    fn destroyed(&mut self, buffer: u64) -> Result<(), ReplayFault> {
        let index = buffer.wrapping_sub(1) as usize;
        let Some(id) = self.made.get(index) else {
            return Err(DIFFERS);
        };
        self.vm.destroy(*id).map_err(|_| DIFFERS)
    }
}
