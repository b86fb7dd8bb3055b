//! A world by the definitions alone: whole lists, plain queues, and what each event answers.
use crate::history::History;
use crate::queues::{InHand, ModelQueue, Numbered, copy_of};
use crate::running::{Running, place_of};
use crate::space_model::{SpaceModel, TakenRequest};
use crate::told::QueueOutcomes;
use gv_types::{Bounds, BufferId, Fault, Limits, OutOfMemory, Point, Request};
use gv_vm::{Access, Event, Outcome, QUEUES, Reply};
use std::alloc::Global;

/// What a world is made for.
#[derive(Clone, Copy)]
pub struct Setting {
    pub bounds: Bounds,
    pub limits: Limits,
    pub queues: u64,
    pub depth: u64,
    pub timelines: u64,
}

#[derive(Drop)]
pub struct Model {
    pub setting: Setting,
    pub space: SpaceModel,
    pub running: Running,
    pub told: Vec<QueueOutcomes>,
    pub queues: Vec<ModelQueue>,
    pub numbers: Vec<u64>,
}

/// A reply, or the fault of a call as one.
fn reply_of(answer: Result<Reply, Fault>) -> Reply {
    match answer {
        Ok(reply) => reply,
        Err(fault) => Reply::Refused { fault },
    }
}

impl Model {
    /// Nothing is held, nothing was put, and each timeline is at 0.
    pub fn new(alloc: Global, setting: Setting) -> Result<Model, OutOfMemory> {
        let mut told = Vec::new(alloc);
        let mut queues = Vec::new(alloc);
        for _ in 0..QUEUES {
            told.push(QueueOutcomes::new(alloc))?;
        }
        for _ in 0..setting.queues {
            queues.push(ModelQueue::new(alloc))?;
        }
        let numbers = vec![in alloc; 0; setting.timelines as usize]?;
        Ok(Model {
            setting,
            space: SpaceModel {
                bounds: setting.bounds,
                limits: setting.limits,
                buffers: Vec::new(alloc),
                list: Vec::new(alloc),
                history: History {
                    first: 0,
                    entries: Vec::new(alloc),
                },
            },
            running: Running::new(alloc),
            told,
            queues,
            numbers,
        })
    }

    /// What an event answers. A new buffer's place in the table is open.
    pub fn answer(&mut self, alloc: Global, event: &Event) -> Result<Reply, OutOfMemory> {
        match event {
            Event::Put { queue, request } => self.put(alloc, *queue, request),
            Event::Take { queue } => self.take(alloc, *queue),
            Event::Look { queue } => self.look(*queue),
            Event::Bind { queue } => self.bind(alloc, *queue),
            Event::GiveUp { queue } => self.give_up(*queue),
            Event::Pay { queue } => self.pay(alloc, *queue),
            Event::Raise { point } => Ok(self.raise(*point)),
            Event::JobBegin { accesses } => Ok(self.job_begin(alloc, accesses.as_slice())),
            Event::JobEnd { job } => Ok(self.job_end(alloc, *job)),
            Event::Create { pages } => Ok(self.create(*pages)),
            Event::Destroy { id } => Ok(self.destroy(alloc, id)),
            Event::Rewind => Ok(self.rewind()),
            Event::Withdraw { entry } => Ok(self.withdraw(alloc, *entry)),
            Event::Settle { to } => Ok(self.settle(alloc, *to)),
            Event::Forget { queue, to } => Ok(self.forget(*queue, *to)),
            Event::Trim => Ok(self.trim()),
            Event::Translate { addr } => Ok(Reply::Found {
                place: place_of(&self.space, *addr),
            }),
        }
    }

    fn put(&mut self, alloc: Global, queue: u64, request: &Request) -> Result<Reply, OutOfMemory> {
        let fits = request
            .waits
            .iter()
            .all(|point| point.timeline < self.setting.timelines)
            && request
                .signals
                .iter()
                .all(|point| point.timeline < self.setting.timelines);
        let forgotten = match self.told.get(queue as usize) {
            Some(told) => told.forgotten,
            None => 0,
        };
        let Some(own_queue) = self.queues.get_mut(queue as usize) else {
            return Ok(Reply::Idle);
        };
        if !fits {
            return Ok(Reply::Idle);
        }
        let request = copy_of(alloc, request)?;
        let number = own_queue.put;
        if number >= forgotten.saturating_add(self.setting.limits.told()) {
            let fault = Fault::QueueSpent;
            return Ok(Reply::NotPut { fault, request });
        }
        if own_queue.waiting.len() as u64 >= self.setting.depth {
            let fault = Fault::QueueFull;
            return Ok(Reply::NotPut { fault, request });
        }
        own_queue.waiting.push(Numbered { number, request })?;
        own_queue.put = number.saturating_add(1);
        Ok(Reply::Put { number })
    }

    fn take(&mut self, alloc: Global, queue: u64) -> Result<Reply, OutOfMemory> {
        let Some(own_queue) = self.queues.get_mut(queue as usize) else {
            return Ok(Reply::Idle);
        };
        match own_queue.take(alloc)? {
            Some(number) => Ok(Reply::Taken { number }),
            None => Ok(Reply::Idle),
        }
    }

    fn look(&mut self, queue: u64) -> Result<Reply, OutOfMemory> {
        let Some(own_queue) = self.queues.get_mut(queue as usize) else {
            return Ok(Reply::Idle);
        };
        let Some(hand) = &mut own_queue.hand else {
            return Ok(Reply::Idle);
        };
        let Some(point) = hand.wait() else {
            return Ok(Reply::Idle);
        };
        let now = self
            .numbers
            .get(point.timeline as usize)
            .copied()
            .unwrap_or(0);
        if now < point.value {
            hand.lacked = Some((point, now));
            return Ok(Reply::Lacking { point, have: now });
        }
        hand.seen.push(now)?;
        hand.lacked = None;
        Ok(Reply::Reached { point, seen: now })
    }

    /// Tells a queue what a request came to.
    fn tell(&mut self, queue: u64, number: u64, outcome: Outcome) -> Result<Reply, OutOfMemory> {
        if let Some(told) = self.told.get_mut(queue as usize) {
            told.outcomes.push(outcome)?;
        }
        Ok(Reply::Told { number, outcome })
    }

    fn bind(&mut self, alloc: Global, queue: u64) -> Result<Reply, OutOfMemory> {
        let Some(own_queue) = self.queues.get_mut(queue as usize) else {
            return Ok(Reply::Idle);
        };
        let Some(hand) = own_queue.take_ready() else {
            return Ok(Reply::Idle);
        };
        let InHand {
            number,
            request,
            seen,
            lacked: _,
        } = hand;
        let signals = request.signals.clone()?;
        let taken = TakenRequest {
            queue,
            number,
            request,
            seen,
        };
        let outcome = self.space.bind(alloc, taken)?;
        if let Outcome::Accepted { .. } = &outcome {
            own_queue.owed = signals;
        }
        self.tell(queue, number, outcome)
    }

    fn give_up(&mut self, queue: u64) -> Result<Reply, OutOfMemory> {
        let Some(own_queue) = self.queues.get_mut(queue as usize) else {
            return Ok(Reply::Idle);
        };
        let Some(hand) = own_queue.take_lacking() else {
            return Ok(Reply::Idle);
        };
        match hand.lacked {
            Some((point, have)) => {
                let number = hand.number;
                self.tell(queue, number, Outcome::NotReady { point, have })
            }
            None => Ok(Reply::Idle),
        }
    }

    fn pay(&mut self, alloc: Global, queue: u64) -> Result<Reply, OutOfMemory> {
        let Some(own_queue) = self.queues.get_mut(queue as usize) else {
            return Ok(Reply::Idle);
        };
        match own_queue.pay(alloc)? {
            Some(point) => Ok(self.raise(point)),
            None => Ok(Reply::Idle),
        }
    }

    /// A timeline is the greatest of its raises.
    fn raise(&mut self, point: Point) -> Reply {
        let Some(number) = self.numbers.get_mut(point.timeline as usize) else {
            return Reply::Idle;
        };
        let now = point.value.max(*number);
        *number = now;
        Reply::Raised { point, now }
    }

    fn create(&mut self, pages: u64) -> Reply {
        reply_of(self.space.create(pages).map(|id| Reply::Created { id }))
    }

    fn destroy(&mut self, alloc: Global, id: &BufferId) -> Reply {
        let jobs = self.running.count_users(id);
        let destroyed = self.space.destroy(alloc, id, jobs);
        reply_of(destroyed.map(|_| Reply::Destroyed))
    }

    fn rewind(&mut self) -> Reply {
        reply_of(self.space.rewind().map(|item| Reply::Rewound { item }))
    }

    fn withdraw(&mut self, alloc: Global, entry: u64) -> Reply {
        let withdrawn = self.space.withdraw(alloc, entry);
        reply_of(withdrawn.map(|item| Reply::Withdrawn { item }))
    }

    fn settle(&mut self, alloc: Global, to: u64) -> Reply {
        let settled = self.space.settle(alloc, to);
        reply_of(settled.map(|count| Reply::Settled { count }))
    }

    /// The outcomes of a queue below a number are let go, but for what held entries were told.
    fn forget(&mut self, queue: u64, to: u64) -> Reply {
        let fault = Fault::NoOutcome;
        let Some(told) = self.told.get_mut(queue as usize) else {
            return Reply::Refused { fault };
        };
        if !told.has(to) {
            return Reply::Refused { fault };
        }
        if let Some(by) = self.space.history.told_below(queue, to) {
            let fault = Fault::Held { by };
            return Reply::Refused { fault };
        }
        let count = told.forget(to);
        Reply::Forgot { count }
    }

    /// Room is given back, which is not seen; but not while an entry is held.
    fn trim(&self) -> Reply {
        match self.space.history.oldest() {
            Some(by) => Reply::Refused {
                fault: Fault::Held { by },
            },
            None => Reply::Trimmed,
        }
    }

    fn job_begin(&mut self, alloc: Global, accesses: &[Access]) -> Reply {
        match self.running.begin(alloc, &self.space, accesses) {
            Ok((job, places)) => Reply::Begun { job, places },
            Err(fault) => Reply::Refused { fault },
        }
    }

    fn job_end(&mut self, alloc: Global, job: u64) -> Reply {
        reply_of(self.running.end(alloc, job).map(|_| Reply::Ended { job }))
    }
}
