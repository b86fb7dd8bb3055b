//! The queues of a world by the definitions alone: what waits, what is in hand, and what is owed.
use gv_types::{OutOfMemory, Point, Request};
use std::alloc::Global;

/// A request with the number that its put answered.
#[derive(Drop)]
pub struct Numbered {
    pub number: u64,
    pub request: Request,
}

/// The request in hand: what its reached waits saw, in order, and what the last look had, where it lacked.
#[derive(Drop)]
pub struct InHand {
    pub number: u64,
    pub request: Request,
    pub seen: Vec<u64>,
    pub lacked: Option<(Point, u64)>,
}

impl InHand {
    /// The first wait that is not reached yet.
    pub fn wait(&self) -> Option<Point> {
        self.request.waits.get(self.seen.len()).copied()
    }
}

#[derive(Drop)]
pub struct ModelQueue {
    pub put: u64,
    pub waiting: Vec<Numbered>,
    pub hand: Option<InHand>,
    pub owed: Vec<Point>,
}

impl ModelQueue {
    /// A queue on which nothing was put.
    pub fn new(alloc: Global) -> ModelQueue {
        ModelQueue {
            put: 0,
            waiting: Vec::new(alloc),
            hand: None,
            owed: Vec::new(alloc),
        }
    }

    /// Takes the front in hand, where one waits, none is in hand and nothing is owed. Its number.
    pub fn take(&mut self, alloc: Global) -> Result<Option<u64>, OutOfMemory> {
        if self.hand.is_some() || !self.owed.is_empty() {
            return Ok(None);
        }
        let waiting = std::mem::replace(&mut self.waiting, Vec::new(alloc));
        let mut taken = None;
        for front in waiting {
            if taken.is_some() {
                self.waiting.push(front)?;
            } else {
                let Numbered { number, request } = front;
                taken = Some(number);
                self.hand = Some(InHand {
                    number,
                    request,
                    seen: Vec::new(alloc),
                    lacked: None,
                });
            }
        }
        Ok(taken)
    }

    /// The request in hand, where each of its waits is reached.
    pub fn take_ready(&mut self) -> Option<InHand> {
        match &self.hand {
            Some(hand) if hand.wait().is_none() => {}
            _ => return None,
        }
        self.hand.take()
    }

    /// The request in hand, where its last look lacked.
    pub fn take_lacking(&mut self) -> Option<InHand> {
        match &self.hand {
            Some(hand) if hand.lacked.is_some() => {}
            _ => return None,
        }
        self.hand.take()
    }

    /// Pays the first signal owed.
    pub fn pay(&mut self, alloc: Global) -> Result<Option<Point>, OutOfMemory> {
        let Some(first) = self.owed.first().copied() else {
            return Ok(None);
        };
        let rest = Vec::from_slice(alloc, &self.owed[1..])?;
        self.owed = rest;
        Ok(Some(first))
    }
}

/// A request just like another.
pub fn copy_of(alloc: Global, request: &Request) -> Result<Request, OutOfMemory> {
    Ok(Request {
        ops: Vec::from_slice(alloc, request.ops.as_slice())?,
        waits: Vec::from_slice(alloc, request.waits.as_slice())?,
        signals: Vec::from_slice(alloc, request.signals.as_slice())?,
    })
}
