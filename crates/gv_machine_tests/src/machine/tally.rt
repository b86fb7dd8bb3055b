//! Which kinds of events came, and which of replies.
use std::alloc::{AllocError, Global};

/// How the lines of each kind of event begin.
pub const EVENTS: &[&str] = &[
    "put", "take", "look", "bind", "give_up", "pay", "raise", "create", "destroy", "rewind",
    "withdraw", "settle", "job", "end", "at", "forget", "trim",
];

/// What the text of each kind of reply begins with and has in it; at last the faults that calls meet at small limits, and those
/// that requests can meet.
pub const REPLIES: &[(&str, &str)] = &[
    ("Idle", ""),
    ("Put {", ""),
    ("NotPut {", "fault: QueueSpent"),
    ("NotPut {", "fault: QueueFull"),
    ("Taken {", ""),
    ("Reached {", ""),
    ("Lacking {", ""),
    ("Told {", "outcome: Accepted"),
    ("Told {", "outcome: Refused"),
    ("Told {", "outcome: NotReady"),
    ("Raised {", ""),
    ("Created {", ""),
    ("Destroyed", ""),
    ("Rewound {", ""),
    ("Withdrawn {", ""),
    ("Settled {", ""),
    ("Begun {", ""),
    ("Ended {", ""),
    ("Found {", "place: None"),
    ("Found {", "place: Some"),
    ("Refused {", ""),
    ("Forgot {", ""),
    ("Trimmed", ""),
    ("Refused {", "fault: BadSize"),
    ("Refused {", "fault: TooManyBuffers"),
    ("Refused {", "fault: NoBuffer"),
    ("Refused {", "fault: Mapped {"),
    ("Refused {", "fault: Kept {"),
    ("Refused {", "fault: InUse {"),
    ("Refused {", "fault: NoEntry"),
    ("Refused {", "fault: NotABind"),
    ("Refused {", "fault: Withdrawn"),
    ("Refused {", "fault: Touched {"),
    ("Refused {", "fault: JournalFull"),
    ("Refused {", "fault: TooManyMappings"),
    ("Refused {", "fault: Crossed {"),
    ("Refused {", "fault: Unmapped {"),
    ("Refused {", "fault: WriteToReadOnly {"),
    ("Refused {", "fault: Conflict {"),
    ("Refused {", "fault: NoJob"),
    ("Refused {", "fault: NoOutcome"),
    ("Refused {", "fault: Held {"),
    ("Told {", "fault: Unaligned"),
    ("Told {", "fault: Empty"),
    ("Told {", "fault: OutOfSpace"),
    ("Told {", "fault: Reserved"),
    ("Told {", "fault: NoBuffer"),
    ("Told {", "fault: OutOfBuffer"),
    ("Told {", "fault: TooManyMappings"),
    ("Told {", "fault: TooManyOps"),
    ("Told {", "fault: JournalFull"),
];

/// Which kinds came, of events and of replies.
#[derive(Drop)]
pub struct Tally {
    pub events: Vec<bool>,
    pub replies: Vec<bool>,
}

impl Tally {
    /// Nothing came.
    pub fn new(alloc: Global) -> Result<Tally, AllocError> {
        Ok(Tally {
            events: vec![in alloc; false; EVENTS.len()]?,
            replies: vec![in alloc; false; REPLIES.len()]?,
        })
    }

    /// The event of a line comes.
    pub fn take_event(&mut self, line: &str) {
        for (came, kind) in self.events.iter_mut().zip(EVENTS) {
            if line.starts_with(*kind) {
                *came = true;
            }
        }
    }

    /// A reply comes.
    pub fn take_reply(&mut self, reply: &str) {
        for (came, (start, part)) in self.replies.iter_mut().zip(REPLIES) {
            if has_both(reply, start, part) {
                *came = true;
            }
        }
    }
}

fn has_both(reply: &str, start: &str, part: &str) -> bool {
    reply.starts_with(start) && reply.contains(part)
}
