//! A request as it comes to the journal.
use gv_types::Request;

/// A request that may be carried out, since what it waits for is reached: its queue, its number there, and what each of its
/// waits saw.
#[derive(Drop)]
pub struct ReadyRequest {
    pub queue: u64,
    pub number: u64,
    pub request: Request,
    pub seen: Vec<u64>,
}
