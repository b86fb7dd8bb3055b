//! How large a world is.

/// How many queues a world has, from 1 to 16, how many places each of them has for requests that wait, from 1 to 65,536,
/// and how many timelines there are, from 1 to 64.
#[derive(Clone, Copy, Debug, PartialEq, Eq)]
pub struct Sizes {
    pub queues: u64,
    pub depth: u64,
    pub timelines: u64,
}
