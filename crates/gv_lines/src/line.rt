//! The lines of the language.
use super::clauses::ClauseList;
use super::job::AccessList;
use super::name::Name;
use super::operation::Operation;
use super::point::NamedPoint;

/// A line of the language. Its lists stay in its text, and are read as they are gone through. Each line is handed on by copies
/// of the whole value, so no variant may make it larger: the operation of a plan decides its size, and a list of clauses takes
/// less.
#[derive(Drop, Debug)]
pub enum Line<'a> {
    /// An empty line, or a comment.
    Silent,
    /// `space START LEN RSTART RLEN`: an address space and its reserved region, in bytes.
    Space {
        start: u64,
        len: u64,
        reserved_start: u64,
        reserved_len: u64,
    },
    /// `limits BUFFERS MAPPINGS ITEMS`: the greatest numbers of buffers, mappings and journal items.
    Limits {
        buffers: u64,
        mappings: u64,
        items: u64,
    },
    /// `buffer NAME PAGES`: a buffer of that many pages.
    Buffer {
        name: Name,
        pages: u64,
    },
    /// `destroy NAME`: the buffer goes.
    Destroy {
        name: Name,
    },
    /// `uses NAME`: how many mappings of the buffer there are.
    Uses {
        name: Name,
    },
    /// `timeline NAME`: the next timeline.
    Timeline {
        name: Name,
    },
    /// `raise NAME NUM`: the timeline is raised to the number.
    Raise {
        point: NamedPoint,
    },
    /// `value NAME`: the number that the timeline has.
    Value {
        name: Name,
    },
    /// `bind`, or `bind CLAUSE ; CLAUSE ..`: a request is put in a queue and carried out. At most one clause
    /// names a queue.
    Bind {
        clauses: ClauseList<'a>,
    },
    /// `plan OPERATION`: the operation is only planned; it is none of a whole buffer.
    Plan {
        operation: Operation,
    },
    /// `map`: what the address space maps.
    Map,
    /// `at NUM`: what stands at an address in bytes.
    At {
        addr: u64,
    },
    /// `tables`: how many tables the page table has.
    Tables,
    /// `rewind`: the newest journal item is taken back.
    Rewind,
    /// `journal`: the journal items.
    Journal,
    /// `withdraw NUM`: the request of this entry is withdrawn.
    Withdraw {
        entry: u64,
    },
    /// `settle NUM`: the journal items below the number are settled.
    Settle {
        to: u64,
    },
    /// `told NUM`: the outcomes told on a queue, 0 to 15.
    Told {
        queue: u64,
    },
    /// `job ACCESS ; ACCESS ..`: a job begins, with at least one access.
    Job {
        accesses: AccessList<'a>,
    },
    /// `end NUM`: the job of this number ends.
    End {
        job: u64,
    },
}

// What `parse_line` gives is copied too, and has 8 bytes more.
const _: () = prove!(size_of::<Line<'static>>() == 72);
