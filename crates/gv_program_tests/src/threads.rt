//! Threads scripts from their bytes to their replies.
mod bad;
mod reasons;

use gv_text::{MemorySink, MemorySource};
use gv_threads::{RunTerms, ThreadsFault, run_threads};
use std::alloc::{AllocError, Global};
use std::fmt::Write;
use std::process::Abort;
use std::sync::Wait;
use std::thread::Threads;

const TURNS: u64 = 100_000;

/// A script, on how many queues it runs and for how many turns, and what it comes to: the replies, and behind them the fault, if there
/// is one.
type Row<'a> = (&'a str, u64, u64, &'a str);

/// Runs a script, and gives its replies, and behind them the fault, if there is one.
fn told<R: Threads + Wait + Sync>(
    rt: &R,
    alloc: Global,
    script: &str,
    terms: RunTerms,
) -> Result<Vec<u8>, AllocError> {
    if terms.queues == 0 || terms.queues > 16 {
        return Ok(Vec::new(alloc));
    }
    let mut sink = MemorySink::new(alloc);
    let mut source = MemorySource::new(script.as_bytes());
    match run_threads(rt, alloc, &mut source, &mut sink, terms) {
        Ok(()) => Vec::from_slice(alloc, sink.bytes()),
        Err(fault) => with_fault(alloc, sink.bytes(), fault),
    }
}

/// Replies, and behind them the fault.
fn with_fault(alloc: Global, replies: &[u8], fault: ThreadsFault) -> Result<Vec<u8>, AllocError> {
    let fault = format!(in alloc; "Err({fault:?})")?;
    let mut told = Vec::from_slice(alloc, replies)?;
    told.extend_from_slice(fault.as_str().as_bytes())?;
    Ok(told)
}

/// Runs a script, and asserts what it comes to.
fn expect<R: Threads + Wait + Sync + Abort + AllocGlobal>(
    rt: &R,
    (script, queues, turns, wanted): Row<'_>,
) -> Result<(), AllocError> {
    let told = told(rt, rt.alloc(), script, RunTerms { queues, turns })?;
    assert!(rt; told.as_slice() == wanted.as_bytes(), "{wanted}");
    Ok(())
}

const TWO_QUEUES_MAP_APART: Row<'static> = (
    "buffer a 8\nbind queue 0 ; map 0x0 0x2000 a 0x0\nbind queue 1 ; map 0x4000 0x2000 a 0x2000\nmap\n",
    2,
    TURNS,
    "ok\nqueue 0 put 1 told 1 left 0\nqueue 1 put 1 told 1 left 0\n\
0000000000000000 0000000000002000 a 0000000000000000 rw\n\
0000000000004000 0000000000006000 a 0000000000002000 rw\n",
);

#[test]
fn two_queues_map_apart(rt: HostRuntime) -> Result<(), AllocError> {
    expect(&rt, TWO_QUEUES_MAP_APART)
}

const EMPTY_SCRIPT_CLOSES_ITS_QUEUES: Row<'static> = (
    "",
    3,
    TURNS,
    "queue 0 put 0 told 0 left 0\nqueue 1 put 0 told 0 left 0\nqueue 2 put 0 told 0 left 0\n",
);

#[test]
fn empty_script_closes_its_queues(rt: HostRuntime) -> Result<(), AllocError> {
    expect(&rt, EMPTY_SCRIPT_CLOSES_ITS_QUEUES)
}

const QUESTIONS_ARE_ANSWERED_BEHIND_THE_WORKERS: Row<'static> = (
    "# first\n\nspace 0x0 0x10000 0x8000 0x4000\nlimits 2 4 3\nbuffer a 8\nbuffer b 0\nbuffer b 1\n\
timeline t\ntimeline u\nraise t 3\nraise t 2\n# then\nbind map 0x0 0x2000 a 0x0 ro ; signal u 5\nbind zero 0x8000 0x1000\n\
bind wait t 4\nbind wait t 3 ; unmap 0x1000 0x1000\n\n# last\nmap\nat 0x10\nat 0x1000\ntables\nuses a\nvalue t\nvalue u\n\
told 0\njournal\n",
    1,
    3,
    "ok\nok\nok\nrefused BadSize\nok\nok\nok\nt 3\nt 3\nqueue 0 put 4 told 4 left 0\n\
0000000000000000 0000000000001000 a 0000000000000000 ro\na 0000000000000010 ro\nnone\n1 1 1 1 1\nuses 1 kept 1\nt 3\nu 5\n\
0 accepted 0\n1 refused 0 Reserved\n2 notready t 4 have 3\n3 accepted 1\n0 bind 0 0 live\n1 bind 0 3 live\n",
);

/// Each line of the third part, on what stands when the workers have ended.
#[test]
fn questions_are_answered_behind_the_workers(rt: HostRuntime) -> Result<(), AllocError> {
    expect(&rt, QUESTIONS_ARE_ANSWERED_BEHIND_THE_WORKERS)
}

const REQUESTS_COME_IN_THE_ORDER_OF_THEIR_LINES: Row<'static> = (
    "buffer a 8\nbind map 0x0 0x2000 a 0x0\nbind map 0x1000 0x1000 a 0x4000\nbind unmap 0x0 0x1000\nmap\n",
    1,
    TURNS,
    "ok\nqueue 0 put 3 told 3 left 0\n0000000000001000 0000000000002000 a 0000000000004000 rw\n",
);

/// The requests of one queue are served in the order of their lines.
#[test]
fn requests_come_in_the_order_of_their_lines(rt: HostRuntime) -> Result<(), AllocError> {
    expect(&rt, REQUESTS_COME_IN_THE_ORDER_OF_THEIR_LINES)
}

const ONE_QUEUE_WAITS_FOR_ANOTHER: Row<'static> = (
    "timeline t\nbind queue 0 ; wait t 1 ; zero 0x0 0x1000\nbind queue 1 ; zero 0x4000 0x1000 ; signal t 1\n\
told 0\ntold 1\nvalue t\n",
    2,
    1_000_000_000,
    "ok\nqueue 0 put 1 told 1 left 0\nqueue 1 put 1 told 1 left 0\n0 accepted 1\n0 accepted 0\nt 1\n",
);

/// A request on one queue waits for the signal of one on another, whichever is served first.
#[test]
fn one_queue_waits_for_another(rt: HostRuntime) -> Result<(), AllocError> {
    expect(&rt, ONE_QUEUE_WAITS_FOR_ANOTHER)
}

const REQUEST_IS_GIVEN_UP_AT_ITS_TURNS: Row<'static> = (
    "timeline t\nbind wait t 9\nbind zero 0x0 0x1000\ntold 0\n",
    1,
    1,
    "ok\nqueue 0 put 2 told 2 left 0\n0 notready t 9 have 0\n1 accepted 0\n",
);

/// Nothing raises the timeline, so the request is given up at the limit of turns, and the next one is served.
#[test]
fn request_is_given_up_at_its_turns(rt: HostRuntime) -> Result<(), AllocError> {
    expect(&rt, REQUEST_IS_GIVEN_UP_AT_ITS_TURNS)
}

/// All 64 timelines: one that nobody raised is 0, and the last is what a signal raised it to.
#[test]
fn values_of_the_first_and_the_last_timeline(rt: HostRuntime) -> Result<(), AllocError> {
    let mut script = String::new(rt.alloc());
    let mut replies = String::new(rt.alloc());
    for timeline in 10..74u32 {
        writeln!(script, "timeline t{timeline}")?;
        replies.push_str("ok\n")?;
    }
    script.push_str("bind signal t73 9\nvalue t10\nvalue t72\nvalue t73\n")?;
    replies.push_str("queue 0 put 1 told 1 left 0\nt10 0\nt72 0\nt73 9\n")?;
    expect(&rt, (script.as_str(), 1, TURNS, replies.as_str()))
}

/// Over 65,536 requests on one queue: it takes that number and no more.
#[test]
fn queue_is_spent_at_its_limit(rt: HostRuntime) -> Result<(), AllocError> {
    let mut script = String::new(rt.alloc());
    for _ in 0..65_540 {
        script.push_str("bind\n")?;
    }
    script.push_str("bind queue 1\n")?;
    let wanted = "queue 0 put 65536 told 65536 left 0\nqueue 1 put 1 told 1 left 0\n";
    expect(&rt, (script.as_str(), 2, TURNS, wanted))
}
