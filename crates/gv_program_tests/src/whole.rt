//! The whole program over a runtime in memory.

use crate::fake::NO_TEXT;
use crate::trial::{PLAIN, Row, Trial, UNREAD, UNWRITTEN, expect, expect_parts, expect_rows};
use gv_program::ProgramFault;
use gv_queues::QueuesFault;
use gv_threads::ThreadsFault;
use std::alloc::AllocError;

const READ_FAULT: &str = "--vmbind: read fault\n--\n3";

const WRITE_FAULT: &str = "--vmbind: write fault\n--\n3";

const BUFFERS: &str = "# two buffers\nbuffer a 4\nbuffer b 0x10\n";

/// The second has other words that are read as `run`.
const RUNS: &[Row<'static>] = &[
    ("vmbind run", BUFFERS, "ok\nok\n----\n0"),
    ("vmbind run --", BUFFERS, "ok\nok\n----\n0"),
];

#[test]
fn runs_a_script(rt: HostRuntime) -> Result<(), AllocError> {
    expect_rows(&rt, RUNS)
}

#[test]
fn stops_at_a_bad_line(rt: HostRuntime) -> Result<(), AllocError> {
    let script = "buffer a 4\nbuffers b 4\nbuffer c 4\n";
    let wanted = "ok\n--vmbind: bad line 2\n--\n1";
    expect_rows(&rt, &[("vmbind run", script, wanted)])
}

#[test]
fn refuses_a_long_script(rt: HostRuntime) -> Result<(), AllocError> {
    let script = vec![in rt.alloc(); b'#'; 1_048_577]?;
    let trial = Trial {
        words: "vmbind run",
        input: &script,
        ..PLAIN
    };
    expect(&rt, &trial, "--vmbind: script too long\n--\n1")
}

#[test]
fn tells_of_broken_streams(rt: HostRuntime) -> Result<(), AllocError> {
    let words = "vmbind run";
    expect(&rt, &Trial { words, ..UNREAD }, READ_FAULT)?;
    for words in ["vmbind run", "vmbind --help"] {
        let trial = Trial {
            words,
            input: b"buffer a 4\n",
            ..UNWRITTEN
        };
        expect(&rt, &trial, WRITE_FAULT)?;
    }
    Ok(())
}

const TWO_QUEUES: &str = "vmbind threads --queues 2";

#[test]
fn runs_a_threads_script(rt: HostRuntime) -> Result<(), AllocError> {
    let script =
        "buffer a 8\nbind queue 0 ; map 0x0 0x2000 a 0x0\nbind queue 1 ; map 0x4000 0x2000 a 0x2000\nmap\n";
    let wanted = "ok\nqueue 0 put 1 told 1 left 0\nqueue 1 put 1 told 1 left 0\n\
0000000000000000 0000000000002000 a 0000000000000000 rw\n0000000000004000 0000000000006000 a 0000000000002000 rw\n----\n0";
    expect_rows(&rt, &[(TWO_QUEUES, script, wanted)])
}

/// The greatest numbers are taken, and a request is given up at its turns.
#[test]
fn takes_queues_and_turns(rt: HostRuntime) -> Result<(), AllocError> {
    let words = "vmbind threads --turns=1 --queues 16 --";
    let script = "timeline t\nbind queue 15 ; wait t 1\ntold 15\n";
    let end = "queue 15 put 1 told 1 left 0\n0 notready t 1 have 0\n----\n0";
    expect_parts(&rt, (words, script, end), "", &[])
}

const BAD_THREADS: &[Row<'static>] = &[
    (
        TWO_QUEUES,
        "buffer a 8\nbind queue 2 ; map 0x0 0x2000 a 0x0\n",
        "--vmbind: bad line 2\n--\n1",
    ),
    (
        TWO_QUEUES,
        "buffer a 8\nbind map 0x0 0x2000 b 0x0\n",
        "ok\n--vmbind: bad line 2\n--\n1",
    ),
];

#[test]
fn threads_script_ends_at_a_bad_line(rt: HostRuntime) -> Result<(), AllocError> {
    expect_rows(&rt, BAD_THREADS)
}

#[test]
fn threads_script_tells_of_broken_streams(rt: HostRuntime) -> Result<(), AllocError> {
    let words = TWO_QUEUES;
    expect(&rt, &Trial { words, ..UNREAD }, READ_FAULT)?;
    expect(&rt, &Trial { words, ..UNWRITTEN }, WRITE_FAULT)
}

/// Faults of queues, which no test of the program can bring about.
const FAULTS: &[(QueuesFault, u8, &str)] = &[
    (QueuesFault::NotMade, 4, "vmbind: out of memory"),
    (
        QueuesFault::NotStarted { queue: 3 },
        5,
        "vmbind: worker not started 3",
    ),
    (
        QueuesFault::Disagree { queue: 15 },
        5,
        "vmbind: queues disagree 15",
    ),
];

#[test]
fn tells_of_queues(rt: HostRuntime) -> Result<(), AllocError> {
    for (fault, status, line) in FAULTS {
        let told = ProgramFault::from(ThreadsFault::Queues(*fault));
        let text = told.to_string(rt.alloc())?;
        assert!(rt;
            told.status() == *status && text.as_str() == *line,
            "{line}"
        );
    }
    Ok(())
}

#[test]
fn tells_its_version(rt: HostRuntime) -> Result<(), AllocError> {
    for words in ["vmbind --version", "vmbind -V"] {
        expect(&rt, &Trial { words, ..UNREAD }, "vmbind 0.1.0\n----\n0")?;
    }
    let broken = Trial {
        words: "vmbind --version",
        is_broken: true,
        ..UNWRITTEN
    };
    expect(&rt, &broken, WRITE_FAULT)
}

const REFUSED: &[&str] = &[
    "vmbind",
    "vmbind walk",
    "vmbind run file extra",
    "vmbind run --json",
    "vmbind replay",
    "vmbind replay --format radv --pid x",
    "vmbind draw --width 0",
    "vmbind compare one",
    "vmbind compare one two three",
    "vmbind run --queues 1",
    "vmbind --fast run",
    "vmbind threads",
    "vmbind threads --turns 5",
    "vmbind threads --queues 0",
    "vmbind threads --queues 17",
    "vmbind threads --queues two",
    "vmbind threads --queues 1 --queues 1",
    "vmbind threads --queues 1 --turns 0",
    "vmbind threads --queues 1 --turns 1000000001",
    "vmbind threads --queues 1 extra",
];

#[test]
fn refuses_words(rt: HostRuntime) -> Result<(), AllocError> {
    for words in REFUSED {
        expect_parts(&rt, (words, "buffer a 4\n", "--\n2"), "--error: ", &[])?;
    }
    let words = format!(in rt.alloc(); "vmbind {NO_TEXT}")?;
    let unread = Trial {
        words: words.as_str(),
        ..UNREAD
    };
    expect(&rt, &unread, "--vmbind: argument is not text\n--\n2")
}
