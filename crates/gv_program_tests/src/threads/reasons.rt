//! What is said of a line that is bad where it stands.
use gv_text::{MemorySink, MemorySource};
use gv_threads::{RunTerms, run_threads_explained};

/// Scripts for two queues with a bad line, and what is said of that.
const ROWS: &[(&str, &str)] = &[
    (
        "bind\nraise t 1\n",
        "raise comes before all bind lines and questions",
    ),
    (
        "map\nbuffer b 1\n",
        "buffer comes before all bind lines and questions",
    ),
    ("map\nbind\n", "bind comes before all questions"),
    ("rewind\n", "rewind is no line of a threads script"),
    ("job read 0x0\n", "job is no line of a threads script"),
    (
        "plan unmap 0x0 0x1000\n",
        "plan is no line of a threads script",
    ),
    (
        "bind zero 0x0 0x1000 ; queue 2\n",
        "column 30: 2; a queue is below 2",
    ),
    ("told 0x2\n", "column 6: 0x2; a queue is below 2"),
    ("told 16\n", "column 6: 16; a queue is below 16"),
    ("value t\n", "timeline t is not declared"),
    ("bind wait t 1\n", "timeline t is not declared"),
    ("timeline t\ntimeline t\n", "timeline t is declared already"),
    ("buffer b 1\nbuffer b 1\n", "buffer b is declared already"),
    ("buffer b 0\nbind unmapall b\n", "buffer b is not declared"),
    ("map\nuses b\n", "buffer b is not declared"),
    (
        "timeline t\nspace 0x0 0x1000 0x0 0x0\n",
        "space comes before all other lines",
    ),
    ("map\nmap", "no line end"),
];

#[test]
fn says_why_a_line_is_bad(rt: HostRuntime) {
    for (script, wanted) in ROWS {
        let mut sink = MemorySink::new(rt.alloc());
        let mut source = MemorySource::new(script.as_bytes());
        let mut why = String::new(rt.alloc());
        let terms = RunTerms {
            queues: 2,
            turns: 10,
        };
        let ended = run_threads_explained(&rt, &mut source, &mut sink, terms, &mut why);
        assert!(rt; ended.is_err() && why.as_str() == *wanted, "{wanted}");
    }
}
