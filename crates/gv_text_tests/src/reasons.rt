//! What is said of a line that is bad where it stands.
use crate::rows::REASONS;
use gv_text::{MemorySink, MemorySource, run_script_explained};
use std::fmt::Write;
use std::process::Abort;
use std::test::Fail;

/// Asserts whether a script is run to its end, and what is said of it.
fn expect(rt: &(impl Abort + AllocGlobal), script: &str, is_good: bool, wanted: &str) {
    let alloc = rt.alloc();
    let mut source = MemorySource::new(script.as_bytes());
    let mut sink = MemorySink::new(alloc);
    let mut why = String::new(alloc);
    let ended = run_script_explained(alloc, &mut source, &mut sink, &mut why);
    assert!(rt;
        ended.is_ok() == is_good && why.as_str() == wanted,
        "{wanted}"
    );
}

#[test]
fn says_why_a_line_is_bad_where_it_stands(rt: HostRuntime) {
    for (script, wanted) in REASONS {
        expect(&rt, script, false, wanted);
    }
}

#[test]
fn says_that_a_timeline_is_the_65th(rt: HostRuntime) -> Result<(), Fail> {
    let mut script = String::new(rt.alloc());
    for index in 0..65u32 {
        writeln!(script, "timeline t{index}")?;
    }
    let wanted = "a 65th timeline; there are at most 64";
    expect(&rt, script.as_str(), false, wanted);
    Ok(())
}

#[test]
fn says_nothing_of_a_good_script(rt: HostRuntime) {
    expect(&rt, "map\n", true, "");
}
