//! Runs the examples, and compares what they come to with the replies that are wanted.
#![tactic(auto)]

mod logs;
mod pictures;

use gv_draw::{Options, draw_script};
use gv_text::{MemorySink, MemorySource, run_script};
use gv_threads::{RunTerms, run_threads};
use std::process::ExitCode;
use std::rt::Files;
use std::sync::Wait;
use std::thread::Threads;
use std::{fs, io};

/// How an example is run.
#[derive(Clone, Copy)]
enum Way {
    /// Its script, beside its replies.
    Script,
    /// Its script for two queues, beside its replies, which are the same whichever queue is served first.
    Queues,
    /// A driver's log, beside its reports.
    Log,
    /// The page of pictures, beside the scripts that it draws.
    Page,
    /// The scripts whose SVG lies beside them.
    Drawn,
}

const EXAMPLES: [(&str, Way); 21] = [
    ("first", Way::Script),
    ("replace", Way::Script),
    ("keep", Way::Script),
    ("bounds", Way::Script),
    ("tables", Way::Script),
    ("buffers", Way::Script),
    ("rewind", Way::Script),
    ("withdraw", Way::Script),
    ("jobs", Way::Script),
    ("timelines", Way::Script),
    ("settle", Way::Script),
    ("igt", Way::Script),
    ("over-time", Way::Script),
    ("threads", Way::Queues),
    ("log radv", Way::Log),
    ("log amdgpu", Way::Log),
    ("log xe", Way::Log),
    ("log i915", Way::Log),
    ("log gpuvas", Way::Log),
    ("pictures", Way::Page),
    ("drawn", Way::Drawn),
];

/// Two queues, and enough turns for a request to wait for any other of an example.
const TERMS: RunTerms = RunTerms {
    queues: 2,
    turns: 1_000_000_000,
};

/// The examples that the page of pictures draws, in its order.
const PICTURES: [&str; 5] = ["first", "replace", "keep", "withdraw", "tables"];

/// The scripts whose SVG lies beside them.
const DRAWN: [&str; 2] = ["over-time", "withdraw"];

fn main(rt: HostRuntime) -> io::Result<ExitCode> {
    let mut status = ExitCode::SUCCESS;
    for (name, way) in EXAMPLES {
        let is_same = match way {
            Way::Queues => is_answered_by_queues(&rt, name)?,
            _ => is_wanted(&rt, name, way)?,
        };
        if is_same {
            println!(rt; "{name}: as wanted")?;
        } else {
            println!(rt; "{name}: OTHERWISE")?;
            status = ExitCode::from(1);
        }
    }
    Ok(status)
}

/// Whether an example that is run on no queues comes to what is wanted.
fn is_wanted(rt: &(impl Files + AllocGlobal), name: &str, way: Way) -> io::Result<bool> {
    match way {
        Way::Log => logs::is_reported(rt, name.trim_start_matches("log ")),
        Way::Page => are_drawn(rt),
        Way::Drawn => are_shown(rt),
        Way::Script | Way::Queues => is_answered(rt, name),
    }
}

/// The bytes of a file of an example.
fn data(rt: &(impl Files + AllocGlobal), name: &str, kind: &str) -> io::Result<Vec<u8>> {
    fs::read(rt, format!(in rt.alloc(); "{name}.{kind}")?)
}

/// Whether the example's script gives the replies beside it.
fn is_answered(rt: &(impl Files + AllocGlobal), name: &str) -> io::Result<bool> {
    let (script, wanted) = (data(rt, name, "vmb")?, data(rt, name, "replies")?);
    let mut sink = MemorySink::new(rt.alloc());
    let ended = run_script(rt.alloc(), &mut MemorySource::new(&script), &mut sink);
    Ok(ended.is_ok() && sink.bytes() == wanted.as_slice())
}

/// Whether the example's script, run on queues, gives the replies beside it.
fn is_answered_by_queues<R: Files + AllocGlobal + Threads + Wait + Sync>(
    rt: &R,
    name: &str,
) -> io::Result<bool> {
    let (script, wanted) = (data(rt, name, "vmb")?, data(rt, name, "replies")?);
    let mut source = MemorySource::new(&script);
    let mut sink = MemorySink::new(rt.alloc());
    let ended = run_threads(rt, rt.alloc(), &mut source, &mut sink, TERMS);
    Ok(ended.is_ok() && sink.bytes() == wanted.as_slice())
}

/// Whether the pictures of the page are what the program answers.
fn are_drawn(rt: &(impl Files + AllocGlobal)) -> io::Result<bool> {
    let page = fs::read_to_string(rt, "pictures.md")?;
    let mut names = PICTURES.iter();
    for block in page.split("```") {
        if block.contains("\n  before      ") {
            let name = names.next().copied().unwrap_or("none");
            let script = fs::read_to_string(rt, format!(in rt.alloc(); "{name}.vmb")?)?;
            if !pictures::matches_script(rt.alloc(), block, &script)? {
                return Ok(false);
            }
        }
    }
    Ok(names.next().is_none())
}

/// Whether the SVG beside each of the drawn scripts is what the program draws.
fn are_shown(rt: &(impl Files + AllocGlobal)) -> io::Result<bool> {
    let mut are_same = true;
    for name in DRAWN {
        let (script, wanted) = (data(rt, name, "vmb")?, data(rt, name, "svg")?);
        let mut svg = String::new(rt.alloc());
        let drawn = draw_script(rt.alloc(), &script, &Options::default(), &mut svg);
        are_same = are_same && drawn.is_ok() && svg.as_str().as_bytes() == wanted.as_slice();
    }
    Ok(are_same)
}
