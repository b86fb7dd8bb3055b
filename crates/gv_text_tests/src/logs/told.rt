//! A log in memory, replayed as words of the program ask.

use gv_replay::{FlagBits, Form, Format, ReplayFault, Terms, measure, replay};
use gv_text::{MemorySink, MemorySource};
use std::alloc::{AllocError, Global};
use std::process::Abort;
use std::str;

/// What is tried, the words that ask, a log, and lines that its report has to have.
pub type Row<'a> = (&'a str, &'a str, &'a str, &'a str);

const FORMATS: &[(&str, Format)] = &[
    ("--format radv", Format::Radv),
    ("--format amdgpu", Format::Amdgpu),
    ("--format xe", Format::Xe),
    ("--format i915", Format::I915),
    ("--format gpuvas", Format::Gpuvas),
];

const FORMS: &[(&str, Form)] = &[
    ("--json", Form::Json),
    ("--script", Form::Script),
    ("--mappings", Form::Mappings),
];

const FLAGS: &[(&str, FlagBits)] = &[
    ("--flags entry", FlagBits::Entry),
    ("--flags call", FlagBits::Call),
];

/// What stands beside the first of some texts that the words have; another where they have none.
fn first_in<T: Copy>(table: &[(&str, T)], words: &str, other: T) -> T {
    for (text, value) in table {
        if words.contains(*text) {
            return *value;
        }
    }
    other
}

/// The word behind this one.
fn behind<'a>(words: &'a str, word: &str) -> Option<&'a str> {
    let (_, rest) = words.split_once(word)?;
    rest.split(" --").next()
}

/// What the words ask of a log, at these addresses.
pub fn terms_of<'a>(words: &'a str, addresses: &'a [u64]) -> Terms<'a> {
    let pid = behind(words, "--pid ").unwrap_or("").parse::<u64>();
    Terms {
        format: first_in(FORMATS, words, Format::Radv),
        flag_bits: first_in(FLAGS, words, FlagBits::Unsaid),
        pid: pid.ok(),
        space: behind(words, "--space "),
        addresses,
        all: words.contains("--all"),
        form: first_in(FORMS, words, Form::Report),
        sizes: None,
    }
}

/// Whether each option among the words is one that is read here, with a format.
fn are_known(words: &str) -> bool {
    let mut has_format = false;
    for option in words.split("--").skip(1) {
        let (name, value) = option
            .trim_end()
            .split_once(' ')
            .unwrap_or((option.trim_end(), ""));
        let is_known = match name {
            "format" => matches!(value, "radv" | "amdgpu" | "xe" | "i915" | "gpuvas"),
            "flags" => matches!(value, "entry" | "call"),
            "pid" | "at" => !value.is_empty(),
            "space" => true,
            "json" | "script" | "mappings" | "all" => value.is_empty(),
            _ => false,
        };
        if !is_known {
            return false;
        }
        has_format = has_format || name == "format";
    }
    has_format
}

/// The addresses that the words ask.
fn addresses_in(alloc: Global, words: &str) -> Result<Vec<u64>, AllocError> {
    let mut addresses = Vec::new(alloc);
    for rest in words.split("--at 0x").skip(1) {
        let digits = rest.split(' ').next().unwrap_or(rest);
        addresses.push(u64::from_str_radix(digits, 16).unwrap_or(0))?;
    }
    Ok(addresses)
}

/// Replays a log, whose objects are measured first where the format wants it.
fn play(
    alloc: Global,
    log: &[u8],
    terms: &Terms<'_>,
    sink: &mut MemorySink,
) -> Result<(), ReplayFault> {
    if !terms.format.wants_sizes() {
        return replay(alloc, &mut MemorySource::new(log), sink, terms);
    }
    let sizes = measure(alloc, &mut MemorySource::new(log), terms)?;
    let measured = terms.sized(&sizes);
    replay(alloc, &mut MemorySource::new(log), sink, &measured)
}

/// What is told of a log where words of the program ask it, and behind that the fault, if there is one.
pub fn told(alloc: Global, words: &str, log: &[u8]) -> Result<String, AllocError> {
    if !are_known(words) {
        return String::from_str(alloc, "Err(unknown words)");
    }
    let addresses = addresses_in(alloc, words)?;
    told_at(alloc, words, &addresses, log)
}

/// The same at these addresses.
pub fn told_at(
    alloc: Global,
    words: &str,
    addresses: &[u64],
    log: &[u8],
) -> Result<String, AllocError> {
    let mut sink = MemorySink::new(alloc);
    let played = play(alloc, log, &terms_of(words, addresses), &mut sink);
    let text = str::from_utf8(sink.bytes()).unwrap_or("bytes that are no text");
    match played {
        Ok(()) => String::from_str(alloc, text),
        Err(fault) => format!(in alloc; "{text}Err({fault:?})"),
    }
}

/// Asserts that a replay came to its end, and that its text has each of these lines.
pub fn expect_lines(rt: &impl Abort, name: &str, told: &str, wanted: &str) {
    assert!(rt; !told.contains("Err("), "{name}: {told}");
    for line in wanted.lines() {
        assert!(rt; has_line(told, line), "{name}: {line}");
    }
}

/// Whether a text has this line.
fn has_line(text: &str, line: &str) -> bool {
    for other in text.lines() {
        if other == line {
            return true;
        }
    }
    false
}

/// Asserts that the report of each row has the lines that are wanted.
pub fn expect_rows(rt: &(impl Abort + AllocGlobal), rows: &[Row<'_>]) -> Result<(), AllocError> {
    for (name, words, log, wanted) in rows {
        let told = told(rt.alloc(), words, log.as_bytes())?;
        expect_lines(rt, name, told.as_str(), wanted);
    }
    Ok(())
}

/// Asserts that just this is told of a log.
pub fn expect_told(
    rt: &(impl Abort + AllocGlobal),
    words: &str,
    log: &[u8],
    wanted: &str,
) -> Result<(), AllocError> {
    let told = told(rt.alloc(), words, log)?;
    assert!(rt; told.as_str() == wanted, "{words}: {told}");
    Ok(())
}

/// Asserts how what is told of a log begins and ends.
pub fn expect_ends(
    rt: &(impl Abort + AllocGlobal),
    words: &str,
    log: &[u8],
    (start, end): (&str, &str),
) -> Result<(), AllocError> {
    let told = told(rt.alloc(), words, log)?;
    assert!(rt;
        told.as_str().starts_with(start) && told.as_str().ends_with(end),
        "{words}"
    );
    Ok(())
}
