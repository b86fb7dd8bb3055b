//! Runs of the whole program over a runtime in memory.

use crate::fake::{Fake, Stream};
use gv_program::program;
use std::alloc::AllocError;
use std::cell::{Cell, RefCell};
use std::io::ErrorKind;
use std::process::Abort;
use std::rt::Files;
use std::str;
use std::sync::Wait;
use std::thread::Threads;

/// A run: the words of its command line, what it reads, and how its devices are.
#[derive(Drop)]
pub struct Trial<'a> {
    pub words: &'a str,
    pub input: &'a [u8],
    pub is_broken: bool,
    pub failure: Option<ErrorKind>,
    pub pace: u64,
    pub is_terminal: bool,
}

/// No word, no input, devices that don't fail, a clock that stands, and no terminal.
pub const PLAIN: Trial<'static> = Trial {
    words: "",
    input: b"",
    is_broken: false,
    failure: None,
    pace: 0,
    is_terminal: false,
};

/// Standard input, of which each read fails.
pub const UNREAD: Trial<'static> = Trial {
    is_broken: true,
    ..PLAIN
};

/// Standard output, of which each write fails.
pub const UNWRITTEN: Trial<'static> = Trial {
    failure: Some(ErrorKind::Other),
    ..PLAIN
};

/// The words of a run, its input, and what is told of it.
pub type Row<'a> = (&'a str, &'a str, &'a str);

/// What is told of a run: what it wrote to standard output, `--`, what it wrote to standard error, `--`, and its status.
pub fn told<R: AllocGlobal + Threads + Wait + Sync + Files>(
    rt: &R,
    trial: &Trial<'_>,
) -> Result<String, AllocError> {
    let alloc = rt.alloc();
    let fake = Fake {
        alloc,
        words: trial.words,
        input: Stream {
            rest: trial.input,
            is_broken: trial.is_broken,
        },
        failure: trial.failure,
        pace: trial.pace,
        looks: Cell::new(0),
        output: RefCell::new(Vec::new(alloc)),
        errors: RefCell::new(Vec::new(alloc)),
    };
    let status = program(&fake, rt, trial.is_terminal);
    let (output, errors) = (fake.output.into_inner(), fake.errors.into_inner());
    let output = str::from_utf8(&output).unwrap_or("bytes that are no text");
    let errors = str::from_utf8(&errors).unwrap_or("bytes that are no text");
    format!(in alloc; "{output}--{errors}--\n{status}")
}

/// Asserts what is told of a run.
pub fn expect<R: AllocGlobal + Threads + Wait + Sync + Files + Abort>(
    rt: &R,
    trial: &Trial<'_>,
    wanted: &str,
) -> Result<(), AllocError> {
    let told = told(rt, trial)?;
    assert!(rt; told.as_str() == wanted, "{}: {told}", trial.words);
    Ok(())
}

/// Asserts what is told of each row.
pub fn expect_rows<R: AllocGlobal + Threads + Wait + Sync + Files + Abort>(
    rt: &R,
    rows: &[Row<'_>],
) -> Result<(), AllocError> {
    for (words, input, wanted) in rows {
        let trial = Trial {
            words,
            input: input.as_bytes(),
            ..PLAIN
        };
        expect(rt, &trial, wanted)?;
    }
    Ok(())
}

/// Asserts how what is told of a row begins and ends, and that it has each of these parts.
pub fn expect_parts<R: AllocGlobal + Threads + Wait + Sync + Files + Abort>(
    rt: &R,
    (words, input, end): Row<'_>,
    start: &str,
    parts: &[&str],
) -> Result<(), AllocError> {
    let trial = Trial {
        words,
        input: input.as_bytes(),
        ..PLAIN
    };
    let told = told(rt, &trial)?;
    assert!(rt;
        told.as_str().starts_with(start) && told.as_str().ends_with(end),
        "{words}: {told}"
    );
    for part in parts {
        assert!(rt; told.as_str().contains(*part), "{words}: {part}");
    }
    Ok(())
}
