//! What is told of each word to who asks for help.

use crate::trial::{Trial, UNREAD, told};
use std::alloc::AllocError;
use std::process::Abort;
use std::rt::Files;
use std::sync::Wait;
use std::thread::Threads;

/// Asserts that the help which these words ask for has each of some parts, and that nothing is read for it.
fn expect_help<R: AllocGlobal + Threads + Wait + Sync + Files + Abort>(
    rt: &R,
    words: &str,
    parts: &[&str],
) -> Result<String, AllocError> {
    let told = told(rt, &Trial { words, ..UNREAD })?;
    assert!(rt; told.as_str().ends_with("----\n0"), "{words}: {told}");
    for part in parts {
        assert!(rt; told.as_str().contains(*part), "{words}: {part}");
    }
    Ok(told)
}

#[test]
fn helps(rt: HostRuntime) -> Result<(), AllocError> {
    for words in [
        "vmbind --help",
        "vmbind help",
        "vmbind run --help",
        "vmbind help run",
    ] {
        expect_help(&rt, words, &["accepted 1\n", "Usage: vmbind"])?;
    }
    let short = expect_help(&rt, "vmbind -h", &["Usage: vmbind"])?;
    assert!(rt; !short.as_str().contains("accepted 1\n"));
    Ok(())
}

#[test]
fn helps_with_threads(rt: HostRuntime) -> Result<(), AllocError> {
    let parts = [
        "queue 0 put 1 told 1 left 0\n",
        "--queues <N>",
        "--turns <T>",
    ];
    expect_help(&rt, "vmbind threads --help", &parts)?;
    expect_help(&rt, "vmbind help threads", &parts)?;
    Ok(())
}

/// How a status stands in a help.
const STATUSES: &[&str] = &[
    "\n  0  ", "\n  1  ", "\n  2  ", "\n  3  ", "\n  4  ", "\n  5  ",
];

/// The first five of them.
const FIVE_STATUSES: &[&str] = &["\n  0  ", "\n  1  ", "\n  2  ", "\n  3  ", "\n  4  "];

/// The words whose help tells the first five.
const FIVE: &[&str] = &[
    "vmbind run --help",
    "vmbind replay --help",
    "vmbind draw --help",
    "vmbind compare --help",
];

/// The help of each word tells each status that the word may end with.
#[test]
fn helps_with_statuses(rt: HostRuntime) -> Result<(), AllocError> {
    for words in FIVE {
        expect_help(&rt, words, FIVE_STATUSES)?;
    }
    expect_help(
        &rt,
        "vmbind serve --help",
        &["\n  0  ", "\n  2  ", "\n  3  ", "\n  4  "],
    )?;
    expect_help(&rt, "vmbind threads --help", STATUSES)?;
    Ok(())
}
