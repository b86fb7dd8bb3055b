//! What is told of lines, files and words that are wrong.

use crate::trial::{Row, Trial, UNREAD, expect, expect_rows};
use std::alloc::AllocError;

const BAD_LINES: &[Row<'static>] = &[
    (
        "vmbind run --explain",
        "buffer a 4\nat 0xA000\n",
        "ok\n--vmbind: bad line 2\ncolumn 6: 0xA000; hexadecimal digits are 0-9a-f\n--\n1",
    ),
    (
        "vmbind threads --queues 2 --explain",
        "told 0x2\n",
        "--vmbind: bad line 1\ncolumn 6: 0x2; a queue is below 2\n--\n1",
    ),
];

/// What is wrong with a bad line, on a second line.
#[test]
fn explains_a_bad_line(rt: HostRuntime) -> Result<(), AllocError> {
    expect_rows(&rt, BAD_LINES)
}

const INPUT: &str = "buffer a 4\n";

const FAULTS: &[Row<'static>] = &[
    (
        "vmbind run no/such/file",
        INPUT,
        "--vmbind: file not opened\n--\n3",
    ),
    (
        "vmbind compare no/a no/b",
        INPUT,
        "--vmbind: file not opened\n--\n3",
    ),
    (
        "vmbind draw --at 0xg",
        INPUT,
        "--vmbind: not an address\n--\n2",
    ),
    (
        "vmbind draw --at 0x",
        INPUT,
        "--vmbind: not an address\n--\n2",
    ),
    (
        "vmbind draw --at +1",
        INPUT,
        "--vmbind: not an address\n--\n2",
    ),
    (
        "vmbind draw --at 0x10000000000000000",
        INPUT,
        "--vmbind: not an address\n--\n2",
    ),
    (
        "vmbind replay --format msm",
        INPUT,
        "--vmbind: no such format\n--\n2",
    ),
    (
        "vmbind replay --format amdgpu --flags x",
        INPUT,
        "--vmbind: no such flags\n--\n2",
    ),
    (
        "vmbind replay --format radv",
        INPUT,
        "--vmbind: no line of this format\n--\n1",
    ),
    (
        "vmbind replay --format xe",
        INPUT,
        "--vmbind: no line of this format\n--\n1",
    ),
    (
        "vmbind replay --format i915",
        INPUT,
        "--vmbind: no line of this format\n--\n1",
    ),
];

/// Words whose faults no parser of words finds, and files that are not there.
#[test]
fn tells_of_files_and_numbers(rt: HostRuntime) -> Result<(), AllocError> {
    expect_rows(&rt, FAULTS)
}

const LINES: &str = "buffer b 4\n\nbnid\nput zero 0x0 0x1000\nturn 0\nat 0x2000";

const DIALOGUES: &[Row<'static>] = &[
    (
        "vmbind serve",
        LINES,
        "ok\nbad line 3: no such line: bnid; did you mean bind?\nput 0\naccepted 0\nbad line 6: no line end\n----\n0",
    ),
    (
        "vmbind serve --json",
        LINES,
        "{\"line\":1,\"ok\":true}\n{\"line\":3,\"bad\":\"no such line: bnid; did you mean bind?\"}\n\
{\"line\":4,\"put\":0}\n{\"line\":5,\"accepted\":0}\n{\"line\":6,\"bad\":\"no line end\"}\n----\n0",
    ),
];

/// A dialogue, in text and in JSON.
#[test]
fn holds_a_dialogue(rt: HostRuntime) -> Result<(), AllocError> {
    expect_rows(&rt, DIALOGUES)?;
    let unread = Trial {
        words: "vmbind serve --json",
        ..UNREAD
    };
    expect(&rt, &unread, "--vmbind: read fault\n--\n3")
}
