//! A standard output that nobody reads any more.

use crate::trial::{PLAIN, Trial, expect};
use std::alloc::AllocError;
use std::io::ErrorKind;

const LOG: &str = "timestamp=1, VA=0000000000010000-0000000000012000, destroyed=0, is_virtual=0\n";

const SCRIPT: &str = "buffer a 4\nbind zero 0x0 0x1000\n";

/// Words that write to standard output, and their input.
const WORDS: &[(&str, &str)] = &[
    ("vmbind run", SCRIPT),
    ("vmbind run --explain", SCRIPT),
    ("vmbind serve", SCRIPT),
    ("vmbind serve --json", SCRIPT),
    ("vmbind threads --queues 2", SCRIPT),
    ("vmbind draw", SCRIPT),
    ("vmbind replay --format radv", LOG),
    ("vmbind replay --format radv --json", LOG),
    ("vmbind replay --format radv --script", LOG),
    ("vmbind replay --format radv --draw", LOG),
    ("vmbind compare /dev/null /dev/null", SCRIPT),
    ("vmbind draw --help", SCRIPT),
    ("vmbind --version", SCRIPT),
];

/// How a write fails, and what is told then.
const FAILURES: &[(ErrorKind, &str)] = &[
    (ErrorKind::BrokenPipe, "----\n3"),
    (ErrorKind::Other, "--vmbind: write fault\n--\n3"),
];

/// Where the reader of standard output has gone, as behind `| head -1`, each word ends with the status of a failed write and says
/// nothing; where a write fails for another reason, it says so.
#[test]
fn says_nothing_to_a_reader_that_has_gone(rt: HostRuntime) -> Result<(), AllocError> {
    for (words, input) in WORDS {
        for (kind, wanted) in FAILURES {
            let trial = Trial {
                words,
                input: input.as_bytes(),
                failure: Some(*kind),
                ..PLAIN
            };
            expect(&rt, &trial, wanted)?;
        }
    }
    Ok(())
}
