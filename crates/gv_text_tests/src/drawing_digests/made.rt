//! Scripts by chance, from a seed: requests, what takes them back, and now and then a line that is bad.

use crate::chance::{pick, write_filled};
use gv_model::Random;
use std::alloc::{AllocError, Global};

/// How a script may begin.
const HEADS: &[&str] = &[
    "",
    "space 0x0 0x40000 0x8000 0x4000\n",
    "limits 65536 20 12\n",
];

/// What each script declares.
const DECLARED: &str = "timeline t\nbuffer of0 16\nbuffer of1 12\nbuffer of2 3\n";

/// Lines, where `&` stands for a clause: requests are eleven in twenty.
const LINES: &[&str] = &[
    "bind",
    "bind",
    "bind",
    "bind &",
    "bind &",
    "bind &",
    "bind & ; &",
    "bind & ; &",
    "bind & ; &",
    "bind & ; & ; &",
    "bind & ; & ; &",
    "rewind",
    "rewind",
    "withdraw 0x$h",
    "withdraw 0x$h",
    "settle 0x$q",
    "buffer n$n 4",
    "#",
    "#",
    "#",
];

/// Clauses of requests.
const CLAUSES: &[&str] = &[
    "map 0x$a 0x$l of$b 0x$o",
    "map 0x$a 0x$l of$b 0x$o",
    "map 0x$a 0x$l of$b 0x$o",
    "map 0x$a 0x$l of$b 0x1000 ro",
    "map 0x$a 0x$l of$b 0x$o",
    "zero 0x$a 0x$l",
    "zero 0x$a 0x$l ro",
    "unmap 0x$a 0x$l",
    "unmap 0x$a 0x$l",
    "unmapall of$b",
    "wait t $v",
    "signal t $v",
];

/// Lines of which a picture shows nothing, and lines that declare or destroy a buffer. They stand for a comment.
const OTHERS: &[&str] = &[
    "# said to nobody",
    "",
    "map",
    "at 0x3000",
    "tables",
    "journal",
    "uses of0",
    "plan unmap 0x1000 0x2000",
    "raise t 3",
    "value t",
    "told 0",
    "job read 0x0",
    "end 0",
    "destroy of2",
    "buffer r 0",
    "buffer r 68719476737",
];

/// Lines that are bad.
const BAD: &[&str] = &[
    "bind map 0x0 0x1000 none 0x0",
    "buffer of0 4",
    "space 0x0 0x1000 0x0 0x0",
    "rewind ",
    "settle",
    "# \u{e9}",
    "bind queue 1 ; queue 1",
    "withdraw -1",
];

/// The script of a seed. One in four may have bad lines, and its last line may lack its end.
pub fn script(alloc: Global, seed: u64) -> Result<String, AllocError> {
    let mut random = Random::new(seed);
    let has_bad = seed % 4 == 0;
    let mut text = String::from_str(alloc, pick(&mut random, HEADS))?;
    text.push_str(DECLARED)?;
    for line in 0..random.below(51).saturating_add(10) {
        let form = line_by_chance(&mut random, has_bad);
        push_line(&mut text, &mut random, form, line)?;
    }
    let has_end = !has_bad || !random.is_one_in(3);
    text.push_str(if has_end { "" } else { "rewind" })?;
    Ok(text)
}

/// The form of a line.
fn line_by_chance(random: &mut Random, has_bad: bool) -> &'static str {
    if has_bad && random.is_one_in(40) {
        return pick(random, BAD);
    }
    let form = pick(random, LINES);
    if form == "#" {
        pick(random, OTHERS)
    } else {
        form
    }
}

/// Adds a line of this form and number.
fn push_line(
    text: &mut String,
    random: &mut Random,
    form: &str,
    number: u64,
) -> Result<(), AllocError> {
    let mut parts = form.split('&');
    write_filled(text, random, parts.next().unwrap_or(""), number)?;
    for part in parts {
        let clause = pick(random, CLAUSES);
        write_filled(text, random, clause, number)?;
        text.push_str(part)?;
    }
    text.push_str("\n")
}
