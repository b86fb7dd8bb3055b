//! Pictures of scripts.

use gv_draw::{DrawFault, Options, draw_script, write_escaped};
use std::alloc::{AllocError, Global};
use std::fmt::Write;
use std::process::Abort;

/// A refusal, a request taken back, one withdrawn, one that can't be, and entries settled.
const ALL_KINDS: &str = "buffer b 4\n\
bind map 0x0 0x4000 b 0x0\n\
bind unmap 0x1000 0x1000\n\
withdraw 0\n\
bind map 0x0 0x5000 b 0x0\n\
rewind\n\
bind zero 0x8000 0x2000 ro\n\
withdraw 0\n\
settle 3\n";

/// What its picture shows.
const SHOWN: &[&str] = &[
    "<title>0x0 0x4000 b 0x0 rw</title>",
    "<title>0x2000 0x4000 b 0x2000 rw</title>",
    "<title>0x8000 0xa000 zero ro</title>",
    ">map 0x0 0x4000 b 0x0</text>",
    ">refused 0 OutOfBuffer</text>",
    ">rewound 1</text>",
    ">refused Touched 1</text>",
    ">withdrawn 0 as 2</text>",
    ">settled 3</text>",
    ">2 mappings · 12 KiB</text>",
    "fill=\"#fff3d6\"",
    "fill=\"#fde8e8\"",
    "url(#zero)",
    "url(#dots)",
];

/// The picture of a script, which shows these words.
fn picture(
    rt: &(impl AllocGlobal + Abort),
    script: &str,
    at: Option<u64>,
    words: &[&str],
) -> String {
    let mut out = String::new(rt.alloc());
    let options = Options { at, width: 1000 };
    let told = draw_script(rt.alloc(), script.as_bytes(), &options, &mut out);
    assert!(rt;
        told == Ok(()) && out.as_str().starts_with("<svg ") && out.as_str().ends_with("</svg>\n")
    );
    for word in words {
        assert!(rt; out.as_str().contains(*word), "{word}");
    }
    out
}

#[test]
fn shows_each_kind_of_row(rt: HostRuntime) {
    picture(&rt, ALL_KINDS, None, SHOWN);
}

const FAR: &str =
    "buffer far 2\nbuffer near 1\nbind map 0x10000000 0x2000 far 0x0\nbind map 0x3000 0x1000 near 0x0\n";

#[test]
fn shows_what_is_near(rt: HostRuntime) {
    let out = picture(&rt, FAR, Some(0x3abc), &[">0x3abc</text>", ">near"]);
    assert!(rt; !out.as_str().contains("far"));
    picture(&rt, "", None, &["The script has no request."]);
    let nothing = "No request changed anything near the address.";
    picture(&rt, FAR, Some(u64::MAX), &[nothing]);
}

/// Scripts, and the line of each that is bad.
const BAD: &[(&str, u64)] = &[
    ("bind map 0x0 0x1000 b 0x0\n", 1),
    ("buffer b 1\nbuffer b 1\n", 2),
    ("# a comment\n\nbind\x01\n", 3),
    ("rewind\nrewind", 2),
];

#[test]
fn names_the_line_that_is_bad(rt: HostRuntime) {
    for (script, line) in BAD {
        let mut out = String::new(rt.alloc());
        let told = draw_script(rt.alloc(), script.as_bytes(), &Options::default(), &mut out);
        assert!(rt;
            told == Err(DrawFault::BadLine { line: *line }) && out.is_empty(),
            "{script}"
        );
    }
}

#[test]
fn escapes_text(rt: HostRuntime) {
    let mut out = String::new(rt.alloc());
    let told = write_escaped(&mut out, "<a href=\"x\">&\u{1}\u{ffff}é</a>");
    let wanted = "&lt;a href=&quot;x&quot;&gt;&amp;  é&lt;/a&gt;";
    assert!(rt; told.is_ok() && out.as_str() == wanted);
}

/// A script of many requests, of which the last take back.
fn many(alloc: Global, requests: u64) -> Result<String, AllocError> {
    let mut script = String::new(alloc);
    script.push_str("buffer b 16\n")?;
    for request in 0..requests {
        let page = request.wrapping_mul(7919) % 4096;
        writeln!(script, "bind map {page:#x}000 0x2000 b 0x0")?;
    }
    script.push_str("rewind\n")?;
    Ok(script)
}

#[test]
fn draws_many_requests(rt: HostRuntime) -> Result<(), AllocError> {
    let script = many(rt.alloc(), 10_000)?;
    let words = ["200 of 10001 rows are shown", "rewound 9999"];
    let out = picture(&rt, script.as_str(), None, &words);
    assert!(rt; out.len() < 4_000_000);
    Ok(())
}
