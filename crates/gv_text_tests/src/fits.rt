//! Pictures in which every box and every text has room, at scripts by chance and at each width.

use crate::chance::{pick, write_filled};
use gv_draw::{Options, draw_script};
use gv_model::Random;
use std::alloc::{AllocError, Global};
use std::fmt::Write;
use std::process::Abort;
use std::test::Fail;

/// How wide pictures are asked for, in pixels.
const WIDTHS: &[u64] = &[0, 900, 950, 1_000, 1_600, 5_000, 20_000];

/// How wide a character of each kind of text is taken for, in tenths of a pixel.
const EACH: &[(&str, u64)] = &[
    ("heading", 132),
    ("under", 70),
    ("foot", 70),
    ("legend", 78),
    ("label", 73),
    ("number", 83),
    ("answer", 66),
    ("note", 64),
    ("count", 75),
    ("tables", 66),
    ("box", 72),
    ("cut", 66),
    ("addr", 66),
];

/// What the line of a text has, and the line of a box.
const TEXT: &str = "<text ";

const BOX: &str = "<rect x=";

/// Lines of a script: one in five of the addresses is far.
const LINES: &[&str] = &[
    "bind unmap 0x$A 0x$L\n",
    "bind unmap 0x$A 0x$L\n",
    "bind zero 0x$A 0x$L\n",
    "bind zero 0x$F 0x$L ro\n",
    "rewind\n",
    "rewind\n",
    "bind unmapall buffer_named_$B\n",
    "bind unmapall buffer_named_$B\n",
    "bind map 0x$A 0x$L buffer_named_$B 0x0\n",
    "bind map 0x$A 0x$L buffer_named_$B 0x0\n",
    "bind map 0x$A 0x$L buffer_named_$B 0x0\n",
    "bind map 0x$A 0x$L buffer_named_$B 0x0\n",
    "bind map 0x$A 0x$L buffer_named_$B 0x0\n",
    "bind map 0x$F 0x$L buffer_named_$B 0x0\n",
    "bind map 0x$A 0x$L buffer_named_$B 0x0 ro\n",
    "bind map 0x$F 0x$L buffer_named_$B 0x0 ro\n",
];

/// What stands between two marks; nothing where they don't stand there.
fn between<'a>(text: &'a str, before: &str, after: &str) -> &'a str {
    let (_, behind) = text.split_once(before).unwrap_or((text, ""));
    let (told, _) = behind.split_once(after).unwrap_or(("", ""));
    told
}

/// A number of pixels, as a number of tenths; the greatest where it is none.
fn tenths(told: &str) -> u64 {
    let (whole, part) = told.split_once(".").unwrap_or((told, "0"));
    let part = part.parse::<u64>().unwrap_or(u64::MAX);
    let whole = whole.parse::<u64>().unwrap_or(u64::MAX);
    whole.saturating_mul(10).saturating_add(part)
}

/// The number in quotation marks behind a word.
fn number(text: &str, word: &str) -> u64 {
    tenths(between(text, word, "\""))
}

/// How wide a character of a kind of text is; the greatest where no kind is known.
fn each_of(kind: &str) -> u64 {
    for (class, each) in EACH {
        if kind == *class {
            return *each;
        }
    }
    u64::MAX
}

/// Asserts that the text of a line lies within the picture. An address rises to the right from its place.
fn expect_text(rt: &impl Abort, line: &str, width: u64, height: u64) {
    let (tag, words) = between(line, TEXT, "</text>")
        .split_once(">")
        .unwrap_or(("", ""));
    let kind = between(tag, "class=\"", "\"");
    let each = each_of(kind);
    let wide = (words.chars().count() as u64).saturating_mul(each);
    let mut place = (number(tag, "x=\""), number(tag, " y=\""));
    let mut high = 100;
    if kind == "addr" {
        let told = between(line, "translate(", ")");
        let (x, y) = told.split_once(" ").unwrap_or(("", ""));
        place = (tenths(x), tenths(y));
        high = wide;
    } else if tag.contains("text-anchor=\"middle\"") {
        place.0 = place.0.saturating_sub(wide / 2);
    } else if tag.contains("text-anchor=\"end\"") {
        place.0 = place.0.saturating_sub(wide);
    }
    let right = place.0.saturating_add(wide);
    assert!(rt;
        each < u64::MAX && place.0 > 0 && right <= width,
        "{width} {line}"
    );
    assert!(rt; place.1 > high && place.1 <= height, "{height} {line}");
}

/// Asserts that the box of a line lies within the picture.
fn expect_box(rt: &impl Abort, line: &str, width: u64, height: u64) {
    let right = number(line, " x=\"").saturating_add(number(line, "width=\""));
    let low = number(line, " y=\"").saturating_add(number(line, "height=\""));
    assert!(rt; right <= width && low <= height, "{width} {line}");
}

/// Asserts that all that a picture shows lies within it.
fn expect_within(rt: &impl Abort, out: &str) {
    let (width, height) = (number(out, "width=\""), number(out, "height=\""));
    assert!(rt; width >= 9_000 && width <= 163_840, "{width}");
    for line in out.lines() {
        if line.contains(TEXT) {
            expect_text(rt, line, width, height);
        }
        if line.contains(BOX) {
            expect_box(rt, line, width, height);
        }
    }
}

/// A script by chance, of so many buffers with names as long as may be.
fn script(alloc: Global, seed: u64, buffers: u64) -> Result<String, AllocError> {
    let mut random = Random::new(seed);
    let mut script = String::new(alloc);
    for buffer in 0..buffers {
        let name = buffer.saturating_add(0x100);
        writeln!(script, "buffer buffer_named_{name:x} 4096")?;
    }
    for _ in 0..random.below(90).saturating_add(3) {
        let line = pick(&mut random, LINES);
        write_filled(&mut script, &mut random, line, buffers)?;
    }
    Ok(script)
}

/// Draws a script, asserts that all lies within its picture, and adds that to the others.
fn expect_fits(
    rt: &(impl AllocGlobal + Abort),
    script: &str,
    options: &Options,
    seen: &mut String,
) -> Result<(), AllocError> {
    let mut out = String::new(rt.alloc());
    let told = draw_script(rt.alloc(), script.as_bytes(), options, &mut out);
    assert!(rt; told.is_ok(), "{told:?} {script}");
    expect_within(rt, out.as_str());
    seen.push_str(out.as_str())
}

/// Draws a script at each width, the whole and around an address.
fn expect_widths(
    rt: &(impl AllocGlobal + Abort),
    script: &str,
    seen: &mut String,
) -> Result<(), AllocError> {
    for width in WIDTHS {
        let mut options = Options {
            at: None,
            width: *width,
        };
        expect_fits(rt, script, &options, seen)?;
        options.at = Some(0x9abc);
        expect_fits(rt, script, &options, seen)?;
    }
    Ok(())
}

#[test]
fn all_lies_within_each_picture(rt: HostRuntime) -> Result<(), Fail> {
    let mut seen = String::new(rt.alloc());
    for seed in 0..12 {
        let script = script(rt.alloc(), seed, seed.saturating_mul(4).saturating_add(1))?;
        expect_widths(&rt, script.as_str(), &mut seen)?;
    }
    let texts = seen.as_str().matches(TEXT).count();
    let boxes = seen.as_str().matches(BOX).count();
    assert!(rt; texts.saturating_add(boxes) > 5_000, "{texts} {boxes}");
    let lines = seen.as_str().matches("class=\"foot\"").count();
    assert!(rt; lines > 12 * 7 * 2, "no foot goes on in a further line");
    Ok(())
}
