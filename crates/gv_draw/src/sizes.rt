//! Sizes as people read them.

use crate::pen::Pen;

/// How many KiB a page has.
const PAGE_KIB: u64 = 4;

/// From this number on a greater unit is taken.
const LONG: u64 = 10_000;

/// How many of a unit the next one has.
const STEP: u64 = 1024;

/// The units after KiB, the least first.
const GREATER: [&str; 4] = ["MiB", "GiB", "TiB", "PiB"];

/// Writes how much so many pages are: in KiB, and from 10,000 of a unit on, or where it is whole, in the next greater one,
/// rounded.
pub fn write_size(pen: &mut Pen<'_>, pages: u64) {
    let mut number = pages.saturating_mul(PAGE_KIB);
    let mut unit = "KiB";
    for greater in GREATER {
        if number < LONG && (number < STEP || number % STEP != 0) {
            break;
        }
        number = number.saturating_add(STEP / 2) / STEP;
        unit = greater;
    }
    pen.number(number);
    pen.push(" ");
    pen.push(unit);
}

/// Writes a number of things, `1 mapping` or `2 mappings`.
pub fn write_count(pen: &mut Pen<'_>, count: u64, thing: &str) {
    pen.number(count);
    pen.push(" ");
    pen.push(thing);
    if count != 1 {
        pen.push("s");
    }
}
