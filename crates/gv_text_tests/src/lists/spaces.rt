//! Rows of lists of several address spaces.

use crate::comparing::{self, expect};
use gv_compare::{CompareFault, Part, Which};
use std::test::Fail;

/// Spaces of one name with rows, and one of another without; the first row of the second space overlaps one of the first.
const SEVERAL: &[u8] = b"DRM GPU VA space (vm) [0x0;0x1]\n\
    | 0x3000 | 0x4000 | 0x7000 | 0xf0 | 0x0\n\
    \n\
    DRM GPU VA space (mcu) [0x0;0x1]\n\
    VAs | start\n\
    DRM GPU VA space (vm) [0x0;0x1]\n\
    | 0x3000 | 0x1000 | 0x4000 | 0xf1 | 0x0\n\
    | 0x3000 | 0x1000 | 0x4000 | 0xf1 | 0x0\n";

/// A space with a row, and one without.
const ONE: &[u8] = b"| 0x3000 | 0x4000 | 0x7000 | 0xf0 | 0x0\n\
    DRM GPU VA space (mcu) [0x0;0x1]\n";

/// A list, which of two it is, the space of it that is asked for, if any, and the part that is taken.
type Row = (
    &'static [u8],
    Which,
    Option<&'static str>,
    Result<Part<'static>, CompareFault>,
);

/// The number of the first row of which another part is taken.
fn wrong_row(rows: &[Row]) -> Option<usize> {
    for (number, (text, list, space, wanted)) in rows.iter().enumerate() {
        if Part::of(text, *list, *space) != *wanted {
            return Some(number);
        }
    }
    None
}

/// The first space of `SEVERAL`.
const FIRST: Part<'static> = Part {
    text: b"DRM GPU VA space (vm) [0x0;0x1]\n| 0x3000 | 0x4000 | 0x7000 | 0xf0 | 0x0\n\n",
    lines: 0,
};

/// The one without rows.
const SECOND: Part<'static> = Part {
    text: b"DRM GPU VA space (mcu) [0x0;0x1]\nVAs | start\n",
    lines: 3,
};

const MANY_SPACES: CompareFault = CompareFault::ManySpaces { list: Which::First };

const NO_SPACE: CompareFault = CompareFault::NoSpace { list: Which::First };

const NAMED: [Row; 7] = [
    (SEVERAL, Which::First, Some("1"), Ok(FIRST)),
    (SEVERAL, Which::First, Some("2"), Ok(SECOND)),
    (SEVERAL, Which::First, Some("mcu"), Ok(SECOND)),
    (SEVERAL, Which::First, Some("vm"), Err(MANY_SPACES)),
    (SEVERAL, Which::First, Some("4"), Err(NO_SPACE)),
    (SEVERAL, Which::First, Some("v"), Err(NO_SPACE)),
    (SEVERAL, Which::First, Some(""), Err(NO_SPACE)),
];

#[test]
fn a_name_or_a_number_takes_one(rt: HostRuntime) {
    assert_eq!(rt; wrong_row(&NAMED), None);
}

/// A list of no mapping.
const EMPTY: &[u8] = b"empty\n";

/// A list of one mapping.
const MAP: &[u8] = b"0000000000000000 0000000000001000 b 0000000000000000 rw\n";

const UNNAMED: [Row; 6] = [
    (
        SEVERAL,
        Which::Second,
        None,
        Err(CompareFault::ManySpaces {
            list: Which::Second,
        }),
    ),
    (
        ONE,
        Which::First,
        None,
        Ok(Part {
            text: ONE,
            lines: 0,
        }),
    ),
    (
        EMPTY,
        Which::First,
        None,
        Ok(Part {
            text: EMPTY,
            lines: 0,
        }),
    ),
    (
        b"",
        Which::First,
        None,
        Ok(Part {
            text: b"",
            lines: 0,
        }),
    ),
    (
        MAP,
        Which::First,
        None,
        Ok(Part {
            text: MAP,
            lines: 0,
        }),
    ),
    // A list without a head is one whole, whatever name is asked.
    (
        EMPTY,
        Which::First,
        Some("vm"),
        Ok(Part {
            text: EMPTY,
            lines: 0,
        }),
    ),
];

#[test]
fn without_a_name_one_has_rows(rt: HostRuntime) {
    assert_eq!(rt; wrong_row(&UNNAMED), None);
}

const SPACES: [comparing::Row; 3] = [
    (SEVERAL, ONE, None, "Err(ManySpaces { list: First }) "),
    (
        SEVERAL,
        EMPTY,
        Some("1"),
        "Ok(4) 0000000000003000 0000000000007000 0x00000000000000f0 0000000000000000 | none\n4 pages differ\n",
    ),
    (
        EMPTY,
        SEVERAL,
        Some("3"),
        "Err(Overlapping { list: Second, line: 8 }) ",
    ),
];

/// Two spaces are never one list, and a line of the second is told by its place in the whole.
#[test]
fn compares_one_space(rt: HostRuntime) -> Result<(), Fail> {
    expect(rt.alloc(), &SPACES)
}
