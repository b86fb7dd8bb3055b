//! Lists whose differences are worked out by hand.

use gv_compare::{compare, compare_of};
use std::alloc::Global;
use std::test::Fail;

/// Two lists, the space of them that is asked for, if any, and what comes of it: the answer, and behind it what is written.
pub type Row = (
    &'static [u8],
    &'static [u8],
    Option<&'static str>,
    &'static str,
);

/// Four pages of a ring buffer, and four of zeros.
const RING: &[u8] = b"0000000000010000 0000000000014000 ring 0000000000000000 rw\n\
0000000000100000 0000000000104000 zero rw\n";

/// The same ring in two halves, the second read-only, and no zeros.
const HALVES: &[u8] = b"0000000000010000 0000000000012000 ring 0000000000000000 rw\n\
0000000000012000 0000000000014000 ring 0000000000002000 ro\n";

/// The same ring in two halves as a kernel tells it, in descending order, and the zeros.
const DUMP: &[u8] = b"DRM GPU VA space (vm) [0x0000000000000000;0x0000800000000000]\n\
Kernel reserved node [0x0000000000000000;0x0000000000000000]\n\
\n\
 VAs | start              | range              | end                | object             | object offset\n\
-----------------------------------------------\n\
     | 0x0000000000100000 | 0x0000000000004000 | 0x0000000000104000 | 0x0000000000000000 | 0x0000000000000000\n\
     | 0x0000000000012000 | 0x0000000000002000 | 0x0000000000014000 | 0xffff9d4a89852000 | 0x0000000000002000\n\
     | 0x0000000000010000 | 0x0000000000002000 | 0x0000000000012000 | 0xffff9d4a89852000 | 0x0000000000000000\n";

/// Another object behind the second half.
const TWO: &[u8] =
    b"     | 0x0000000000010000 | 0x0000000000002000 | 0x0000000000012000 | 0xffff9d4a89852000 | 0x0000000000000000\n\
     | 0x0000000000012000 | 0x0000000000002000 | 0x0000000000014000 | 0xffff9d4a89853000 | 0x0000000000002000\n\
     | 0x0000000000100000 | 0x0000000000004000 | 0x0000000000104000 | 0x0000000000000000 | 0x0000000000000000";

/// Fails where something else comes of two lists.
pub fn expect(alloc: Global, rows: &[Row]) -> Result<(), Fail> {
    for (row, (first, second, space, wanted)) in rows.iter().enumerate() {
        let mut out = String::new(alloc);
        let told = match space {
            Some(_) => compare_of(alloc, first, second, *space, &mut out),
            None => compare(alloc, first, second, &mut out),
        };
        let said = format!(in alloc; "{told:?} {out}")?;
        if said.as_str() != *wanted {
            return Err(Fail::new(format_args!("row {row}: {said}")));
        }
    }
    Ok(())
}

const DIFFERENT: [Row; 6] = [
    (RING, RING, None, "Ok(0) 0 pages differ\n"),
    (
        RING,
        HALVES,
        None,
        "Ok(6) 0000000000012000 0000000000014000 ring 0000000000002000 rw | ring 0000000000002000 ro\n\
0000000000100000 0000000000104000 zero rw | none\n6 pages differ\n",
    ),
    (RING, DUMP, None, "Ok(0) 0 pages differ\n"),
    (
        b"empty\n",
        DUMP,
        None,
        "Ok(8) 0000000000010000 0000000000014000 none | 0xffff9d4a89852000 0000000000000000\n\
0000000000100000 0000000000104000 none | zero\n8 pages differ\n",
    ),
    (
        RING,
        TWO,
        None,
        "Ok(2) 0000000000012000 0000000000014000 ring 0000000000002000 | 0xffff9d4a89853000 0000000000002000\n2 pages differ\n",
    ),
    (
        b"0000000000000000 0000000000001000 a 0000000000000000 rw\n",
        b"0000000000000000 0000000000001000 a 0000000000001000 rw",
        None,
        "Ok(1) 0000000000000000 0000000000001000 a 0000000000000000 rw | a 0000000000001000 rw\n1 page differs\n",
    ),
];

#[test]
fn finds_what_differs(rt: HostRuntime) -> Result<(), Fail> {
    expect(rt.alloc(), &DIFFERENT)
}

/// What comes of a first list whose first line is no mapping, and of one whose second is none.
const AT_FIRST: &str = "Err(NoMapping { list: First, line: 1 }) ";

const AT_SECOND: &str = "Err(NoMapping { list: First, line: 2 }) ";

const WRONG: [Row; 17] = [
    (b"ok\n", RING, None, AT_FIRST),
    (b"empty\nnone\n", RING, None, AT_SECOND),
    (
        b"0000000000001000 0000000000001000 zero rw\n",
        RING,
        None,
        AT_FIRST,
    ),
    (
        b"0000000000001000 0000000000000000 zero rw\n",
        RING,
        None,
        AT_FIRST,
    ),
    (
        b"0000000000000000 0000000000001001 zero rw\n",
        RING,
        None,
        AT_FIRST,
    ),
    (
        b"0000000000000000 0200000000001000 zero rw\n",
        RING,
        None,
        AT_FIRST,
    ),
    (
        b"00000000000000000 0000000000001000 zero rw\n",
        RING,
        None,
        AT_FIRST,
    ),
    (
        b"+000000000000000 0000000000001000 zero rw\n",
        RING,
        None,
        AT_FIRST,
    ),
    (
        b"0000000000000000 0000000000001000 zero rx\n",
        RING,
        None,
        AT_FIRST,
    ),
    (
        b"0000000000000000 0000000000001000 A 0000000000000000 rw\n",
        RING,
        None,
        AT_FIRST,
    ),
    (
        b"0000000000000000 0000000000001000 a ffffffffffffe000 rw\n",
        RING,
        None,
        AT_FIRST,
    ),
    (
        b" | 0x1000 | 0x1000 | 0x3000 | 0x0 | 0x0\n",
        RING,
        None,
        AT_FIRST,
    ),
    (
        b" | 0x1000 | 0xfffffffffffff000 | 0x0 | 0x0 | 0x0\n",
        RING,
        None,
        AT_FIRST,
    ),
    (
        b"\n | 0x1000 | 0x1000 | 0x2000 | 0x0\n",
        RING,
        None,
        AT_SECOND,
    ),
    (
        b"0000000000001000 0000000000002000 zero rw\n0000000000001000 0000000000003000 zero rw\n",
        RING,
        None,
        "Err(Overlapping { list: First, line: 2 }) ",
    ),
    (
        b" | 0x2000 | 0x1000 | 0x3000 | 0x0 | 0x0\n | 0x1000 | 0x1001000 | 0x1002000 | 0x0 | 0x0\n",
        RING,
        None,
        "Err(Overlapping { list: First, line: 1 }) ",
    ),
    (b"\x80\xff\n", RING, None, AT_FIRST),
];

#[test]
fn names_the_line_that_is_wrong(rt: HostRuntime) -> Result<(), Fail> {
    expect(rt.alloc(), &WRONG)
}
