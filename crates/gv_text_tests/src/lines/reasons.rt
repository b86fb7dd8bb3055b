//! Bad lines and what is said of them.
use super::{Question, Row, expect};
use std::test::Fail;

/// What is said of a line that is bad in a script.
const SCRIPT: &[Row] = &[
    // Bytes and spaces.
    (
        b"bind\tzero 0x0 0x1000",
        "column 5: a tab; words are separated by one space",
    ),
    (
        b"value t1\r",
        "column 9: a carriage return; lines end with byte 10 only",
    ),
    (
        b"\r",
        "column 1: a carriage return; lines end with byte 10 only",
    ),
    (b"timeline t4 ", "column 12: a space at the end"),
    (b"map  ", "column 5: a space at the end"),
    (b" map", "column 1: a space at the start"),
    (b" ", "column 1: a space at the start"),
    (
        b"at  0x0",
        "column 4: a second space; words are separated by one space",
    ),
    (
        b"# \x80",
        "column 3: byte 0x80; all bytes are ASCII, also in a comment",
    ),
    (
        b"\xef\xbb\xbfmap",
        "column 1: byte 0xef; all bytes are ASCII, also in a comment",
    ),
    (
        b"at \x00",
        "column 4: byte 0x00; words have only printable bytes",
    ),
    (
        b"at \x7f",
        "column 4: byte 0x7f; words have only printable bytes",
    ),
    (
        b"bind unmap 0x0 0x1000; map",
        "column 22: ; at a word; put a space before and after ;",
    ),
    (
        b"bind unmap 0x0 0x1000 ;map",
        "column 23: ; at a word; put a space before and after ;",
    ),
    (
        b"map # the list",
        "column 5: a comment; it needs a line of its own",
    ),
    (b"bind unmap 0x0 0x1000 ; ", "column 24: a space at the end"),
    (b"job  ", "column 5: a space at the end"),
    // The word that a line or a clause begins with.
    (b"bnid", "no such line: bnid; did you mean bind?"),
    (b"BIND", "no such line: BIND; did you mean bind?"),
    (b"Map", "no such line: Map; did you mean map?"),
    (
        b"buffers b 4",
        "no such line: buffers; did you mean buffer?",
    ),
    (b"destory b", "no such line: destory; did you mean destroy?"),
    (b"xyzzy", "no such line: xyzzy"),
    (b"; map", "no such line: ;"),
    (
        b"abcdefghijklmnopqrstuvwxyzabcdefghijklmnopqrstuvwxyz",
        "no such line: abcdefghijklmnopqrstuvwxyzabcdefghijklmn..",
    ),
    (b"put zero 0x0 0x1000", "put is a line of vmbind serve only"),
    (b"turn 0", "turn is a line of vmbind serve only"),
    (b"giveup 0", "giveup is a line of vmbind serve only"),
    (b"forget 0 1", "forget is a line of vmbind serve only"),
    (b"trim", "trim is a line of vmbind serve only"),
    (b"trin", "no such line: trin"),
    (b"show 0", "show is a line of vmbind serve only"),
    (b"past 0x0", "past is a line of vmbind serve only"),
    (
        b"bind mpa 0x0 0x1000 b 0x0",
        "column 6: no such clause: mpa; did you mean map?",
    ),
    (
        b"bind queue 1 ; remove 0x0 0x1000",
        "column 16: no such clause: remove",
    ),
    (
        b"plan unmpa 0x0 0x1000",
        "column 6: no such operation: unmpa; did you mean unmap?",
    ),
    (
        b"plan unmapall b",
        "column 6: unmapall; a plan has map, zero or unmap",
    ),
    (
        b"job raed 0x0",
        "column 5: no such access: raed; did you mean read?",
    ),
    (
        b"job read 0x0 ; execute 0x0",
        "column 16: no such access: execute",
    ),
    // The words behind it.
    (
        b"bind map 0x0 0x1000 b",
        "column 23: no OFFSET; the form is map ADDR LEN NAME OFFSET",
    ),
    (
        b"bind map 0x0 0x1000 ; map 0x0",
        "column 21: no NAME; the form is map ADDR LEN NAME OFFSET",
    ),
    (
        b"space 0x0 0x1000",
        "column 18: no RSTART; the form is space START LEN RSTART RLEN",
    ),
    (b"at", "column 4: no ADDR; the form is at ADDR"),
    (
        b"plan",
        "column 6: no OPERATION; the form is plan OPERATION",
    ),
    (
        b"job",
        "column 5: no ACCESS; the form is job ACCESS ; ACCESS ..",
    ),
    (b"job read", "column 10: no ADDR; the form is read ADDR"),
    (b"map 0x0", "column 5: 0x0; nothing may follow map"),
    (b"uses b 1", "column 8: 1; nothing may follow uses NAME"),
    (
        b"bind unmap 0x0 0x1000 ro",
        "column 23: ro; nothing may follow unmap ADDR LEN",
    ),
    (
        b"bind zero 0x0 0x1000 ro ro",
        "column 25: ro; nothing may follow zero ADDR LEN",
    ),
    (
        b"bind zero 0x0 0x1000 rw",
        "column 22: rw; only ro is allowed here",
    ),
    (
        b"bind map 0x0 0x1000 b 0x0 RO",
        "column 27: RO; only ro is allowed here",
    ),
    (
        b"plan zero 0x0 0x1000 readonly",
        "column 22: readonly; only ro is allowed here",
    ),
    (
        b"bind ; unmap 0x0 0x1000",
        "column 6: an empty clause; each side of ; needs one",
    ),
    (
        b"bind unmap 0x0 0x1000 ;",
        "column 25: an empty clause; each side of ; needs one",
    ),
    (
        b"destroy b ; destroy c",
        "column 11: ; separates only clauses and accesses",
    ),
    (
        b"bind queue 1 ; queue 1",
        "column 16: a second queue clause; there is at most one",
    ),
    // Names.
    (b"buffer zero 1", "column 8: zero; zero is no name"),
    (b"buffer Ring 1", "column 8: Ring; a name begins with a-z"),
    (b"buffer 1b 1", "column 8: 1b; a name begins with a-z"),
    (
        b"buffer my-buf 1",
        "column 10: my-buf; a name has only a-z, 0-9 and _",
    ),
    (
        b"buffer a_3456789012345_7 1",
        "column 8: a_3456789012345_7; a name has at most 16 bytes",
    ),
    (b"bind wait T 1", "column 11: T; a name begins with a-z"),
    // Numbers.
    (
        b"at 0xA000",
        "column 6: 0xA000; hexadecimal digits are 0-9a-f",
    ),
    (b"at 0x1g", "column 7: 0x1g; hexadecimal digits are 0-9a-f"),
    (b"at 04", "column 4: 04; a number has no leading zero"),
    (b"at 0x", "column 4: 0x; digits 0-9a-f follow 0x"),
    (b"at 0X10", "column 5: 0X10; hexadecimal begins with 0x"),
    (
        b"at 0x00000000000001000",
        "column 4: 0x00000000000001000; at most 16 digits follow 0x",
    ),
    (
        b"at 18446744073709551616",
        "column 4: 18446744073709551616; a number is below 2^64",
    ),
    (b"at -1", "column 4: -1; a number has no sign"),
    (b"at +1", "column 4: +1; a number has no sign"),
    (
        b"at 4_096",
        "column 5: 4_096; decimal digits are 0-9, and hexadecimal begins with 0x",
    ),
    (
        b"at 4,096",
        "column 5: 4,096; decimal digits are 0-9, and hexadecimal begins with 0x",
    ),
    (
        b"at 80a0",
        "column 6: 80a0; decimal digits are 0-9, and hexadecimal begins with 0x",
    ),
    (
        b"at top",
        "column 4: top; a number is decimal, or 0x and digits 0-9a-f",
    ),
    (b"told 16", "column 6: 16; a queue is below 16"),
    (b"bind queue 16", "column 12: 16; a queue is below 16"),
    (
        b"bind queue 0x1",
        "column 12: 0x1; the number of a queue clause is decimal",
    ),
    (
        b"bind queue 01",
        "column 12: 01; a number has no leading zero",
    ),
    (
        b"bind queue one",
        "column 12: one; a number is decimal, or 0x and digits 0-9a-f",
    ),
];

/// What is said of a line that is bad in a dialogue.
const DIALOGUE: [Row; 5] = [
    (b"turn", "column 6: no QUEUE; the form is turn QUEUE"),
    (b"turn 16", "column 6: 16; a queue is below 16"),
    (
        b"put zero 0x0",
        "column 14: no LEN; the form is zero ADDR LEN",
    ),
    (b"shwo 1", "no such line: shwo; did you mean show?"),
    (b"past", "column 6: no ADDR; the form is past ADDR"),
];

#[test]
fn says_why_lines_are_bad(rt: HostRuntime) -> Result<(), Fail> {
    expect(rt.alloc(), Question::Slip, SCRIPT)
}

#[test]
fn says_why_lines_are_bad_in_a_dialogue(rt: HostRuntime) -> Result<(), Fail> {
    expect(rt.alloc(), Question::DialogueSlip, &DIALOGUE)
}

const GOOD: [Row; 4] = [
    (b"", "none"),
    (b"# any text", "none"),
    (b"bind", "none"),
    (b"bind zero 0x0 0x1000 ro ; queue 15", "none"),
];

#[test]
fn says_nothing_of_good_lines(rt: HostRuntime) -> Result<(), Fail> {
    expect(rt.alloc(), Question::Slip, &GOOD)
}
