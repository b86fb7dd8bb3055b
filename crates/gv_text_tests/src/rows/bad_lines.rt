//! Lines that are bad, each between a `buffer` line and a `map` line.
use super::Row;

pub const BAD_LINES: &[Row<'static>] = &[
    (
        "space at the end",
        b"buffer b 4\nmap \nmap\n",
        "ok\nErr(BadLine { line: 2 })",
    ),
    (
        "two spaces",
        b"buffer b 4\nbind  map 0x0 0x1000 b 0x0\nmap\n",
        "ok\nErr(BadLine { line: 2 })",
    ),
    (
        "leading zero",
        b"buffer b 4\nat 01\nmap\n",
        "ok\nErr(BadLine { line: 2 })",
    ),
    (
        "seventeen hexadecimal digits",
        b"buffer b 4\nat 0x00000000000000001\nmap\n",
        "ok\nErr(BadLine { line: 2 })",
    ),
    (
        "upper case",
        b"buffer b 4\nat 0xA\nmap\n",
        "ok\nErr(BadLine { line: 2 })",
    ),
    (
        "a number of 2^64",
        b"buffer b 4\nat 18446744073709551616\nmap\n",
        "ok\nErr(BadLine { line: 2 })",
    ),
    (
        "zero as a name",
        b"buffer b 4\nbuffer zero 1\nmap\n",
        "ok\nErr(BadLine { line: 2 })",
    ),
    (
        "a name declared twice",
        b"buffer b 4\nbuffer b 1\nmap\n",
        "ok\nErr(BadLine { line: 2 })",
    ),
    (
        "a line that is none",
        b"buffer b 4\nfree b\nmap\n",
        "ok\nErr(BadLine { line: 2 })",
    ),
    (
        "uses of a name that is not declared",
        b"buffer b 4\nuses c\nmap\n",
        "ok\nErr(BadLine { line: 2 })",
    ),
    (
        "a destroy of a name that is not declared",
        b"buffer b 4\ndestroy c\nmap\n",
        "ok\nErr(BadLine { line: 2 })",
    ),
    (
        "a destroy of two names",
        b"buffer b 4\ndestroy b b\nmap\n",
        "ok\nErr(BadLine { line: 2 })",
    ),
    (
        "uses of no name",
        b"buffer b 4\nuses\nmap\n",
        "ok\nErr(BadLine { line: 2 })",
    ),
    (
        "tables with a word",
        b"buffer b 4\ntables 1\nmap\n",
        "ok\nErr(BadLine { line: 2 })",
    ),
    (
        "carriage return",
        b"buffer b 4\nmap\r\nmap\n",
        "ok\nErr(BadLine { line: 2 })",
    ),
    (
        "a name that is not declared",
        b"buffer b 4\nbind map 0x0 0x1000 c 0x0\nmap\n",
        "ok\nErr(BadLine { line: 2 })",
    ),
    (
        "a name of 17 letters",
        b"buffer b 4\nbuffer abcdefghijklmnopq 1\nmap\n",
        "ok\nErr(BadLine { line: 2 })",
    ),
    (
        "a space at the front",
        b"buffer b 4\n map\nmap\n",
        "ok\nErr(BadLine { line: 2 })",
    ),
    (
        "a word too many",
        b"buffer b 4\nmap 1\nmap\n",
        "ok\nErr(BadLine { line: 2 })",
    ),
    (
        "other flags",
        b"buffer b 4\nbind zero 0x0 0x1000 rw\nmap\n",
        "ok\nErr(BadLine { line: 2 })",
    ),
    (
        "an unmap with flags",
        b"buffer b 4\nbind unmap 0x0 0x1000 ro\nmap\n",
        "ok\nErr(BadLine { line: 2 })",
    ),
    (
        "no digits",
        b"buffer b 4\nat 0x\nmap\n",
        "ok\nErr(BadLine { line: 2 })",
    ),
    (
        "another keyword",
        b"buffer b 4\nmapp\nmap\n",
        "ok\nErr(BadLine { line: 2 })",
    ),
    (
        "a byte from 0x80 on",
        b"buffer b 4\nat 0x0\x80\nmap\n",
        "ok\nErr(BadLine { line: 2 })",
    ),
    (
        "a byte from 0x80 on in a comment",
        b"buffer b 4\n# \xc3\xa9\nmap\n",
        "ok\nErr(BadLine { line: 2 })",
    ),
    (
        "an operation of another word",
        b"buffer b 4\nbind move 0x0 0x1000\nmap\n",
        "ok\nErr(BadLine { line: 2 })",
    ),
    (
        "two queues",
        b"buffer b 4\nbind queue 1 ; queue 1\nmap\n",
        "ok\nErr(BadLine { line: 2 })",
    ),
    (
        "queue 16",
        b"buffer b 4\nbind queue 16\nmap\n",
        "ok\nErr(BadLine { line: 2 })",
    ),
    (
        "a queue with a leading zero",
        b"buffer b 4\nbind queue 01\nmap\n",
        "ok\nErr(BadLine { line: 2 })",
    ),
    (
        "a queue in hexadecimal",
        b"buffer b 4\nbind queue 0x1\nmap\n",
        "ok\nErr(BadLine { line: 2 })",
    ),
    (
        "a wait on a buffer",
        b"buffer b 4\nbind wait b 1\nmap\n",
        "ok\nErr(BadLine { line: 2 })",
    ),
    (
        "a signal of a buffer",
        b"buffer b 4\nbind signal b 1\nmap\n",
        "ok\nErr(BadLine { line: 2 })",
    ),
    (
        "clauses without spaces between",
        b"buffer b 4\nbind zero 0x0 0x1000;zero 0x1000 0x1000\nmap\n",
        "ok\nErr(BadLine { line: 2 })",
    ),
    (
        "an empty clause at the end",
        b"buffer b 4\nbind zero 0x0 0x1000 ;\nmap\n",
        "ok\nErr(BadLine { line: 2 })",
    ),
    (
        "an empty clause at the front",
        b"buffer b 4\nbind ; zero 0x0 0x1000\nmap\n",
        "ok\nErr(BadLine { line: 2 })",
    ),
    (
        "an unmap of a whole buffer in a plan",
        b"buffer b 4\nplan unmapall b\nmap\n",
        "ok\nErr(BadLine { line: 2 })",
    ),
    (
        "a plan of two",
        b"buffer b 4\nplan zero 0x0 0x1000 ; zero 0x0 0x1000\nmap\n",
        "ok\nErr(BadLine { line: 2 })",
    ),
    (
        "an unmap of a buffer that is not declared",
        b"buffer b 4\nbind unmapall c\nmap\n",
        "ok\nErr(BadLine { line: 2 })",
    ),
    (
        "limits behind a buffer",
        b"buffer b 4\nlimits 1 1 1\nmap\n",
        "ok\nErr(BadLine { line: 2 })",
    ),
    (
        "told of queue 16",
        b"buffer b 4\ntold 16\nmap\n",
        "ok\nErr(BadLine { line: 2 })",
    ),
    (
        "a job of no access",
        b"buffer b 4\njob\nmap\n",
        "ok\nErr(BadLine { line: 2 })",
    ),
    (
        "an access of another kind",
        b"buffer b 4\njob exec 0x0\nmap\n",
        "ok\nErr(BadLine { line: 2 })",
    ),
    (
        "a withdrawal of no number",
        b"buffer b 4\nwithdraw\nmap\n",
        "ok\nErr(BadLine { line: 2 })",
    ),
    (
        "a rewind with a word",
        b"buffer b 4\nrewind 1\nmap\n",
        "ok\nErr(BadLine { line: 2 })",
    ),
    (
        "the value of a buffer",
        b"buffer b 4\nvalue b\nmap\n",
        "ok\nErr(BadLine { line: 2 })",
    ),
    (
        "a timeline named as a keyword of mappings",
        b"buffer b 4\ntimeline zero\nmap\n",
        "ok\nErr(BadLine { line: 2 })",
    ),
];
