//! Dialogues with their answers, which were written by hand from the rules.
use super::Row;

pub const DIALOGUES: &[Row<'static>] = &[
    (
        "lines of a script",
        b"buffer b 4\n# a comment\n\nbind map 0x0 0x4000 b 0x0\nat 0x1abc\n",
        "ok\naccepted 0\nb 0000000000001abc rw\n",
    ),
    (
        "it goes on after bad lines, and limits still come first",
        b"bnid\nspace 0x0 0x10000 0x0 0x0\nuses b\nlimits 2 2 2\nmap\nlimits 2 2 2\n",
        "bad line 1: no such line: bnid; did you mean bind?\nok\nbad line 3: buffer b is not declared\nok\nempty\nbad line 6: limits comes before all other lines but space\n",
    ),
    (
        "a bind that waits for a later signal",
        b"timeline t\nput zero 0x0 0x1000 ; wait t 1\nturn 0\ngiveup 0\nput queue 1 ; zero 0x2000 0x1000 ; signal t 1\nturn 1\nput zero 0x4000 0x1000 ; wait t 1\nturn 0\nturn 0\ntold 0\n",
        "ok\nput 0\nwaits t 1 have 0\nnotready t 1 have 0\nput 0\naccepted 0\nput 1\naccepted 1\nidle\n0 notready t 1 have 0\n1 accepted 1\n",
    ),
    (
        "what stays in hand goes on once its wait is reached",
        b"timeline t\nput wait t 2\nturn 0\nraise t 2\nturn 0\ngiveup 0\nput unmapall c\nturn 16\nput map 0x0 0x1000\nbind\n",
        "ok\nput 0\nwaits t 2 have 0\nt 2\naccepted 0\nidle\nbad line 7: buffer c is not declared\nbad line 8: column 6: 16; a queue is below 16\nbad line 9: column 20: no NAME; the form is map ADDR LEN NAME OFFSET\naccepted 1\n",
    ),
    (
        "a bind needs its queue for itself",
        b"put\nbind\nbind queue 1\nturn 0\nbind\nput zero 0x1 0x1000\nturn 0\n",
        "put 0\nbad line 2: requests wait on queue 0; turn 0 serves them\naccepted 0\naccepted 1\naccepted 2\nput 2\nrefused 0 Unaligned\n",
    ),
    (
        "what a queue was told is forgotten, but for held items",
        b"bind\nbind\nforget 0 3\nforget 0 1\nforget 0 0\nsettle 1\nforget 0 2\nforget 0 1\ntold 0\nforget 0 0\nsettle 2\nforget 0 2\ntold 0\nbind\ntold 0\nforget 1 0\nforget 1 1\n",
        "accepted 0\naccepted 1\nrefused NoOutcome\nrefused Held 0\nforgot 0\nsettled 1\nrefused Held 1\nforgot 1\n1 accepted 1\nrefused NoOutcome\nsettled 1\nforgot 1\nempty\naccepted 2\n2 accepted 2\nforgot 0\nrefused NoOutcome\n",
    ),
    (
        "bad lines that forget",
        b"forget 16 0\nforget 0\nforget 0 0 0\nforget 0 x\n",
        "bad line 1: column 8: 16; a queue is below 16\nbad line 2: column 10: no TO; the form is forget QUEUE TO\nbad line 3: column 12: 0; nothing may follow forget QUEUE TO\nbad line 4: column 10: x; a number is decimal, or 0x and digits 0-9a-f\n",
    ),
    (
        "room is given back once no item is held, and nothing else is seen of it",
        b"trim\nbuffer b 4\nbind map 0x0 0x4000 b 0x0\ntrim\nbind unmap 0x1000 0x1000\nsettle 1\ntrim\nsettle 2\ntrim\nmap\nbind unmap 0x0 0x1000\ntrim\nrewind\ntrim\nat 0x0\nput\ntrim\nturn 0\n",
        "trimmed\nok\naccepted 0\nrefused Held 0\naccepted 1\nsettled 1\nrefused Held 1\nsettled 1\ntrimmed\n0000000000000000 0000000000001000 b 0000000000000000 rw\n0000000000002000 0000000000004000 b 0000000000002000 rw\naccepted 2\nrefused Held 2\nrewound 2\ntrimmed\nb 0000000000000000 rw\nput 3\ntrimmed\naccepted 2\n",
    ),
    (
        "bad lines that trim",
        b"trim 0\ntrim \ntirm\n",
        "bad line 1: column 6: 0; nothing may follow trim\nbad line 2: column 5: a space at the end\nbad line 3: no such line: tirm; did you mean trim?\n",
    ),
    (
        "the last line has no line end",
        b"map\nmap",
        "empty\nbad line 2: no line end\n",
    ),
    (
        "what items did, and what they say of an address",
        b"buffer b 4\nbuffer c 2\nbind map 0x0 0x4000 b 0x0\nbind unmap 0x1000 0x1000 ; zero 0x2000 0x1000 ro\nbind map 0x8000 0x1000 c 0x1000\nwithdraw 2\nbind\nshow 0\nshow 1\nshow 3\nshow 4\nshow 5\npast 0x1abc\npast 0x2abc\npast 0x8000\npast 0x20000\n",
        "ok\nok\naccepted 0\naccepted 1\naccepted 2\nwithdrawn 2 as 3\naccepted 4\nmap 0x0 0x4000 b 0x0\nunmap 0x1000 0x1000\nzero 0x2000 0x1000 ro\nwithdrawal of 2\nempty\nrefused NoEntry\n1 live none\n0 live b 0000000000001abc rw\nunder none\n1 live zero ro\n0 live b 0000000000002abc rw\nunder none\n2 withdrawn c 0000000000001000 rw\nunder none\nunder none\n",
    ),
];

/// The same in JSON: one line for each that is no comment and not empty.
pub const JSON_DIALOGUES: &[Row<'static>] = &[
    (
        "replies, bad lines, and no line end",
        b"buffer b 4\n# a comment\n\nbind map 0x0 0x4000 b 0x0\nat 0x1abc\nat\t0x0\nturn 0\nbnid\n# \x80\nmap",
        "{\"line\":1,\"ok\":true}\n{\"line\":4,\"accepted\":0}\n{\"line\":5,\"place\":{\"buffer\":\"b\",\"offset\":\"0x1abc\",\"ro\":false}}\n{\"line\":6,\"bad\":\"column 3: a tab; words are separated by one space\",\"column\":3}\n{\"line\":7,\"idle\":true}\n{\"line\":8,\"bad\":\"no such line: bnid; did you mean bind?\"}\n{\"line\":9,\"bad\":\"column 3: byte 0x80; all bytes are ASCII, also in a comment\",\"column\":3}\n{\"line\":10,\"bad\":\"no line end\"}\n",
    ),
    (
        "what is forgotten",
        b"bind\nforget 0 1\nrewind\nforget 0 1\nforget 0 0\ntold 0\nforget 16 0\n",
        "{\"line\":1,\"accepted\":0}\n{\"line\":2,\"refused\":{\"fault\":\"Held\",\"number\":0}}\n{\"line\":3,\"rewound\":0}\n{\"line\":4,\"forgot\":1}\n{\"line\":5,\"refused\":{\"fault\":\"NoOutcome\"}}\n{\"line\":6,\"outcomes\":[]}\n{\"line\":7,\"bad\":\"column 8: 16; a queue is below 16\",\"column\":8}\n",
    ),
    (
        "room that is given back",
        b"bind\ntrim\nrewind\ntrim\ntrim x\n",
        "{\"line\":1,\"accepted\":0}\n{\"line\":2,\"refused\":{\"fault\":\"Held\",\"number\":0}}\n{\"line\":3,\"rewound\":0}\n{\"line\":4,\"trimmed\":true}\n{\"line\":5,\"bad\":\"column 6: x; nothing may follow trim\",\"column\":6}\n",
    ),
    (
        "requests that wait",
        b"timeline t\nput wait t 1\nturn 0\nbind\nraise t 1\nturn 0\n",
        "{\"line\":1,\"ok\":true}\n{\"line\":2,\"put\":0}\n{\"line\":3,\"waits\":{\"timeline\":\"t\",\"value\":1,\"have\":0}}\n{\"line\":4,\"bad\":\"requests wait on queue 0; turn 0 serves them\"}\n{\"line\":5,\"timeline\":\"t\",\"value\":1}\n{\"line\":6,\"accepted\":0}\n",
    ),
];
