//! Scripts whose last line is bad, and what is said of that.

pub const REASONS: &[(&str, &str)] = &[
    ("uses c\n", "buffer c is not declared"),
    ("destroy c\n", "buffer c is not declared"),
    ("plan map 0x0 0x1000 c 0x0\n", "buffer c is not declared"),
    (
        "buffer b 1\nbind map 0x0 0x1000 b 0x0 ; unmapall c\n",
        "buffer c is not declared",
    ),
    ("buffer b 0\nuses b\n", "buffer b is not declared"),
    ("buffer b 1\nbuffer b 1\n", "buffer b is declared already"),
    (
        "buffer b 1\ndestroy b\nbuffer b 1\n",
        "buffer b is declared already",
    ),
    ("timeline t\ntimeline t\n", "timeline t is declared already"),
    ("value t\n", "timeline t is not declared"),
    ("raise t 1\n", "timeline t is not declared"),
    ("buffer t 1\nbind wait t 1\n", "timeline t is not declared"),
    (
        "timeline t\nbind wait t 1 ; signal u 1\n",
        "timeline u is not declared",
    ),
    (
        "map\nspace 0x0 0x1000 0x0 0x0\n",
        "space comes before all other lines",
    ),
    (
        "space 0x0 0x1000 0x0 0x0\nspace 0x0 0x1000 0x0 0x0\n",
        "space comes before all other lines",
    ),
    (
        "buffer b 1\nlimits 1 1 1\n",
        "limits comes before all other lines but space",
    ),
    (
        "limits 1 1 1\nlimits 1 1 1\n",
        "limits comes before all other lines but space",
    ),
    (
        "space 0x0 0x1001 0x0 0x0\n",
        "column 11: 0x1001; LEN is a multiple of 4096",
    ),
    (
        "space 0x0 0x1000 0x0 0x10\n",
        "column 22: 0x10; RLEN is a multiple of 4096",
    ),
    (
        "space 0x1000 0 0 0\n",
        "column 14: 0; an address space has at least one page",
    ),
    (
        "space 0x1000 0x200000000000000 0x0 0x0\n",
        "column 14: 0x200000000000000; an address space ends at 2^57 or below",
    ),
    (
        "space 0x1000 0x1000 0x0 0x1000\n",
        "column 21: 0x0; the reserved region must be inside the address space",
    ),
    ("limits 0 1 1\n", "column 8: 0; BUFFERS is from 1 to 65536"),
    (
        "limits 1 1048577 1\n",
        "column 10: 1048577; MAPPINGS is from 1 to 1048576",
    ),
    (
        "limits 1 1 65537\n",
        "column 12: 65537; ITEMS is from 1 to 65536",
    ),
    ("map", "no line end"),
    ("put\n", "put is a line of vmbind serve only"),
    (
        "buffer b 1\nbnid\n",
        "no such line: bnid; did you mean bind?",
    ),
];
