//! Rows of requests of one operation each, without undo.
use super::Row;

pub const EDITS: &[Row<'static>] = &[
    ("empty_script", b"", ""),
    (
        "one_map",
        b"buffer b 4\nbind map 0x0 0x4000 b 0x0\nmap\ntables\n",
        "ok\naccepted 0\n0000000000000000 0000000000004000 b 0000000000000000 rw\n1 1 1 1 1\n",
    ),
    (
        "hole_leaves_two_rests",
        b"buffer b 4\nbind map 0x0 0x4000 b 0x0\nplan unmap 0x1000 0x1000\nbind unmap 0x1000 0x1000\nmap\nuses b\n",
        "ok\naccepted 0\nremap 0000000000000000 0000000000004000 b 0000000000000000 rw prev 0000000000000000 0000000000001000 b 0000000000000000 rw next 0000000000002000 0000000000004000 b 0000000000002000 rw\naccepted 1\n0000000000000000 0000000000001000 b 0000000000000000 rw\n0000000000002000 0000000000004000 b 0000000000002000 rw\nuses 2 kept 1\n",
    ),
    (
        "same_map_is_kept",
        b"buffer b 4\nbind map 0x0 0x4000 b 0x0\nplan map 0x0 0x4000 b 0x0\nplan map 0x0 0x4000 b 0x0 ro\nbind map 0x0 0x4000 b 0x0\nuses b\n",
        "ok\naccepted 0\nunmap 0000000000000000 0000000000004000 b 0000000000000000 rw keep\nmap 0000000000000000 0000000000004000 b 0000000000000000 rw\nunmap 0000000000000000 0000000000004000 b 0000000000000000 rw\nmap 0000000000000000 0000000000004000 b 0000000000000000 ro\naccepted 1\nuses 1 kept 1\n",
    ),
    (
        "page_past_48_bits",
        b"buffer b 2\nbind map 0xfffffffff000 0x1000 b 0x0\nbind map 0xfffffffff000 0x2000 b 0x0\nmap\n",
        "ok\naccepted 0\naccepted 1\n0000fffffffff000 0001000000001000 b 0000000000000000 rw\n",
    ),
    (
        "bounds_and_the_order_of_faults",
        b"space 0x0 0x10000 0x8000 0x4000\nbind zero 0x20000 0x0\nbind zero 0x800 0x1000\nbind zero 0x800 0x0\nbind zero 0x7000 0x2000\nbind zero 0xb000 0x6000\nbind zero 0x7000 0x1000\nbind zero 0xc000 0x4000\nmap\n",
        "ok\nrefused 0 Empty\nrefused 0 Unaligned\nrefused 0 Unaligned\nrefused 0 Reserved\nrefused 0 OutOfSpace\naccepted 0\naccepted 1\n0000000000007000 0000000000008000 zero rw\n000000000000c000 0000000000010000 zero rw\n",
    ),
    (
        "line_without_its_end",
        b"buffer b 4\nbind map 0x0 0x4000 b 0x0",
        "ok\nErr(BadLine { line: 2 })",
    ),
    (
        "maps_over_maps",
        b"buffer b 4\nbind map 0x0 0x2000 b 0x0\nbind map 0x1000 0x1000 b 0x0\nbind map 0x2000 0x1000 b 0x3000 ro\nbind map 0x3000 0x2000 b 0x3000\nat 0x2abc\nat 0x3000\nmap\n",
        "ok\naccepted 0\naccepted 1\naccepted 2\nrefused 0 OutOfBuffer\nb 0000000000003abc ro\nnone\n0000000000000000 0000000000001000 b 0000000000000000 rw\n0000000000001000 0000000000002000 b 0000000000000000 rw\n0000000000002000 0000000000003000 b 0000000000003000 ro\n",
    ),
    (
        "map_over_three",
        b"buffer a 6\nbuffer b 4\nbind map 0x0 0x2000 a 0x0\nbind map 0x2000 0x2000 a 0x2000\nbind map 0x4000 0x2000 a 0x4000\nplan map 0x1000 0x4000 b 0x0\n",
        "ok\nok\naccepted 0\naccepted 1\naccepted 2\nremap 0000000000000000 0000000000002000 a 0000000000000000 rw prev 0000000000000000 0000000000001000 a 0000000000000000 rw next none\nunmap 0000000000002000 0000000000004000 a 0000000000002000 rw\nremap 0000000000004000 0000000000006000 a 0000000000004000 rw prev none next 0000000000005000 0000000000006000 a 0000000000005000 rw\nmap 0000000000001000 0000000000005000 b 0000000000000000 rw\n",
    ),
    (
        "plan_over_nothing",
        b"space 0x0 0x10000 0x8000 0x4000\nbuffer b 8\nbind map 0x7000 0x2000 b 0x0\nbind map 0x7000 0x1000 b 0x0\nplan unmap 0x0 0x1000\n",
        "ok\nok\nrefused 0 Reserved\naccepted 0\nempty\n",
    ),
    (
        "region_outside_its_page",
        b"space 0x0 0x1000 0x800 0x0\n",
        "Err(BadLine { line: 1 })",
    ),
    (
        "greatest_numbers",
        b"buffer b 0\nbuffer b 68719476737\nbuffer b 68719476736\nbind zero 0xfffffffffffff000 0x1000\nbind zero 0x0 0xfffffffffffff000\nbind map 0x0 0x1000 b 0xfffffffffffff000\nat 0xffffffffffffffff\ntimeline t\nraise t 18446744073709551615\n",
        "refused BadSize\nrefused BadSize\nok\nrefused 0 OutOfSpace\nrefused 0 OutOfSpace\nrefused 0 OutOfBuffer\nnone\nok\nt 18446744073709551615\n",
    ),
    (
        "over_a_leaf",
        b"bind zero 0x0 0x10001000\nbind zero 0x0 0x10000000\nmap\n",
        "accepted 0\naccepted 1\n0000000000000000 0000000010000000 zero rw\n0000000010000000 0000000010001000 zero rw\n",
    ),
    (
        "plan_is_refused_as_bind_is",
        b"buffer b 1\nplan map 0x0 0x2000 b 0x0\nplan map 0x10 0x1000 b 0x0\nplan zero 0x0 0x1000 ro\nmap\nat 0x0\n",
        "ok\nrefused OutOfBuffer\nrefused Unaligned\nmap 0000000000000000 0000000000001000 zero ro\nempty\nnone\n",
    ),
    (
        "space_after_a_comment",
        b"# first\n\nspace 0x1000 0x2000 0x0 0x0\nbind zero 0x0 0x1000\nbind zero 0x1000 0x2000 ro\nat 0x1fff\nbind zero 0x1000 0x3000\n",
        "ok\nrefused 0 OutOfSpace\naccepted 0\nzero ro\nrefused 0 OutOfSpace\n",
    ),
    (
        "space_comes_first",
        b"buffer b 1\nspace 0x0 0x1000 0x0 0x0\n",
        "ok\nErr(BadLine { line: 2 })",
    ),
    (
        "space_comes_once",
        b"space 0x0 0x1000 0x0 0x0\nspace 0x0 0x1000 0x0 0x0\n",
        "ok\nErr(BadLine { line: 2 })",
    ),
    (
        "refused_name_is_not_declared",
        b"buffer b 0\nbind map 0x0 0x1000 b 0x0\n",
        "refused BadSize\nErr(BadLine { line: 2 })",
    ),
    (
        "refused_name_may_be_declared",
        b"buffer b 0\nbuffer b 1\n",
        "refused BadSize\nok\n",
    ),
    (
        "plan_names_what_is_declared",
        b"plan map 0x0 0x1000 b 0x0\n",
        "Err(BadLine { line: 1 })",
    ),
    (
        "zero_mapping_is_cut",
        b"bind zero 0x0 0x4000 ro\nbind unmap 0x1000 0x2000\nmap\n",
        "accepted 0\naccepted 1\n0000000000000000 0000000000001000 zero ro\n0000000000003000 0000000000004000 zero ro\n",
    ),
    (
        "unmap_of_nothing_is_accepted",
        b"bind unmap 0x0 0x1000\nbind unmap 0x0 0x1000\nmap\n",
        "accepted 0\naccepted 1\nempty\n",
    ),
    (
        "large_leaf_broken",
        b"buffer b 512\nbind map 0x0 0x200000 b 0x0\ntables\nbind unmap 0x1000 0x1000\ntables\n",
        "ok\naccepted 0\n1 1 1 1 0\naccepted 1\n1 1 1 1 1\n",
    ),
    (
        "tables_over_a_leaf",
        b"bind zero 0x0 0x10001000\nbind zero 0x0 0x10000000\ntables\n",
        "accepted 0\naccepted 1\n1 1 1 1 1\n",
    ),
    (
        "last_page_of_the_widest_space",
        b"bind zero 0x1fffffffffff000 0x2000\nbind zero 0x1fffffffffff000 0x1000\nmap\ntables\n",
        "refused 0 OutOfSpace\naccepted 0\n01fffffffffff000 0200000000000000 zero rw\n1 1 1 1 1\n",
    ),
    (
        "gigabyte_is_one_leaf",
        b"bind zero 0x0 0x40000000\ntables\nbind unmap 0x0 0x1000\ntables\nat 0x1000\nat 0x200000000000000\n",
        "accepted 0\n1 1 1 0 0\naccepted 1\n1 1 1 1 1\nzero rw\nnone\n",
    ),
    (
        "buffers_with_generations",
        b"buffer b 4\ndestroy b\ndestroy b\nuses b\nbind map 0x0 0x1000 b 0x0\nbuffer c 4\nbind map 0x0 0x4000 c 0x0\ndestroy c\nbind unmap 0x1000 0x1000\nuses c\n",
        "ok\nok\nrefused NoBuffer\nrefused NoBuffer\nrefused 0 NoBuffer\nok\naccepted 0\nrefused Mapped 1\naccepted 1\nuses 2 kept 1\n",
    ),
    (
        "tables_come_and_go",
        b"buffer b 65536\nbind map 0x0 0x10000000 b 0x0\ntables\nbind unmap 0x0 0x10000000\ntables\nbind map 0x1ff000 0x2000 b 0x0\ntables\nbind unmap 0x1ff000 0x2000\nbind map 0x7ffffff000 0x2000 b 0x0\ntables\n",
        "ok\naccepted 0\n1 1 1 1 0\naccepted 1\n0 0 0 0 0\naccepted 2\n1 1 1 1 2\naccepted 3\naccepted 4\n1 1 2 2 2\n",
    ),
    (
        "leaves_where_one_mapping_covers",
        b"buffer b 1024\nbind map 0x1000 0x200000 b 0x0\ntables\nbind map 0x0 0x1000 b 0x300000\ntables\nbind map 0x200000 0x200000 b 0x0\ntables\nbind map 0x0 0x200000 b 0x1000\ntables\n",
        "ok\naccepted 0\n1 1 1 1 2\naccepted 1\n1 1 1 1 2\naccepted 2\n1 1 1 1 1\naccepted 3\n1 1 1 1 0\n",
    ),
    (
        "dead_buffer_before_its_end",
        b"buffer b 1\ndestroy b\nbind map 0x0 0x2000 b 0x1000\nplan map 0x0 0x1000 b 0x0\nbind map 0x0 0x0 b 0x0\n",
        "ok\nok\nrefused 0 NoBuffer\nrefused NoBuffer\nrefused 0 Empty\n",
    ),
    (
        "undo_values_keep_a_buffer",
        b"buffer b 1\nbind map 0x0 0x1000 b 0x0\nbind unmap 0x0 0x1000\nuses b\ndestroy b\n",
        "ok\naccepted 0\naccepted 1\nuses 0 kept 1\nrefused Kept 1\n",
    ),
    (
        "index_used_again",
        b"buffer a 4\nbuffer b 4\ndestroy a\nbuffer c 8\nbind map 0x0 0x1000 c 0x7000\nbind map 0x1000 0x1000 b 0x0\nmap\nuses a\nuses c\nbind map 0x0 0x1000 a 0x0\n",
        "ok\nok\nok\nok\naccepted 0\naccepted 1\n0000000000000000 0000000000001000 c 0000000000007000 rw\n0000000000001000 0000000000002000 b 0000000000000000 rw\nrefused NoBuffer\nuses 1 kept 0\nrefused 0 NoBuffer\n",
    ),
    (
        "destroyed_name_stays_declared",
        b"buffer b 4\ndestroy b\nbuffer b 4\n",
        "ok\nok\nErr(BadLine { line: 3 })",
    ),
    (
        "name_not_declared",
        b"tables\ndestroy b\n",
        "0 0 0 0 0\nErr(BadLine { line: 2 })",
    ),
];
