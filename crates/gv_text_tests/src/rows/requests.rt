//! Rows of whole requests: their order, their undo, their points, and jobs.
use super::Row;

pub const REQUESTS: &[Row<'static>] = &[
    (
        "one_request_of_three_maps",
        b"buffer a 6\nbuffer b 4\nbind map 0x0 0x2000 a 0x0 ; map 0x2000 0x2000 a 0x2000 ; map 0x4000 0x2000 a 0x4000\nplan map 0x1000 0x4000 b 0x0\n",
        "ok\nok\naccepted 0\nremap 0000000000000000 0000000000002000 a 0000000000000000 rw prev 0000000000000000 0000000000001000 a 0000000000000000 rw next none\nunmap 0000000000002000 0000000000004000 a 0000000000002000 rw\nremap 0000000000004000 0000000000006000 a 0000000000004000 rw prev none next 0000000000005000 0000000000006000 a 0000000000005000 rw\nmap 0000000000001000 0000000000005000 b 0000000000000000 rw\n",
    ),
    (
        "refused_at_its_second_operation",
        b"buffer b 4\nbind map 0x0 0x4000 b 0x0\nbind unmap 0x1000 0x1000 ; map 0x8000 0x2000 b 0x3000\nmap\ntables\nuses b\n",
        "ok\naccepted 0\nrefused 1 OutOfBuffer\n0000000000000000 0000000000004000 b 0000000000000000 rw\n1 1 1 1 1\nuses 1 kept 0\n",
    ),
    (
        "newest_entry_taken_back",
        b"buffer b 4\nbind map 0x0 0x4000 b 0x0\nbind unmap 0x1000 0x1000\nrewind\nmap\nuses b\n",
        "ok\naccepted 0\naccepted 1\nrewound 1\n0000000000000000 0000000000004000 b 0000000000000000 rw\nuses 1 kept 0\n",
    ),
    (
        "withdrawn_between_others",
        b"buffer a 256\nbuffer b 32\nbuffer c 16\nbind map 0x0 0x100000 a 0x0\nbind map 0x40000 0x20000 b 0x0\nbind map 0x70000 0x10000 c 0x0\nwithdraw 1\nat 0x50000\nmap\nuses a\nuses b\n",
        "ok\nok\nok\naccepted 0\naccepted 1\naccepted 2\nwithdrawn 1 as 3\na 0000000000050000 rw\n0000000000000000 0000000000040000 a 0000000000000000 rw\n0000000000040000 0000000000060000 a 0000000000040000 rw\n0000000000060000 0000000000070000 a 0000000000060000 rw\n0000000000070000 0000000000080000 c 0000000000000000 rw\n0000000000080000 0000000000100000 a 0000000000080000 rw\nuses 4 kept 2\nuses 0 kept 1\n",
    ),
    (
        "touched_by_a_later_entry",
        b"buffer a 256\nbuffer b 32\nbuffer c 16\nbind map 0x0 0x100000 a 0x0\nbind map 0x40000 0x20000 b 0x0\nbind map 0x50000 0x10000 c 0x0\nwithdraw 1\n",
        "ok\nok\nok\naccepted 0\naccepted 1\naccepted 2\nrefused Touched 2\n",
    ),
    (
        "withdrawal_taken_back",
        b"buffer a 256\nbuffer b 32\nbuffer c 16\nbind map 0x0 0x100000 a 0x0\nbind map 0x40000 0x20000 b 0x0\nbind map 0x70000 0x10000 c 0x0\nwithdraw 1\nat 0x50000\nmap\nuses a\nuses b\nrewind\nmap\njournal\n",
        "ok\nok\nok\naccepted 0\naccepted 1\naccepted 2\nwithdrawn 1 as 3\na 0000000000050000 rw\n0000000000000000 0000000000040000 a 0000000000000000 rw\n0000000000040000 0000000000060000 a 0000000000040000 rw\n0000000000060000 0000000000070000 a 0000000000060000 rw\n0000000000070000 0000000000080000 c 0000000000000000 rw\n0000000000080000 0000000000100000 a 0000000000080000 rw\nuses 4 kept 2\nuses 0 kept 1\nrewound 3\n0000000000000000 0000000000040000 a 0000000000000000 rw\n0000000000040000 0000000000060000 b 0000000000000000 rw\n0000000000060000 0000000000070000 a 0000000000060000 rw\n0000000000070000 0000000000080000 c 0000000000000000 rw\n0000000000080000 0000000000100000 a 0000000000080000 rw\n0 bind 0 0 live\n1 bind 0 1 live\n2 bind 0 2 live\n",
    ),
    (
        "withdrawals_in_order",
        b"buffer a 4\nbuffer b 2\nbind map 0x0 0x4000 a 0x0\nbind map 0x1000 0x2000 b 0x0\nwithdraw 0\nwithdraw 1\nwithdraw 0\nmap\ntables\nwithdraw 1\nwithdraw 2\nwithdraw 9\nrewind\nrewind\nmap\n",
        "ok\nok\naccepted 0\naccepted 1\nrefused Touched 1\nwithdrawn 1 as 2\nwithdrawn 0 as 3\nempty\n0 0 0 0 0\nrefused Withdrawn\nrefused NotABind\nrefused NoEntry\nrewound 3\nrewound 2\n0000000000000000 0000000000001000 a 0000000000000000 rw\n0000000000001000 0000000000003000 b 0000000000000000 rw\n0000000000003000 0000000000004000 a 0000000000003000 rw\n",
    ),
    (
        "waits_and_signals",
        b"timeline t\nraise t 1\nbind zero 0x0 0x1000 ; wait t 3\nraise t 5\nbind zero 0x0 0x1000 ; wait t 3 ; signal t 7 ; signal t 4\nvalue t\nrewind\nvalue t\ntold 0\n",
        "ok\nt 1\nnotready t 3 have 1\nt 5\naccepted 0\nt 7\nrewound 0\nt 7\n0 notready t 3 have 1\n1 accepted 0\n",
    ),
    (
        "undo_values_hold_a_buffer",
        b"buffer b 1\nbind map 0x0 0x1000 b 0x0\nbind unmap 0x0 0x1000\ndestroy b\nrewind\ndestroy b\nrewind\ndestroy b\nbuffer c 1\nbind map 0x0 0x1000 b 0x0\nbind map 0x0 0x1000 c 0x0\n",
        "ok\naccepted 0\naccepted 1\nrefused Kept 1\nrewound 1\nrefused Mapped 1\nrewound 0\nok\nok\nrefused 0 NoBuffer\naccepted 0\n",
    ),
    (
        "jobs_and_their_accesses",
        b"buffer b 2\nbind zero 0x0 0x1000 ; map 0x1000 0x1000 b 0x0 ro ; map 0x2000 0x1000 b 0x1000\njob read 0x2000 ; write 0x1000\njob read 0x0\njob write 0x2004\njob read 0x1000\nend 1\nend 1\njob read 0x3000\n",
        "ok\naccepted 0\nrefused WriteToReadOnly 1\njob 0\nzero rw\njob 1\nb 0000000000001004 rw\nrefused Conflict 1\nended 1\nrefused NoJob\nrefused Unmapped 0\n",
    ),
    (
        "large_leaf_broken_and_taken_back",
        b"buffer b 512\nbind map 0x0 0x200000 b 0x0\ntables\nbind unmap 0x1000 0x1000\ntables\nrewind\ntables\n",
        "ok\naccepted 0\n1 1 1 1 0\naccepted 1\n1 1 1 1 1\nrewound 1\n1 1 1 1 0\n",
    ),
    (
        "limits_met",
        b"limits 1 2 2\nbuffer a 4\nbuffer b 4\nbind map 0x0 0x3000 a 0x0\nbind unmap 0x1000 0x1000\nbind zero 0x9000 0x1000\nrewind\nrewind\nrewind\nbind map 0x0 0x3000 a 0x0\nbind zero 0x1000 0x1000\n",
        "ok\nok\nrefused TooManyBuffers\naccepted 0\naccepted 1\nrefused 0 JournalFull\nrewound 1\nrewound 0\nrefused NoEntry\naccepted 0\nrefused 0 TooManyMappings\n",
    ),
    (
        "over_a_leaf_in_tables",
        b"bind zero 0x0 0x10001000\nbind zero 0x0 0x10000000\ntables\n",
        "accepted 0\naccepted 1\n1 1 1 1 1\n",
    ),
    (
        "three_operations_and_an_empty_request",
        b"buffer b 4\nbind map 0x0 0x4000 b 0x0\nbind unmap 0x0 0x1000 ; zero 0x1000 0x2000 ro ; unmap 0x2000 0x2000\nmap\nuses b\nrewind\nmap\nuses b\nbind\njournal\n",
        "ok\naccepted 0\naccepted 1\n0000000000001000 0000000000002000 zero ro\nuses 0 kept 3\nrewound 1\n0000000000000000 0000000000004000 b 0000000000000000 rw\nuses 1 kept 0\naccepted 1\n0 bind 0 0 live\n1 bind 0 2 live\n",
    ),
    (
        "jobs_hold_a_buffer",
        b"buffer b 1\nbind map 0x0 0x1000 b 0x0\njob read 0x0\njob read 0x0\nrewind\ndestroy b\nend 0\ndestroy b\nend 1\ndestroy b\n",
        "ok\naccepted 0\njob 0\nb 0000000000000000 rw\njob 1\nb 0000000000000000 rw\nrewound 0\nrefused InUse 2\nended 0\nrefused InUse 1\nended 1\nok\n",
    ),
    (
        "queues_are_told_apart",
        b"bind queue 3 ; zero 0x0 0x1000\nbind queue 3 ; zero 0x0 0x0\nbind zero 0x1000 0x1000\ntold 3\ntold 0\ntold 15\njournal\n",
        "accepted 0\nrefused 0 Empty\naccepted 1\n0 accepted 0\n1 refused 0 Empty\n0 accepted 1\nempty\n0 bind 3 0 live\n1 bind 0 0 live\n",
    ),
    (
        "withdrawal_of_two_operations",
        b"buffer a 4\nbind map 0x0 0x4000 a 0x0\nbind unmap 0x0 0x4000 ; zero 0x1000 0x2000\nwithdraw 1\nmap\nuses a\nrewind\nmap\n",
        "ok\naccepted 0\naccepted 1\nwithdrawn 1 as 2\n0000000000000000 0000000000004000 a 0000000000000000 rw\nuses 1 kept 1\nrewound 2\n0000000000001000 0000000000003000 zero rw\n",
    ),
    (
        "withdrawal_past_the_limit",
        b"limits 1 3 8\nbuffer a 2\nbind map 0x0 0x1000 a 0x0 ; map 0x1000 0x1000 a 0x1000\nbind zero 0x0 0x2000\nbind zero 0x4000 0x1000 ; zero 0x6000 0x1000\nwithdraw 1\nmap\n",
        "ok\nok\naccepted 0\naccepted 1\naccepted 2\nrefused TooManyMappings\n0000000000000000 0000000000002000 zero rw\n0000000000004000 0000000000005000 zero rw\n0000000000006000 0000000000007000 zero rw\n",
    ),
    (
        "leaves_come_and_go_with_a_rewind",
        b"buffer b 1024\nbind map 0x1000 0x200000 b 0x0\ntables\nbind map 0x0 0x1000 b 0x300000\ntables\nbind map 0x200000 0x200000 b 0x0\ntables\nbind map 0x0 0x200000 b 0x1000\ntables\nrewind\ntables\n",
        "ok\naccepted 0\n1 1 1 1 2\naccepted 1\n1 1 1 1 2\naccepted 2\n1 1 1 1 1\naccepted 3\n1 1 1 1 0\nrewound 3\n1 1 1 1 1\n",
    ),
    (
        "greatest_numbers_and_points",
        b"buffer b 0\nbuffer b 68719476737\nbuffer b 68719476736\nbind zero 0xfffffffffffff000 0x1000\nbind zero 0x0 0xfffffffffffff000\nbind map 0x0 0x1000 b 0xfffffffffffff000\nat 0xffffffffffffffff\ntimeline t\nraise t 18446744073709551615\n",
        "refused BadSize\nrefused BadSize\nok\nrefused 0 OutOfSpace\nrefused 0 OutOfSpace\nrefused 0 OutOfBuffer\nnone\nok\nt 18446744073709551615\n",
    ),
    (
        "settled_entries_stay_in_the_map",
        b"buffer a 4\nbind map 0x0 0x1000 a 0x0\nbind map 0x1000 0x1000 a 0x1000\nbind unmapall a\nmap\nsettle 2\njournal\nuses a\nwithdraw 0\nwithdraw 2\nmap\nrewind\nrewind\nrewind\nmap\n",
        "ok\naccepted 0\naccepted 1\naccepted 2\nempty\nsettled 2\n2 bind 0 2 live\nuses 0 kept 2\nrefused NoEntry\nwithdrawn 2 as 3\n0000000000000000 0000000000001000 a 0000000000000000 rw\n0000000000001000 0000000000002000 a 0000000000001000 rw\nrewound 3\nrewound 2\nrefused NoEntry\n0000000000000000 0000000000001000 a 0000000000000000 rw\n0000000000001000 0000000000002000 a 0000000000001000 rw\n",
    ),
    (
        "settling_across_a_withdrawal",
        b"bind zero 0x0 0x1000\nwithdraw 0\nsettle 1\nsettle 3\nsettle 2\nsettle 2\nsettle 1\njournal\nbind zero 0x0 0x1000\n",
        "accepted 0\nwithdrawn 0 as 1\nrefused Crossed 1\nrefused NoEntry\nsettled 2\nsettled 0\nrefused NoEntry\nempty\naccepted 2\n",
    ),
    (
        "withdrawn_down_to_the_settled",
        b"buffer b 1\nbind map 0x0 0x1000 b 0x0\nsettle 1\nbind zero 0x0 0x1000\nwithdraw 1\nat 0x0\ndestroy b\n",
        "ok\naccepted 0\nsettled 1\naccepted 1\nwithdrawn 1 as 2\nb 0000000000000000 rw\nrefused Mapped 1\n",
    ),
    (
        "last_page_of_57_bits",
        b"bind zero 0x1fffffffffff000 0x2000\nbind zero 0x1fffffffffff000 0x1000\nmap\ntables\n",
        "refused 0 OutOfSpace\naccepted 0\n01fffffffffff000 0200000000000000 zero rw\n1 1 1 1 1\n",
    ),
    (
        "gigabyte_leaf_broken_and_taken_back",
        b"bind zero 0x0 0x40000000\ntables\nbind unmap 0x0 0x1000\ntables\nrewind\ntables\n",
        "accepted 0\n1 1 1 0 0\naccepted 1\n1 1 1 1 1\nrewound 1\n1 1 1 0 0\n",
    ),
    (
        "clauses_in_any_order",
        b"timeline t\nbind signal t 2 ; queue 4 ; zero 0x0 0x1000 ; wait t 0\ntold 4\nvalue t\nat 0x0\n",
        "ok\naccepted 0\n0 accepted 0\nt 2\nzero rw\n",
    ),
    (
        "two_sets_of_names",
        b"buffer t 1\ntimeline t\nbind map 0x0 0x1000 t 0x0 ; signal t 1\nvalue t\n",
        "ok\nok\naccepted 0\nt 1\n",
    ),
    (
        "refused_request_signals_nothing",
        b"timeline t\nbind zero 0x0 0x0 ; signal t 1\nvalue t\n",
        "ok\nrefused 0 Empty\nt 0\n",
    ),
    (
        "unmap_of_a_whole_buffer_is_one_operation",
        b"buffer a 2\nbind map 0x0 0x1000 a 0x0 ; unmapall a ; map 0x1000 0x1000 a 0x1000\nmap\nwithdraw 0\nmap\nbind unmapall a\ndestroy a\nbind unmapall a\n",
        "ok\naccepted 0\n0000000000001000 0000000000002000 a 0000000000001000 rw\nwithdrawn 0 as 1\nempty\naccepted 2\nrefused Kept 3\naccepted 3\n",
    ),
    (
        "limits_come_first",
        b"limits 1 1 1\nspace 0x0 0x1000 0x0 0x0\n",
        "ok\nErr(BadLine { line: 2 })",
    ),
    (
        "limits_come_once",
        b"limits 1 1 1\nlimits 1 1 1\n",
        "ok\nErr(BadLine { line: 2 })",
    ),
    (
        "limits_behind_space",
        b"space 0x0 0x1000 0x0 0x0\nlimits 1 1 1\nbind zero 0x0 0x1000\nbind\n",
        "ok\nok\naccepted 0\nrefused 0 JournalFull\n",
    ),
    (
        "limits_of_no_buffer",
        b"limits 0 1 1\n",
        "Err(BadLine { line: 1 })",
    ),
];
