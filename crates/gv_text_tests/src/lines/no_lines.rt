//! Lines that are none of the language.
use gv_lines::parse_line;

const OTHER_LINES: [&[u8]; 37] = [
    b"at 18446744073709551616",
    b"at 0x00000000000000000",
    b"at 0x",
    b"at 0X1",
    b"at 01",
    b"at 00",
    b"at 0xA",
    b"at -1",
    b"at",
    b"at 1 2",
    b"destroy",
    b"destroy zero",
    b"destroy b c",
    b"uses",
    b"uses b 1",
    b"tables 0",
    b"buffer a_34567890123456z 1",
    b"buffer zero 1",
    b"buffer B 1",
    b"buffer 1b 1",
    b"buffer b",
    b"space 0 4096 0",
    b"map ",
    b" map",
    b" ",
    b" # any text",
    b"map\r",
    b"maps",
    b"# \x80",
    b"\x80",
    b"bind at 0",
    b"map 0",
    b"at 0x00000000000000001",
    b"bind  map 0x0 0x1000 b 0x0",
    b"bind map 0x0 0x1000 b 0x0 rw",
    b"bind map 0x0 0x1000 b 0x0 ro ro",
    b"bind unmap 0x0 0x1000 ro",
];

const OTHER_CLAUSES: [&[u8]; 40] = [
    b"bind ",
    b"bind ;",
    b"bind ; zero 0x0 0x1000",
    b"bind zero 0x0 0x1000 ;",
    b"bind zero 0x0 0x1000 ; ",
    b"bind zero 0x0 0x1000 ; ; zero 0x0 0x1000",
    b"bind zero 0x0 0x1000;zero 0x0 0x1000",
    b"bind zero 0x0 0x1000; zero 0x0 0x1000",
    b"bind zero 0x0 0x1000 ;zero 0x0 0x1000",
    b"bind zero 0x0 0x1000  ; zero 0x0 0x1000",
    b"bind zero 0x0 0x1000 ro;",
    b"bind zero 0x0 ; 0x1000",
    b"bind zero 0x0 0x1000 zero 0x0 0x1000",
    b"bind wipe 0x0 0x1000",
    b"bind queue 16",
    b"bind queue 01",
    b"bind queue 0x1",
    b"bind queue",
    b"bind queue 1 2",
    b"bind queue 1 ; queue 1",
    b"bind queue 0 ; zero 0x0 0x1000 ; queue 2",
    b"bind queue 0 ; wait t 1 ; queue 0",
    b"bind wait t",
    b"bind wait 1 t",
    b"bind wait zero 1",
    b"bind wait t 1 2",
    b"bind signal t",
    b"bind signal T 1",
    b"bind unmapall",
    b"bind unmapall zero",
    b"bind unmapall b ro",
    b"bind job read 0x0",
    b"bind unmap 0x0 0x00000000000001000",
    b"plan",
    b"plan unmapall b",
    b"plan queue 1",
    b"plan wait t 1",
    b"plan zero 0x0 0x1000 ; zero 0x0 0x1000",
    b"plan zero 0x0 0x1000 ;",
    b"plan bind",
];

const OTHER_QUESTIONS: [&[u8]; 36] = [
    b"limits 1 1",
    b"limits 1 1 1 1",
    b"limits 1 1 01",
    b"timeline",
    b"timeline zero",
    b"timeline t 1",
    b"timeline T",
    b"raise t",
    b"raise 1 t",
    b"raise t 1 1",
    b"raise t -1",
    b"value",
    b"value t 1",
    b"value 0",
    b"rewind 0",
    b"journal 0",
    b"withdraw",
    b"withdraw 00",
    b"withdraw 1 2",
    b"settle",
    b"settle 1 ; settle 2",
    b"told",
    b"told 16",
    b"told 0x10",
    b"told 015",
    b"told t",
    b"job",
    b"job ",
    b"job read",
    b"job read 0x0 ;",
    b"job ; read 0x0",
    b"job read 0x0; write 0x0",
    b"job read 0x0 write 0x0",
    b"job map 0x0",
    b"end",
    b"end 0 1",
];

/// The first of these texts that is a line.
fn line_among(rows: &[&'static [u8]]) -> Option<&'static [u8]> {
    for text in rows {
        if parse_line(text).is_some() {
            return Some(text);
        }
    }
    None
}

#[test]
fn refuses_other_lines(rt: HostRuntime) {
    assert_eq!(rt; line_among(&OTHER_LINES), None);
}

#[test]
fn refuses_other_clauses(rt: HostRuntime) {
    assert_eq!(rt; line_among(&OTHER_CLAUSES), None);
}

#[test]
fn refuses_other_questions(rt: HostRuntime) {
    assert_eq!(rt; line_among(&OTHER_QUESTIONS), None);
}
