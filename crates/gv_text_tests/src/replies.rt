//! Replies as JSON: each kind, what is of no kind, and what has to be escaped.
use gv_json::{write_bad, write_no_memory, write_reply};
use std::test::Fail;

/// The first word of a line, its reply's text, and the members of its JSON behind the line's number.
type Row = (&'static [u8], &'static str, &'static str);

const REPLIES: &[Row] = &[
    // Replies of one line.
    (b"space", "ok\n", r#""ok":true"#),
    (b"limits", "ok\n", r#""ok":true"#),
    (b"timeline", "ok\n", r#""ok":true"#),
    (b"buffer", "ok\n", r#""ok":true"#),
    (
        b"buffer",
        "refused BadSize\n",
        r#""refused":{"fault":"BadSize"}"#,
    ),
    (
        b"destroy",
        "refused Mapped 2\n",
        r#""refused":{"fault":"Mapped","number":2}"#,
    ),
    (
        b"uses",
        "uses 3 kept 18446744073709551615\n",
        r#""uses":3,"kept":18446744073709551615"#,
    ),
    (
        b"raise",
        "t 18446744073709551615\n",
        r#""timeline":"t","value":18446744073709551615"#,
    ),
    (b"value", "refused 5\n", r#""timeline":"refused","value":5"#),
    (b"bind", "accepted 3\n", r#""accepted":3"#),
    (
        b"bind",
        "refused 1 OutOfBuffer\n",
        r#""refused":{"op":1,"fault":"OutOfBuffer"}"#,
    ),
    (
        b"bind",
        "refused 0 Conflict 7\n",
        r#""refused":{"op":0,"fault":"Conflict","number":7}"#,
    ),
    (
        b"bind",
        "refused QueueSpent\n",
        r#""refused":{"fault":"QueueSpent"}"#,
    ),
    (
        b"bind",
        "notready t 4 have 3\n",
        r#""notready":{"timeline":"t","value":4,"have":3}"#,
    ),
    (
        b"at",
        "b 0000000000001abc rw\n",
        r#""place":{"buffer":"b","offset":"0x1abc","ro":false}"#,
    ),
    (
        b"at",
        "none 0000000000000000 ro\n",
        r#""place":{"buffer":"none","offset":"0x0","ro":true}"#,
    ),
    (b"at", "zero ro\n", r#""place":{"zero":true,"ro":true}"#),
    (b"at", "none\n", r#""place":null"#),
    (b"tables", "1 1 1 2 10\n", r#""tables":[1,1,1,2,10]"#),
    (b"rewind", "rewound 1\n", r#""rewound":1"#),
    (
        b"rewind",
        "refused NoEntry\n",
        r#""refused":{"fault":"NoEntry"}"#,
    ),
    (b"withdraw", "withdrawn 1 as 3\n", r#""withdrawn":1,"as":3"#),
    (b"settle", "settled 0\n", r#""settled":0"#),
    (b"end", "ended 12\n", r#""ended":12"#),
    (b"put", "put 0\n", r#""put":0"#),
    (
        b"put",
        "refused QueueFull\n",
        r#""refused":{"fault":"QueueFull"}"#,
    ),
    (
        b"turn",
        "waits t 3 have 1\n",
        r#""waits":{"timeline":"t","value":3,"have":1}"#,
    ),
    (b"turn", "idle\n", r#""idle":true"#),
    (
        b"giveup",
        "notready t 3 have 1\n",
        r#""notready":{"timeline":"t","value":3,"have":1}"#,
    ),
    (b"giveup", "idle\n", r#""idle":true"#),
    (b"forget", "forgot 1000\n", r#""forgot":1000"#),
    (
        b"forget",
        "refused Held 0\n",
        r#""refused":{"fault":"Held","number":0}"#,
    ),
    (b"trim", "trimmed\n", r#""trimmed":true"#),
    (
        b"trim",
        "refused Held 7\n",
        r#""refused":{"fault":"Held","number":7}"#,
    ),
    (b"show", "withdrawal of 4\n", r#""withdrawal":4"#),
    (
        b"show",
        "refused NoEntry\n",
        r#""refused":{"fault":"NoEntry"}"#,
    ),
    (b"plan", "refused Empty\n", r#""refused":{"fault":"Empty"}"#),
    (
        b"job",
        "refused Unmapped 2\n",
        r#""refused":{"fault":"Unmapped","number":2}"#,
    ),
    // Replies that may have many lines.
    (b"map", "empty\n", r#""mappings":[]"#),
    (
        b"map",
        "0000000000000000 0000000000004000 b 0000000000000000 rw\n01ffffffffff0000 0200000000000000 zero ro\n",
        r#""mappings":[{"start":"0x0","end":"0x4000","buffer":"b","offset":"0x0","ro":false},{"start":"0x1ffffffffff0000","end":"0x200000000000000","zero":true,"ro":true}]"#,
    ),
    (b"plan", "empty\n", r#""steps":[]"#),
    (
        b"plan",
        "unmap 0000000000000000 0000000000001000 b 0000000000000000 rw keep\nunmap 0000000000001000 0000000000002000 zero rw\nmap 0000000000000000 0000000000002000 keep 0000000000003000 ro\n",
        r#""steps":[{"unmap":{"start":"0x0","end":"0x1000","buffer":"b","offset":"0x0","ro":false},"keep":true},{"unmap":{"start":"0x1000","end":"0x2000","zero":true,"ro":false},"keep":false},{"map":{"start":"0x0","end":"0x2000","buffer":"keep","offset":"0x3000","ro":true}}]"#,
    ),
    (
        b"plan",
        "remap 0000000000000000 0000000000004000 next 0000000000000000 rw prev 0000000000000000 0000000000001000 next 0000000000000000 rw next none\nremap 0000000000004000 0000000000006000 zero ro prev none next 0000000000005000 0000000000006000 zero ro keep\n",
        r#""steps":[{"remap":{"start":"0x0","end":"0x4000","buffer":"next","offset":"0x0","ro":false},"prev":{"start":"0x0","end":"0x1000","buffer":"next","offset":"0x0","ro":false},"next":null,"keep":false},{"remap":{"start":"0x4000","end":"0x6000","zero":true,"ro":true},"prev":null,"next":{"start":"0x5000","end":"0x6000","zero":true,"ro":true},"keep":true}]"#,
    ),
    (
        b"journal",
        "4 bind 0 2 live\n5 bind 15 0 withdrawn\n6 withdrawal of 5\n",
        r#""items":[{"item":4,"queue":0,"number":2,"live":true},{"item":5,"queue":15,"number":0,"live":false},{"item":6,"withdrawal":5}]"#,
    ),
    (
        b"told",
        "0 accepted 3\n1 refused 0 Empty\n2 notready t 4 have 3\n",
        r#""outcomes":[{"number":0,"accepted":3},{"number":1,"refused":{"op":0,"fault":"Empty"}},{"number":2,"notready":{"timeline":"t","value":4,"have":3}}]"#,
    ),
    (b"job", "job 0\n", r#""job":0,"places":[]"#),
    (
        b"job",
        "job 2\nb 0000000000001abc rw\nzero rw\n",
        r#""job":2,"places":[{"buffer":"b","offset":"0x1abc","ro":false},{"zero":true,"ro":false}]"#,
    ),
    (b"show", "empty\n", r#""operations":[]"#),
    (
        b"show",
        "map 0x1000 0x2000 b 0x0 ro\nmap 0x0 0x1000 ro 0x1000\nzero 0x0 0x1000\nzero 0x0 0x1000 ro\nunmap 0x0 0x1000\nunmapall b\n",
        r#""operations":[{"map":{"addr":"0x1000","len":"0x2000","buffer":"b","offset":"0x0","ro":true}},{"map":{"addr":"0x0","len":"0x1000","buffer":"ro","offset":"0x1000","ro":false}},{"zero":{"addr":"0x0","len":"0x1000","ro":false}},{"zero":{"addr":"0x0","len":"0x1000","ro":true}},{"unmap":{"addr":"0x0","len":"0x1000"}},{"unmapall":"b"}]"#,
    ),
    (b"past", "under none\n", r#""past":[],"under":null"#),
    (
        b"past",
        "9 withdrawn none\n7 live b 0000000000000abc ro\nunder zero rw\n",
        r#""past":[{"item":9,"live":false,"place":null},{"item":7,"live":true,"place":{"buffer":"b","offset":"0xabc","ro":true}}],"under":{"zero":true,"ro":false}"#,
    ),
    // Texts that are no reply of their kind are quoted.
    (b"bind", "", r#""text":"""#),
    (b"bind", "accepted 3", r#""text":"accepted 3""#),
    (b"bind", "accepted 3\nok\n", r#""text":"accepted 3\nok\n""#),
    (b"bind", "accepted 3 4\n", r#""text":"accepted 3 4\n""#),
    (b"bind", "accepted 03\n", r#""text":"accepted 03\n""#),
    (b"bind", "accepted +3\n", r#""text":"accepted +3\n""#),
    (
        b"bind",
        "accepted 18446744073709551616\n",
        r#""text":"accepted 18446744073709551616\n""#,
    ),
    (
        b"bind",
        "refused 1 Mapped 2 3\n",
        r#""text":"refused 1 Mapped 2 3\n""#,
    ),
    (b"bind", "taken 1\n", r#""text":"taken 1\n""#),
    (b"uses", "uses 1 held 2\n", r#""text":"uses 1 held 2\n""#),
    (b"at", "b 1abc rw\n", r#""text":"b 1abc rw\n""#),
    (
        b"at",
        "b 0000000000001ABC rw\n",
        r#""text":"b 0000000000001ABC rw\n""#,
    ),
    (
        b"at",
        "b 0000000000001abc\n",
        r#""text":"b 0000000000001abc\n""#,
    ),
    (b"tables", "1 1 1 1\n", r#""text":"1 1 1 1\n""#),
    (b"map", "empty\nempty\n", r#""text":"empty\nempty\n""#),
    (
        b"journal",
        "0 bind 0 0 gone\n",
        r#""text":"0 bind 0 0 gone\n""#,
    ),
    (
        b"show",
        "swap 0x0 0x1000\n",
        r#""text":"swap 0x0 0x1000\n""#,
    ),
    (
        b"show",
        "unmap 0x00 0x1000\n",
        r#""text":"unmap 0x00 0x1000\n""#,
    ),
    (b"past", "3 live none\n", r#""text":"3 live none\n""#),
    (
        b"mend",
        "\u{1}\"\\ \t\u{e9}\n",
        "\"text\":\"\\u0001\\\"\\\\ \\t\u{e9}\\n\"",
    ),
];

#[test]
fn each_reply_has_its_json(rt: HostRuntime) -> Result<(), Fail> {
    let alloc = rt.alloc();
    for (word, text, members) in REPLIES {
        let mut got = String::from_str(alloc, "before\n")?;
        write_reply(alloc, &mut got, 7, word, text)?;
        let wanted = format!(in alloc; "before\n{{\"line\":7,{members}}}\n")?;
        assert_eq!(rt; got, wanted);
    }
    Ok(())
}

/// Lines that are bad: their numbers, the columns, and why.
const BAD: [(u64, Option<u64>, &str); 2] = [
    (
        10,
        Some(5),
        "column 5: a tab; words are separated by one space",
    ),
    (11, None, "no such line: \"bnid\"; did you mean bind?"),
];

#[test]
fn what_is_no_reply_has_its_json(rt: HostRuntime) -> Result<(), Fail> {
    let alloc = rt.alloc();
    let mut got = String::new(alloc);
    for (line, column, reason) in &BAD {
        write_bad(alloc, &mut got, *line, *column, reason)?;
    }
    write_no_memory(alloc, &mut got, u64::MAX)?;
    let wanted =
        "{\"line\":10,\"bad\":\"column 5: a tab; words are separated by one space\",\"column\":5}\n{\"line\":11,\"bad\":\"no such line: \\\"bnid\\\"; did you mean bind?\"}\n{\"line\":18446744073709551615,\"outofmemory\":true}\n";
    assert!(rt; got.as_str() == wanted);
    Ok(())
}
