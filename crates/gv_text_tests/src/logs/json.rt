//! Reports as JSON.

use crate::logs::json_rows::{FREED, ROWS};
use crate::logs::told::{expect_ends, expect_rows, told};
use crate::told::times;
use serde_json::Value;
use std::alloc::AllocError;
use std::test::Fail;

const JSON: &str = "--format radv --json --at 0x800010";

/// Places of a report, and what stands there; nothing where there is none.
const PLACES: &[(&str, &str)] = &[
    ("/binds", "3"),
    ("/still_reached/count", "1"),
    ("/still_reached/places/0/made_at", "1"),
    ("/refused/places/1/line", "6"),
    ("/alive/tables/4", "0"),
    ("/to_no_memory/places/0/to", "\"0x10000\""),
    ("/at/0/before/0/place/buffer", "\"b1\""),
    ("/at/0/before/1/op", "\"map 0x800000 0x1000 b1 0x0\""),
    ("/first", ""),
];

#[test]
fn rows_have_their_object(rt: HostRuntime) -> Result<(), AllocError> {
    expect_rows(&rt, ROWS)
}

#[test]
fn a_report_is_read_as_json(rt: HostRuntime) -> Result<(), Fail> {
    let text = told(rt.alloc(), JSON, FREED.as_bytes())?;
    assert!(rt; text.as_str().ends_with("}\n"));
    let report = Value::from_str(rt.alloc(), text.as_str())?;
    for (path, wanted) in PLACES {
        let told = match report.pointer(path) {
            Some(value) => value.to_string(rt.alloc())?,
            None => String::new(rt.alloc()),
        };
        assert!(rt; told.as_str() == *wanted, "{path}");
    }
    Ok(())
}

/// Ten binds more than are held.
#[test]
fn binds_that_are_no_longer_held_are_counted(rt: HostRuntime) -> Result<(), AllocError> {
    let line = "timestamp=1, VA=0000000000010000-0000000000011000, destroyed=1, is_virtual=1\n";
    let log = times(rt.alloc(), 65_546, line)?;
    let ends = (
        "{\"binds\":65546,\"buffers\":0,",
        ",\"at\":[{\"addr\":\"0x800010\",\"place\":null,\"before\":[]}],\"first\":10}\n",
    );
    expect_ends(&rt, JSON, log.as_bytes(), ends)
}
