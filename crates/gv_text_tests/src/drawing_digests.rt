//! Scripts by chance, drawn: each picture, with how its drawing ended, has the digest that the first, plain way of drawing gave it.

mod digests;
mod made;

use crate::digest::digest_of;
use digests::DIGESTS;
use gv_draw::{Options, draw_script};
use std::fmt::Write;
use std::process::Abort;
use std::test::Fail;

/// What pictures say of the lines that are run.
const TOLD: &[&str] = &[
    " of0 0x",
    ">rewound ",
    ">withdrawn ",
    ">settled ",
    ">notready t ",
    ">refused 0 OutOfBuffer<",
    ">refused NoEntry<",
    ">refused Touched ",
];

/// The address around which each script is drawn a second time.
const AROUND: u64 = 0x9abc;

/// Draws a script, asserts the digest of the picture with how it ended, and adds both to what was seen.
fn expect_drawn(
    rt: &(impl AllocGlobal + Abort),
    script: &str,
    at: Option<u64>,
    wanted: u64,
    seen: &mut String,
) -> Result<(), Fail> {
    let options = Options { at, width: 1000 };
    let mut drawn = String::new(rt.alloc());
    let end = draw_script(rt.alloc(), script.as_bytes(), &options, &mut drawn);
    writeln!(drawn, "{end:?}")?;
    let digest = digest_of(drawn.as_str());
    assert!(rt; digest == wanted, "{digest:#018x} {at:?} {script}");
    seen.push_str(drawn.as_str())?;
    Ok(())
}

#[test]
fn scripts_are_drawn_alike(rt: HostRuntime) -> Result<(), Fail> {
    let mut seen = String::new(rt.alloc());
    for (seed, (whole, around)) in DIGESTS.iter().enumerate() {
        let script = made::script(rt.alloc(), seed as u64)?;
        expect_drawn(&rt, script.as_str(), None, *whole, &mut seen)?;
        expect_drawn(&rt, script.as_str(), Some(AROUND), *around, &mut seen)?;
    }
    for word in TOLD {
        assert!(rt; seen.as_str().contains(*word), "{word}");
    }
    let bad = seen.as_str().matches("Err(BadLine").count();
    assert!(rt; bad > 5 && bad <= 20, "{bad}");
    Ok(())
}
