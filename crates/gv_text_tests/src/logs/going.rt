//! More memory comes and goes than may live at once.

use crate::logs::counts::NONE;
use crate::logs::forms::{Given, write_form};
use crate::logs::told::terms_of;
use gv_replay::watch;
use gv_text::MemorySource;
use std::test::Fail;

/// So many buffers are made and freed, each before the next.
const BUFFERS: u64 = 80_000;

const ROUND: &str =
    "timestamp=$t, VA=0000000000010000-0000000000012000, destroyed=0, is_virtual=0\n\
    timestamp=$t, VA=0000000000010000-0000000000012000, destroyed=1, is_virtual=0\n";

/// Of 160,000 entries the last 65,536 are held. A buffer goes with the first line behind which no entry keeps it: the entry that freed
/// it is settled.
#[test]
fn freed_buffers_go_once_no_entry_keeps_them(rt: HostRuntime) -> Result<(), Fail> {
    let mut log = String::new(rt.alloc());
    for time in 0..BUFFERS {
        write_form(&mut log, ROUND, &mut Given(&[(b't', time)]))?;
    }
    let mut gone = NONE;
    let terms = terms_of("--format radv", &[]);
    let mut source = MemorySource::new(log.as_bytes());
    watch(rt.alloc(), &mut source, &terms, &mut gone)?;
    let told = (gone.refused, gone.settled, gone.destroyed);
    assert!(rt; told == (0, 94_464, 47_232));
    Ok(())
}
