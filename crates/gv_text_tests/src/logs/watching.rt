//! A watcher is told each step.

use crate::logs::counts::{Counts, NONE};
use crate::logs::told::terms_of;
use gv_replay::{ReplayFault, watch};
use gv_text::MemorySource;

const LOG: &[u8] = b"timestamp=1, VA=0000000000010000-0000000000030000, destroyed=0, is_virtual=0\n\
    timestamp=2, VA=0000000000800000-0000000000800000, destroyed=0, is_virtual=1\n\
    timestamp=3, VA=0000000000018000-0000000000019000, mapped_to=0000000000018000\n\
    timestamp=4, VA=0000000000010000-0000000000030000, destroyed=1, is_virtual=0\n\
    timestamp=5, VA=0000000000800000-0000000000810000, destroyed=0, is_virtual=1\n";

#[test]
fn a_watcher_is_told_each_step_and_may_end_it(rt: HostRuntime) {
    let mut counts = Counts { last: 4, ..NONE };
    let terms = terms_of("--format radv", &[]);
    let ended = watch(rt.alloc(), &mut MemorySource::new(LOG), &terms, &mut counts);
    assert!(rt; ended == Err(ReplayFault::WriteFault));
    let told = (counts.made, counts.bound, counts.refused);
    assert!(rt; told == (1, 4, 1));
    assert!(rt; (counts.done, counts.mappings) == (5, 0));
}
