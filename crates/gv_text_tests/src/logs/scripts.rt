//! Logs written as scripts.

use crate::logs::told::{expect_ends, expect_told};
use crate::told::times;
use gv_text::{MemorySink, MemorySource, run_script};
use std::alloc::AllocError;
use std::process::Abort;

const LOG: &str = "timestamp=1, VA=0000000000010000-0000000000030000, destroyed=0, is_virtual=0\n\
    timestamp=2, VA=0000000000800000-0000000000810000, destroyed=0, is_virtual=1\n\
    noise\n\
    timestamp=3, VA=0000000000800000-0000000000801000, mapped_to=000000000001f000\n\
    timestamp=4, VA=0000000000802000-0000000000803000, mapped_to=0000000000000000\n\
    timestamp=5, VA=0000000000010000-0000000000030000, destroyed=1, is_virtual=0\n\
    timestamp=6, VA=0000000000800000-0000000000810000, destroyed=1, is_virtual=1\n";

const WANTED: &str = "buffer b1 32\n\
    bind map 0x10000 0x20000 b1 0x0\n\
    bind zero 0x800000 0x10000\n\
    bind map 0x800000 0x1000 b1 0xf000\n\
    bind zero 0x802000 0x1000\n\
    bind unmapall b1\n\
    bind unmap 0x800000 0x10000\n";

const REPLIES: &[u8] =
    b"ok\naccepted 0\naccepted 1\naccepted 2\naccepted 3\naccepted 4\naccepted 5\n";

const OF_XE: &str =
    "xe_vma_bind: vma=f0, asid=0x00021, start=0x200000, end=0x201fff, userptr=0x0,\n\
    xe_vma_evict: vma=f0, asid=0x00021, start=0x200000, end=0x201fff, userptr=0x0,\n\
    xe_vma_unbind: vma=f1, asid=0x00021, start=0x201000, end=0x201fff, userptr=0x0,\n\
    xe_vm_free: vm=00000000aa, asid=0x00021\n";

const WANTED_OF_XE: &str = "buffer b1 2\n\
    bind map 0x200000 0x2000 b1 0x0\n\
    bind unmap 0x201000 0x1000\n\
    bind unmap 0x0 0x200000000000000\n";

const REPLIES_OF_XE: &[u8] = b"ok\naccepted 0\naccepted 1\naccepted 2\n";

/// Runs a script, and asserts its replies.
fn expect_replies(rt: &(impl Abort + AllocGlobal), script: &str, wanted: &[u8]) {
    let mut replies = MemorySink::new(rt.alloc());
    let mut source = MemorySource::new(script.as_bytes());
    let ended = run_script(rt.alloc(), &mut source, &mut replies);
    assert!(rt; ended == Ok(()) && replies.bytes() == wanted);
}

#[test]
fn a_log_is_a_script_that_runs(rt: HostRuntime) -> Result<(), AllocError> {
    expect_told(&rt, "--format radv --script", LOG.as_bytes(), WANTED)?;
    expect_replies(&rt, WANTED, REPLIES);
    Ok(())
}

/// An address space that goes is an unmap of all of it.
#[test]
fn a_log_of_xe_is_a_script_that_runs(rt: HostRuntime) -> Result<(), AllocError> {
    expect_told(&rt, "--format xe --script", OF_XE.as_bytes(), WANTED_OF_XE)?;
    expect_replies(&rt, WANTED_OF_XE, REPLIES_OF_XE);
    Ok(())
}

#[test]
fn a_script_that_run_refuses_says_so(rt: HostRuntime) -> Result<(), AllocError> {
    let log = times(rt.alloc(), 7_000, LOG)?;
    let ends = (
        "# more bytes than vmbind run takes: for vmbind serve\nbuffer b1 32\n",
        "bind unmap 0x800000 0x10000\n",
    );
    expect_ends(&rt, "--format radv --script", log.as_bytes(), ends)
}
