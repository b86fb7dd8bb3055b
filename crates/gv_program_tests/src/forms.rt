//! Logs in each of the forms in which they are told.

use crate::trial::{Row, expect_parts, expect_rows};
use std::alloc::AllocError;

const LOG: &str = "timestamp=1, VA=0000000000010000-0000000000012000, destroyed=0, is_virtual=0\n\
    timestamp=2, VA=0000000000800000-0000000000802000, mapped_to=0000000000011000\n\
    timestamp=3, VA=0000000000010000-0000000000012000, destroyed=1, is_virtual=0\n";

const XE: &str =
    "game-4242 [004] 81204.331023: xe_vma_bind: dev=0000:03:00.0, vma=00000000c2f1b9d0, asid=0x00021, start=0x000000200000, end=0x0000003fffff, userptr=0x000000000000,\n\
    game-4242 [004] 81204.331100: xe_vma_bind: dev=0000:03:00.0, vma=00000000c2f1d400, asid=0x00021, start=0x000000400000, end=0x00000040ffff, userptr=0x000000000000,\n\
    kworker/u16:3-77 [002] 81204.340000: xe_vma_evict: dev=0000:03:00.0, vma=00000000c2f1b9d0, asid=0x00021, start=0x000000200000, end=0x0000003fffff, userptr=0x000000000000,\n\
    game-4242 [004] 81204.400000: xe_vma_unbind: dev=0000:03:00.0, vma=00000000c2f1b9d0, asid=0x00021, start=0x000000200000, end=0x0000003fffff, userptr=0x000000000000,\n";

const I915: &str =
    "game-4242 [004] 81204.331023: i915_vma_bind: obj=00000000f3a1c200, offset=0x0000000000200000 size=0x200000, mappable vm=00000000d00dfeed\n\
    game-4242 [004] 81204.331100: i915_vma_bind: obj=00000000f3a1d400, offset=0x0000000000400000 size=0x10000 vm=00000000d00dfeed\n\
    game-4243 [004] 81204.340000: i915_vma_bind: obj=00000000f3a1c200, offset=0x0000000000200000 size=0x200000 vm=00000000d00dfeed\n\
    game-4242 [004] 81204.400000: i915_vma_unbind: obj=00000000f3a1c200, offset=0x0000000000200000 size=0x200000 vm=00000000d00dfeed\n";

/// What both come to.
const REPORT: &str = "     3 binds of 2 buffers, 0 lines passed over
     1 events that only touch what stands
     0 maps over live mappings
     0 unmaps of nothing
     0 freed buffers that other mappings still reached
     0 binds to no live memory
     0 refused
     1 mappings alive at the end, of 1 buffers, 64 KiB; tables 1 1 1 1 1
0x210000: none
  line 4, 81204.400000 s: unmap 0x200000 0x200000: b1 0x10000 before
  line 1, 81204.331023 s: map 0x200000 0x200000 b1 0x0: none before
----
0";

#[test]
fn reports_logs_of_xe_and_i915(rt: HostRuntime) -> Result<(), AllocError> {
    let rows: [Row<'_>; 2] = [
        ("vmbind replay --format xe --at 0x210000", XE, REPORT),
        ("vmbind replay --format i915 --at 0x210000", I915, REPORT),
    ];
    expect_rows(&rt, &rows)
}

#[test]
fn tells_a_log_as_json(rt: HostRuntime) -> Result<(), AllocError> {
    let row = (
        "vmbind replay --format radv --json",
        LOG,
        ",\"at\":[]}\n----\n0",
    );
    expect_parts(&rt, row, "{\"binds\":2,\"buffers\":1,", &[])
}

/// What the picture of the log shows.
const DRAWN: &[&str] = &[
    " width=\"1200\" ",
    ">line 1: map 0x10000 0x2000 b1 0x0<",
    ">0.000000 s (memory made)<",
    ">OutOfBuffer<",
    ">line 3: unmapall b1<",
    ">b1",
];

/// A row for each line, with its number, its operation, and what became of it; and the mappings with their buffers' names.
#[test]
fn draws_a_log(rt: HostRuntime) -> Result<(), AllocError> {
    let words = "vmbind replay --format radv --draw --width 1200";
    let row = (words, LOG, "</svg>\n----\n0");
    expect_parts(&rt, row, "<svg ", DRAWN)
}

/// Sizes are measured first where the format wants it, and the picture is around the first address.
#[test]
fn draws_a_log_around_an_address(rt: HostRuntime) -> Result<(), AllocError> {
    let words = "vmbind replay --format amdgpu --draw --at 0xab1000 --at 0x0";
    let parts = [">Around 0xab1000<", ">line 1: map 0xab0000 0x2000 b1 0x0<"];
    expect_parts(&rt, (words, EVENT, "--\n0"), "", &parts)
}

const EVENT: &str = "amdgpu_vm_bo_map: bo=0xf0, start=ab0, last=ab1, offset=0000000000, flags=70\n";

/// An address is hexadecimal, however it is written.
#[test]
fn takes_each_form_of_an_address(rt: HostRuntime) -> Result<(), AllocError> {
    for words in [
        "vmbind replay --format amdgpu --draw --at ab1000",
        "vmbind replay --format amdgpu --draw --at 0XAB1000",
        "vmbind replay --format amdgpu --draw --at 00000000000000ab1000",
    ] {
        expect_parts(&rt, (words, EVENT, "--\n0"), "", &[">Around 0xab1000<"])?;
    }
    Ok(())
}

const TWO_FORMS: &str = "--vmbind: more than one form\n--\n2";

#[test]
fn refuses_two_forms(rt: HostRuntime) -> Result<(), AllocError> {
    let rows: [Row<'_>; 3] = [
        (
            "vmbind replay --format radv --json --script",
            LOG,
            TWO_FORMS,
        ),
        ("vmbind replay --format radv --draw --json", LOG, TWO_FORMS),
        (
            "vmbind replay --format radv --script --draw",
            LOG,
            TWO_FORMS,
        ),
    ];
    expect_rows(&rt, &rows)
}
