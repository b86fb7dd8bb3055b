//! Rows of logs of several address spaces. The lines that are wanted are written from the rules.

use crate::logs::told::Row;

/// Two spaces of xe, in each of which one pointer is bound at one range; the second unbinds another.
const TWO: &str = "xe_vma_bind: vma=f0, asid=0x00021, start=0x200000, end=0x200fff, userptr=0x0,\n\
    xe_vma_bind: vma=f0, asid=0x00022, start=0x200000, end=0x200fff, userptr=0x0,\n\
    no event\n\
    xe_vma_unbind: vma=f1, asid=0x00022, start=0x300000, end=0x300fff, userptr=0x0,\n";

pub const ROWS: &[Row<'static>] = &[
    (
        "pointers and ranges of one space are none of another's",
        "--format xe",
        "xe_vma_bind: vma=f0, asid=0x00021, start=0x200000, end=0x200fff, userptr=0x0,\n\
            xe_vma_bind: vma=f0, asid=0x00022, start=0x200000, end=0x200fff, userptr=0x0,\n\
            xe_vma_unbind: vma=f0, asid=0x00021, start=0x200000, end=0x200fff, userptr=0x0,\n\
            xe_vma_unbind: vma=f0, asid=0x00022, start=0x200000, end=0x200fff, userptr=0x0,\n",
        "nothing found in space 0x21, 0x22",
    ),
    (
        "a space with a finding is told, and lines of others do nothing in it",
        "--format xe",
        TWO,
        "space 0x22:
     2 binds of 1 buffers, 2 lines passed over
     1 unmaps of nothing
         line 4: unmap 0x300000 0x1000 (VMA not known)
     1 mappings alive at the end, of 1 buffers, 4 KiB; tables 1 1 1 1 1
nothing found in space 0x21",
    ),
    (
        "a space that is asked is told alone",
        "--format xe --space 0x21",
        TWO,
        "     1 binds of 1 buffers, 3 lines passed over
     0 unmaps of nothing",
    ),
    (
        "its name is hexadecimal as the log writes it",
        "--format xe --space 00022",
        TWO,
        "     2 binds of 1 buffers, 2 lines passed over",
    ),
    (
        "of a process a space that is asked is taken once the process has a VMA in it",
        "--format xe --pid 42 --space 22",
        "game-42 [000] 1.0: xe_vma_bind: vma=f0, asid=0x00021, start=0x200000, end=0x200fff, userptr=0x0,\n\
            Xorg-7 [000] 1.0: xe_vma_bind: vma=f0, asid=0x00022, start=0x200000, end=0x200fff, userptr=0x0,\n\
            game-42 [000] 1.0: xe_vma_bind: vma=f1, asid=0x00022, start=0x300000, end=0x300fff, userptr=0x0,\n\
            Xorg-7 [000] 1.0: xe_vma_bind: vma=f2, asid=0x00022, start=0x400000, end=0x400fff, userptr=0x0,\n",
        "     2 binds of 2 buffers, 2 lines passed over",
    ),
    (
        "a space in which an address that is asked reaches something, or did, is told",
        "--format xe --at 0x200000",
        "xe_vma_bind: vma=f0, asid=0x00021, start=0x200000, end=0x200fff, userptr=0x0,\n\
            xe_vma_bind: vma=f0, asid=0x00022, start=0x200000, end=0x200fff, userptr=0x0,\n\
            xe_vma_bind: vma=f0, asid=0x00023, start=0x300000, end=0x300fff, userptr=0x0,\n\
            xe_vm_free: vm=00000000aa, asid=0x00021\n",
        "space 0x21:
0x200000: none
  line 4: unmap 0x0 0x200000000000000 (address space gone): b1 0x0 before
space 0x22:
0x200000: b1 0x0
nothing found in space 0x23",
    ),
    (
        "a space without a VMA is none",
        "--format xe",
        "xe_vm_create: vm=00000000aa, asid=0x00021\n\
            xe_vma_bind: vma=f0, asid=0x00022, start=0x200000, end=0x200fff, userptr=0x0,\n\
            xe_vm_free: vm=00000000aa, asid=0x00021\n",
        "     1 binds of 1 buffers, 2 lines passed over
     0 refused",
    ),
    (
        "a log of no space with a VMA",
        "--format xe",
        "xe_vm_create: vm=00000000aa, asid=0x00021\n\
            xe_vm_free: vm=00000000aa, asid=0x00022\n",
        "     0 binds of 0 buffers, 2 lines passed over
     0 mappings alive at the end, of 0 buffers, 0 KiB; tables 0 0 0 0 0",
    ),
    (
        "those of i915 are told apart by vm",
        "--format i915",
        "i915_vma_bind: obj=f0, offset=0x200000 size=0x1000 vm=00000000d00dfeed\n\
            i915_vma_unbind: obj=f0, offset=0x200000 size=0x1000 vm=00000000d00dbeef\n",
        "space 0xd00dbeef:
         line 2: unmap 0x200000 0x1000 (VMA not known)
nothing found in space 0xd00dfeed",
    ),
    (
        "spaces as JSON",
        "--format xe --json",
        TWO,
        "{\"spaces\":[{\"space\":\"0x22\",\
            \"binds\":2,\"buffers\":1,\"passed_over\":2,\
            \"over_live\":{\"count\":0,\"places\":[]},\
            \"of_nothing\":{\"count\":1,\"places\":[{\"line\":4,\
            \"op\":\"unmap 0x300000 0x1000\",\"cause\":\"VMA not known\"}]},\
            \"still_reached\":{\"count\":0,\"places\":[]},\
            \"to_no_memory\":{\"count\":0,\"places\":[]},\
            \"refused\":{\"count\":0,\"places\":[]},\
            \"alive\":{\"mappings\":1,\"buffers\":1,\"bytes\":4096,\"tables\":[1,1,1,1,1]},\"at\":[]}],\
            \"nothing_found\":[{\"space\":\"0x21\"}]}",
    ),
    (
        "the mappings of one space",
        "--format xe --mappings --space 0x22",
        "xe_vma_bind: vma=f0, asid=0x00021, start=0x200000, end=0x200fff, userptr=0x0,\n\
            xe_vma_bind: vma=f0, asid=0x00022, start=0x300000, end=0x302fff, userptr=0x0,\n\
            xe_vma_unbind: vma=f1, asid=0x00022, start=0x301000, end=0x301fff, userptr=0x0,\n",
        "0000000000300000 0000000000301000 b1 0000000000000000 rw
0000000000302000 0000000000303000 b1 0000000000002000 rw",
    ),
];
