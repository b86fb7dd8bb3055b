//! Rows for each event and each trap of xe. The lines that are wanted are written from the rules.

use crate::logs::told::Row;

pub const ROWS: &[Row<'static>] = &[
    (
        "an end lies inside its range, and a comma stands at the end",
        "--format xe --at 0x201fff --at 0x202000",
        "game-1 [000] 1.5: xe_vma_bind: dev=0000:03:00.0, vma=00000000c2f1b9d0, asid=0x00021, start=0x000000200000, end=0x000000201fff, userptr=0x000000000000,\n",
        "     1 binds of 1 buffers, 0 lines passed over
     1 mappings alive at the end, of 1 buffers, 8 KiB; tables 1 1 1 1 1
0x201fff: b1 0x1fff
  line 1, 1.500000 s: map 0x200000 0x2000 b1 0x0: none before
0x202000: none",
    ),
    (
        "a VMA that is cut goes, its rests are VMAs from their byte 0 on, and its pointer comes again",
        "--format xe --at 0x205010 --at 0x208000",
        "xe_vma_bind: vma=f0, asid=0x00021, start=0x200000, end=0x20ffff, userptr=0x0,\n\
            xe_vma_unbind: vma=f0, asid=0x00021, start=0x200000, end=0x20ffff, userptr=0x0,\n\
            xe_vma_bind: vma=f1, asid=0x00021, start=0x200000, end=0x203fff, userptr=0x0,\n\
            xe_vma_bind: vma=f2, asid=0x00021, start=0x208000, end=0x20ffff, userptr=0x0,\n\
            xe_vma_bind: vma=f0, asid=0x00021, start=0x204000, end=0x207fff, userptr=0x0,\n",
        "     5 binds of 4 buffers, 0 lines passed over
     0 maps over live mappings
     0 unmaps of nothing
     0 freed buffers that other mappings still reached
     3 mappings alive at the end, of 3 buffers, 64 KiB; tables 1 1 1 1 1
0x205010: b4 0x1010
  line 5: map 0x204000 0x4000 b4 0x0: none before
  line 2: unmap 0x200000 0x10000: b1 0x5010 before
  line 1: map 0x200000 0x10000 b1 0x0: none before
0x208000: b3 0x0",
    ),
    (
        "a bind of what stands at just this range is a prefetch",
        "--format xe",
        "xe_vma_bind: vma=f0, asid=0x00021, start=0x200000, end=0x20ffff, userptr=0x0,\n\
            xe_vma_bind: vma=f0, asid=0x00021, start=0x200000, end=0x20ffff, userptr=0x0,\n\
            xe_vma_unbind: vma=f0, asid=0x00021, start=0x200000, end=0x20ffff, userptr=0x0,\n\
            xe_vma_bind: vma=f0, asid=0x00021, start=0x200000, end=0x20ffff, userptr=0x0,\n",
        "     3 binds of 2 buffers, 0 lines passed over
     1 events that only touch what stands
     0 maps over live mappings",
    ),
    (
        "a bind of what no longer stands whole maps it again",
        "--format xe",
        "xe_vma_bind: vma=f0, asid=0x00021, start=0x200000, end=0x20ffff, userptr=0x0,\n\
            xe_vma_bind: vma=f1, asid=0x00021, start=0x204000, end=0x204fff, userptr=0x0,\n\
            xe_vma_bind: vma=f0, asid=0x00021, start=0x200000, end=0x20ffff, userptr=0x0,\n",
        "     4 binds of 3 buffers, 0 lines passed over
     2 maps over live mappings
         line 2: map 0x204000 0x1000 b2 0x0: 1 mapping
         line 3: map 0x200000 0x10000 b3 0x0: 1 mapping
         line 3: b1, made at line 1, 16 pages: 2 mappings
     1 mappings alive at the end, of 1 buffers, 64 KiB; tables 1 1 1 1 1",
    ),
    (
        "a pointer that is bound elsewhere while it stands is another VMA's",
        "--format xe",
        "xe_vma_bind: vma=f0, asid=0x00021, start=0x200000, end=0x20ffff, userptr=0x0,\n\
            xe_vma_bind: vma=f0, asid=0x00021, start=0x300000, end=0x300fff, userptr=0x0,\n\
            xe_vma_unbind: vma=f0, asid=0x00021, start=0x300000, end=0x300fff, userptr=0x0,\n",
        "     4 binds of 2 buffers, 0 lines passed over
     0 unmaps of nothing
     1 freed buffers that other mappings still reached
         line 2: b1, made at line 1, 16 pages: 1 mapping
     0 mappings alive at the end, of 0 buffers, 0 KiB; tables 0 0 0 0 0",
    ),
    (
        "an unbind of a VMA that isn't known or stands elsewhere is a finding",
        "--format xe --at 0x200000 --at 0x300000",
        "xe_vma_bind: vma=f0, asid=0x00021, start=0x200000, end=0x20ffff, userptr=0x0,\n\
            xe_vma_bind: vma=f1, asid=0x00021, start=0x300000, end=0x30ffff, userptr=0x0,\n\
            xe_vma_unbind: vma=f2, asid=0x00021, start=0x200000, end=0x200fff, userptr=0x0,\n\
            xe_vma_unbind: vma=f1, asid=0x00021, start=0x300000, end=0x300fff, userptr=0x0,\n\
            xe_vma_unbind: vma=f0, asid=0x00021, start=0x200000, end=0x20ffff, userptr=0x0,\n\
            xe_vma_unbind: vma=f0, asid=0x00021, start=0x200000, end=0x20ffff, userptr=0x0,\n",
        "     7 binds of 2 buffers, 0 lines passed over
     3 unmaps of nothing
         line 3: unmap 0x200000 0x1000 (VMA not known)
         line 4: unmap 0x300000 0x1000 (VMA bound elsewhere): at 0x300000 0x10000, line 2
         line 6: unmap 0x200000 0x10000 (VMA not known)
     0 freed buffers that other mappings still reached
     0 mappings alive at the end, of 0 buffers, 0 KiB; tables 0 0 0 0 0
0x200000: none
  line 3: unmap 0x200000 0x1000 (VMA not known): b1 0x0 before
  line 4: unmapall b2 (VMA bound elsewhere): b2 0x0 before",
    ),
    (
        "an unbind of a VMA of which nothing is left is one of nothing",
        "--format xe",
        "xe_vma_bind: vma=f0, asid=0x00021, start=0x200000, end=0x200fff, userptr=0x0,\n\
            xe_vma_unbind: vma=f1, asid=0x00021, start=0x200000, end=0x200fff, userptr=0x0,\n\
            xe_vma_unbind: vma=f0, asid=0x00021, start=0x200000, end=0x200fff, userptr=0x0,\n",
        "     2 unmaps of nothing
         line 3: unmap 0x200000 0x1000",
    ),
    (
        "other events of VMAs only touch what stands",
        "--format xe",
        "xe_vma_pf_bind: vma=f0, asid=0x00021, start=0x200000, end=0x20ffff, userptr=0x0,\n\
            xe_vma_pagefault: vma=f0, asid=0x00021, start=0x200000, end=0x20ffff, userptr=0x0,\n\
            xe_vma_acc: vma=f0, asid=0x00021, start=0x200000, end=0x20ffff, userptr=0x0,\n\
            xe_vma_flush: vma=f0, asid=0x00021, start=0x200000, end=0x20ffff, userptr=0x0,\n\
            xe_vma_evict: vma=f0, asid=0x00021, start=0x200000, end=0x20ffff, userptr=0x0,\n\
            xe_vma_invalidate: vma=f0, asid=0x00021, start=0x200000, end=0x20ffff, userptr=0x0,\n\
            xe_vma_rebind_worker: vma=f0, asid=0x00021, start=0x200000, end=0x20ffff, userptr=0x0,\n\
            xe_vma_rebind_exec: vma=f0, asid=0x00021, start=0x200000, end=0x20ffff, userptr=0x0,\n\
            xe_vma_userptr_invalidate: vma=f0, asid=0x00021, start=0x200000, end=0x20ffff, userptr=0x7f00,\n\
            xe_vma_userptr_rebind_exec: vma=f0, asid=0x00021, start=0x200000, end=0x20ffff, userptr=0x7f00,\n\
            xe_vma_binds: vma=f0, asid=0x00021, start=0x200000, end=0x20ffff, userptr=0x0,\n\
            xe_vma_acc vma=f0, asid=0x00021, start=0x200000, end=0x20ffff, userptr=0x0,\n",
        "     0 binds of 0 buffers, 2 lines passed over
    10 events that only touch what stands",
    ),
    (
        "memory of the process",
        "--format xe --at 0x200000",
        "xe_vma_bind: vma=f0, asid=0x00021, start=0x200000, end=0x200fff, userptr=0x7f0000001000,\n",
        "  line 1: map 0x200000 0x1000 b1 0x0 (memory of the process): none before",
    ),
    (
        "an address space takes its VMAs along, and its number comes again",
        "--format xe --at 0x200000",
        "xe_vm_create: dev=0000:03:00.0, vm=00000000aa, asid=0x00021\n\
            xe_vma_bind: vma=f0, asid=0x00021, start=0x200000, end=0x201fff, userptr=0x0,\n\
            xe_vma_bind: vma=f1, asid=0x00021, start=0x300000, end=0x300fff, userptr=0x0,\n\
            xe_vm_free: dev=0000:03:00.0, vm=00000000aa, asid=0x00021\n\
            xe_vm_create: dev=0000:03:00.0, vm=00000000aa, asid=0x00021\n\
            xe_vma_bind: vma=f0, asid=0x00021, start=0x300000, end=0x303fff, userptr=0x0,\n\
            xe_vma_unbind: vma=f1, asid=0x00021, start=0x300000, end=0x300fff, userptr=0x0,\n\
            xe_vm_create: dev=0000:03:00.0, vm=00000000bb, asid=0x00021\n\
            xe_vma_unbind: vma=f0, asid=0x00021, start=0x300000, end=0x303fff, userptr=0x0,\n",
        "     7 binds of 3 buffers, 1 lines passed over
     0 maps over live mappings
     2 unmaps of nothing
         line 7: unmap 0x300000 0x1000 (VMA not known)
         line 9: unmap 0x300000 0x4000 (VMA not known)
     0 freed buffers that other mappings still reached
     0 mappings alive at the end, of 0 buffers, 0 KiB; tables 0 0 0 0 0
0x200000: none
  line 8: unmap 0x0 0x200000000000000 (address space made): none before
  line 4: unmap 0x0 0x200000000000000 (address space gone): b1 0x0 before",
    ),
    (
        "of one address space that is asked the events are taken, from its first VMA on",
        "--format xe --space 0x123456",
        "xe_vm_create: vm=00000000aa, asid=0x00021\n\
            xe_vma_bind: vma=f0, asid=0x123456, start=0x200000, end=0x200fff, userptr=0x0,\n\
            xe_vma_bind: vma=f1, asid=0x00021, start=0x200000, end=0x200fff, userptr=0x0,\n\
            xe_vma_unbind: vma=f0, asid=0x23456, start=0x200000, end=0x200fff, userptr=0x0,\n\
            xe_vm_free: vm=00000000aa, asid=0x00021\n",
        "     1 binds of 1 buffers, 4 lines passed over
     0 maps over live mappings
     1 mappings alive at the end, of 1 buffers, 4 KiB; tables 1 1 1 1 1",
    ),
    (
        "of a process its first address space is taken, with what workers do to it",
        "--format xe --pid 42",
        "Xorg-7 [000] 1.0: xe_vma_bind: vma=f0, asid=0x00020, start=0x200000, end=0x200fff, userptr=0x0,\n\
            game 42 [000] 1.0: xe:xe_vma_bind: vma=f1, asid=0x00021, start=0x200000, end=0x200fff, userptr=0x0,\n\
            xe-42 [000] 1.0: xe_vma_bind: vma=f2, asid=0x00021, start=0x201000, end=0x201fff, userptr=0x0,\n\
            a b-7-43 (     42) [000] ..... 1.0: xe_vma_bind: vma=f3, asid=0x00021, start=0x202000, end=0x202fff, userptr=0x0,\n\
            kworker/u8:1-9 [000] 1.0: xe_vma_evict: vma=f1, asid=0x00021, start=0x200000, end=0x200fff, userptr=0x0,\n\
            kworker/u8:1-9 [000] 1.0: xe_vm_free: vm=00000000aa, asid=0x00021\n\
            game-42 [000] 1.0: xe_vma_bind: vma=f4, asid=0x00022, start=0x200000, end=0x200fff, userptr=0x0,\n",
        "     4 binds of 3 buffers, 2 lines passed over
     1 events that only touch what stands
     0 mappings alive at the end, of 0 buffers, 0 KiB; tables 0 0 0 0 0",
    ),
    (
        "fields stand in any order, and a line that lacks one is passed over",
        "--format xe",
        "xe_vma_bind: userptr=0x0 new=7 end=0x200fff start=0x200000 asid=0x00021 vma=0xffff9d4a87c59000\r\n\
            xe_vma_bind: vma=f1, asid=0x00021, start=0x300000, end=0x300fff,\n\
            xe_vma_bind: vma=f1, asid=0x00021, start=0x300000, userptr=0x0,\n\
            xe_vma_bind: vma=f1, asid=0x00021, end=0x300fff, userptr=0x0,\n\
            xe_vma_bind: vma=f1, start=0x300000, end=0x300fff, userptr=0x0,\n\
            xe_vma_bind: vma=          (nil), asid=0x00021, start=0x300000, end=0x300fff, userptr=0x0,\n\
            xe_vma_bind: vma=f1, asid=0x00021, start=0x300000, end=0x2fffff, userptr=0x0,\n\
            xe_vma_bind: vma=f1, asid=0x00021, start=0x300000, end=0x00000000000300fff, userptr=0x0,\n\
            xe_vma_bind: vma=f1, asid=0x00021, start=0x0, end=0xffffffffffffffff, userptr=0x0,\n\
            xe_vma_bind: vma=f1, asid=0x00021, start=0x1000, end=0xffffffffffffffff, userptr=0x0,\n\
            xe_vma_bind: vma=f1, asid=0x00021, start=0x300000, end=0x300fff, userptr=0x,\n\
            xe_vm_free: vm=00000000aa\n\
            xe_vma_bind: vma=f1, asid=0x00021, start=0x3000",
        "     1 binds of 1 buffers, 12 lines passed over",
    ),
    (
        "a VMA whose bind is refused isn't known",
        "--format xe",
        "xe_vma_bind: vma=f0, asid=0x00021, start=0x200800, end=0x200fff, userptr=0x0,\n\
            xe_vma_unbind: vma=f0, asid=0x00021, start=0x200800, end=0x200fff, userptr=0x0,\n",
        "     0 binds of 1 buffers, 0 lines passed over
         line 2: unmap 0x200800 0x800 (VMA not known)
     2 refused
         line 1: map 0x200800 0x800 b1 0x0: Unaligned
         line 2: unmap 0x200800 0x800 (VMA not known): Unaligned",
    ),
    (
        "places as JSON",
        "--format xe --json",
        "xe_vma_bind: vma=f0, asid=0x00021, start=0x200000, end=0x201fff, userptr=0x0,\n\
            xe_vma_flush: vma=f0, asid=0x00021, start=0x200000, end=0x201fff, userptr=0x0,\n\
            game-1 [000] 1.5: xe_vma_unbind: vma=f0, asid=0x00021, start=0x200000, end=0x200fff, userptr=0x0,\n\
            xe_vma_unbind: vma=f0, asid=0x00021, start=0x200000, end=0x201fff, userptr=0x0,\n",
        "{\"binds\":4,\"buffers\":1,\"passed_over\":0,\"touched\":1,\
            \"over_live\":{\"count\":0,\"places\":[]},\
            \"of_nothing\":{\"count\":2,\"places\":[{\"line\":3,\"time\":\"1.500000\",\
            \"op\":\"unmap 0x200000 0x1000\",\"cause\":\"VMA bound elsewhere\",\
            \"addr\":\"0x200000\",\"len\":\"0x2000\",\"made_at\":1},\
            {\"line\":4,\"op\":\"unmap 0x200000 0x2000\",\"cause\":\"VMA not known\"}]},\
            \"still_reached\":{\"count\":0,\"places\":[]},\
            \"to_no_memory\":{\"count\":0,\"places\":[]},\
            \"refused\":{\"count\":0,\"places\":[]},\
            \"alive\":{\"mappings\":0,\"buffers\":0,\"bytes\":0,\"tables\":[0,0,0,0,0]},\"at\":[]}",
    ),
];
