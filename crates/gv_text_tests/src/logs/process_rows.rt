//! Rows of lists of several address spaces, and of logs of several processes. The lines that are wanted are written from the rules.

use crate::logs::told::Row;

/// Lists of two spaces: objects of one are none of the other's.
const LISTS: &str = "DRM GPU VA space (vm) [0x0;0x1]\n\
    | 0x3000 | 0x4000 | 0x7000 | 0xf0 | 0x8000\n\
    DRM GPU VA space (vm) [0x0;0x1]\n\
    | 0x1000 | 0x1000 | 0x2000 | 0xf1 | 0x0\n\
    | 0x3000 | 0x1000 | 0x4000 | 0xf0 | 0x0\n";

/// Two processes of amdgpu, which know objects by one pointer; the second unmaps what it hasn't mapped.
const PROCESSES: &str =
    "game-1 (   42) [000] 1.0: amdgpu_vm_bo_map: bo=0xf0, start=100, last=101, offset=0000000000, flags=40\n\
    Xorg-7 (    7) [000] 1.0: amdgpu_vm_bo_map: bo=0xf0, start=100, last=102, offset=0000000000, flags=40\n\
    no event\n\
    Xorg-8 (    7) [000] 1.5: amdgpu_vm_bo_unmap: bo=0xf0, start=200, last=200, offset=0000000000, flags=40\n";

pub const ROWS: &[Row<'static>] = &[
    (
        "a list that is asked by the number of its head",
        "--format gpuvas --at 0x3000 --space 2",
        LISTS,
        "     2 binds of 2 buffers, 2 lines passed over
     2 mappings alive at the end, of 2 buffers, 8 KiB; tables 1 1 1 1 1
0x3000: b2 0x0",
    ),
    (
        "and the first",
        "--format gpuvas --at 0x3000 --space 1",
        LISTS,
        "     1 binds of 1 buffers, 3 lines passed over
0x3000: b1 0x8000",
    ),
    (
        "and each",
        "--format gpuvas --at 0x3000",
        LISTS,
        "space 1:
     1 binds of 1 buffers, 3 lines passed over
0x3000: b1 0x8000
space 2:
     2 binds of 2 buffers, 2 lines passed over
0x3000: b2 0x0",
    ),
    (
        "rows before the first head are of the first list, and a list without a row is none",
        "--format gpuvas",
        "| 0x3000 | 0x4000 | 0x7000 | 0xf0 | 0x0\n\
            DRM GPU VA space (a) [0x0;0x1]\n\
            DRM GPU VA space (b) [0x0;0x1]\n\
            DRM GPU VA space (c) [0x0;0x1]\n\
            | 0x3000 | 0x4000 | 0x7000 | 0xf0 | 0x0\n\
            | 0x4000 | 0x1000 | 0x5000 | 0xf1 | 0x0\n",
        "space 3:
     2 binds of 2 buffers, 3 lines passed over
     1 maps over live mappings
nothing found in space 1",
    ),
    (
        "lists as JSON",
        "--format gpuvas --json",
        LISTS,
        "{\"spaces\":[],\"nothing_found\":[{\"space\":1},{\"space\":2}]}",
    ),
    (
        "processes of amdgpu are told apart, whichever of their threads an event is of",
        "--format amdgpu",
        PROCESSES,
        "process 7:
     2 binds of 1 buffers, 2 lines passed over
     0 maps over live mappings
     1 unmaps of nothing
         line 4, 1.500000 s: unmap 0x200000 0x1000
     1 mappings alive at the end, of 1 buffers, 12 KiB; tables 1 1 1 1 1
nothing found in process 42",
    ),
    (
        "and as JSON",
        "--format amdgpu --json --at 0x100000",
        "game-1 (   42) [000] 1.0: amdgpu_vm_bo_map: bo=0xf0, start=200, last=200, offset=0000000000, flags=40\n\
            Xorg-7 (    7) [000] 1.0: amdgpu_vm_bo_map: bo=0xf0, start=100, last=100, offset=0000000000, flags=40\n",
        "{\"spaces\":[{\"process\":7,\
            \"binds\":1,\"buffers\":1,\"passed_over\":1,\
            \"over_live\":{\"count\":0,\"places\":[]},\
            \"of_nothing\":{\"count\":0,\"places\":[]},\
            \"still_reached\":{\"count\":0,\"places\":[]},\
            \"to_no_memory\":{\"count\":0,\"places\":[]},\
            \"refused\":{\"count\":0,\"places\":[]},\
            \"alive\":{\"mappings\":1,\"buffers\":1,\"bytes\":4096,\"tables\":[1,1,1,1,1]},\
            \"at\":[{\"addr\":\"0x100000\",\"place\":{\"buffer\":\"b1\",\"offset\":\"0x0\",\"ro\":false},\
            \"before\":[{\"line\":2,\"time\":\"1.000000\",\"op\":\"map 0x100000 0x1000 b1 0x0\",\"place\":null}]}]}],\
            \"nothing_found\":[{\"process\":42}]}",
    ),
    (
        "where an event doesn't tell its process all are one space",
        "--format amdgpu",
        "game-1 (   42) [000] 1.0: amdgpu_vm_bo_map: bo=0xf0, start=100, last=100, offset=0000000000, flags=40\n\
            Xorg-7 (-----) [000] 1.0: amdgpu_vm_bo_map: bo=0xf0, start=100, last=100, offset=0000000000, flags=40\n",
        "     2 binds of 1 buffers, 0 lines passed over
     1 maps over live mappings",
    ),
    (
        "a process knows sizes by its own events",
        "--format amdgpu",
        "game-1 (   42) [000] 1.0: amdgpu_bo_create: bo=0xf0, pages=1, type=1, preferred=4, allowed=4, visible=0\n\
            game-1 (   42) [000] 1.0: amdgpu_vm_bo_map: bo=0xf0, start=100, last=101, offset=0000000000, flags=40\n\
            Xorg-7 (    7) [000] 1.0: amdgpu_vm_bo_map: bo=0xf0, start=100, last=101, offset=0000000000, flags=40\n",
        "process 42:
     0 binds of 1 buffers, 1 lines passed over
     1 refused
nothing found in process 7",
    ),
    (
        "a process that maps nothing is none",
        "--format amdgpu",
        "Xorg-7 (    7) [000] 1.0: amdgpu_bo_create: bo=0xf1, pages=1, type=1, preferred=4, allowed=4, visible=0\n\
            game-1 (   42) [000] 1.0: amdgpu_vm_bo_map: bo=0xf0, start=100, last=100, offset=0000000000, flags=40\n",
        "     1 binds of 1 buffers, 1 lines passed over",
    ),
    (
        "a script of several processes is that of one space, with the sizes of all",
        "--format amdgpu --script",
        PROCESSES,
        "buffer b1 3
bind map 0x100000 0x2000 b1 0x0",
    ),
];
