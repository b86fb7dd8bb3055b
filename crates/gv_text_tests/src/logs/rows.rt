//! Rows for each kind of line and each trap of a format. The lines that are wanted are written from the rules.

use crate::logs::told::Row;

pub const ROWS: &[Row<'static>] = &[
    (
        "an end within a page is that page's",
        "--format radv --at 0x800000002fff --at 0x800000003000",
        "timestamp=1000, VA=0000800000000000-0000800000002154, destroyed=0, is_virtual=0\n",
        "     1 binds of 1 buffers, 0 lines passed over
     1 mappings alive at the end, of 1 buffers, 12 KiB; tables 1 1 1 1 1
0x800000002fff: b1 0x2fff
  line 1, 0.000001 s: map 0x800000000000 0x3000 b1 0x0 (memory made): none before
0x800000003000: none",
    ),
    (
        "addresses are cut to 48 bits, those that are asked too",
        "--format radv --at 0xffff800000000010",
        "timestamp=1, VA=ffff800000000000-ffff800000001000, destroyed=0, is_virtual=0\n",
        "0x800000000010: b1 0x10",
    ),
    (
        "an end that is cut to 0 is the end of all addresses",
        "--format radv --at 0xfffffffff000",
        "timestamp=1, VA=0000fffffffe0000-0000000000000000, destroyed=0, is_virtual=0\n",
        "     1 mappings alive at the end, of 1 buffers, 128 KiB; tables 1 1 1 1 1
0xfffffffff000: b1 0x1f000",
    ),
    (
        "a tile reaches the memory that its address lies in, and zeros once it is unbound",
        "--format radv --at 0x800010",
        "timestamp=1, VA=0000000000010000-0000000000030000, destroyed=0, is_virtual=0\n\
            timestamp=2, VA=0000000000800000-0000000000810000, destroyed=0, is_virtual=1\n\
            timestamp=3, VA=0000000000800000-0000000000801000, mapped_to=000000000001f000\n\
            timestamp=4, VA=0000000000800000-0000000000801000, mapped_to=0000000000000000\n",
        "     4 binds of 1 buffers, 0 lines passed over
     0 maps over live mappings
0x800010: zero
  line 4, 0.000000 s: zero 0x800000 0x1000 (sparse unbound): b1 0xf010 before
  line 3, 0.000000 s: map 0x800000 0x1000 b1 0xf000 (sparse bound): zero before
  line 2, 0.000000 s: zero 0x800000 0x10000 (sparse range made): none before",
    ),
    (
        "an address at the end of memory lies in none, and neither does one before it",
        "--format radv",
        "timestamp=1, VA=0000000000010000-0000000000030000, destroyed=0, is_virtual=0\n\
            timestamp=2, VA=0000000000800000-0000000000801000, mapped_to=0000000000030000\n\
            timestamp=3, VA=0000000000800000-0000000000801000, mapped_to=000000000000f000\n",
        "     2 binds to no live memory
         line 2, 0.000000 s: bind 0x800000 0x1000 to 0x30000
         line 3, 0.000000 s: bind 0x800000 0x1000 to 0xf000",
    ),
    (
        "a line whose target has no number is passed over, whatever stands behind it",
        "--format radv",
        "timestamp=1, VA=0000000000010000-0000000000030000, destroyed=0, is_virtual=0\n\
            timestamp=2, VA=0000000000040000-0000000000050000, mapped_to=, destroyed=0, is_virtual=0\n",
        "     1 binds of 1 buffers, 1 lines passed over",
    ),
    (
        "memory that is freed takes its tiles along",
        "--format radv",
        "timestamp=1, VA=0000000000010000-0000000000030000, destroyed=0, is_virtual=0\n\
            timestamp=2, VA=0000000000800000-0000000000801000, mapped_to=0000000000010000\n\
            timestamp=3, VA=0000000000900000-0000000000901000, mapped_to=0000000000011000\n\
            timestamp=4, VA=0000000000010000-0000000000030000, destroyed=1, is_virtual=0\n\
            timestamp=5, VA=0000000000800000-0000000000801000, mapped_to=0000000000010000\n",
        "     1 freed buffers that other mappings still reached
         line 4, 0.000000 s: b1, made at line 1, 32 pages: 2 mappings
     1 binds to no live memory
     0 mappings alive at the end, of 0 buffers, 0 KiB; tables 0 0 0 0 0",
    ),
    (
        "memory that only its own range reaches is freed without a finding",
        "--format radv",
        "timestamp=1, VA=0000000000010000-0000000000030000, destroyed=0, is_virtual=0\n\
            timestamp=2, VA=0000000000018000-0000000000019000, destroyed=0, is_virtual=1\n\
            timestamp=3, VA=0000000000010000-0000000000030000, destroyed=1, is_virtual=0\n",
        "     1 maps over live mappings
         line 2, 0.000000 s: zero 0x18000 0x1000 (sparse range made): 1 mapping
     0 freed buffers that other mappings still reached
     1 mappings alive at the end, of 0 buffers, 4 KiB; tables 1 1 1 1 1",
    ),
    (
        "what lived in the range of new memory lives no more",
        "--format radv",
        "timestamp=1, VA=0000000000010000-0000000000030000, destroyed=0, is_virtual=0\n\
            timestamp=2, VA=0000000000020000-0000000000040000, destroyed=0, is_virtual=0\n\
            timestamp=3, VA=0000000000800000-0000000000801000, mapped_to=0000000000018000\n\
            timestamp=4, VA=0000000000800000-0000000000801000, mapped_to=0000000000028000\n\
            timestamp=5, VA=0000000000010000-0000000000030000, destroyed=1, is_virtual=0\n",
        "         line 2, 0.000000 s: map 0x20000 0x20000 b2 0x0 (memory made): 1 mapping
         line 3, 0.000000 s: bind 0x800000 0x1000 to 0x18000
         line 5, 0.000000 s: free 0x10000 0x20000, where no memory is known
     3 mappings alive at the end, of 2 buffers, 196 KiB; tables 1 1 1 1 2",
    ),
    (
        "what isn't of the format is passed over",
        "--format radv",
        "timestamp=1, VA=0000000000010000-0000000000030000, destroyed=0, is_virtual=0\r\n\
            timestamp=1, VA=00000000000030000-0000000000040000, destroyed=0, is_virtual=0\n\
            timestamp=1, VA=0000000000040000-0000000000030000, destroyed=0, is_virtual=0\n\
            timestamp=1, VA=0000000000040000-0000000000050000, destroyed=2, is_virtual=0\n\
            timestamp=18446744073709551616, VA=0000000000040000-0000000000050000, destroyed=0, is_virtual=0\n\
            timestamp=1, VA=0000000000040000-0000000000050000, destroyed=0, is_virtual=0, more\n\
            \n\
            timestamp=1, VA=0000000000040000-0000000",
        "     1 binds of 1 buffers, 7 lines passed over",
    ),
    (
        "three places a finding",
        "--format radv",
        "timestamp=1, VA=0000000000010000-0000000000011000, destroyed=1, is_virtual=1\n\
            timestamp=2, VA=0000000000010000-0000000000011000, destroyed=1, is_virtual=1\n\
            timestamp=3, VA=0000000000010000-0000000000011000, destroyed=1, is_virtual=1\n\
            timestamp=4, VA=0000000000010000-0000000000010000, destroyed=1, is_virtual=1\n",
        "     4 unmaps of nothing
         line 3, 0.000000 s: unmap 0x10000 0x1000 (sparse range gone)
     1 refused
         line 4, 0.000000 s: unmap 0x10000 0x0 (sparse range gone): Empty",
    ),
    (
        "all places of a finding",
        "--format radv --all",
        "timestamp=1, VA=0000000000010000-0000000000011000, destroyed=1, is_virtual=1\n\
            timestamp=2, VA=0000000000010000-0000000000011000, destroyed=1, is_virtual=1\n\
            timestamp=3, VA=0000000000010000-0000000000011000, destroyed=1, is_virtual=1\n\
            timestamp=4, VA=0000000000010800-0000000000011000, destroyed=1, is_virtual=1\n",
        "     4 unmaps of nothing
         line 4, 0.000000 s: unmap 0x10800 0x800 (sparse range gone)
         line 4, 0.000000 s: unmap 0x10800 0x800 (sparse range gone): Unaligned",
    ),
    (
        "both pages of an event are inside its range, and a size is the greatest end",
        "--format amdgpu --at 0x101fff",
        "game-1 [000] 1.5: amdgpu_vm_bo_map: bo=0xf0, start=100, last=101, offset=0000003000, flags=70\n\
            game-1 [000] 1.500001: amdgpu_vm_bo_map: bo=0xf0, start=200, last=200, offset=0000000000, flags=70\n\
            game-1 [000] 1.6: amdgpu_bo_create: bo=0xf0, pages=1, type=1\n",
        "     3 binds of 1 buffers, 0 lines passed over
0x101fff: none
         line 3, 1.600000 s: b1, made at line 1, 5 pages: 2 mappings
  line 1, 1.500000 s: map 0x100000 0x2000 b1 0x3000: none before",
    ),
    (
        "what has no object is sparse, and a clear leaves the rests that the split rule gives",
        "--format amdgpu --at 0x103000",
        "game-1 [000] 1.0: amdgpu_vm_bo_map: bo=0xf0, start=100, last=103, offset=0000000000, flags=70\n\
            game-1 [000] 2.0: amdgpu_vm_bo_unmap: bo=(nil), start=101, last=102, offset=0000000000, flags=70\n\
            game-1 [000] 3.0: amdgpu_vm_bo_map: bo=0000000000000000, start=101, last=101, offset=0000000000, flags=10\n\
            game-1 [000] 4.0: amdgpu_vm_bo_map: bo=          (null), start=108, last=108, offset=0000000000, flags=10\n",
        "     4 binds of 1 buffers, 0 lines passed over
     0 maps over live mappings
     4 mappings alive at the end, of 1 buffers, 16 KiB; tables 1 1 1 1 1
0x103000: b1 0x3000",
    ),
    (
        "an event of another process is passed over",
        "--format amdgpu --pid 42",
        "game-42 [000] 1.0: amdgpu_vm_bo_map: bo=0xf0, start=100, last=103, offset=0000000000, flags=70\n\
            a b-7-43 (     42) [000] ..... 1.0: amdgpu_vm_bo_map: bo=0xf0, start=104, last=104, offset=0000000000, flags=70\n\
            game 42 [000] 1.0: amdgpu:amdgpu_vm_bo_map: bo=0xf0, start=105, last=105, offset=0000000000, flags=70\n\
            amdgpu-42 [000] 1.0: amdgpu_vm_bo_map: bo=0xf0, start=106, last=106, offset=0000000000, flags=70\n\
            game-4 (   ----) [000] 1.0: amdgpu_vm_bo_map: bo=0xf0, start=107, last=107, offset=0000000000, flags=70\n\
            amdgpu_vm_bo_map: bo=0xf0, start=108, last=108, offset=0000000000, flags=70\n",
        "     4 binds of 1 buffers, 2 lines passed over
     4 mappings alive at the end, of 1 buffers, 28 KiB; tables 1 1 1 1 1",
    ),
    (
        "the flags of one kernel",
        "--format amdgpu --flags entry --at 0x100000 --at 0x200000",
        "amdgpu_vm_bo_map: bo=0xf0, start=100, last=100, offset=0000000000, flags=40\n\
            amdgpu_vm_bo_map: bo=0xf0, start=200, last=200, offset=0000000000, flags=4\n",
        "0x100000: b1 0x0
0x200000: b1 0x0 ro",
    ),
    (
        "the flags of another kernel",
        "--format amdgpu --flags call --at 0x100000 --at 0x200000",
        "amdgpu_vm_bo_map: bo=0xf0, start=100, last=100, offset=0000000000, flags=40\n\
            amdgpu_vm_bo_map: bo=0xf0, start=200, last=200, offset=0000000000, flags=4\n",
        "0x100000: b1 0x0 ro
0x200000: b1 0x0",
    ),
    (
        "an object is as large as the line that makes it says",
        "--format amdgpu",
        "amdgpu_bo_create: bo=0xf0, pages=2, type=1\n\
            amdgpu_vm_bo_map: bo=0xf0, start=100, last=102, offset=0000000000, flags=40\n",
        "     0 binds of 1 buffers, 0 lines passed over
         line 2: map 0x100000 0x3000 b1 0x0: OutOfBuffer",
    ),
    (
        "events that are cut, and ends before starts, are passed over",
        "--format amdgpu",
        "amdgpu_vm_bo_map: bo=0xf0, start=100, last=100, offset=0000000000, flags=40\n\
            amdgpu_vm_bo_map: bo=0xf0, start=100, last=ff, offset=0000000000, flags=40\n\
            amdgpu_vm_bo_map: bo=0xf0, start=100, last=0, offset=0000000000, flags=40\n\
            amdgpu_vm_bo_map: bo=0xf0, start=ffffffffffffffff, last=ffffffffffffffff, offset=0000000000, flags=40\n\
            amdgpu_vm_bo_map: bo=0xf0, start=100, last=100, offset=0000000000, flags=\n\
            amdgpu_vm_bo_map: bo=0xf0, start=100, last=10\n",
        "     1 binds of 1 buffers, 5 lines passed over",
    ),
    (
        "a list of mappings, of its first address space",
        "--format gpuvas --at 0x3000",
        "DRM GPU VA space (a) [0x0;0x1]\n\
            | 0x3000 | 0x4000 | 0x7000 | 0xf0 | 0x1000\n\
            | 0x7000 | 0x1000 | 0x8000 | 0xf0 | 0x0\n\
            | 0x8000 | 0x1000 | 0x9000 | 0x0 | 0x0\n\
            | 0x8000 | 0x1000 | 0x8000 | 0x0 | 0x0\n\
            | 0x8000 | 0x1000\n\
            DRM GPU VA space (b) [0x0;0x1]\n\
            | 0x3000 | 0x4000 | 0x7000 | 0xf1 | 0x1000\n",
        "     3 binds of 1 buffers, 4 lines passed over
0x3000: b1 0x1000
     3 mappings alive at the end, of 1 buffers, 24 KiB; tables 1 1 1 1 1",
    ),
    (
        "rows that overlap",
        "--format gpuvas",
        "| 0x3000 | 0x4000 | 0x7000 | 0xf0 | 0x0\n\
            | 0x4000 | 0x1000 | 0x5000 | 0xf1 | 0x0\n",
        "         line 2: map 0x4000 0x1000 b2 0x0: 1 mapping",
    ),
];
