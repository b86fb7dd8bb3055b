//! Rows for each event and each trap of i915. The lines that are wanted are written from the rules.

use crate::logs::told::Row;

pub const ROWS: &[Row<'static>] = &[
    (
        "a VMA is a whole object, mappable or not, of one address space",
        "--format i915 --at 0x300010",
        "game-1 [000] 1.5: i915_vma_bind: obj=00000000f3a1c200, offset=0x0000000000200000 size=0x10000, mappable vm=00000000d00dfeed\n\
            game 1 [000] 1.6: i915:i915_vma_unbind: obj=00000000f3a1c200, offset=0x0000000000200000 size=0x10000 vm=00000000d00dfeed\n\
            i915-1 [000] 1.7: i915_vma_bind: obj=0xf3a1c200, offset=0x0000000000300000 size=0x10000 vm=0xd00dfeed\n\
            game-1 [000] 1.8: i915_vma_bind: obj=0xf3a1c200, offset=0x0000000000300000 size=0x10000, mappable vm=0xd00dfeed\n\
            game-1 [000] 1.9: i915_vma_unbind: obj=0xf3a1c200, offset=0x0000000000300000 size=0x10000 vm=0xd00dbeef\n\
            game-1 [000] 2.0: i915_gem_object_create: obj=0xf3a1c200, size=0x10000\n",
        "     3 binds of 2 buffers, 2 lines passed over
     1 events that only touch what stands
     0 maps over live mappings
     0 unmaps of nothing
0x300010: b2 0x10
  line 3, 1.700000 s: map 0x300000 0x10000 b2 0x0: none before",
    ),
    (
        "an unbind of an object that isn't known or stands elsewhere is a finding",
        "--format i915",
        "i915_vma_unbind: obj=f0, offset=0x200000 size=0x10000 vm=d0\n\
            i915_vma_bind: obj=f0, offset=0x200000 size=0x10000 vm=d0\n\
            i915_vma_unbind: obj=f0, offset=0x300000 size=0x10000 vm=d0\n",
        "     2 unmaps of nothing
         line 1: unmap 0x200000 0x10000 (VMA not known)
         line 3: unmap 0x300000 0x10000 (VMA bound elsewhere): at 0x200000 0x10000, line 2
     0 mappings alive at the end, of 0 buffers, 0 KiB; tables 0 0 0 0 0",
    ),
    (
        "fields stand in any order, and a line that lacks one is passed over",
        "--format i915",
        "i915_vma_bind: vm=d0 new=7, size=0x1000 offset=0x200000 obj=f0\n\
            i915_vma_bind: obj=f1, offset=0x300000 size=0x0 vm=d0\n\
            i915_vma_bind: obj=f1, offset=0xfffffffffffff000 size=0x1000 vm=d0\n\
            i915_vma_bind: obj=f1, offset=0x300000 size=0x1000, mappable\n\
            i915_vma_bind: obj=f1, offset=0x300000 size=0x1000 vm=\n\
            i915_vma_bind: obj=f1, offset=0x300000 vm=d0\n\
            i915_vma_bind: obj=f1, size=0x1000 vm=d0\n\
            i915_vma_bind: offset=0x300000 size=0x1000 vm=d0\n\
            i915_vma_bind: obj=f1, offset=0x300000",
        "     1 binds of 1 buffers, 7 lines passed over
     1 refused
         line 2: buffer of 0 pages: BadSize",
    ),
];
