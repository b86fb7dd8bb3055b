//! Rows for each kind of finding and of place as JSON. The lines that are wanted are written from the rules.

use crate::logs::told::Row;

/// Memory that is reached when it is freed, and what is bound past its end and after it.
pub const FREED: &str =
    "timestamp=1, VA=0000000000010000-0000000000012000, destroyed=0, is_virtual=0\n\
    timestamp=2, VA=0000000000800000-0000000000801000, mapped_to=0000000000010000\n\
    timestamp=3, VA=0000000000800000-0000000000802000, mapped_to=0000000000011000\n\
    timestamp=4, VA=0000000000010000-0000000000012000, destroyed=1, is_virtual=0\n\
    timestamp=5, VA=0000000000800000-0000000000801000, mapped_to=0000000000010000\n\
    timestamp=6, VA=0000000000020000-0000000000020000, destroyed=0, is_virtual=0\n";

pub const ROWS: &[Row<'static>] = &[
    (
        "maps over live mappings and unmaps of nothing",
        "--format radv --json",
        "timestamp=1, VA=0000000000010000-0000000000030000, destroyed=0, is_virtual=0\n\
            timestamp=2, VA=0000000000018000-0000000000019000, destroyed=0, is_virtual=1\n\
            timestamp=3, VA=0000000000040000-0000000000050000, destroyed=1, is_virtual=1\n\
            noise\n\
            timestamp=81209238242001, VA=0000000000050000-0000000000060000, destroyed=1, is_virtual=0\n",
        "{\"binds\":3,\"buffers\":1,\"passed_over\":1,\
            \"over_live\":{\"count\":1,\"places\":[{\"line\":2,\"time\":\"0.000000\",\
            \"op\":\"zero 0x18000 0x1000\",\"cause\":\"sparse range made\",\"mappings\":1}]},\
            \"of_nothing\":{\"count\":2,\"places\":[{\"line\":3,\"time\":\"0.000000\",\
            \"op\":\"unmap 0x40000 0x10000\",\"cause\":\"sparse range gone\"},\
            {\"line\":5,\"time\":\"81209.238242\",\"addr\":\"0x50000\",\"len\":\"0x10000\"}]},\
            \"still_reached\":{\"count\":0,\"places\":[]},\
            \"to_no_memory\":{\"count\":0,\"places\":[]},\
            \"refused\":{\"count\":0,\"places\":[]},\
            \"alive\":{\"mappings\":3,\"buffers\":1,\"bytes\":131072,\"tables\":[1,1,1,1,1]},\"at\":[]}",
    ),
    (
        "memory that is freed and reached, a bind to none, refusals, and a past",
        "--format radv --json --at 0x800010",
        FREED,
        "{\"binds\":3,\"buffers\":1,\"passed_over\":0,\
            \"over_live\":{\"count\":0,\"places\":[]},\
            \"of_nothing\":{\"count\":0,\"places\":[]},\
            \"still_reached\":{\"count\":1,\"places\":[{\"line\":4,\"time\":\"0.000000\",\
            \"buffer\":\"b1\",\"made_at\":1,\"pages\":2,\"mappings\":1}]},\
            \"to_no_memory\":{\"count\":1,\"places\":[{\"line\":5,\"time\":\"0.000000\",\
            \"addr\":\"0x800000\",\"len\":\"0x1000\",\"to\":\"0x10000\"}]},\
            \"refused\":{\"count\":2,\"places\":[{\"line\":3,\"time\":\"0.000000\",\
            \"op\":\"map 0x800000 0x2000 b1 0x1000\",\"cause\":\"sparse bound\",\"fault\":\"OutOfBuffer\"},\
            {\"line\":6,\"time\":\"0.000000\",\"pages\":0,\"fault\":\"BadSize\"}]},\
            \"alive\":{\"mappings\":0,\"buffers\":0,\"bytes\":0,\"tables\":[0,0,0,0,0]},\
            \"at\":[{\"addr\":\"0x800010\",\"place\":null,\"before\":[{\"line\":4,\"time\":\"0.000000\",\
            \"op\":\"unmapall b1\",\"cause\":\"memory freed\",\
            \"place\":{\"buffer\":\"b1\",\"offset\":\"0x10\",\"ro\":false}},\
            {\"line\":2,\"time\":\"0.000000\",\"op\":\"map 0x800000 0x1000 b1 0x0\",\
            \"cause\":\"sparse bound\",\"place\":null}]}]}",
    ),
    (
        "lines without times, read-only pages and zeros",
        "--format amdgpu --json --flags entry --at 0x100010 --at 0x200000",
        "amdgpu_vm_bo_map: bo=0xf0, start=100, last=100, offset=0000000000, flags=10\n\
            amdgpu_vm_bo_map: bo=(nil), start=200, last=200, offset=0000000000, flags=40\n",
        "{\"binds\":2,\"buffers\":1,\"passed_over\":0,\
            \"over_live\":{\"count\":0,\"places\":[]},\
            \"of_nothing\":{\"count\":0,\"places\":[]},\
            \"still_reached\":{\"count\":0,\"places\":[]},\
            \"to_no_memory\":{\"count\":0,\"places\":[]},\
            \"refused\":{\"count\":0,\"places\":[]},\
            \"alive\":{\"mappings\":2,\"buffers\":1,\"bytes\":8192,\"tables\":[1,1,1,1,2]},\
            \"at\":[{\"addr\":\"0x100010\",\"place\":{\"buffer\":\"b1\",\"offset\":\"0x10\",\"ro\":true},\
            \"before\":[{\"line\":1,\"op\":\"map 0x100000 0x1000 b1 0x0 ro\",\"place\":null}]},\
            {\"addr\":\"0x200000\",\"place\":{\"zero\":true,\"ro\":false},\
            \"before\":[{\"line\":2,\"op\":\"zero 0x200000 0x1000\",\
            \"cause\":\"sparse range made\",\"place\":null}]}]}",
    ),
];
