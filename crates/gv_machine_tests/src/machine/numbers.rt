//! A `Vm` takes the requests of a queue in the order of their numbers alone.
use crate::machine::play::play_on_vm;
use std::test::Fail;

const NUMBERS: &str = "\
1 ; zero 1 = Err(NotTold { fault: OutOfTurn { next: 0 }, request: Request { ops: [MapZero { addr: 4096, len: 4096, flags: Flags { read_only: false } }], waits: [], signals: [] } })\n\
0 ; zero 0 = Ok(Accepted { entry: 0 })\n\
0 ; zero 0 = Err(NotTold { fault: OutOfTurn { next: 1 }, request: Request { ops: [MapZero { addr: 0, len: 4096, flags: Flags { read_only: false } }], waits: [], signals: [] } })\n\
told 0 = 0 to 1: [Accepted { entry: 0 }]\n\
held = 1 entries, 1 mappings\n";

#[test]
fn each_number_is_told_once(rt: HostRuntime) -> Result<(), Fail> {
    play_on_vm(&rt, NUMBERS)
}
