//! A request bound, an address looked up, and the request taken back: what the README shows.
use gv_types::{Fault, Flags, Op, Request};
use gv_vm::{NotTold, Place, Vm};
use std::alloc::Global;

/// Where the address 0x1abc leads while a buffer is mapped from the address 0 on. The address space is to be new.
pub fn look(alloc: Global, vm: &mut Vm) -> Result<Option<Place>, Fault> {
    let buffer = vm.create(alloc, 4)?; // four pages
    let map = Op::Map {
        addr: 0,
        len: 0x4000,
        buffer,
        offset: 0,
        flags: Flags { read_only: false },
    };
    let request = Request {
        ops: Vec::from_slice(alloc, &[map])?,
        waits: Vec::new(alloc),
        signals: Vec::new(alloc),
    };
    match vm.bind(alloc, 0, 0, request, &[]) {
        Ok(_) => {} // what the queue is told: accepted, as entry 0
        Err(NotTold { fault, request: _ }) => return Err(fault),
    }
    let place = vm.translate(0x1abc); // byte 0x1abc of the buffer
    vm.rewind()?; // all is as before
    Ok(place)
}
