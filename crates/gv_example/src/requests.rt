//! A whole address space: requests that wait for a point of a timeline, and a withdrawal.
ghost use Rattle.std.specs.Prelude.{◌<◌, length};

use gv_sync::Clock;
use gv_types::{Fault, Flags, Op, Point, Request};
use gv_vm::{NotTold, Outcome, Place, Vm};
use std::alloc::Global;

const START: Point = Point {
    timeline: 0,
    value: 1,
};

/// Where the address 0x1abc leads once zeros were bound over a buffer, and where once the zeros were withdrawn.
pub fn withdraw_zeros(alloc: Global, vm: &mut Vm) -> Result<(Option<Place>, Option<Place>), Fault> {
    let mut clock = Clock::new(alloc, 1)?;
    let flags = Flags { read_only: false };
    // A buffer has pages, of 4,096 bytes each; an operation and an address speak of bytes.
    let buffer = vm.create(alloc, 4)?;
    let map = Op::Map {
        addr: 0,
        len: 0x4000,
        buffer,
        offset: 0,
        flags,
    };
    let zeros = Op::MapZero {
        addr: 0x1000,
        len: 0x1000,
        flags,
    };
    clock.raise(START);
    bind(alloc, vm, &clock, 0, map)?;
    bind(alloc, vm, &clock, 1, zeros)?;
    let over = vm.translate(0x1abc);
    vm.withdraw(alloc, 1)?;
    Ok((over, vm.translate(0x1abc)))
}

/// Carries out the request with this number of queue 1, of one operation, once its point is reached. Else it is given up.
fn bind(alloc: Global, vm: &mut Vm, clock: &Clock, number: u64, op: Op) -> Result<Outcome, Fault>
    requires { 0 < length clock.now }
{
    let request = Request {
        ops: Vec::from_slice(alloc, &[op])?,
        waits: Vec::from_slice(alloc, &[START])?,
        signals: Vec::new(alloc),
    };
    let told = match clock.look(&START) {
        Ok(reached) => vm.bind(alloc, 1, number, request, &[reached]),
        Err(lacking) => vm.give_up(1, number, request, lacking),
    };
    match told {
        Ok(outcome) => Ok(outcome),
        Err(NotTold { fault, request: _ }) => Err(fault),
    }
}
