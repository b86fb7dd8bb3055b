//! What a threads script runs on.
use gv_sync::{Seat, Timelines};
use gv_text::BufferNames;
use gv_vm::Vm;

/// What a script runs on: an address space, the buffers that it has declared, and timelines with their first seat. The address
/// space has to be closed.
pub struct Harness {
    pub vm: Vm,
    pub buffers: BufferNames,
    pub timelines: Timelines,
    pub seat: Seat,
}

impl Harness {
    /// Closes the address space.
    pub fn close(self) {
        let Harness {
            vm,
            buffers: _,
            timelines: _,
            seat: _,
        } = self;
        vm.close();
    }
}
