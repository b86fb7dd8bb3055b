//! The lock of the address space.
use gv_vm::Vm;
use std::sync::{Mutex, MutexGuard, Wait};

/// An address space under a lock, and nothing else.
pub struct VmLock {
    vm: Mutex<Vm>,
}

impl VmLock {
    pub(crate) fn new(vm: Vm) -> VmLock {
        VmLock { vm: Mutex::new(vm) }
    }

    /// The address space, for as long as the guard lives. It may wait.
    pub fn lock<R: Wait>(&self, rt: &R) -> MutexGuard<'_, Vm> {
        self.vm.lock(rt)
    }

    pub(crate) fn into_inner(self) -> Vm {
        let Self { vm } = self;
        vm.into_inner()
    }
}

/// What gives an address space under a lock. Threads that are generic over it require that it may be shared; that `VmLock` may
/// be is then shown once, where they are called.
pub trait Locked {
    fn vm_lock(&self) -> &VmLock;
}

impl Locked for VmLock {
    fn vm_lock(&self) -> &VmLock {
        self
    }
}
