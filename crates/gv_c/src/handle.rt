// The handle that C holds: null, or a world on the heap.
ghost use Rattle.std.specs.Prelude.{◌≡◌, Option, None, Some, MatchOption};
ghost use Rattle.std.specs.contracts.impls.GlobalAllocator.TheImpl.{ghosts};
ghost use Rattle.gv_c.specs.contracts.held.Held.{the_row};
ghost use Rattle.gv_c.specs.declared.held.Held.{Held as HeldWorld};
ghost use Rattle.gv_c.specs.HandleOwnership.{handle_owns};
ghost use Rattle.gv_c.specs.Calls.{Steps};

use crate::held::Held;
use crate::raw_box::RawBox;
use gv_types::OutOfMemory;
use gv_vm::{Event, Reply};
use std::alloc::Global;
use std::marker::Model;
use std::ptr::null_mut;

/// For C it is one pointer: the allocator takes no bytes.
#[repr(C)]
pub struct Handle {
    at: *mut u8,
    alloc: Global,
    pub ghost value: { Option HeldWorld },
}

impl Model for Handle {
    ghost also_owns = { λ h. handle_owns (ghosts.dealloc_token h.alloc) the_row h.at h.value };
}

impl Drop for Handle {
    fn drop(self) {
        match self.unpack() {
            Some(raw_box) => drop(raw_box.into_box()),
            None => {}
        }
    }
}

unsafe impl Send for Handle {}

impl Handle {
    /// A handle of a world whose box was taken apart.
    fn pack(raw_box: RawBox<Held, Global>) -> Handle
        ensures { result.value ≡ Some raw_box.value }
    {
        let RawBox { at, alloc } = raw_box;
        Handle {
            at: at as *mut u8,
            alloc,
        }
    }

    /// A null handle.
    pub fn none(alloc: Global) -> Handle
        ensures { result.value ≡ None }
    {
        Handle {
            at: null_mut(),
            alloc,
        }
    }

    /// What is there, if it is not null.
    fn unpack(self) -> Option<RawBox<Held, Global>>
        ensures { MatchOption result (self.value ≡ None) (λ l. self.value ≡ Some l.value) }
    {
        let Handle { at, alloc } = self;
        if at == null_mut() {
            None
        } else {
            Some(RawBox {
                at: at as *mut Held,
                alloc,
            })
        }
    }

    /// Takes what is there out: then the handle is null.
    pub fn take(&mut self, alloc: Global) -> Option<Box<Held>>
        ensures was { MatchOption result (self.old.value ≡ None) (λ b. self.old.value ≡ Some b.value) }
        ensures is { self.new.value ≡ None }
    {
        let old = std::mem::replace(self, Handle::none(alloc));
        match old.unpack() {
            Some(raw_box) => Some(raw_box.into_box()),
            None => None,
        }
    }

    /// Puts a world there. What was there is closed.
    pub fn put(&mut self, held: Box<Held>)
        ensures { self.new.value ≡ Some held.value }
    {
        *self = Handle::pack(RawBox::of(held));
    }

    /// Carries out one event on the world that is there. Without a world: None, and nothing changes.
    pub fn step(&mut self, alloc: Global, event: Event) -> Option<Result<Reply, OutOfMemory>>
        ensures { Steps self.old.value event result self.new.value }
    {
        let Some(mut held) = self.take(alloc) else {
            return None;
        };
        let reply = held.world.step(alloc, event);
        self.put(held);
        Some(reply)
    }
}
