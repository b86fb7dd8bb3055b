//! The buffers of a machine's address space.
ghost use Rattle.std.specs.Prelude.{◌≡◌, IfOk, IsOk, IsOkUnless, OnOk, OnErr, MatchOption};
ghost use Rattle.gv_buffers.specs.Buffers.{create_fault, destroy_fault, without, IsCreated};
ghost use Rattle.gv_vm.specs.State.{HasOtherBuffers};

use super::Vm;
use gv_buffers::laws;
use gv_types::{BufferId, Fault};
use std::alloc::Global;

impl Vm {
    /// Makes a buffer of `pages` pages. `BadSize` at 0 pages or over 2^36, then `TooManyBuffers` if the limit of live buffers is
    /// reached or 2^64 - 1 were made, then `OutOfMemory`.
    pub fn create(&mut self, alloc: Global, pages: u64) -> Result<BufferId, Fault>
        ensures fault { MatchOption (create_fault self.old.space.buffers pages)
            (IsOkUnless result Fault.OutOfMemory) (λ fault. result ≡ Err fault) }
        ensures ok { IfOk result (λ id. IsCreated self.old.space.buffers self.new.space.buffers id pages) }
        ensures rest { HasOtherBuffers self.old self.new }
        ensures err { OnErr result (self.new ≡ self.old) }
    {
        laws::lookups();
        let created = self.space.create(alloc, pages);
        // For the prover: what always holds of the space.
        let _list = self.space.list();
        created
    }

    /// Destroys a buffer that nothing uses. `NoBuffer` if the id is of no live one, then `Mapped` if mappings of it are in the
    /// list, `Kept` if they are in undo values, and `InUse` if jobs use it. It takes no memory.
    pub fn destroy(&mut self, id: BufferId) -> Result<(), Fault>
        ensures fault { MatchOption (destroy_fault self.old.space.buffers id)
            (IsOk result) (λ fault. result ≡ Err fault) }
        ensures ok { OnOk result (self.new.space.buffers ≡ without id self.old.space.buffers) }
        ensures rest { HasOtherBuffers self.old self.new }
        ensures err { OnErr result (self.new ≡ self.old) }
    {
        laws::lookups();
        let destroyed = self.space.destroy(id);
        // For the prover: what always holds of the space.
        let _list = self.space.list();
        destroyed
    }
}
