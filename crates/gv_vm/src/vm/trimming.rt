//! Memory that is freed.
ghost use Rattle.std.specs.Prelude.{◌≡◌, IsOk, MatchOption};
ghost use Rattle.gv_vm.specs.Trimming.{trim_fault};

use super::Vm;
use crate::told::shrink_all;
use gv_types::Fault;

impl Vm {
    /// Frees memory that nothing needs any more: list, page table, ids, journal, outcomes and jobs keep room for what they hold
    /// now. Nothing else changes. `Held` with the least entry held, since its undo may need the memory: settle or rewind first.
    /// It takes no memory.
    pub fn trim(&mut self) -> Result<(), Fault>
        ensures fault { MatchOption (trim_fault self.old.journal) (IsOk result) (λ fault. result ≡ Err fault) }
        ensures same { self.new ≡ self.old }
    {
        if !self.journal.items().is_empty() {
            let by = self.journal.first();
            return Err(Fault::Held { by });
        }
        self.space.trim();
        self.journal.trim();
        self.jobs.shrink();
        shrink_all(&mut self.told);
        Ok(())
    }
}
