//! Operations applied, restored, taken back and given up.
ghost use Rattle.std.specs.Prelude.{◌≡◌, ◌≢◌, ◌++◌, if◌then◌else◌, ℕ, IsTrue, List};
ghost use Rattle.std.specs.Prelude.{IfErr, IfOk, IsOkUnless, OnErr, MatchOption};
ghost use Rattle.std.specs.List.{All};
ghost use Rattle.gv_types.specs.Page.{IsPage};
ghost use Rattle.gv_types.specs.PageRange.{covers};
ghost use Rattle.gv_types.specs.Operation.{has_range, in_pages, own_mapping, range_of, after, IsPageOp};
ghost use Rattle.gv_types.specs.declared.mapping.Mapping.{Mapping};
ghost use Rattle.gv_ranges.specs.List.{at};
ghost use Rattle.gv_ranges.specs.Edit.{edited, restored, undone};
ghost use Rattle.gv_space.specs.State.{AreKept, IsValidMapping, IsUnchanged};
ghost use Rattle.gv_space.specs.Refusal.{limit_fault, apply_fault};
ghost use Rattle.gv_space.specs.Undo.{AreAmongKept, TookWhatWas, CanRevert, IsUndoOf, released, reverted};
ghost use Rattle.gv_space.specs.Change.{IsChanged, GrowsJustFor};

use super::Space;
use super::change::Made;
use crate::counts;
use crate::pieces::as_pieces;
use crate::undo::OpUndo;
use gv_chunks::Spot;
use gv_types::{Fault, Op, Packed, PageOp, PageRange};
use smallvec::SmallVec;
use std::alloc::Global;

impl Space {
    /// Applies an operation, given in bytes, that names its pages: an unmap of a whole buffer is applied as an unmap of
    /// each of `buffer_ranges`. It is `check`, and then `apply_pages`: the faults are the first of `check`, then `NoBuffer`,
    /// `OutOfBuffer` (the offset plus the length is past the buffer's end), then those of `apply_pages`.
    pub fn apply(&mut self, alloc: Global, op: &Op) -> Result<OpUndo, Fault>
        requires { IsTrue (has_range op.now) }
        ensures fault { MatchOption (apply_fault self.old op.now)
            (IsOkUnless result Fault.OutOfMemory) (λ fault. result ≡ Err fault) }
        ensures changed { IfOk result (λ undo.
            IsChanged self.old self.new (edited self.old.mappings (in_pages op.now)) undo) }
        ensures range { IfOk result (λ undo. undo.range ≡ range_of (in_pages op.now)) }
        ensures says { IfOk result (λ _. (page : ℕ) → IsPage page
            → at self.new.mappings page ≡ after (in_pages op.now) (at self.old.mappings) page) }
        ensures taken { IfOk result (TookWhatWas self.old.mappings) }
        ensures undone { IfOk result (λ undo. undone self.new.mappings undo.change ≡ self.old.mappings) }
        ensures unchanged { OnErr result (IsUnchanged self.old self.new) }
        ensures refused { IfErr result (λ fault. fault ≢ Fault.OutOfMemory → self.new ≡ self.old) }
        ensures room { GrowsJustFor (edited self.old.mappings (in_pages op.now)) self.old self.new }
    {
        let op = match self.check(op) {
            Ok(op) => op,
            Err(fault) => return Err(fault),
        };
        self.apply_pages(alloc, &op)
    }

    /// Applies an operation in pages that names them, and that `check` let through. The mappings that meet its range give way
    /// to their rests, and a map's mapping is added; nothing is joined. `TooManyMappings` where the list would pass its limit,
    /// or undo values would hold over 2^62 mappings, then `OutOfMemory`. All growth comes before the first change, and none
    /// comes where it is refused for another fault than `OutOfMemory`.
    pub fn apply_pages(&mut self, alloc: Global, op: &PageOp) -> Result<OpUndo, Fault>
        requires pages { IsPageOp op.now }
        requires valid { All (IsValidMapping self.old.area self.old.buffers) (own_mapping op.now) }
        ensures fault { MatchOption (limit_fault self.old (range_of op.now) (edited self.old.mappings op.now))
            (IsOkUnless result Fault.OutOfMemory) (λ fault. result ≡ Err fault) }
        ensures changed { IfOk result (λ undo.
            IsChanged self.old self.new (edited self.old.mappings op.now) undo) }
        ensures range { IfOk result (λ undo. undo.range ≡ range_of op.now) }
        ensures says { IfOk result (λ _. (page : ℕ) → IsPage page
            → at self.new.mappings page ≡ after op.now (at self.old.mappings) page) }
        ensures taken { IfOk result (TookWhatWas self.old.mappings) }
        ensures undone { IfOk result (λ undo. undone self.new.mappings undo.change ≡ self.old.mappings) }
        ensures unchanged { OnErr result (IsUnchanged self.old self.new) }
        ensures refused { IfErr result (λ fault. fault ≢ Fault.OutOfMemory → self.new ≡ self.old) }
        ensures room { GrowsJustFor (edited self.old.mappings op.now) self.old self.new }
    {
        let (own, range) = (Packed::own(op), op.range());
        let mut taken = SmallVec::new(alloc);
        let Made {
            index,
            put_in,
            tables,
        } = self.change(alloc, range, as_pieces(&own), &mut taken)?;
        Ok(OpUndo {
            index,
            put_in,
            range,
            taken,
            tables,
        })
    }

    /// Puts back what older changes took out in a range: cuts the range out, as an unmap does, and puts in the undo value's
    /// mappings, clipped to the range and not joined. `TooManyMappings` as for `apply`, then `OutOfMemory`. All growth comes
    /// before the first change, and none comes at `TooManyMappings`.
    pub fn restore(
        &mut self,
        alloc: Global,
        range: PageRange,
        saved: &OpUndo,
    ) -> Result<OpUndo, Fault>
        requires { AreAmongKept self.old saved.now.change.taken }
        ensures fault { MatchOption (limit_fault self.old range (restored self.old.mappings range saved.now.change.taken))
            (IsOkUnless result Fault.OutOfMemory) (λ fault. result ≡ Err fault) }
        ensures changed { IfOk result (λ undo. IsChanged self.old self.new
            (restored self.old.mappings range saved.now.change.taken) undo) }
        ensures range { IfOk result (λ undo. undo.range ≡ range) }
        ensures says { IfOk result (λ _. (page : ℕ) → IsPage page → at self.new.mappings page
            ≡ (if covers range page then at saved.now.change.taken page else at self.old.mappings page)) }
        ensures taken { IfOk result (TookWhatWas self.old.mappings) }
        ensures undone { IfOk result (λ undo. undone self.new.mappings undo.change ≡ self.old.mappings) }
        ensures unchanged { OnErr result (IsUnchanged self.old self.new) }
        ensures refused { IfErr result (λ fault. fault ≢ Fault.OutOfMemory → self.new ≡ self.old) }
        ensures room { GrowsJustFor (restored self.old.mappings range saved.now.change.taken) self.old self.new }
    {
        let mut taken = SmallVec::new(alloc);
        let Made {
            index,
            put_in,
            tables,
        } = self.change(alloc, range, saved.taken.as_slice(), &mut taken)?;
        Ok(OpUndo {
            index,
            put_in,
            range,
            taken,
            tables,
        })
    }

    /// Takes a change back: the run that it put in gives way to the mappings that it took out, and the list is what it was,
    /// boundaries included, as are the page table and the counts. It takes no memory. The list has to be the one that the
    /// change left.
    pub fn revert(&mut self, undo: OpUndo)
        requires { CanRevert self.old undo }
        ensures state { self.new ≡ reverted self.old undo }
        ensures undone { (before : List Mapping)
            → IsUndoOf before self.old.mappings undo → self.new.mappings ≡ before }
        ensures kept { (others : List Mapping)
            → AreKept self.old (undo.change.taken ++ others) → AreKept self.new others }
    {
        let OpUndo {
            index,
            put_in,
            range,
            taken,
            tables,
        } = undo;
        let list = self.mapped.list();
        let hint = list.hint(range.first());
        let spot = Spot { index, hint };
        let pieces = list.run_at(spot, put_in);
        counts::move_counts_back(
            &mut self.buffers,
            &mut self.first_pages,
            pieces,
            taken.as_slice(),
        );
        self.mapped
            .put_back(range, spot, put_in, taken.as_slice(), tables);
        self.kept_count -= taken.len() as u64;
    }

    /// Gives up the mappings that an undo value keeps: the change stays. It takes no memory.
    pub fn release(&mut self, undo: OpUndo)
        requires { AreAmongKept self.old undo.change.taken }
        ensures state { self.new ≡ released self.old undo.change.taken }
        ensures kept { (others : List Mapping)
            → AreKept self.old (undo.change.taken ++ others) → AreKept self.new others }
    {
        let OpUndo {
            index: _,
            put_in: _,
            range: _,
            taken,
            tables: _,
        } = undo;
        counts::unkeep(&mut self.buffers, taken.as_slice());
        self.kept_count -= taken.len() as u64;
    }
}
