//! Why an operation is refused: by its bounds, its buffer, or the limits.
ghost use Rattle.std.specs.Prelude.{◌≡◌, ◌+◌, ◌≤◌, length, IfOk, IsOk, MatchOption};
ghost use Rattle.std.specs.List.{All};
ghost use Rattle.gv_types.specs.Page.{PAGES};
ghost use Rattle.gv_types.specs.PageRange.{end_of};
ghost use Rattle.gv_types.specs.Bounds.{IsAllowed};
ghost use Rattle.gv_types.specs.Operation.{in_pages, own_mapping, IsChecked};
ghost use Rattle.gv_ranges.specs.List.{run, IsLaidOut, IsOverlappingRun};
ghost use Rattle.gv_ranges.specs.Edit.{clipped, restored};
ghost use Rattle.gv_buffers.specs.Buffers.{pages as size_of};
ghost use Rattle.gv_space.specs.State.{IsValidMapping};
ghost use Rattle.gv_space.specs.Refusal.{operation_fault, buffer_fault, dead_fault, past_end, limit_fault};

use super::Space;
use crate::pieces::count_in_range;
use gv_buffers::Buffers;
use gv_ranges::{Overlap, RangeList};
use gv_types::{Backing, BufferId, Fault, Op, Packed, PageOp, PageRange, SPACE_PAGES};

/// Undo values of one space hold at most so many mappings.
const MAX_KEPT: u64 = 1 << 62;

impl Space {
    /// The operation in pages, or its first fault: those of `Bounds::check` in their order, then `NoBuffer` and `OutOfBuffer`. It
    /// takes no memory.
    pub fn check(&self, op: &Op) -> Result<PageOp, Fault>
        ensures fault { MatchOption (operation_fault self.now op.now) (IsOk result) (λ fault. result ≡ Err fault) }
        ensures same { IfOk result (λ p. p ≡ in_pages op.now) }
        ensures allowed { IfOk result (IsAllowed self.now.area) }
        ensures page_op { IfOk result IsChecked }
        ensures valid { IfOk result (λ p. All (IsValidMapping self.now.area self.now.buffers) (own_mapping p)) }
    {
        let op = match self.bounds.check(op) {
            Ok(op) => op,
            Err(fault) => return Err(fault),
        };
        check_buffer(&self.buffers, &op)?;
        Ok(op)
    }

    /// `TooManyMappings` where the list would pass its limit, or undo values would hold too much, once the saved mappings
    /// stand in the range, where the overlap is that of the range.
    pub(super) fn check_limits(
        &self,
        range: PageRange,
        overlap: Overlap<'_>,
        saved: &[Packed],
    ) -> Result<(), Fault>
        requires laid_out { IsLaidOut saved.now }
        requires met { IsOverlappingRun self.now.mappings range overlap.spot.index overlap.count }
        ensures { MatchOption (limit_fault self.now range (restored self.now.mappings range saved.now))
            (IsOk result) (λ fault. result ≡ Err fault) }
    {
        let list = self.list();
        let Overlap { spot, count, .. } = overlap;
        let limit = self.limits.mappings();
        let without_rests = list.len() - count + count_in_range(saved, range);
        // The rests are at most two, and counted near the limit alone.
        if (without_rests + 2) as u64 > limit
            && (without_rests + count_rests(list, range, spot.index, count)) as u64 > limit
        {
            return Err(Fault::TooManyMappings);
        }
        if self.kept_count + count as u64 > MAX_KEPT {
            return Err(Fault::TooManyMappings);
        }
        Ok(())
    }
}

/// How many rests the run that meets a range has outside it.
fn count_rests(list: &RangeList, range: PageRange, index: usize, count: usize) -> usize
    requires { IsOverlappingRun list.now.mappings range index count }
    ensures value { result ≡ length (clipped 0 range.first (run list.now.mappings index count))
        + length (clipped (end_of range) PAGES (run list.now.mappings index count)) }
    ensures few { result ≤ 2 }
{
    if count == 0 {
        return 0;
    }
    // Tells that the list is laid out.
    let _len = list.len();
    let prev = list.get(index).clip(0, range.first());
    let next = list.get(index + count - 1).clip(range.end(), SPACE_PAGES);
    usize::from(prev.is_some()) + usize::from(next.is_some())
}

/// `NoBuffer` where the operation names a buffer that is dead, `OutOfBuffer` where it maps pages past a buffer's end.
fn check_buffer(buffers: &Buffers, op: &PageOp) -> Result<(), Fault>
    requires { IsChecked op.now }
    ensures { MatchOption (buffer_fault buffers.now op.now) (IsOk result) (λ fault. result ≡ Err fault) }
{
    match *op {
        PageOp::Map {
            range,
            backing: Backing::Buffer { id, page },
            ..
        } => check_pages(buffers, id, page + range.count()),
        PageOp::UnmapBuffer { buffer } => check_lives(buffers, buffer),
        PageOp::Map { .. } | PageOp::Unmap { .. } => Ok(()),
    }
}

/// `NoBuffer` where the buffer is dead, `OutOfBuffer` where it has fewer pages.
fn check_pages(buffers: &Buffers, id: BufferId, pages: u64) -> Result<(), Fault>
    ensures { MatchOption (past_end (size_of buffers.now id) pages)
        (IsOk result) (λ fault. result ≡ Err fault) }
{
    match buffers.pages(id) {
        None => Err(Fault::NoBuffer),
        Some(size) if size < pages => Err(Fault::OutOfBuffer),
        Some(_) => Ok(()),
    }
}

/// `NoBuffer` where the buffer is dead.
fn check_lives(buffers: &Buffers, id: BufferId) -> Result<(), Fault>
    ensures { MatchOption (dead_fault (size_of buffers.now id))
        (IsOk result) (λ fault. result ≡ Err fault) }
{
    match buffers.pages(id) {
        None => Err(Fault::NoBuffer),
        Some(_) => Ok(()),
    }
}
