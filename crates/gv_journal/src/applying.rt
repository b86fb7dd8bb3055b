//! A request applied: its operations in order, until one is refused.
ghost use Rattle.std.specs.Prelude.{◌≡◌, ℕ, List, ◌+◌, ◌<◌, ◌≤◌, ◌++◌, [], ◌∷◌, IsTrue, reverse, vec_len, vec_capacity, length};
ghost use Rattle.std.specs.Prelude.{IfOk, IfErr, OnOk, OnErr, IsOkUnless, MatchOption};
ghost use Rattle.std.specs.List.{All};
ghost use Rattle.gv_types.specs.Operation.{has_range, in_pages, own_mapping, range_of, IsPageOp};
ghost use Rattle.gv_types.specs.declared.mapping.Mapping.{Mapping};
ghost use Rattle.gv_types.specs.declared.operation.Op.TheVariants.{UnmapBuffer};
ghost use Rattle.gv_ranges.specs.Edit.{edited};
ghost use Rattle.gv_space.specs.State.{SpaceState, AreKept, IsValidMapping, IsUnchanged};
ghost use Rattle.gv_space.specs.Refusal.{apply_fault, limit_fault};
ghost use Rattle.gv_space.specs.Undo.{AreAmongKept};
ghost use Rattle.gv_journal.specs.Undoing.{taken_by, reverted_by, AreRevertible};
ghost use Rattle.gv_journal.specs.Applying.{after_op, after_all, does, all_do, AreApplied, GrowsFor};
ghost use Rattle.gv_journal.specs.Verdict.{request_op_fault, verdict_from};
ghost use Rattle.gv_journal.specs.Work.{HasRoom, Continues, IsOpRefused, IsRefusedInTurn};

use crate::refusal::Refusal;
use crate::undoing::revert_all;
use gv_space::{OpUndo, Space};
use gv_types::{Backing, BufferId, Fault, Op, OutOfMemory, PageOp};
use std::alloc::Global;

/// What a request has done so far: operations in pages, and as many undo values.
pub struct Work {
    pub ops: Vec<PageOp>,
    pub undos: Vec<OpUndo>,
}

/// No work, with room for so many operations.
fn no_work(alloc: Global, count: usize) -> Result<Work, OutOfMemory>
    ensures empty { IfOk result (λ w. (w.ops.items ≡ []) × (w.undos.items ≡ [])) }
    ensures room { IfOk result (HasRoom count) }
{
    let ops = Vec::with_capacity(alloc, count)?;
    let undos = Vec::with_capacity(alloc, count)?;
    Ok(Work { ops, undos })
}

/// Makes room for so many operations more.
fn reserve(work: &mut Work, more: usize) -> Result<(), OutOfMemory>
    ensures ops { work.new.ops.items ≡ work.old.ops.items }
    ensures undos { work.new.undos.items ≡ work.old.undos.items }
    ensures room { OnOk result (HasRoom more work.new) }
{
    work.ops.reserve(more)?;
    work.undos.reserve(more)?;
    Ok(())
}

/// Applies an operation in pages, which has passed the checks, and notes it beside its undo value.
fn apply_pages(alloc: Global, space: &mut Space, work: &mut Work, op: &PageOp) -> Result<(), Fault>
    requires pages { IsPageOp op.now }
    requires valid { All (IsValidMapping space.old.area space.old.buffers) (own_mapping op.now) }
    requires room { HasRoom 1 work.old }
    ensures fault { MatchOption (limit_fault space.old (range_of op.now) (edited space.old.mappings op.now))
        (IsOkUnless result Fault.OutOfMemory) (λ fault. result ≡ Err fault) }
    ensures continues { Continues space.old space.new work.old work.new }
    ensures ops { OnOk result (work.new.ops.items ≡ work.old.ops.items ++ op.now ∷ []) }
    ensures state { OnOk result
        (space.new ≡ record (after_op space.old op.now) { room = space.new.room }) }
    ensures room { OnOk result ((remaining : ℕ) → HasRoom (1 + remaining) work.old → HasRoom remaining work.new) }
    ensures grown { GrowsFor (op.now ∷ []) space.old space.new }
{
    // The borrow checker proves this only where the function names the types inside the operation.
    let _backing = Backing::Zero;
    match space.apply_pages(alloc, op) {
        Ok(undo) => {
            work.ops.push_reserved(*op);
            work.undos.push_reserved(undo);
            Ok(())
        }
        Err(fault) => Err(fault),
    }
}

/// Checks an operation that names its pages, and applies it.
fn apply_ranged(alloc: Global, space: &mut Space, work: &mut Work, op: &Op) -> Result<(), Fault>
    requires ranged { IsTrue (has_range op.now) }
    requires room { HasRoom 1 work.old }
    ensures fault { MatchOption (apply_fault space.old op.now)
        (IsOkUnless result Fault.OutOfMemory) (λ fault. result ≡ Err fault) }
    ensures continues { Continues space.old space.new work.old work.new }
    ensures ops { OnOk result (work.new.ops.items ≡ work.old.ops.items ++ in_pages op.now ∷ []) }
    ensures state { OnOk result
        (space.new ≡ record (after_op space.old (in_pages op.now)) { room = space.new.room }) }
    ensures room { OnOk result ((remaining : ℕ) → HasRoom (1 + remaining) work.old → HasRoom remaining work.new) }
    ensures grown { GrowsFor (in_pages op.now ∷ []) space.old space.new }
{
    let op = match space.check(op) {
        Ok(op) => op,
        Err(fault) => return Err(fault),
    };
    apply_pages(alloc, space, work, &op)
}

/// Unmaps each mapping of a buffer, in ascending order, and leaves room for `remaining` operations more.
fn unmap_all(
    alloc: Global,
    space: &mut Space,
    work: &mut Work,
    id: BufferId,
    remaining: usize,
) -> Result<(), Fault>
    requires few { remaining ≤ 256 }
    ensures ok { OnOk result (request_op_fault space.old (UnmapBuffer id) ≡ None) }
    ensures err { IfErr result (IsOpRefused space.old (UnmapBuffer id)) }
    ensures continues { Continues space.old space.new work.old work.new }
    ensures ops { OnOk result
        (work.new.ops.items ≡ work.old.ops.items ++ does space.old.mappings (UnmapBuffer id)) }
    ensures state { OnOk result (space.new
        ≡ record (after_all (reverse (does space.old.mappings (UnmapBuffer id))) space.old) { room = space.new.room }) }
    ensures room { OnOk result (HasRoom remaining work.new) }
    ensures grown { GrowsFor (does space.old.mappings (UnmapBuffer id)) space.old space.new }
{
    let ranges = match space.buffer_ranges(alloc, id) {
        Ok(ranges) => ranges,
        Err(fault) => return Err(fault),
    };
    if reserve(work, ranges.len() + remaining).is_err() {
        return Err(Fault::OutOfMemory);
    }
    for range in &ranges {
        match apply_pages(alloc, space, work, &PageOp::Unmap { range: *range }) {
            Ok(()) => {}
            Err(fault) => return Err(fault),
        }
    }
    Ok(())
}

/// Applies an operation that names its pages, and leaves room for `remaining` operations more.
fn apply_named(
    alloc: Global,
    space: &mut Space,
    work: &mut Work,
    op: &Op,
    remaining: usize,
) -> Result<(), Fault>
    requires ranged { IsTrue (has_range op.now) }
    requires room { HasRoom (1 + remaining) work.old }
    ensures ok { OnOk result (request_op_fault space.old op.now ≡ None) }
    ensures err { IfErr result (IsOpRefused space.old op.now) }
    ensures continues { Continues space.old space.new work.old work.new }
    ensures ops { OnOk result (work.new.ops.items ≡ work.old.ops.items ++ does space.old.mappings op.now) }
    ensures state { OnOk result (space.new
        ≡ record (after_all (reverse (does space.old.mappings op.now)) space.old) { room = space.new.room }) }
    ensures room { OnOk result (HasRoom remaining work.new) }
    ensures grown { GrowsFor (does space.old.mappings op.now) space.old space.new }
{
    apply_ranged(alloc, space, work, op)
}

/// Applies an operation of a request, and leaves room for `remaining` operations more.
fn apply_op(
    alloc: Global,
    space: &mut Space,
    work: &mut Work,
    op: &Op,
    remaining: usize,
) -> Result<(), Fault>
    requires few { remaining ≤ 256 }
    requires room { HasRoom (1 + remaining) work.old }
    ensures ok { OnOk result (request_op_fault space.old op.now ≡ None) }
    ensures err { IfErr result (IsOpRefused space.old op.now) }
    ensures continues { Continues space.old space.new work.old work.new }
    ensures ops { OnOk result (work.new.ops.items ≡ work.old.ops.items ++ does space.old.mappings op.now) }
    ensures state { OnOk result (space.new
        ≡ record (after_all (reverse (does space.old.mappings op.now)) space.old) { room = space.new.room }) }
    ensures room { OnOk result (HasRoom remaining work.new) }
    ensures grown { GrowsFor (does space.old.mappings op.now) space.old space.new }
{
    match *op {
        Op::UnmapBuffer { buffer } => unmap_all(alloc, space, work, buffer, remaining),
        Op::Map { .. } | Op::MapZero { .. } | Op::Unmap { .. } => {
            apply_named(alloc, space, work, op, remaining)
        }
    }
}

/// Applies the operations of a request in order, or none of them.
pub fn apply_all(alloc: Global, space: &mut Space, ops: &[Op]) -> Result<Work, Refusal>
    requires few { length ops.now ≤ 256 }
    requires kept { (kept : List Mapping) × AreKept space.old kept }
    ensures accepted { OnOk result (verdict_from 0 space.old ops.now ≡ None) }
    ensures refused { IfErr result (IsRefusedInTurn space.old ops.now) }
    ensures applied { IfOk result (λ w. AreApplied space.old space.new (reverse w.ops.items) (reverse w.undos.items)) }
    ensures ops { IfOk result (λ w. w.ops.items ≡ all_do space.old.mappings ops.now) }
    ensures unchanged { OnErr result (IsUnchanged space.old space.new) }
    ensures grown { GrowsFor (all_do space.old.mappings ops.now) space.old space.new }
{
    let mut work = match no_work(alloc, ops.len()) {
        Ok(work) => work,
        Err(_) => {
            return Err(Refusal {
                op: 0,
                fault: Fault::OutOfMemory,
            });
        }
    };
    for (index, op) in ops.iter().enumerate() {
        let remaining = ops.len() - index - 1;
        match apply_op(alloc, space, &mut work, op, remaining) {
            Ok(()) => {}
            Err(fault) => {
                give_back(space, work);
                return Err(Refusal {
                    op: index as u64,
                    fault,
                });
            }
        }
    }
    Ok(work)
}

/// Takes back what was done so far. It takes no memory.
fn give_back(space: &mut Space, work: Work)
    requires revertible { AreRevertible space.old.limits.mappings space.old.room space.old.mappings (reverse work.undos.items) }
    requires kept { AreAmongKept space.old (taken_by (reverse work.undos.items)) }
    ensures { space.new ≡ reverted_by space.old (reverse work.undos.items) }
{
    let Work { ops: _, undos } = work;
    revert_all(space, undos);
}
