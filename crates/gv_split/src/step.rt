//! The steps by which an operation changes a list of mappings.
ghost use Rattle.std.specs.Prelude.{◌≡◌, false, ◌+◌, ◌<◌, ◌++◌, map, filter, length, IfOk, IfErr, OnErr};
ghost use Rattle.std.specs.List.{All};

use gv_ranges::{RangeList, Run};
use gv_types::{Backing, BufferId, Fault, Mapping, PageOp, SPACE_PAGES};
use std::alloc::Global;

/// One step of an operation: what DRM GPUVM hands to its driver for a map or an unmap request.
///
/// The steps of an operation ascend by page, and the operation's own map comes last. No piece is
/// joined to a neighbour. `keep` is set exactly where the operation is a map, the mapping has the
/// same buffer and equal flags, and the pages of the buffer continue: page by page the operation
/// maps what the mapping held, so page table entries of it may stay. An unmap of a whole buffer has a
/// step `Unmap` for each of its mappings.
#[derive(Clone, Copy, Debug, PartialEq, Eq)]
pub enum Step {
    /// The mapping lies in the operation's range, and goes.
    Unmap {
        mapping: Mapping,
        keep: bool,
    },
    /// The mapping sticks out of the operation's range, and its rests take its place. `prev` keeps
    /// the start and the offset of the mapping, and ends where the operation begins. `next` begins
    /// where the operation ends, with the offset moved on by as many pages as the start. Each is
    /// there where the mapping has pages on that side.
    Remap {
        mapping: Mapping,
        prev: Option<Mapping>,
        next: Option<Mapping>,
        keep: bool,
    },
    /// The operation's own mapping comes in.
    Map {
        mapping: Mapping,
    },
}

ghost use Rattle.gv_types.specs.Mapping.{is_of, IsMapping};
ghost use Rattle.gv_types.specs.Operation.{own_mapping, range_of, IsPageOp, IsChecked};
ghost use Rattle.gv_types.specs.PageRange.{meets};
ghost use Rattle.gv_split.specs.Steps.{continues_mapping, step_in, steps};
ghost use Rattle.gv_split.specs.CarriedOut.{carried_out, ArePresent, list_after};

/// Whether the operation maps the pages of the mapping's buffer again where they were, with equal
/// flags.
fn continues_mapping(op: &PageOp, mapping: &Mapping) -> bool
    requires mapping { IsMapping mapping.now }
    requires op { IsPageOp op.now }
    ensures { result ≡ continues_mapping op.now mapping.now }
{
    let PageOp::Map {
        range,
        backing: Backing::Buffer { id, page },
        flags,
    } = *op
    else {
        return false;
    };
    let Backing::Buffer {
        id: old_id,
        page: old_page,
    } = mapping.backing
    else {
        return false;
    };
    id == old_id
        && flags == mapping.flags
        && page + mapping.range.first() == old_page + range.first()
}

/// The step for a mapping that meets the operation's range.
fn step_in(op: &PageOp, mapping: &Mapping) -> Step
    requires mapping { IsMapping mapping.now }
    requires op { IsPageOp op.now }
    ensures { result ≡ step_in op.now mapping.now }
{
    let keep = continues_mapping(op, mapping);
    let range = op.range();
    if mapping.range.lies_in(range) {
        Step::Unmap {
            mapping: *mapping,
            keep,
        }
    } else {
        Step::Remap {
            mapping: *mapping,
            prev: mapping.clip(0, range.first()),
            next: mapping.clip(range.end(), SPACE_PAGES),
            keep,
        }
    }
}

/// The steps for a run of mappings that meet the operation's range, and for its own mapping.
fn steps_of_run(alloc: Global, run: Run<'_>, op: &PageOp) -> Result<Vec<Step>, Fault>
    requires mappings { All IsMapping run }
    requires op { IsPageOp op.now }
    ensures ok { IfOk result (λ answer.
        answer.items ≡ map (step_in op.now) run.entry ++ map Step.Map (own_mapping op.now)) }
    ensures err { IfErr result (λ fault. fault ≡ Fault.OutOfMemory) }
    ensures some { OnErr result (0 < length run.entry + length (own_mapping op.now)) }
{
    let own = op.own_mapping();
    let count = run
        .len()
        .checked_add(usize::from(own.is_some()))
        .ok_or(Fault::OutOfMemory)?;
    let mut answer = Vec::with_capacity(alloc, count)?;
    for mapping in run {
        answer.push_reserved(step_in(op, &mapping.mapping()));
    }
    if let Some(mapping) = own {
        answer.push_reserved(Step::Map { mapping });
    }
    Ok(answer)
}

/// How many of the mappings are of the buffer.
fn count_of_buffer(list: &RangeList, buffer: BufferId) -> usize
    ensures { result ≡ length (filter (λ m. is_of buffer m.backing) list.now.mappings) }
{
    list.iter().filter(|m| m.is_of(buffer)).count()
}

/// The steps for the mappings of a buffer, all of which go.
fn steps_of_buffer(alloc: Global, list: &RangeList, buffer: BufferId) -> Result<Vec<Step>, Fault>
    ensures ok { IfOk result (λ answer.
        answer.items ≡ map (λ m. Step.Unmap m false) (filter (λ m. is_of buffer m.backing) list.now.mappings)) }
    ensures err { IfErr result (λ fault. fault ≡ Fault.OutOfMemory) }
    ensures some { OnErr result (0 < length (filter (λ m. is_of buffer m.backing) list.now.mappings)) }
{
    if count_of_buffer(list, buffer) == 0 {
        return Ok(Vec::new(alloc));
    }
    let answer = list
        .iter()
        .filter(|m| m.is_of(buffer))
        .map(|m| Step::Unmap {
            mapping: m.mapping(),
            keep: false,
        })
        .collect(alloc)?;
    Ok(answer)
}

/// The steps by which the operation changes the list, in ascending order. Carried out one after
/// another they make the list that the operation makes, and each finds its mapping there at its
/// turn. `OutOfMemory` where the system refuses the memory for them, so only where there are steps.
pub fn plan(alloc: Global, list: &RangeList, op: &PageOp) -> Result<Vec<Step>, Fault>
    requires { IsChecked op.now }
    ensures ok { IfOk result (λ answer. answer.items ≡ steps list.now.mappings op.now) }
    ensures carried_out { IfOk result (λ answer.
        carried_out answer.items list.now.mappings ≡ list_after list.now.mappings op.now) }
    ensures present { IfOk result (λ answer. ArePresent answer.items list.now.mappings) }
    ensures err { IfErr result (λ fault. fault ≡ Fault.OutOfMemory) }
    ensures some { OnErr result (0 < length (steps list.now.mappings op.now)) }
{
    // Tells that the list is laid out.
    let _len = list.len();
    match *op {
        PageOp::UnmapBuffer { buffer } => steps_of_buffer(alloc, list, buffer),
        PageOp::Map { .. } | PageOp::Unmap { .. } => plan_range(alloc, list, op),
    }
}

/// The same for an operation that names its pages.
fn plan_range(alloc: Global, list: &RangeList, op: &PageOp) -> Result<Vec<Step>, Fault>
    requires { IsPageOp op.now }
    ensures ok { IfOk result (λ answer. answer.items
        ≡ map (step_in op.now) (filter (λ m. meets m.range (range_of op.now)) list.now.mappings)
        ++ map Step.Map (own_mapping op.now)) }
    ensures err { IfErr result (λ fault. fault ≡ Fault.OutOfMemory) }
    ensures some { OnErr result (0 < length (filter (λ m. meets m.range (range_of op.now)) list.now.mappings)
        + length (own_mapping op.now)) }
{
    let (index, count) = list.overlapping(op.range());
    // Tells that the list is laid out.
    let _len = list.len();
    steps_of_run(alloc, list.run(index, count), op)
}
