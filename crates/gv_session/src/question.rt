//! Answers the lines that only ask of an address space, such as `map` and `at`.
ghost use Rattle.std.specs.Prelude.{◌≡◌, ◌≢◌, ◌<◌, ◌++◌, ℕ, List, Err, OnOk, string_bytes};
ghost use Rattle.gv_session.specs.Texts.{journal_reply};
ghost use Rattle.gv_vm.specs.Outcomes.{queues};
ghost use Rattle.gv_session.specs.ReplyTexts.{uses_said, plan_said, told_said};
ghost use Rattle.gv_session.specs.State.{SessionState, names_alone};
ghost use Rattle.gv_session.specs.Line.{IsGood};
ghost use Rattle.gv_session.specs.Question.{IsQuestion, IsAnswer, with_vm};

use crate::buffer_names::BufferNames;
use crate::fault::LineFault;
use crate::journal::write_journal;
use crate::reply_text::{write_refused, write_told};
use crate::request::op_named;
use crate::space_text::{write_mappings, write_place, write_steps, write_tables};
use crate::timeline_names::TimelineNames;
use gv_lines::Line;
use gv_space::Space;
use gv_types::{BufferId, Fault, Op, OutOfMemory};
use gv_vm::{QUEUES, Vm};
use std::alloc::{AllocError, Global};
use std::fmt::Write;

/// An address space, and the names of its buffers and of the timelines.
#[derive(Drop)]
pub struct NamedVm<'a> {
    pub vm: &'a Vm,
    pub buffers: &'a BufferNames,
    pub timelines: &'a TimelineNames,
}

/// Writes the answer to a question, with these names. For any other line it writes nothing.
pub fn answer(
    alloc: Global,
    question: &Line<'_>,
    named: NamedVm<'_>,
    out: &mut String,
) -> Result<(), LineFault>
    ensures done { IsQuestion question.now → OnOk result ((text : List ℕ)
        × IsAnswer question.now named.entry.buffers.now.entries named.entry.timelines.now.names named.entry.vm.now text
        × (string_bytes out.new ≡ string_bytes out.old ++ text)) }
    ensures bad { result ≡ Err LineFault.Bad → (s : SessionState) → ¬ IsGood question.now
        (with_vm named.entry.buffers.now.entries named.entry.timelines.now.names named.entry.vm.now s) }
    ensures memory { IsQuestion question.now → result ≢ Err LineFault.Bad → (s : SessionState) → IsGood question.now
        (with_vm named.entry.buffers.now.entries named.entry.timelines.now.names named.entry.vm.now s) }
{
    let NamedVm {
        vm,
        buffers,
        timelines,
    } = named;
    match question {
        Line::Uses { name } => {
            let id = buffers.id_of(name).ok_or(LineFault::Bad)?;
            Ok(write_uses(out, vm.space(), &id)?)
        }
        Line::Plan { operation } => {
            let op = op_named(buffers, operation).ok_or(LineFault::Bad)?;
            Ok(write_plan(alloc, out, buffers, vm, &op)?)
        }
        Line::Map => Ok(write_mappings(out, buffers, vm.space().list())?),
        Line::At { addr } => Ok(write_place(out, buffers, &vm.translate(*addr))?),
        Line::Tables => Ok(write_tables(out, vm.space().tables())?),
        Line::Journal => Ok(write_items(alloc, out, vm)?),
        Line::Told { queue } if *queue < QUEUES as u64 => {
            Ok(write_outcomes(out, timelines, vm, *queue)?)
        }
        Line::Told { .. } => Err(LineFault::Bad),
        _ => Ok(()),
    }
}

/// Writes what a queue was told, but for what is forgotten.
fn write_outcomes(
    out: &mut String,
    timelines: &TimelineNames,
    vm: &Vm,
    queue: u64,
) -> Result<(), AllocError>
    requires { queue < queues }
    ensures { OnOk result (string_bytes out.new ≡ string_bytes out.old ++ told_said timelines.now.names vm.now queue) }
{
    // For the prover: that the numbers of all outcomes fit.
    let _next = vm.told_next(queue);
    write_told(out, timelines, vm.told_from(queue), vm.told(queue))
}

/// Writes how many mappings of a buffer there are, unless it is destroyed.
fn write_uses(out: &mut String, space: &Space, id: &BufferId) -> Result<(), AllocError>
    ensures { OnOk result (string_bytes out.new ≡ string_bytes out.old ++ uses_said space.now.buffers id.now) }
{
    match space.uses(*id).zip(space.kept(*id)) {
        Some((uses, kept)) => writeln!(out, "uses {uses} kept {kept}"),
        None => write_refused(out, &Fault::NoBuffer),
    }
}

/// Writes the split steps of an operation, or why it would be refused.
fn write_plan(
    alloc: Global,
    out: &mut String,
    names: &BufferNames,
    vm: &Vm,
    op: &Op,
) -> Result<(), OutOfMemory>
    ensures { OnOk result (string_bytes out.new
        ≡ string_bytes out.old ++ plan_said (names_alone names.now.entries) vm.now.space op.now) }
{
    match vm.space().plan(alloc, op) {
        Ok(steps) => Ok(write_steps(out, names, &steps)?),
        Err(Fault::OutOfMemory) => Err(OutOfMemory),
        Err(fault) => Ok(write_refused(out, &fault)?),
    }
}

/// Writes the items of the journal.
fn write_items(alloc: Global, out: &mut String, vm: &Vm) -> Result<(), OutOfMemory>
    ensures { OnOk result (string_bytes out.new ≡ string_bytes out.old ++ journal_reply vm.now.journal) }
{
    // For the prover: the next number is one of 64 bits.
    let _next = vm.next();
    write_journal(alloc, out, vm.first(), vm.items())
}
