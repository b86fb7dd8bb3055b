//! Makes the request that the clauses of a line ask for: ids and timelines replace names.
ghost use Rattle.std.specs.Prelude.{◌≡◌, ◌≢◌, ◌++◌, ◌∷◌, [], IfOk, OnOk, length, None};
ghost use Rattle.gv_types.specs.Request.{Fits};
ghost use Rattle.gv_lines.specs.OptionSteps.{all_read};
ghost use Rattle.gv_lines.specs.Clause.{queue_asked, operations_of, waits_of, signals_of};
ghost use Rattle.gv_session.specs.Requests.{flags_of, op_named, point_named};
ghost use Rattle.gv_session.specs.Line.{AreDeclared};
ghost use Rattle.gv_session.specs.LineProgress.{Adds, IsDeclared};

use crate::buffer_names::BufferNames;
use crate::fault::LineFault;
use crate::timeline_names::TimelineNames;
use gv_lines::{Clause, ClauseList, NamedPoint, Operation};
use gv_types::{Flags, Op, OutOfMemory, Point, Request};
use std::alloc::Global;

fn flags(read_only: bool) -> Flags
    ensures { result ≡ flags_of read_only }
{
    Flags { read_only }
}

/// The operation with its buffer's id. None where the buffer's name is not declared.
pub fn op_named(names: &BufferNames, operation: &Operation) -> Option<Op>
    ensures { result ≡ op_named names.now.entries operation.now }
{
    match operation {
        Operation::Map {
            addr,
            len,
            buffer,
            offset,
            read_only,
        } => Some(Op::Map {
            addr: *addr,
            len: *len,
            buffer: names.id_of(buffer)?,
            offset: *offset,
            flags: flags(*read_only),
        }),
        Operation::Zero {
            addr,
            len,
            read_only,
        } => Some(Op::MapZero {
            addr: *addr,
            len: *len,
            flags: flags(*read_only),
        }),
        Operation::Unmap { addr, len } => Some(Op::Unmap {
            addr: *addr,
            len: *len,
        }),
        Operation::UnmapAll { buffer } => Some(Op::UnmapBuffer {
            buffer: names.id_of(buffer)?,
        }),
    }
}

/// The point on its timeline. None where the timeline's name is not declared.
pub fn point_named(timelines: &TimelineNames, point: &NamedPoint) -> Option<Point>
    ensures { result ≡ point_named timelines.now.names point.now }
{
    Some(Point {
        timeline: timelines.index_of(&point.timeline)?,
        value: point.value,
    })
}

/// Adds to a list. Most requests have one operation, and the journal holds them: the first one asks for its own room alone.
fn push<T: Drop>(list: &mut Vec<T>, item: T) -> Result<(), OutOfMemory>
    ensures { OnOk result (list.new.items ≡ list.old.items ++ item ∷ []) }
{
    if list.is_empty() {
        list.reserve_exact(1)?;
    } else {
        list.reserve(1)?;
    }
    list.push_reserved(item);
    Ok(())
}

/// What some clauses ask for so far: a request, and the queue that it is put in, if they name one.
#[derive(Drop)]
struct Asked {
    queue: Option<u64>,
    request: Request,
}

impl Asked {
    /// Nothing.
    fn new(alloc: Global) -> Self
        ensures queue { result.queue ≡ None }
        ensures ops { result.request.ops.items ≡ [] }
        ensures waits { result.request.waits.items ≡ [] }
        ensures signals { result.request.signals.items ≡ [] }
    {
        Asked {
            queue: None,
            request: Request {
                ops: Vec::new(alloc),
                waits: Vec::new(alloc),
                signals: Vec::new(alloc),
            },
        }
    }

    /// Adds what one more clause asks for. Each name is looked for once.
    fn add(
        &mut self,
        names: &BufferNames,
        timelines: &TimelineNames,
        clause: &Clause,
    ) -> Result<(), LineFault>
        ensures done { OnOk result (Adds names.now.entries timelines.now.names clause.now self.old self.new) }
        ensures bad { result ≡ Err LineFault.Bad → ¬ IsDeclared names.now.entries timelines.now.names clause.now }
        ensures memory { result ≢ Err LineFault.Bad → IsDeclared names.now.entries timelines.now.names clause.now }
    {
        match clause {
            Clause::Change { operation } => {
                let op = op_named(names, operation).ok_or(LineFault::Bad)?;
                Ok(push(&mut self.request.ops, op)?)
            }
            Clause::Wait { point } => {
                let point = point_named(timelines, point).ok_or(LineFault::Bad)?;
                Ok(push(&mut self.request.waits, point)?)
            }
            Clause::Signal { point } => {
                let point = point_named(timelines, point).ok_or(LineFault::Bad)?;
                Ok(push(&mut self.request.signals, point)?)
            }
            Clause::Queue { queue } => {
                self.queue = Some(self.queue.unwrap_or(*queue));
                Ok(())
            }
        }
    }
}

/// The queue and the request that some clauses ask for. They are read once, also where memory is refused: it hides no name that
/// is not declared.
pub fn asked_by(
    alloc: Global,
    names: &BufferNames,
    timelines: &TimelineNames,
    clauses: &ClauseList<'_>,
) -> Result<(u64, Request), LineFault>
    ensures queue { IfOk result (λ asked. asked.0 ≡ queue_asked clauses.now) }
    ensures ops { IfOk result (λ asked. all_read (op_named names.now.entries) (operations_of clauses.now) ≡ Some asked.1.ops.items) }
    ensures waits { IfOk result (λ asked. all_read (point_named timelines.now.names) (waits_of clauses.now) ≡ Some asked.1.waits.items) }
    ensures signals { IfOk result (λ asked. all_read (point_named timelines.now.names) (signals_of clauses.now) ≡ Some asked.1.signals.items) }
    ensures fits { IfOk result (λ asked. Fits (length timelines.now.names) asked.1) }
    ensures bad { result ≡ Err LineFault.Bad → ¬ AreDeclared names.now.entries timelines.now.names clauses.now }
    ensures memory { result ≢ Err LineFault.Bad → AreDeclared names.now.entries timelines.now.names clauses.now }
{
    let mut asked = Asked::new(alloc);
    let mut has_memory = true;
    let mut remaining = clauses.again();
    while let Some(clause) = remaining.take() {
        match asked.add(names, timelines, &clause) {
            Ok(()) => {}
            Err(LineFault::Bad) => return Err(LineFault::Bad),
            Err(LineFault::OutOfMemory) => has_memory = false,
        }
    }
    if !has_memory {
        return Err(LineFault::OutOfMemory);
    }
    Ok((asked.queue.unwrap_or(0), asked.request))
}
