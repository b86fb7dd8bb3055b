//! The requests of a threads script, made when their buffers have ids.
ghost use Rattle.std.specs.Prelude.{◌≡◌, ◌≢◌, ◌++◌, ◌∷◌, [], ℕ, Err, IfOk, IfSome, IfNone, OnSome, true, false};
ghost use Rattle.std.specs.List.{All};
ghost use Rattle.gv_sync.specs.Seats.{most_timelines};
ghost use Rattle.gv_lines.specs.Clause.{queue_asked};
ghost use Rattle.gv_threads.specs.Naming.{HasBuffer, IsFirstBad, MayBePut, NamesUndeclared};
ghost use Rattle.gv_threads.specs.Parts.{unnumbered};
ghost use Rattle.gv_threads.specs.ReadSoFar.{AreTimed};
ghost use Rattle.gv_threads.specs.Running.{AreNamed, IsNamed};
ghost use Rattle.gv_threads.specs.Script.{IsFor, IsOfLine};

use crate::script::ThreadsScript;
use gv_lines::{Clause, ClauseList, Line};
use gv_text::{BufferNames, LineFault, ScriptFault, TimelineNames, asked_by, point_named};
use gv_types::Request;
use std::alloc::Global;

/// The queue that some clauses ask for. None where they name a timeline that is not declared.
pub fn queue_asked(timelines: &TimelineNames, clauses: &ClauseList<'_>) -> Option<u64>
    ensures asked { IfSome result (λ queue. queue ≡ queue_asked clauses.now) }
    ensures timed { OnSome result (AreTimed timelines.now.names clauses.now) }
    ensures none { IfNone result (¬ AreTimed timelines.now.names clauses.now) }
{
    let mut asked = None;
    let mut remaining = clauses.again();
    while let Some(clause) = remaining.take() {
        match clause {
            Clause::Wait { point } | Clause::Signal { point } => {
                point_named(timelines, &point)?;
            }
            Clause::Queue { queue } => asked = asked.or(Some(queue)),
            Clause::Change { .. } => {}
        }
    }
    Some(asked.unwrap_or(0))
}

/// Adds a request to those of a script. Whether there was memory for it.
fn keep(requests: &mut Vec<(u64, Request)>, entry: (u64, Request)) -> bool
    ensures kept { result ≡ true → requests.new.items ≡ requests.old.items ++ entry ∷ [] }
    ensures same { result ≡ false → requests.new.items ≡ requests.old.items }
{
    if requests.reserve(1).is_err() {
        return false;
    }
    requests.push_reserved(entry);
    true
}

impl ThreadsScript<'_> {
    /// The requests, each with its queue. Want of memory hides no name of a buffer that is not declared.
    pub fn requests_named(
        &self,
        alloc: Global,
        buffers: &BufferNames,
    ) -> Result<Vec<(u64, Request)>, ScriptFault>
        ensures requests { IfOk result (λ requests. All (IsFor self.now.queues most_timelines) requests.items) }
        ensures named { IfOk result (λ requests.
            AreNamed buffers.now.entries self.now.timelines (unnumbered self.now.requests) requests.items) }
        ensures bad_line { (line : ℕ) → result ≡ Err (ScriptFault.BadLine line) → NamesUndeclared buffers.now.entries self.now line }
        ensures ends { IsOfLine result }
    {
        let mut requests = Vec::new(alloc);
        let mut has_memory = true;
        for (number, clauses) in &self.requests {
            match self.request_for(alloc, buffers, clauses) {
                Ok(entry) => {
                    if !keep(&mut requests, entry) {
                        has_memory = false;
                    }
                }
                Err(LineFault::OutOfMemory) => has_memory = false,
                Err(LineFault::Bad) => {
                    return Err(ScriptFault::BadLine { line: *number });
                }
            }
        }
        self.check_questions(buffers)?;
        if !has_memory {
            return Err(ScriptFault::OutOfMemory);
        }
        Ok(requests)
    }

    /// The request of some clauses, with its queue.
    fn request_for(
        &self,
        alloc: Global,
        buffers: &BufferNames,
        clauses: &ClauseList<'_>,
    ) -> Result<(u64, Request), LineFault>
        ensures fits { IfOk result (IsFor self.now.queues most_timelines) }
        ensures named { IfOk result (IsNamed buffers.now.entries self.now.timelines clauses.now) }
        ensures bad { result ≡ Err LineFault.Bad
            → ¬ MayBePut self.now.queues buffers.now.entries self.now.timelines clauses.now }
        ensures memory { result ≢ Err LineFault.Bad
            → MayBePut self.now.queues buffers.now.entries self.now.timelines clauses.now }
    {
        match asked_by(alloc, buffers, &self.timelines, clauses) {
            Ok((queue, request)) => {
                if queue >= self.queues {
                    return Err(LineFault::Bad);
                }
                Ok((queue, request))
            }
            Err(fault) => {
                if clauses.queue() >= self.queues {
                    return Err(LineFault::Bad);
                }
                Err(fault)
            }
        }
    }

    /// That each buffer which the last part names is declared.
    fn check_questions(&self, buffers: &BufferNames) -> Result<(), ScriptFault>
        ensures bad_line { (line : ℕ) → result ≡ Err (ScriptFault.BadLine line)
            → IsFirstBad (HasBuffer buffers.now.entries) self.now.questions line }
        ensures ends { IsOfLine result }
        ensures no_memory { result ≢ Err ScriptFault.OutOfMemory }
    {
        for (number, question) in &self.questions {
            if let Line::Uses { name } = question {
                if buffers.id_of(name).is_none() {
                    return Err(ScriptFault::BadLine { line: *number });
                }
            }
        }
        Ok(())
    }
}
