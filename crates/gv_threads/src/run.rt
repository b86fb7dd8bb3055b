//! A threads script from its bytes to its replies.
ghost use Rattle.std.specs.Prelude.{◌≡◌, ◌+◌, ◌≤◌, ◌++◌, ℕ, List, Vec, Bool, Ok, Err, IfErr, IfSome, OnOk};
ghost use Rattle.std.specs.List.{All};
ghost use Rattle.std.specs.Io.KnownBytes.{Appends};
ghost use Rattle.std.specs.declared.alloc.Global.{Global as TheGlobal};
ghost use Rattle.gv_types.specs.Limits.{IsFromOneTo};
ghost use Rattle.gv_sync.specs.Seats.{IsSeatOf, timeline_count, most_timelines};
ghost use Rattle.gv_vm.specs.Outcomes.{queues};
ghost use Rattle.gv_threads.specs.Script.{most_waiting};
ghost use Rattle.gv_queues.specs.Ending.{IsOfQueueBelow, IsUntold};
ghost use Rattle.gv_lines.specs.declared.line.Line.{Line as TheLine};
ghost use Rattle.gv_text.specs.Reading.{TakesFew, most_read};
ghost use Rattle.gv_queues.specs.declared.finishing.QueueEnd.{QueueEnd as TheEnd};
ghost use Rattle.gv_threads.specs.Ending.{HasNotBegun, EndsAs, end_lines};
ghost use Rattle.gv_threads.specs.Parts.{IsAsked, Keeps, unnumbered};
ghost use Rattle.gv_threads.specs.ReadSoFar.{IsBadLine};
ghost use Rattle.gv_threads.specs.Running.{AreAnswered, IsFirst, IsRestOfRun, IsTextOf, IsThreadsRun, ready_of};

use crate::ends::write_ends;
use crate::fault::ThreadsFault;
use crate::gate::TurnLimit;
use crate::harness::Harness;
use crate::script::ThreadsScript;
use crate::why::tell_bad_line;
use gv_queues::{PutAll, QueueEnd, Queues, QueuesFault};
use gv_sync::{MAX_TIMELINES, Timelines};
use gv_text::{BufferNames, ScriptFault, Sink, Source, read_script};
use gv_types::Request;
use gv_vm::Vm;
use std::alloc::Global;
use std::sync::Wait;
use std::thread::Threads;

/// On how many queues a script runs, and after how many looks that lacked a request that waits is given up.
#[derive(Clone, Copy, Debug, PartialEq, Eq)]
pub struct RunTerms {
    pub queues: u64,
    pub turns: u64,
}

/// A script that was read, what it runs on, and on what terms. The harness has to be closed.
struct Run<'a> {
    script: ThreadsScript<'a>,
    harness: Harness,
    terms: RunTerms,
    text: &'a [u8],
}

/// Reads a threads script and runs it: its first part, then its requests on so many running queues, then, for each
/// queue, a line of what it came to, and its last part. A request that waits is given up after so many looks that
/// lacked. It may wait.
///
/// A line that is bad by anything but a buffer's name is told before anything is written; a buffer's name that is
/// declared twice or not declared, after the replies of the first part's lines before it, and before any worker starts.
/// A device's fault is answered only where the device has failed.
pub fn run_threads<R: Threads + Wait + Sync, S: Source, K: Sink>(
    rt: &R,
    alloc: Global,
    reader: &mut S,
    writer: &mut K,
    terms: RunTerms,
) -> Result<(), ThreadsFault>
    requires { IsFromOneTo queues terms.queues }
    // The text is that of a run over the bytes that the reader gave.
    ensures text { OnOk result ((script text : List ℕ)
        × IfSome (S.remaining reader.old) (λ bytes. script ≡ bytes)
        × IsThreadsRun script terms.queues text × Appends (K.written writer.old) (K.written writer.new) text) }
    // A bad line is the first that may not stand where it does, unless each may.
    ensures bad_line { (line : ℕ) → result ≡ Err (ThreadsFault.Script (ScriptFault.BadLine line)) → (script : List ℕ)
        × IfSome (S.remaining reader.old) (λ bytes. script ≡ bytes) × IsBadLine script terms.queues line }
    ensures ends { EndsAs (S.failed reader.old) (S.failed reader.new) (K.failed writer.old) (K.failed writer.new)
        terms.queues result }
    ensures silent { IfErr result (λ fault. HasNotBegun fault → writer.new ≡ writer.old) }
    // One byte more than the longest script has is taken at most, in as many reads.
    ensures few { TakesFew (S.remaining reader.old) (S.remaining reader.new) }
    ensures reads { S.reads reader.new ≤ S.reads reader.old + most_read }
{
    let mut why = String::new(alloc);
    run_threads_explained(rt, reader, writer, terms, &mut why)
}

/// The same, and where a line is bad, why it is. If memory is refused for that text, it is empty. What is wanted of memory comes
/// from where the text's does.
pub fn run_threads_explained<R: Threads + Wait + Sync, S: Source, K: Sink>(
    rt: &R,
    reader: &mut S,
    writer: &mut K,
    terms: RunTerms,
    why: &mut String,
) -> Result<(), ThreadsFault>
    requires { IsFromOneTo queues terms.queues }
    // The text is that of a run over the bytes that the reader gave.
    ensures text { OnOk result ((script text : List ℕ)
        × IfSome (S.remaining reader.old) (λ bytes. script ≡ bytes)
        × IsThreadsRun script terms.queues text × Appends (K.written writer.old) (K.written writer.new) text) }
    // A bad line is the first that may not stand where it does, unless each may.
    ensures bad_line { (line : ℕ) → result ≡ Err (ThreadsFault.Script (ScriptFault.BadLine line)) → (script : List ℕ)
        × IfSome (S.remaining reader.old) (λ bytes. script ≡ bytes) × IsBadLine script terms.queues line }
    ensures ends { EndsAs (S.failed reader.old) (S.failed reader.new) (K.failed writer.old) (K.failed writer.new)
        terms.queues result }
    ensures silent { IfErr result (λ fault. HasNotBegun fault → writer.new ≡ writer.old) }
    // One byte more than the longest script has is taken at most, in as many reads.
    ensures few { TakesFew (S.remaining reader.old) (S.remaining reader.new) }
    ensures reads { S.reads reader.new ≤ S.reads reader.old + most_read }
{
    let alloc = *why.allocator();
    let text = match read_script(alloc, reader) {
        Ok(text) => text,
        Err(fault) => return Err(ThreadsFault::Script(fault)),
    };
    let script = match ThreadsScript::read(alloc, text.as_slice(), terms.queues, why) {
        Ok(script) => script,
        Err(fault) => return Err(ThreadsFault::Script(fault)),
    };
    let Ok((timelines, seat)) = Timelines::new(alloc, MAX_TIMELINES) else {
        return Err(ThreadsFault::Queues(QueuesFault::NotMade));
    };
    match Vm::new(alloc, script.bounds(), script.limits()) {
        Ok(vm) => {
            let harness = Harness {
                vm,
                buffers: BufferNames::new(alloc),
                timelines,
                seat,
            };
            let run = Run {
                script,
                harness,
                terms,
                text: text.as_slice(),
            };
            run_on(rt, run, writer, why)
        }
        Err(_) => Err(ThreadsFault::Script(ScriptFault::OutOfMemory)),
    }
}

/// Runs a script that was read on what was made for it, and closes the address space. Where a line is bad, it says why.
fn run_on<R: Threads + Wait + Sync, K: Sink>(
    rt: &R,
    run: Run<'_>,
    writer: &mut K,
    why: &mut String,
) -> Result<(), ThreadsFault>
    requires queues { IsFromOneTo queues run.terms.queues }
    requires read { run.script.queues ≡ run.terms.queues }
    requires asked { All IsAsked (unnumbered run.script.questions) }
    requires own { IsSeatOf run.harness.timelines run.harness.seat }
    requires all { timeline_count run.harness.timelines ≡ most_timelines }
    requires first { IsFirst run.harness.seat }
    requires untold { IsUntold run.harness.vm }
    requires depth { IsFromOneTo most_waiting run.script.depth }
    ensures text { (lines : List TheLine) → Keeps lines run.entry.script → OnOk result ((text : List ℕ)
        × IsTextOf lines (ready_of run.entry.harness) run.entry.terms.queues text
        × Appends (K.written writer.old) (K.written writer.new) text) }
    // The reader has nothing to do with it.
    ensures ends { (read : Bool)
        → EndsAs read read (K.failed writer.old) (K.failed writer.new) run.entry.terms.queues result }
    ensures begun { IfErr result (λ fault. HasNotBegun fault → ⊥) }
{
    let alloc = *why.allocator();
    let Run {
        mut script,
        mut harness,
        terms,
        text,
    } = run;
    match script.begin(alloc, &mut harness, writer) {
        Ok(requests) => {
            let run = Run {
                script,
                harness,
                terms,
                text,
            };
            run_requests(rt, alloc, run, requests, writer)
        }
        Err(fault) => {
            tell_bad_line(why, &fault, &script, &harness.buffers, text);
            harness.close();
            Err(ThreadsFault::Script(fault))
        }
    }
}

/// Puts the requests on running queues, writes what is written behind them, and closes the address space.
fn run_requests<R: Threads + Wait + Sync, K: Sink>(
    rt: &R,
    alloc: Global,
    run: Run<'_>,
    requests: Vec<(u64, Request)>,
    writer: &mut K,
) -> Result<(), ThreadsFault>
    requires queues { IsFromOneTo queues run.terms.queues }
    requires read { run.script.queues ≡ run.terms.queues }
    requires asked { All IsAsked (unnumbered run.script.questions) }
    requires own { IsSeatOf run.harness.timelines run.harness.seat }
    requires all { timeline_count run.harness.timelines ≡ most_timelines }
    requires first { IsFirst run.harness.seat }
    requires untold { IsUntold run.harness.vm }
    requires depth { IsFromOneTo most_waiting run.script.depth }
    ensures served { OnOk result ((text : List ℕ)
        × IsRestOfRun (ready_of run.entry.harness) run.entry.script.timelines requests.items
        (unnumbered run.entry.script.questions) run.entry.terms.queues text
        × Appends (K.written writer.old) (K.written writer.new) text) }
    ensures ends { (read : Bool)
        → EndsAs read read (K.failed writer.old) (K.failed writer.new) run.entry.terms.queues result }
    ensures begun { IfErr result (λ fault. HasNotBegun fault → ⊥) }
{
    let Run {
        script,
        harness,
        terms,
        text: _,
    } = run;
    let Harness {
        vm,
        buffers,
        timelines,
        mut seat,
    } = harness;
    let gate = TurnLimit::new(terms.turns);
    let mut driver = PutAll::new(requests);
    let queues = Queues {
        count: terms.queues,
        depth: script.depth(),
        timelines: &timelines,
        gate: &gate,
    };
    let (vm, ran) = queues.run_queues(rt, alloc, vm, &mut seat, &mut driver);
    let mut harness = Harness {
        vm,
        buffers,
        timelines,
        seat,
    };
    let ended = end(alloc, &script, ran, &mut harness, writer);
    harness.close();
    ended
}

/// Writes what each queue came to, where the queues ran to their end, and the replies of the last part.
fn end<K: Sink>(
    alloc: Global,
    script: &ThreadsScript<'_>,
    ran: Result<Vec<QueueEnd>, QueuesFault>,
    harness: &mut Harness,
    writer: &mut K,
) -> Result<(), ThreadsFault>
    requires own { IsSeatOf harness.old.timelines harness.old.seat }
    requires all { timeline_count harness.old.timelines ≡ most_timelines }
    requires asked { All IsAsked (unnumbered script.now.questions) }
    requires queue { IfErr ran (IsOfQueueBelow script.now.queues) }
    ensures text { OnOk result ((ends : Vec TheEnd TheGlobal) × (last : List ℕ) × (ran ≡ Ok ends)
        × AreAnswered harness.old.buffers.entries script.now.timelines harness.old.vm harness.old.seat
        (unnumbered script.now.questions) last harness.new.seat
        × Appends (K.written writer.old) (K.written writer.new) (end_lines ends.items ++ last)) }
    ensures ran { IfErr ran (λ fault. result ≡ Err (ThreadsFault.Queues fault)) }
    ensures ends { (read : Bool) → EndsAs read read (K.failed writer.old) (K.failed writer.new) script.now.queues result }
    ensures begun { IfErr result (λ fault. HasNotBegun fault → ⊥) }
{
    let ends = match ran {
        Ok(ends) => ends,
        Err(fault) => return Err(ThreadsFault::Queues(fault)),
    };
    if let Err(fault) = write_ends(alloc, ends.as_slice(), writer) {
        return Err(ThreadsFault::Script(fault));
    }
    match script.end(alloc, harness, writer) {
        Ok(()) => Ok(()),
        Err(fault) => Err(ThreadsFault::Script(fault)),
    }
}
