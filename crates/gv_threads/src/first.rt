//! The first part of a threads script, carried out.
ghost use Rattle.std.specs.Prelude.{◌≡◌, ◌≤◌, ◌++◌, [], ℕ, List, IfOk, OnOk, length, string_bytes};
ghost use Rattle.std.specs.Io.KnownBytes.{Appends, append_known};
ghost use Rattle.std.specs.List.{All};
ghost use Rattle.gv_sync.specs.Seats.{IsSeatOf, timeline_count, most_timelines};
ghost use Rattle.gv_text.specs.Reading.{TellsWrites};
ghost use Rattle.gv_threads.specs.Parts.{unnumbered};
ghost use Rattle.gv_threads.specs.Running.{AreNamed, IsFirst, MakesBuffer, SetsUp, SetUpAll, ready_of};
ghost use Rattle.gv_threads.specs.Script.{EndsByLine, IsFor};

use crate::harness::Harness;
use crate::script::ThreadsScript;
use crate::setting::SetupLine;
use gv_lines::Name;
use gv_sync::laws;
use gv_text::{
    LineFault, Output, ScriptFault, Sink, TimelineNames, point_named, write_number, write_refused,
};
use gv_types::{Fault, Request};
use std::alloc::Global;
use std::mem;

/// Makes a buffer and declares its name, unless it is declared already, and writes the reply. A refusal comes before want of
/// memory for the name.
fn make_buffer(
    alloc: Global,
    name: Name,
    pages: u64,
    harness: &mut Harness,
    out: &mut String,
) -> Result<(), LineFault>
    ensures told { harness.new.vm.told ≡ harness.old.vm.told }
    ensures timelines { harness.new.timelines ≡ harness.old.timelines }
    ensures seat { harness.new.seat ≡ harness.old.seat }
    ensures done { (names : List (List ℕ)) → OnOk result ((text : List ℕ)
        × MakesBuffer names name pages (ready_of harness.old) text (ready_of harness.new)
        × (string_bytes out.new ≡ string_bytes out.old ++ text)) }
{
    if harness.buffers.id_of(&name).is_some() {
        return Err(LineFault::Bad);
    }
    let room = harness.buffers.reserve();
    match harness.vm.create(alloc, pages) {
        Ok(id) => {
            room?;
            harness.buffers.declare(name, id);
            Ok(out.push_str("ok\n")?)
        }
        Err(Fault::OutOfMemory) => Err(LineFault::OutOfMemory),
        Err(fault) => Ok(write_refused(out, &fault)?),
    }
}

/// Carries out a line of the first part, and writes its reply.
fn set_up(
    alloc: Global,
    setting: SetupLine,
    names: &TimelineNames,
    harness: &mut Harness,
    out: &mut String,
) -> Result<(), LineFault>
    requires own { IsSeatOf harness.old.timelines harness.old.seat }
    requires there { length names.now.names ≤ timeline_count harness.old.timelines }
    requires first { IsFirst harness.old.seat }
    ensures told { harness.new.vm.told ≡ harness.old.vm.told }
    ensures timelines { harness.new.timelines ≡ harness.old.timelines }
    ensures own { IsSeatOf harness.new.timelines harness.new.seat }
    ensures first { IsFirst harness.new.seat }
    ensures done { OnOk result ((text : List ℕ)
        × SetsUp names.now.names setting (ready_of harness.old) text (ready_of harness.new)
        × (string_bytes out.new ≡ string_bytes out.old ++ text)) }
{
    match setting {
        SetupLine::AlreadySet => Ok(out.push_str("ok\n")?),
        SetupLine::Buffer { name, pages } => make_buffer(alloc, name, pages, harness, out),
        SetupLine::Raise { point } => {
            let point = point_named(names, &point).ok_or(LineFault::Bad)?;
            laws::seat_raises();
            let now = harness.timelines.raise(&mut harness.seat, point);
            Ok(write_number(out, names, point.timeline, now)?)
        }
    }
}

impl ThreadsScript<'_> {
    /// Runs the first part on a new address space and its 64 timelines, and gives each request with its queue, in the
    /// order of the lines. A buffer's name that is declared twice, or is not declared, in a later line too, ends it as
    /// `BadLine`, after the replies of the first part's lines before it. `WriteFault` only where the writer has failed.
    pub fn begin<W: Sink>(
        &mut self,
        alloc: Global,
        harness: &mut Harness,
        writer: &mut W,
    ) -> Result<Vec<(u64, Request)>, ScriptFault>
        requires own { IsSeatOf harness.old.timelines harness.old.seat }
        requires all { timeline_count harness.old.timelines ≡ most_timelines }
        requires first { IsFirst harness.old.seat }
        ensures requests { IfOk result (λ requests. All (IsFor self.old.queues most_timelines) requests.items) }
        ensures named { IfOk result (λ requests.
            AreNamed harness.new.buffers.entries self.old.timelines (unnumbered self.old.requests) requests.items) }
        ensures sets_up { OnOk result ((text : List ℕ)
            × SetUpAll self.old.timelines (unnumbered self.old.settings) (ready_of harness.old) text (ready_of harness.new)
            × Appends (W.written writer.old) (W.written writer.new) text) }
        ensures told { harness.new.vm.told ≡ harness.old.vm.told }
        ensures timelines { harness.new.timelines ≡ harness.old.timelines }
        ensures own { IsSeatOf harness.new.timelines harness.new.seat }
        ensures first { IsFirst harness.new.seat }
        ensures same { self.new ≡ record self.old { settings = [] } }
        ensures ends { EndsByLine result }
        ensures write_fault { TellsWrites (W.failed writer.old) (W.failed writer.new) result }
    {
        let mut output = Output::new(alloc);
        let set_up = self.set_up_all(alloc, harness, &mut output, writer);
        if let Err(ScriptFault::WriteFault) = set_up {
            return Err(ScriptFault::WriteFault);
        }
        output.flush(writer)?;
        set_up?;
        self.requests_named(alloc, &harness.buffers)
    }

    /// Runs the first part.
    fn set_up_all<W: Sink>(
        &mut self,
        alloc: Global,
        harness: &mut Harness,
        output: &mut Output,
        writer: &mut W,
    ) -> Result<(), ScriptFault>
        requires own { IsSeatOf harness.old.timelines harness.old.seat }
        requires all { timeline_count harness.old.timelines ≡ most_timelines }
        requires first { IsFirst harness.old.seat }
        requires fresh { output.old ≡ [] }
        ensures sets_up { OnOk result ((text : List ℕ)
            × SetUpAll self.old.timelines (unnumbered self.old.settings) (ready_of harness.old) text (ready_of harness.new)
            × Appends (W.written writer.old) (append_known (W.written writer.new) output.new) text) }
        ensures told { harness.new.vm.told ≡ harness.old.vm.told }
        ensures timelines { harness.new.timelines ≡ harness.old.timelines }
        ensures own { IsSeatOf harness.new.timelines harness.new.seat }
        ensures first { IsFirst harness.new.seat }
        ensures same { self.new ≡ record self.old { settings = [] } }
        ensures ends { EndsByLine result }
        ensures fault { TellsWrites (W.failed writer.old) (W.failed writer.new) result }
    {
        let mut reply = String::new(alloc);
        let settings = mem::replace(&mut self.settings, Vec::new(alloc));
        for (number, setting) in settings {
            reply.clear();
            let done = set_up(alloc, setting, &self.timelines, harness, &mut reply);
            if let Err(fault) = done {
                return Err(fault.at(number));
            }
            output.push(writer, reply.as_bytes())?;
        }
        Ok(())
    }
}
