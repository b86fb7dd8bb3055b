//! The last part of a threads script, answered.
ghost use Rattle.std.specs.Prelude.{◌≡◌, ◌≤◌, ◌++◌, [], List, ℕ, Err, OnOk, length, string_bytes};
ghost use Rattle.std.specs.Io.KnownBytes.{Appends, append_known};
ghost use Rattle.std.specs.List.{All};
ghost use Rattle.gv_sync.specs.Seats.{IsSeatOf, timeline_count, most_timelines};
ghost use Rattle.gv_text.specs.Reading.{TellsWrites};
ghost use Rattle.gv_threads.specs.Naming.{HasNames, IsFirstBad};
ghost use Rattle.gv_threads.specs.Parts.{IsAsked, unnumbered};
ghost use Rattle.gv_threads.specs.Running.{AreAnswered, IsAnswered};
ghost use Rattle.gv_threads.specs.Script.{EndsByLine};

use crate::harness::Harness;
use crate::script::ThreadsScript;
use gv_lines::Line;
use gv_text::{LineFault, NamedVm, Output, ScriptFault, Sink, TimelineNames, answer, write_number};
use std::alloc::Global;

/// Writes what a line of the last part asks for.
fn ask(
    alloc: Global,
    question: &Line<'_>,
    names: &TimelineNames,
    harness: &mut Harness,
    out: &mut String,
) -> Result<(), LineFault>
    requires own { IsSeatOf harness.old.timelines harness.old.seat }
    requires there { length names.now.names ≤ timeline_count harness.old.timelines }
    requires asked { IsAsked question.now }
    ensures timelines { harness.new.timelines ≡ harness.old.timelines }
    ensures own { IsSeatOf harness.new.timelines harness.new.seat }
    ensures vm { harness.new.vm ≡ harness.old.vm }
    ensures buffers { harness.new.buffers ≡ harness.old.buffers }
    ensures done { OnOk result ((text : List ℕ)
        × IsAnswered harness.old.buffers.entries names.now.names harness.old.vm harness.old.seat question.now text
        harness.new.seat
        × (string_bytes out.new ≡ string_bytes out.old ++ text)) }
    ensures bad { result ≡ Err LineFault.Bad → ¬ HasNames harness.old.buffers.entries names.now.names question.now }
{
    match question {
        Line::Value { name } => {
            let timeline = names.index_of(name).ok_or(LineFault::Bad)?;
            let number = harness.timelines.value(&mut harness.seat, timeline);
            Ok(write_number(out, names, timeline, number)?)
        }
        _ => {
            let named = NamedVm {
                vm: &harness.vm,
                buffers: &harness.buffers,
                timelines: names,
            };
            answer(alloc, question, named, out)
        }
    }
}

impl ThreadsScript<'_> {
    /// Writes the replies of the last part, of the address space and the timelines as they are after the workers.
    /// `WriteFault` only where the writer has failed.
    pub fn end<W: Sink>(
        &self,
        alloc: Global,
        harness: &mut Harness,
        writer: &mut W,
    ) -> Result<(), ScriptFault>
        requires own { IsSeatOf harness.old.timelines harness.old.seat }
        requires all { timeline_count harness.old.timelines ≡ most_timelines }
        requires asked { All IsAsked (unnumbered self.now.questions) }
        ensures answered { OnOk result ((text : List ℕ)
            × AreAnswered harness.old.buffers.entries self.now.timelines harness.old.vm harness.old.seat
            (unnumbered self.now.questions) text harness.new.seat
            × Appends (W.written writer.old) (W.written writer.new) text) }
        ensures bad_line { (line : ℕ) → result ≡ Err (ScriptFault.BadLine line)
            → IsFirstBad (HasNames harness.old.buffers.entries self.now.timelines) self.now.questions line }
        ensures ends { EndsByLine result }
        ensures write_fault { TellsWrites (W.failed writer.old) (W.failed writer.new) result }
    {
        let mut output = Output::new(alloc);
        let ended = self.answer_all(alloc, harness, &mut output, writer);
        if let Err(ScriptFault::WriteFault) = ended {
            return ended;
        }
        output.flush(writer)?;
        ended
    }

    /// Writes the replies of the last part.
    fn answer_all<W: Sink>(
        &self,
        alloc: Global,
        harness: &mut Harness,
        output: &mut Output,
        writer: &mut W,
    ) -> Result<(), ScriptFault>
        requires own { IsSeatOf harness.old.timelines harness.old.seat }
        requires all { timeline_count harness.old.timelines ≡ most_timelines }
        requires asked { All IsAsked (unnumbered self.now.questions) }
        requires fresh { output.old ≡ [] }
        ensures answered { OnOk result ((text : List ℕ)
            × AreAnswered harness.old.buffers.entries self.now.timelines harness.old.vm harness.old.seat
            (unnumbered self.now.questions) text harness.new.seat
            × Appends (W.written writer.old) (append_known (W.written writer.new) output.new) text) }
        ensures bad_line { (line : ℕ) → result ≡ Err (ScriptFault.BadLine line)
            → IsFirstBad (HasNames harness.old.buffers.entries self.now.timelines) self.now.questions line }
        ensures ends { EndsByLine result }
        ensures fault { TellsWrites (W.failed writer.old) (W.failed writer.new) result }
    {
        let mut reply = String::new(alloc);
        for (number, question) in &self.questions {
            reply.clear();
            let done = ask(alloc, question, &self.timelines, harness, &mut reply);
            if let Err(fault) = done {
                return Err(fault.at(*number));
            }
            output.push(writer, reply.as_bytes())?;
        }
        Ok(())
    }
}
