//! A script from its bytes to its replies.
ghost use Rattle.std.specs.Prelude.{◌≡◌, ◌+◌, ◌≤◌, ℕ, List, [], length, OnOk, IfSome};
ghost use Rattle.std.specs.Io.KnownBytes.{Appends, append_known};
ghost use Rattle.gv_text.specs.Reading.{script_limit, most_read, TakesFew, TellsLength, TellsReads, TellsWrites};
ghost use Rattle.gv_session.specs.State.{start};
ghost use Rattle.gv_text.specs.Script.{IsRun, StopsAt, IsStart, Ends, LineEnds};

use crate::reading::read_script;
use gv_io::{Output, Sink, Source};
use gv_lines::{Slip, split_once};
use gv_session::{LineFault, ScriptFault, Session, run_text, why_bad, write_why};
use std::alloc::Global;

/// Reads a whole script, then runs its lines one after another and writes the reply of each.
///
/// A line that is not of the language, or not at its place, or that names what is not declared, ends the run as
/// `BadLine`, after the replies of the lines before it; so does what stands behind the last line end. A script of
/// over 1,048,576 bytes is `ScriptTooLong`. A device's fault is answered only where the device has failed. Want of
/// memory inside a request is a reply; any other ends the run as `OutOfMemory`, after the replies of the lines
/// before it.
pub fn run_script<R: Source, W: Sink>(
    alloc: Global,
    reader: &mut R,
    writer: &mut W,
) -> Result<(), ScriptFault>
    // The text is that of a run over the bytes that the reader gave.
    ensures text { OnOk result ((script text : List ℕ)
        × IfSome (R.remaining reader.old) (λ bytes. script ≡ bytes)
        × IsRun script text × Appends (W.written writer.old) (W.written writer.new) text) }
    // The line is the first bad one, and the text is that of the lines before it.
    ensures bad_line { (line : ℕ) → result ≡ Err (ScriptFault.BadLine line) → (script text : List ℕ)
        × IfSome (R.remaining reader.old) (λ bytes. script ≡ bytes)
        × StopsAt script text line × Appends (W.written writer.old) (W.written writer.new) text }
    // The text is that of some first lines.
    ensures out_of_memory { result ≡ Err ScriptFault.OutOfMemory → (script text : List ℕ)
        × IfSome (R.remaining reader.old) (λ bytes. script ≡ bytes)
        × IsStart script text × Appends (W.written writer.old) (W.written writer.new) text }
    // A script is too long exactly where the answer is that, whatever memory is refused, unless a read fails.
    ensures too_long { TellsLength (R.remaining reader.old) result }
    ensures too_long_silent { result ≡ Err ScriptFault.ScriptTooLong → writer.new ≡ writer.old }
    // A device's fault is the answer exactly where its flag goes up.
    ensures read_fault { TellsReads (R.failed reader.old) (R.failed reader.new) result }
    ensures read_fault_silent { result ≡ Err ScriptFault.ReadFault → writer.new ≡ writer.old }
    ensures write_fault { TellsWrites (W.failed writer.old) (W.failed writer.new) result }
    // One byte more than the longest script has is taken at most, in as many reads.
    ensures few { TakesFew (R.remaining reader.old) (R.remaining reader.new) }
    ensures reads { R.reads reader.new ≤ R.reads reader.old + most_read }
{
    let mut why = String::new(alloc);
    run_script_explained(alloc, reader, writer, &mut why)
}

/// The same, and where the answer is `BadLine`, why that line is bad. If memory is refused for that text, it is empty.
pub fn run_script_explained<R: Source, W: Sink>(
    alloc: Global,
    reader: &mut R,
    writer: &mut W,
    why: &mut String,
) -> Result<(), ScriptFault>
    // The text is that of a run over the bytes that the reader gave.
    ensures text { OnOk result ((script text : List ℕ)
        × IfSome (R.remaining reader.old) (λ bytes. script ≡ bytes)
        × IsRun script text × Appends (W.written writer.old) (W.written writer.new) text) }
    // The line is the first bad one, and the text is that of the lines before it.
    ensures bad_line { (line : ℕ) → result ≡ Err (ScriptFault.BadLine line) → (script text : List ℕ)
        × IfSome (R.remaining reader.old) (λ bytes. script ≡ bytes)
        × StopsAt script text line × Appends (W.written writer.old) (W.written writer.new) text }
    // The text is that of some first lines.
    ensures out_of_memory { result ≡ Err ScriptFault.OutOfMemory → (script text : List ℕ)
        × IfSome (R.remaining reader.old) (λ bytes. script ≡ bytes)
        × IsStart script text × Appends (W.written writer.old) (W.written writer.new) text }
    // A script is too long exactly where the answer is that, whatever memory is refused, unless a read fails.
    ensures too_long { TellsLength (R.remaining reader.old) result }
    ensures too_long_silent { result ≡ Err ScriptFault.ScriptTooLong → writer.new ≡ writer.old }
    // A device's fault is the answer exactly where its flag goes up.
    ensures read_fault { TellsReads (R.failed reader.old) (R.failed reader.new) result }
    ensures read_fault_silent { result ≡ Err ScriptFault.ReadFault → writer.new ≡ writer.old }
    ensures write_fault { TellsWrites (W.failed writer.old) (W.failed writer.new) result }
    // One byte more than the longest script has is taken at most, in as many reads.
    ensures few { TakesFew (R.remaining reader.old) (R.remaining reader.new) }
    ensures reads { R.reads reader.new ≤ R.reads reader.old + most_read }
{
    let script = read_script(alloc, reader)?;
    let mut output = Output::new(alloc);
    let outcome = run_lines(alloc, script.as_slice(), &mut output, writer, why);
    if outcome == Err(ScriptFault::WriteFault) {
        return outcome;
    }
    output.flush(writer)?;
    outcome
}

/// Runs the lines of a script in a session of their own. Where one is bad, it says why.
fn run_lines<W: Sink>(
    alloc: Global,
    script: &[u8],
    output: &mut Output,
    writer: &mut W,
    why: &mut String,
) -> Result<(), ScriptFault>
    requires short { length script.now ≤ script_limit }
    requires fresh { output.old ≡ [] }
    ensures ends { Ends script.now (W.written writer.old) (append_known (W.written writer.new) output.new) result }
    ensures fault { TellsWrites (W.failed writer.old) (W.failed writer.new) result }
{
    let mut run = ScriptRun {
        session: Session::new(alloc)?,
        reply: String::new(alloc),
    };
    let outcome = run.run_each(alloc, script, output, writer);
    let ScriptRun { session, reply } = run;
    session.close();
    if let Err(ScriptFault::BadLine { .. }) = outcome {
        *why = reply;
    }
    outcome
}

/// The session of a script that runs, and the reply of its last line, or why that is bad. The session has to be closed.
struct ScriptRun {
    session: Session,
    reply: String,
}

impl ScriptRun {
    /// Runs the lines of a script one after another.
    fn run_each<W: Sink>(
        &mut self,
        alloc: Global,
        script: &[u8],
        output: &mut Output,
        writer: &mut W,
    ) -> Result<(), ScriptFault>
        requires short { length script.now ≤ script_limit }
        requires start { self.old.session ≡ start }
        requires fresh { output.old ≡ [] }
        ensures ends { Ends script.now (W.written writer.old) (append_known (W.written writer.new) output.new) result }
        ensures fault { TellsWrites (W.failed writer.old) (W.failed writer.new) result }
    {
        let mut rest = script;
        let mut done: u64 = 0;
        while let Some((line, after)) = split_once(rest, b'\n') {
            self.run_line(alloc, line, done + 1, output, writer)?;
            rest = after;
            done += 1;
        }
        if rest.is_empty() {
            Ok(())
        } else {
            write_why(&mut self.reply, &Slip::no_line_end(rest.len()));
            Err(ScriptFault::BadLine { line: done + 1 })
        }
    }

    /// Runs the line of this number, and sends its reply on its way.
    fn run_line<W: Sink>(
        &mut self,
        alloc: Global,
        line: &[u8],
        number: u64,
        output: &mut Output,
        writer: &mut W,
    ) -> Result<(), ScriptFault>
        ensures ends { LineEnds self.old.session line.now number self.new.session
            (append_known (W.written writer.old) output.old) (append_known (W.written writer.new) output.new) result }
        ensures fault { TellsWrites (W.failed writer.old) (W.failed writer.new) result }
    {
        self.reply.clear();
        match run_text(alloc, &mut self.session, line, &mut self.reply) {
            Ok(()) => Ok(output.push(writer, self.reply.as_bytes())?),
            Err(LineFault::Bad) => {
                write_why(&mut self.reply, &why_bad(alloc, &self.session, line));
                Err(ScriptFault::BadLine { line: number })
            }
            Err(LineFault::OutOfMemory) => Err(ScriptFault::OutOfMemory),
        }
    }
}
