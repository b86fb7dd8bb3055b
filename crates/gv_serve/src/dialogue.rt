//! A dialogue from the bytes of its input to its answers.
ghost use Rattle.std.specs.Prelude.{◌≡◌, ◌≢◌, ◌++◌, true, Err, OnOk, OnErr, IfOk, List, ℕ, []};
ghost use Rattle.std.specs.Io.KnownBytes.{Appends, Consumes, append_known};
ghost use Rattle.gv_text.specs.Script.{RunsWhole};
ghost use Rattle.gv_session.specs.State.{start};
ghost use Rattle.gv_serve.specs.Dialogue.{IsDialogue, IsBroken, IsReadToEnd, IsAnswered, EndsWith, TellsReads, TellsWrites, following};
ghost use Rattle.gv_serve.specs.Partial.{Holds};
ghost use Rattle.gv_serve.specs.DialogueProgress.{AnswersBytes};

use crate::bad::write_bad;
use crate::fault::ServeFault;
use crate::partial::Partial;
use crate::talk::Talk;
use gv_lines::split_once;
use gv_text::{Sink, Source, WriteFault, write_why};
use gv_types::OutOfMemory;
use std::alloc::Global;

/// How many bytes one read may give.
const CHUNK_LEN: usize = 1 << 13;

/// Holds a dialogue: reads what is there, answers each line in it, and writes the answers before the next read. The lines are
/// those of `run_script`, and some that act on a queue by steps. The script is as long as one likes; a line has at most
/// `LINE_LIMIT` bytes.
///
/// A bad line, one that is too long, and what stands behind the last line end are answered `bad line`, the number of the line
/// and a reason, and change nothing; a line for which memory is wanted is answered `out of memory`; and the dialogue goes on.
/// It ends at the end of the input, or where a device fails.
pub fn serve<R: Source, W: Sink>(
    alloc: Global,
    reader: &mut R,
    writer: &mut W,
) -> Result<(), ServeFault>
    // The text is the answers to the bytes that the reader gave; where each line is answered as that of a script, it is the text of
    // a run of the script.
    ensures text { OnOk result ((input text : List ℕ) × (others : ℕ)
        × Consumes (R.remaining reader.old) (R.remaining reader.new) input × IsReadToEnd (R.remaining reader.new) input
        × IsDialogue input text others × Appends (W.written writer.old) (W.written writer.new) text
        × (others ≡ 0 → (refusals : ℕ) × RunsWhole input text refusals)) }
    // Where a read fails, all lines before it are answered.
    ensures broken { result ≡ Err ServeFault.ReadFault → (input text : List ℕ)
        × Consumes (R.remaining reader.old) (R.remaining reader.new) input
        × IsBroken input text × Appends (W.written writer.old) (W.written writer.new) text }
    // Where there is no memory for the dialogue itself, nothing is read or written.
    ensures unread { result ≡ Err ServeFault.OutOfMemory → reader.new ≡ reader.old }
    ensures unwritten { result ≡ Err ServeFault.OutOfMemory → writer.new ≡ writer.old }
    // A device's fault is the answer exactly where its flag goes up.
    ensures read_fault { TellsReads (R.failed reader.old) (R.failed reader.new) result }
    ensures write_fault { TellsWrites (W.failed writer.old) (W.failed writer.new) result }
{
    let mut dialogue = Dialogue::new(alloc)?;
    let outcome = dialogue.hold(alloc, reader, writer);
    dialogue.close();
    outcome
}

/// What was answered, and the line that is not at its end yet. It has to be closed.
struct Dialogue {
    talk: Talk,
    partial: Partial,
}

impl Dialogue {
    /// Before the first read.
    fn new(alloc: Global) -> Result<Dialogue, OutOfMemory>
        ensures session { IfOk result (λ d. d.talk.session ≡ start) }
        ensures output { IfOk result (λ d. d.talk.output ≡ []) }
        ensures number { IfOk result (λ d. d.talk.number ≡ 1) }
        ensures partial { IfOk result (λ d. Holds d.partial []) }
    {
        let partial = Partial::new(alloc)?;
        Ok(Dialogue {
            talk: Talk::new(alloc)?,
            partial,
        })
    }

    /// Reads and answers to the end of the input.
    fn hold<R: Source, W: Sink>(
        &mut self,
        alloc: Global,
        reader: &mut R,
        writer: &mut W,
    ) -> Result<(), ServeFault>
        requires session { self.old.talk.session ≡ start }
        requires output { self.old.talk.output ≡ [] }
        requires number { self.old.talk.number ≡ 1 }
        requires partial { Holds self.old.partial [] }
        ensures text { OnOk result ((input text : List ℕ) × (others : ℕ)
            × Consumes (R.remaining reader.old) (R.remaining reader.new) input × IsReadToEnd (R.remaining reader.new) input
            × IsDialogue input text others × Appends (W.written writer.old) (W.written writer.new) text
            × (others ≡ 0 → (refusals : ℕ) × RunsWhole input text refusals)) }
        ensures broken { result ≡ Err ServeFault.ReadFault → (input text : List ℕ)
            × Consumes (R.remaining reader.old) (R.remaining reader.new) input
            × IsBroken input text × Appends (W.written writer.old) (W.written writer.new) text }
        ensures memory { result ≢ Err ServeFault.OutOfMemory }
        ensures read_fault { TellsReads (R.failed reader.old) (R.failed reader.new) result }
        ensures write_fault { TellsWrites (W.failed writer.old) (W.failed writer.new) result }
    {
        let mut chunk = [0u8; CHUNK_LEN];
        for done in 0..u64::MAX {
            self.talk.output.flush(writer)?;
            let count = reader.read(&mut chunk)?;
            if count == 0 {
                return Ok(self.end(writer)?);
            }
            self.answer_lines(alloc, &chunk[..count], writer)?;
        }
        Ok(self.end(writer)?)
    }

    /// Answers the lines that end in these bytes, and keeps those behind the last line end.
    fn answer_lines<W: Sink>(
        &mut self,
        alloc: Global,
        bytes: &[u8],
        writer: &mut W,
    ) -> Result<(), WriteFault>
        ensures heard { OnOk result ((text : List ℕ) × AnswersBytes self.old.talk.session self.old.talk.number self.old.partial bytes.now text
            self.new.talk.session self.new.talk.number self.new.partial
            × Appends (append_known (W.written writer.old) self.old.talk.output) (append_known (W.written writer.new) self.new.talk.output) text) }
        ensures unset { OnOk result (W.failed writer.new ≡ W.failed writer.old) }
        ensures set { OnErr result (W.failed writer.new ≡ true) }
    {
        let mut rest = bytes;
        while let Some((front, after)) = split_once(rest, b'\n') {
            self.end_line(alloc, front, writer)?;
            rest = after;
        }
        self.partial.keep(rest);
        Ok(())
    }

    /// Answers the line that ends with these bytes.
    fn end_line<W: Sink>(
        &mut self,
        alloc: Global,
        front: &[u8],
        writer: &mut W,
    ) -> Result<(), WriteFault>
        ensures answered { OnOk result ((text : List ℕ) × (others : ℕ) × ((line : List ℕ) → Holds self.old.partial line
            → IsAnswered self.old.talk.session self.old.talk.number (line ++ front.now) text self.new.talk.session others)
            × Appends (append_known (W.written writer.old) self.old.talk.output) (append_known (W.written writer.new) self.new.talk.output) text) }
        ensures number { OnOk result (self.new.talk.number ≡ following self.old.talk.number) }
        ensures partial { OnOk result (Holds self.new.partial []) }
        ensures unset { OnOk result (W.failed writer.new ≡ W.failed writer.old) }
        ensures set { OnErr result (W.failed writer.new ≡ true) }
    {
        self.partial.keep(front);
        let answered = self.answer_kept(alloc, writer);
        self.partial.clear();
        answered
    }

    /// Answers the line that is kept.
    fn answer_kept<W: Sink>(&mut self, alloc: Global, writer: &mut W) -> Result<(), WriteFault>
        ensures answered { OnOk result ((text : List ℕ) × (others : ℕ) × ((line : List ℕ) → Holds self.old.partial line
            → IsAnswered self.old.talk.session self.old.talk.number line text self.new.talk.session others)
            × Appends (append_known (W.written writer.old) self.old.talk.output) (append_known (W.written writer.new) self.new.talk.output) text) }
        ensures number { OnOk result (self.new.talk.number ≡ following self.old.talk.number) }
        ensures unset { OnOk result (W.failed writer.new ≡ W.failed writer.old) }
        ensures set { OnErr result (W.failed writer.new ≡ true) }
    {
        match self.partial.line() {
            Some(line) => self.talk.answer(alloc, line, writer),
            None => self.talk.refuse_long(writer),
        }
    }

    /// Answers what stands behind the last line end, and writes all answers.
    fn end<W: Sink>(&mut self, writer: &mut W) -> Result<(), WriteFault>
        ensures ended { OnOk result ((last : List ℕ) × (others : ℕ) × ((line : List ℕ) → Holds self.old.partial line
            → EndsWith self.old.talk.number line last others)
            × Appends (append_known (W.written writer.old) self.old.talk.output) (W.written writer.new) last) }
        ensures unset { OnOk result (W.failed writer.new ≡ W.failed writer.old) }
        ensures set { OnErr result (W.failed writer.new ≡ true) }
    {
        if !self.partial.is_empty() {
            write_why(&mut self.talk.reply, &self.partial.no_line_end());
            write_bad(
                &mut self.talk.output,
                writer,
                self.talk.number,
                self.talk.reply.as_bytes(),
            )?;
        }
        self.talk.output.flush(writer)
    }

    /// Closes the session.
    fn close(self) {
        let Dialogue { talk, partial: _ } = self;
        let Talk {
            session,
            reply: _,
            output: _,
            number: _,
        } = talk;
        session.close();
    }
}
