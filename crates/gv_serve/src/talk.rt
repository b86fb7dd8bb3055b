//! A dialogue's session, and the answer in text to each of its lines.
ghost use Rattle.std.specs.Prelude.{◌≡◌, ◌≤◌, true, OnOk, OnErr, IfOk, List, ℕ, [], length};
ghost use Rattle.std.specs.Io.KnownBytes.{Appends, append_known};
ghost use Rattle.gv_session.specs.State.{start};
ghost use Rattle.gv_serve.specs.Dialogue.{IsAnswered, following};
ghost use Rattle.gv_serve.specs.Partial.{line_limit, IsOver};

use crate::bad::write_bad;
use crate::line::serve_text;
use crate::reason::why_bad;
use crate::reply::{empty, new_reply};
use gv_lines::Slip;
use gv_text::{LineFault, Output, Session, Sink, WriteFault, write_why};
use gv_types::OutOfMemory;
use std::alloc::Global;

/// The session of a dialogue, the reply of its last line, the text that is not written yet, and the number of the next line.
/// The session has to be closed.
pub struct Talk {
    pub session: Session,
    pub reply: String,
    pub output: Output,
    pub number: u64,
}

impl Talk {
    /// Before the first line.
    pub fn new(alloc: Global) -> Result<Talk, OutOfMemory>
        ensures session { IfOk result (λ talk. talk.session ≡ start) }
        ensures output { IfOk result (λ talk. talk.output ≡ []) }
        ensures number { IfOk result (λ talk. talk.number ≡ 1) }
    {
        let reply = new_reply(alloc)?;
        Ok(Talk {
            session: Session::new(alloc)?,
            reply,
            output: Output::new(alloc),
            number: 1,
        })
    }

    /// Answers a line.
    pub fn answer<W: Sink>(
        &mut self,
        alloc: Global,
        line: &[u8],
        writer: &mut W,
    ) -> Result<(), WriteFault>
        requires { length line.now ≤ line_limit }
        ensures answered { OnOk result ((text : List ℕ) × (others : ℕ)
            × IsAnswered self.old.session self.old.number line.now text self.new.session others
            × Appends (append_known (W.written writer.old) self.old.output) (append_known (W.written writer.new) self.new.output) text) }
        ensures number { OnOk result (self.new.number ≡ following self.old.number) }
        ensures unset { OnOk result (W.failed writer.new ≡ W.failed writer.old) }
        ensures set { OnErr result (W.failed writer.new ≡ true) }
    {
        let number = self.number;
        self.number = number.saturating_add(1);
        empty(&mut self.reply);
        match serve_text(alloc, &mut self.session, line, &mut self.reply) {
            Ok(()) => self.output.push(writer, self.reply.as_bytes()),
            Err(LineFault::Bad) => {
                write_why(&mut self.reply, &why_bad(alloc, &self.session, line));
                write_bad(&mut self.output, writer, number, self.reply.as_bytes())
            }
            Err(LineFault::OutOfMemory) => self.output.push(writer, b"out of memory\n"),
        }
    }

    /// Answers a line that is too long.
    pub fn refuse_long<W: Sink>(&mut self, writer: &mut W) -> Result<(), WriteFault>
        ensures answered { OnOk result ((text : List ℕ) × ((line : List ℕ) → IsOver line
            → IsAnswered self.old.session self.old.number line text self.new.session 1)
            × Appends (append_known (W.written writer.old) self.old.output) (append_known (W.written writer.new) self.new.output) text) }
        ensures number { OnOk result (self.new.number ≡ following self.old.number) }
        ensures unset { OnOk result (W.failed writer.new ≡ W.failed writer.old) }
        ensures set { OnErr result (W.failed writer.new ≡ true) }
    {
        let number = self.number;
        self.number = number.saturating_add(1);
        write_why(&mut self.reply, &Slip::too_long());
        write_bad(&mut self.output, writer, number, self.reply.as_bytes())
    }
}
