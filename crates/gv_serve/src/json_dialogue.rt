//! A dialogue that is answered in JSON.

use crate::fault::ServeFault;
use crate::line::serve_text;
use crate::partial::Partial;
use crate::reason::why_bad;
use crate::reply::empty;
use gv_json::{write_bad, write_no_memory, write_reply};
use gv_lines::{Slip, split_once};
use gv_text::{LineFault, Output, Session, Sink, Source, WriteFault, write_why};
use std::alloc::{AllocError, Global};

/// How many bytes one read may give.
const CHUNK_LEN: usize = 1 << 13;

/// Holds a dialogue as `serve` does, and answers each line that is no comment and not empty with one line of JSON. Where memory
/// for a line of JSON is refused, nothing is written for it.
pub fn serve_json<R: Source, W: Sink>(
    alloc: Global,
    reader: &mut R,
    writer: &mut W,
) -> Result<(), ServeFault> {
    let mut dialogue = JsonDialogue {
        partial: Partial::new(alloc)?,
        line_reply: LineReply {
            reply: String::new(alloc),
            json: String::new(alloc),
        },
        output: Output::new(alloc),
        number: 1,
    };
    let mut session = Session::new(alloc)?;
    let outcome = dialogue.hold(alloc, &mut session, reader, writer);
    session.close();
    outcome
}

/// The line that is not at its end yet, what is said of the last line, the text that is not written yet, and the number of the
/// next line.
#[derive(Drop)]
struct JsonDialogue {
    partial: Partial,
    line_reply: LineReply,
    output: Output,
    number: u64,
}

impl JsonDialogue {
    /// Reads and answers to the end of the input.
    fn hold<R: Source, W: Sink>(
        &mut self,
        alloc: Global,
        session: &mut Session,
        reader: &mut R,
        writer: &mut W,
    ) -> Result<(), ServeFault> {
        let mut chunk = [0u8; CHUNK_LEN];
        for done in 0..u64::MAX {
            self.output.flush(writer)?;
            let count = reader.read(&mut chunk)?;
            if count == 0 {
                break;
            }
            self.answer_lines(alloc, session, &chunk[..count], writer)?;
        }
        if !self.partial.is_empty() {
            let slip = self.partial.no_line_end();
            self.line_reply.refuse(alloc, self.number, &slip);
            self.output.push(writer, self.line_reply.json.as_bytes())?;
        }
        Ok(self.output.flush(writer)?)
    }

    /// Answers the lines that end in these bytes, and keeps those behind the last line end.
    fn answer_lines<W: Sink>(
        &mut self,
        alloc: Global,
        session: &mut Session,
        bytes: &[u8],
        writer: &mut W,
    ) -> Result<(), WriteFault> {
        let mut rest = bytes;
        while let Some((front, after)) = split_once(rest, b'\n') {
            self.partial.keep(front);
            self.answer(alloc, session);
            self.partial.clear();
            self.number = self.number.saturating_add(1);
            self.output.push(writer, self.line_reply.json.as_bytes())?;
            rest = after;
        }
        self.partial.keep(rest);
        Ok(())
    }

    /// Answers the line that is kept.
    fn answer(&mut self, alloc: Global, session: &mut Session) {
        match self.partial.line() {
            Some(line) => self.line_reply.answer(alloc, session, self.number, line),
            None => self
                .line_reply
                .refuse(alloc, self.number, &Slip::too_long()),
        }
    }
}

/// The reply to a line as text, and the same as JSON.
#[derive(Drop)]
struct LineReply {
    reply: String,
    json: String,
}

impl LineReply {
    /// Carries out a line, and says in JSON what it came to. Nothing for an empty line and a comment.
    fn answer(&mut self, alloc: Global, session: &mut Session, number: u64, line: &[u8]) {
        empty(&mut self.json);
        empty(&mut self.reply);
        if line.is_empty() || line[0] == b'#' && line.is_ascii() {
            return;
        }
        let word = split_once(line, b' ').map_or(line, |parts| parts.0);
        match serve_text(alloc, session, line, &mut self.reply) {
            Ok(()) => {
                let reply = self.reply.as_str();
                let said = write_reply(alloc, &mut self.json, number, word, reply);
                self.drop_half(said);
            }
            Err(LineFault::Bad) => self.refuse(alloc, number, &why_bad(alloc, session, line)),
            Err(LineFault::OutOfMemory) => {
                let said = write_no_memory(alloc, &mut self.json, number);
                self.drop_half(said);
            }
        }
    }

    /// Says in JSON why a line is bad.
    fn refuse(&mut self, alloc: Global, number: u64, slip: &Slip<'_>) {
        self.json.clear();
        write_why(&mut self.reply, slip);
        let reason = self.reply.as_str();
        let said = write_bad(alloc, &mut self.json, number, slip.shown_column(), reason);
        self.drop_half(said);
    }

    /// Where memory was refused, no half of a line is said.
    fn drop_half(&mut self, said: Result<(), AllocError>) {
        if said.is_err() {
            self.json.clear();
        }
    }
}
