//! Text that is collected and written to a sink in large pieces.
ghost use Rattle.std.specs.Prelude.{◌≡◌, [], true, OnOk, OnErr};
ghost use Rattle.std.specs.Io.KnownBytes.{Appends, append_known};

use crate::device::{Sink, WriteFault};
use crate::transfer::write_all;
use std::alloc::Global;
use std::marker::Model;

/// Text is written in pieces of about this many bytes.
const PIECE_LEN: usize = 65_536;

/// The text that is not written yet. Where memory for it is refused, text is written at once.
#[derive(Drop)]
pub struct Output {
    pending: Vec<u8>,
}

impl Model for Output {
    ghost use Rattle.std.specs.Prelude.{List, ℕ};

    ghost Value = { List ℕ };

    ghost view = { λ output. output.pending.items };
}

impl Output {
    pub fn new(alloc: Global) -> Self
        ensures { result ≡ [] }
    {
        Output {
            pending: Vec::new(alloc),
        }
    }

    /// Adds to the text, and writes it where it has grown long.
    pub fn push<W: Sink>(&mut self, sink: &mut W, text: &[u8]) -> Result<(), WriteFault>
        ensures ok { OnOk result (Appends (append_known (W.written sink.old) self.old)
            (append_known (W.written sink.new) self.new) text.now) }
        ensures unset { OnOk result (W.failed sink.new ≡ W.failed sink.old) }
        ensures set { OnErr result (W.failed sink.new ≡ true) }
    {
        if PIECE_LEN.saturating_sub(self.pending.len()) < text.len() {
            self.flush(sink)?;
        }
        if text.len() <= PIECE_LEN && self.pending.extend_from_slice(text).is_ok() {
            return Ok(());
        }
        self.flush(sink)?;
        write_all(sink, text)
    }

    /// Writes all of the text.
    pub fn flush<W: Sink>(&mut self, sink: &mut W) -> Result<(), WriteFault>
        ensures ok { OnOk result (Appends (append_known (W.written sink.old) self.old) (W.written sink.new) []) }
        ensures empty { OnOk result (self.new ≡ []) }
        ensures unset { OnOk result (W.failed sink.new ≡ W.failed sink.old) }
        ensures set { OnErr result (W.failed sink.new ≡ true) }
    {
        write_all(sink, &self.pending)?;
        self.pending.clear();
        Ok(())
    }
}
