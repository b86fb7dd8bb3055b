//! The answer to a bad line.
ghost use Rattle.std.specs.Prelude.{◌≡◌, ◌==◌, true, false, OnOk, OnErr, List, ℕ};
ghost use Rattle.std.specs.List.{list_any};
ghost use Rattle.std.specs.Io.KnownBytes.{Appends, append_known};
ghost use Rattle.gv_serve.specs.Dialogue.{IsBadReply};

use gv_text::{Output, Sink, WriteFault};
use itoa::Buffer;

/// Answers a bad line of this number. It takes no memory.
pub fn write_bad<W: Sink>(
    output: &mut Output,
    writer: &mut W,
    number: u64,
    reason: &[u8],
) -> Result<(), WriteFault>
    ensures ok { OnOk result ((text : List ℕ) × IsBadReply number text
        × Appends (append_known (W.written writer.old) output.old) (append_known (W.written writer.new) output.new) text) }
    ensures unset { OnOk result (W.failed writer.new ≡ W.failed writer.old) }
    ensures set { OnErr result (W.failed writer.new ≡ true) }
{
    let mut digits = Buffer::new();
    output.push(writer, b"bad line ")?;
    output.push(writer, digits.format(number).as_bytes())?;
    output.push(writer, b": ")?;
    output.push(writer, in_one_line(reason))?;
    output.push(writer, b"\n")
}

/// The text, where it is one line.
fn in_one_line(text: &[u8]) -> &[u8]
    ensures { list_any (λ b. b == 10) result.now ≡ false }
{
    if text.iter().any(|b| *b == b'\n') {
        return b"";
    }
    text
}
