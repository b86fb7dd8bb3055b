//! Writes a whole text to a sink. How long a script may be.
ghost use Rattle.std.specs.Prelude.{◌≡◌, ◌≤◌, ◌<◌, true, OnOk, OnErr, length};
ghost use Rattle.std.specs.Io.KnownBytes.{Appends};

use crate::device::{Sink, WriteFault};

/// The greatest number of bytes in a script.
pub const SCRIPT_LIMIT: usize = 1_048_576;

/// Writes all of the bytes.
pub fn write_all<S: Sink>(sink: &mut S, bytes: &[u8]) -> Result<(), WriteFault>
    ensures ok { OnOk result (Appends (S.written sink.old) (S.written sink.new) bytes.now) }
    ensures unset { OnOk result (S.failed sink.new ≡ S.failed sink.old) }
    ensures set { OnErr result (S.failed sink.new ≡ true) }
{
    let mut at = 0;
    while at < bytes.len() {
        at += sink.write(&bytes[at..])?;
    }
    Ok(())
}
