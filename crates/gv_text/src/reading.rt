//! A whole script from a device.
ghost use Rattle.std.specs.Prelude.{◌≡◌, ◌+◌, ◌≤◌, ◌<◌, ◌++◌, true, IfOk, IsOk, OnOk, OnErr, length};
ghost use Rattle.std.specs.Io.KnownBytes.{ReadConsumes};
ghost use Rattle.gv_text.specs.Reading.{ReadsWhole, TakesFew, TellsLength, TellsReads, most_read};

use gv_io::{ReadFault, SCRIPT_LIMIT, Source};
use gv_session::ScriptFault;
use std::alloc::{AllocError, Global};

/// How many bytes one read may give.
const CHUNK_LEN: usize = 1 << 13;

/// The whole script. Each read gives a byte or ends it, so there are at most `SCRIPT_LIMIT + 1` reads, and no more bytes are asked
/// for. Where memory is
/// refused, the rest is read and counted all the same: a script that is too long, or a read that fails, is told first.
pub fn read_script<S: Source>(alloc: Global, source: &mut S) -> Result<Vec<u8>, ScriptFault>
    ensures whole { ReadsWhole (S.remaining source.old) result }
    ensures len { TellsLength (S.remaining source.old) result }
    ensures fault { TellsReads (S.failed source.old) (S.failed source.new) result }
    ensures few { TakesFew (S.remaining source.old) (S.remaining source.new) }
    ensures reads { S.reads source.new ≤ S.reads source.old + most_read }
{
    let mut script = Vec::new(alloc);
    let mut kept = Ok(());
    let mut len: usize = 0;
    let mut chunk = [0u8; CHUNK_LEN];
    for _reads in 0..=SCRIPT_LIMIT {
        let room = CHUNK_LEN.min(SCRIPT_LIMIT + 1 - len);
        let count = read_part(source, &mut chunk, room)?;
        if count == 0 {
            kept?;
            return Ok(script);
        }
        if SCRIPT_LIMIT - len < count {
            return Err(ScriptFault::ScriptTooLong);
        }
        len += count;
        kept = keep(&mut script, kept, &chunk[..count]);
    }
    unreachable!()
}

/// Fills the front of the buffer, no further than there is room.
fn read_part<S: Source>(source: &mut S, buffer: &mut [u8], room: usize) -> Result<usize, ReadFault>
    requires some { 0 < room }
    requires fits { room ≤ length buffer.old }
    ensures bound { IfOk result (λ count. count ≤ room) }
    ensures bytes { ReadConsumes (S.remaining source.old) (S.remaining source.new) result buffer.new }
    ensures counted { S.reads source.new ≤ S.reads source.old + 1 }
    ensures set { OnErr result (S.failed source.new ≡ true) }
    ensures unset { OnOk result (S.failed source.new ≡ S.failed source.old) }
{
    source.read(&mut buffer[..room])
}

/// Adds the bytes, unless memory for those before them was refused.
fn keep(
    script: &mut Vec<u8>,
    before: Result<(), AllocError>,
    bytes: &[u8],
) -> Result<(), AllocError>
    ensures bytes { OnOk result (script.new.items ≡ script.old.items ++ bytes.now) }
    ensures before { OnOk result (IsOk before) }
{
    before?;
    script.extend_from_slice(bytes)
}
