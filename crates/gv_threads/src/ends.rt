//! The lines that say what each queue came to.
ghost use Rattle.std.specs.Prelude.{◌≡◌, ◌≢◌, ◌++◌, ℕ, Err, OnOk, string_bytes};
ghost use Rattle.std.specs.Io.KnownBytes.{Appends};
ghost use Rattle.gv_text.specs.Reading.{TellsWrites};
ghost use Rattle.gv_threads.specs.Script.{EndsByLine};
ghost use Rattle.gv_threads.specs.Ending.{line_of_end, end_lines};

use gv_queues::QueueEnd;
use gv_text::{ScriptFault, Sink, write_all};
use std::alloc::{AllocError, Global};
use std::fmt::Write;

/// Writes for each queue in order how many requests were put, how many outcomes were told, and how many requests were
/// left. It fails by a failed write or want of memory alone.
pub fn write_ends<W: Sink>(
    alloc: Global,
    ends: &[QueueEnd],
    writer: &mut W,
) -> Result<(), ScriptFault>
    ensures written { OnOk result (Appends (W.written writer.old) (W.written writer.new) (end_lines ends.now)) }
    ensures ends { EndsByLine result }
    ensures not_bad { (line : ℕ) → result ≢ Err (ScriptFault.BadLine line) }
    ensures write_fault { TellsWrites (W.failed writer.old) (W.failed writer.new) result }
{
    let mut text = String::new(alloc);
    push_ends(&mut text, ends)?;
    Ok(write_all(writer, text.as_bytes())?)
}

/// A line for each queue.
fn push_ends(text: &mut String, ends: &[QueueEnd]) -> Result<(), AllocError>
    ensures { OnOk result (string_bytes text.new ≡ string_bytes text.old ++ end_lines ends.now) }
{
    for (queue, end) in ends.iter().enumerate() {
        push_end(text, queue, end)?;
    }
    Ok(())
}

/// The line of a queue.
fn push_end(text: &mut String, queue: usize, end: &QueueEnd) -> Result<(), AllocError>
    ensures { OnOk result (string_bytes text.new ≡ string_bytes text.old ++ line_of_end queue end.now) }
{
    writeln!(
        text,
        "queue {queue} put {} told {} left {}",
        end.put,
        end.told,
        end.left.len()
    )
}
