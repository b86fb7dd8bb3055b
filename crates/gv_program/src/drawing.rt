//! `vmbind draw`: draws a script.
ghost use Rattle.gv_program.specs.Status.{IsStatus};

use crate::fault::{ProgramFault, print_fault, print_unless_closed};
use crate::files::{address, opened};
use crate::progress::ProgressReporter;
use crate::status::DONE;
use gv_draw::{DrawFault, Options, draw_script};
use gv_text::{Pipe, ScriptFault, Sink, Source, write_all};
use std::alloc::Global;
use std::rt::{Clock, Files};

/// What picture is asked: around an address if one is given, so many pixels wide, of the script of a file or of standard input, and
/// whether its progress is shown.
#[derive(Clone, Copy)]
pub struct DrawWords<'a> {
    pub at: Option<&'a str>,
    pub width: u64,
    pub shows_progress: bool,
    pub file: Option<&'a str>,
}

/// Draws a script, and gives the exit status.
pub fn draw<R: AllocGlobal + Eprint + Clock, T: Files, S: Source, K: Sink + Pipe>(
    rt: &R,
    files: &T,
    asked: DrawWords<'_>,
    reader: &mut S,
    writer: &mut K,
) -> u8
    ensures { IsStatus result }
{
    let reporter = ProgressReporter::new(rt, asked.shows_progress);
    match drawn(rt.alloc(), files, &reporter, asked, reader) {
        Ok(picture) => shown(rt, writer, picture.as_str()),
        Err(fault) => print_fault(rt, fault),
    }
}

/// Writes a text, and gives the exit status.
pub fn shown<R: Eprint, K: Sink + Pipe>(rt: &R, writer: &mut K, text: &str) -> u8
    ensures { IsStatus result }
{
    match write_all(writer, text.as_bytes()) {
        Ok(()) => DONE,
        Err(_) => print_unless_closed(rt, writer, ProgramFault::Script(ScriptFault::WriteFault)),
    }
}

/// The picture.
fn drawn<R: Eprint + Clock, T: Files, S: Source>(
    alloc: Global,
    files: &T,
    reporter: &ProgressReporter<'_, R>,
    asked: DrawWords<'_>,
    reader: &mut S,
) -> Result<String, ProgramFault> {
    let at = match asked.at {
        Some(word) => Some(address(word)?),
        None => None,
    };
    let script = match asked.file {
        Some(path) => {
            let mut file = opened(files, path)?;
            reporter.read_all(alloc, &mut file, reporter.len_if_shown(files, path))?
        }
        None => reporter.read_all(alloc, reader, None)?,
    };
    let options = Options {
        at,
        width: asked.width,
    };
    let mut picture = String::new(alloc);
    match draw_script(alloc, script.as_slice(), &options, &mut picture) {
        Ok(()) => Ok(picture),
        Err(DrawFault::BadLine { line }) => {
            Err(ProgramFault::Script(ScriptFault::BadLine { line }))
        }
        Err(DrawFault::OutOfMemory) => Err(ProgramFault::Script(ScriptFault::OutOfMemory)),
    }
}
