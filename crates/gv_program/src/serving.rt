//! `vmbind serve`: holds a dialogue.
ghost use Rattle.std.specs.Prelude.{◌≡◌, false, Result};
ghost use Rattle.gv_serve.specs.declared.fault.ServeFault.{ServeFault as TheFault};
ghost use Rattle.gv_program.specs.Serving.{HasServed, serve_status};
ghost use Rattle.gv_program.specs.Status.{IsStatus};

use crate::fault::{ProgramFault, print_fault, print_unless_closed};
use crate::files::opened;
use crate::status::DONE;
use gv_serve::{ServeFault, serve as hold, serve_json};
use gv_text::{Pipe, Sink, Source};
use std::rt::Files;

/// Holds a dialogue over these devices, in text or in JSON, and gives the exit status.
pub fn serve<R: AllocGlobal + Eprint, S: Source, K: Sink + Pipe>(
    rt: &R,
    json: bool,
    reader: &mut S,
    writer: &mut K,
) -> u8
    ensures text { json ≡ false → (answer : Result (Unit {0}) TheFault) × HasServed S.remaining S.failed K.written K.failed
        reader.old reader.new writer.old writer.new answer × (result ≡ serve_status answer) }
    ensures status { IsStatus result }
{
    if json {
        let outcome = serve_json(rt.alloc(), reader, writer);
        return ended(rt, writer, outcome);
    }
    let outcome = hold(rt.alloc(), reader, writer);
    ended(rt, writer, outcome)
}

/// Tells how a dialogue ended, and gives the exit status.
fn ended<R: Eprint, K: Pipe>(rt: &R, writer: &K, outcome: Result<(), ServeFault>) -> u8
    ensures status { result ≡ serve_status outcome }
    ensures known { IsStatus result }
{
    match outcome {
        Ok(()) => DONE,
        Err(fault) => print_unless_closed(rt, writer, ProgramFault::from(fault)),
    }
}

/// Answers the lines of a file.
pub fn serve_file<R: AllocGlobal + Eprint, T: Files, K: Sink + Pipe>(
    rt: &R,
    files: &T,
    json: bool,
    path: &str,
    writer: &mut K,
) -> u8
    ensures { IsStatus result }
{
    match opened(files, path) {
        Ok(mut reader) => serve(rt, json, &mut reader, writer),
        Err(fault) => print_fault(rt, fault),
    }
}
