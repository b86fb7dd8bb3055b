//! Two lists of mappings compared, or one and what a log comes to.
ghost use Rattle.std.specs.Prelude.{◌≢◌};
ghost use Rattle.gv_program.specs.Status.{IsStatus, bad_script};

use crate::fault::{ProgramFault, print_fault, print_unless_closed};
use crate::files::opened;
use crate::progress::ProgressReporter;
use crate::replaying::list_log;
use crate::status::{BAD_WORDS, DIFFERENT, DONE};
use crate::words::CompareWords;
use gv_compare::{CompareFault, compare_of};
use gv_text::{MemorySink, Pipe, ScriptFault, Sink, write_all};
use std::alloc::Global;
use std::rt::{Clock, Files};

/// Compares the lists of two files, or that of one and the mappings at the end of a log, and gives the exit status: `DIFFERENT`
/// where some page differs.
pub fn compare<R: AllocGlobal + Eprint + Clock, T: Files, K: Sink + Pipe>(
    rt: &R,
    files: &T,
    asked: CompareWords<'_>,
    is_terminal: bool,
    writer: &mut K,
) -> u8
    ensures { IsStatus result }
{
    let reporter = ProgressReporter::new(rt, is_terminal && !asked.quiet);
    let lhs = match read_file(rt.alloc(), files, &reporter, asked.first) {
        Ok(bytes) => bytes,
        Err(fault) => return print_fault(rt, fault),
    };
    let rhs = match second_of(rt.alloc(), files, &reporter, &asked) {
        Ok(bytes) => bytes,
        Err(fault) => return no_list(rt, fault),
    };
    let mut report = String::new(rt.alloc());
    // Of a log it names the log's.
    let space = match asked.format {
        Some(_) => None,
        None => asked.space,
    };
    match compare_of(rt.alloc(), &lhs, &rhs, space, &mut report) {
        Ok(pages) => written(rt, writer, report.as_str(), pages),
        Err(CompareFault::OutOfMemory) => print_fault(
            rt,
            ProgramFault::Script(ScriptFault::OutOfMemory),
        ),
        Err(fault) => refused(rt, fault),
    }
}

/// All bytes of a file.
fn read_file<R: Eprint + Clock, T: Files>(
    alloc: Global,
    files: &T,
    reporter: &ProgressReporter<'_, R>,
    path: &str,
) -> Result<Vec<u8>, ProgramFault> {
    let mut reader = opened(files, path)?;
    reporter.read_all(alloc, &mut reader, reporter.len_if_shown(files, path))
}

/// The second list: a file, or what a log comes to.
fn second_of<R: Eprint + Clock, T: Files>(
    alloc: Global,
    files: &T,
    reporter: &ProgressReporter<'_, R>,
    asked: &CompareWords<'_>,
) -> Result<Vec<u8>, ProgramFault> {
    let Some(format) = asked.format else {
        return read_file(alloc, files, reporter, asked.second);
    };
    let mut list = MemorySink::new(alloc);
    list_log(alloc, files, reporter, asked, format, &mut list)?;
    Ok(Vec::from_slice(alloc, list.bytes())?)
}

/// Tells why a log gives no list, and gives the exit status: that of lists that differ would say otherwise.
fn no_list<R: Eprint>(rt: &R, fault: ProgramFault) -> u8
    ensures status { IsStatus result }
    // No status of lists that differ.
    ensures apart { result ≢ bad_script }
{
    let status = print_fault(rt, fault);
    if status == DIFFERENT {
        BAD_WORDS
    } else {
        status
    }
}

/// Writes where the lists differ, and gives the exit status.
fn written<R: Eprint, K: Sink + Pipe>(rt: &R, writer: &mut K, report: &str, pages: u64) -> u8
    ensures { IsStatus result }
{
    if write_all(writer, report.as_bytes()).is_err() {
        return print_unless_closed(rt, writer, ProgramFault::Script(ScriptFault::WriteFault));
    }
    if pages == 0 { DONE } else { DIFFERENT }
}

/// Tells what is wrong with a list.
fn refused<R: AllocGlobal + Eprint>(rt: &R, fault: CompareFault) -> u8
    ensures { IsStatus result }
{
    if let Ok(line) = format!(in rt.alloc(); "vmbind: {fault}") {
        let _ = rt.eprintln(line);
    }
    BAD_WORDS
}
