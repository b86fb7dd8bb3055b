//! The program over any runtime.
ghost use Rattle.std.specs.Prelude.{◌≡◌, ◌≢◌, ◌⊎◌, ◌∷◌, [], ℕ, List, Result, IfErr, None, IsSome, codes};
ghost use Rattle.std.specs.IoError.{error_kind};
ghost use Rattle.std.specs.declared.io.ErrorKind.TheVariants as stream;
ghost use Rattle.gv_session.specs.declared.fault.ScriptFault.{ScriptFault};
ghost use Rattle.clap.specs.Words.{fault_of, kind_of};
ghost use Rattle.clap.specs.declared.error.kind.ErrorKind.TheVariants as kind;
ghost use Rattle.gv_types.specs.Limits.{IsFromOneTo};
ghost use Rattle.gv_program.specs.CommandLine.{AreReadAs, IsTask, command_line, file_named, most_queues, words_of};
ghost use Rattle.gv_program.specs.Task.{IsDone};
ghost use Rattle.gv_program.specs.Refused.{AskForText, IsStatusOfOne};
ghost use Rattle.gv_program.specs.Fault.{status_of};
ghost use Rattle.gv_threads.specs.declared.fault.ThreadsFault.{ThreadsFault};
ghost use Rattle.gv_serve.specs.declared.fault.ServeFault.{ServeFault};
ghost use Rattle.gv_program.specs.Serving.{HasServed, serve_status};
ghost use Rattle.gv_program.specs.Run.{HasRun, HasRunSome, HasRunThreads, exit_status, threads_status};
ghost use Rattle.gv_program.specs.Status.{IsStatus, bad_words, broken_stream, done, no_memory};

use crate::comparing::compare;
use crate::drawing::{DrawWords, draw};
use crate::fault::{ProgramFault, explain, print_fault, print_unless_closed};
use crate::files::opened;
use crate::replaying::replay;
use crate::serving::{serve, serve_file};
use crate::stack::is_stack_there;
use crate::status::{BAD_WORDS, BROKEN_STREAM, DONE};
use crate::words::{Task, WordsFault, read_words};
use clap::Error;
use gv_text::{
    Pipe, ReadSource, ScriptFault, Sink, Source, WriteSink, is_broken_pipe, run_script_explained,
};
use gv_threads::{RunTerms, run_threads_explained};
use std::rt::{Clock, Env, Files};
use std::sync::Wait;
use std::thread::Threads;
use std::{env, io};

/// Does what the words of the command line ask for, over the standard streams, with the host's threads and files, and gives
/// the exit status. It may wait, for threads alone. Where standard error is a terminal, the progress of a long reading is shown there.
pub fn program<
    R: Env + AllocGlobal + Input + Print + Eprint + Clock,
    T: Threads + Wait + Sync + Files,
>(rt: &R, host: &T, is_terminal: bool) -> u8
    ensures { IsStatus result }
{
    if !is_stack_there(DONE) {
        return print_fault(rt, ProgramFault::Script(ScriptFault::OutOfMemory));
    }
    let words = match arguments(rt) {
        Ok(words) => words,
        Err(fault) => return print_fault(rt, fault),
    };
    let mut reader = ReadSource::new(rt.reader());
    let mut writer = WriteSink::new(io::writer(rt));
    let words = words.as_slice();
    obey(rt, host, words, is_terminal, &mut reader, &mut writer)
}

/// Does what these words ask for, over these devices, with the host's threads and files, and gives the exit status.
fn obey<
    R: AllocGlobal + Print + Eprint + Clock,
    T: Threads + Wait + Sync + Files,
    S: Source,
    K: Sink + Pipe,
>(rt: &R, host: &T, words: &[String], is_terminal: bool, reader: &mut S, writer: &mut K) -> u8
    // The word `run` runs the script, unless memory for reading the words is refused.
    ensures run { (name : List ℕ) → words_of words.now ≡ name ∷ codes "run" ∷ []
        → ((result ≡ no_memory) × (reader.new ≡ reader.old) × (writer.new ≡ writer.old))
        ⊎ ((answer : Result (Unit {0}) ScriptFault) × HasRun S.remaining S.failed K.written K.failed
        reader.old reader.new writer.old writer.new answer × (result ≡ exit_status answer)) }
    // So do all other words that are read as `run` and name no file.
    ensures read_as_run { AreReadAs (codes "run") (words_of words.now) → file_named (words_of words.now) ≡ None
        → ((result ≡ no_memory) × (reader.new ≡ reader.old) × (writer.new ≡ writer.old))
        ⊎ ((answer : Result (Unit {0}) ScriptFault) × HasRun S.remaining S.failed K.written K.failed
        reader.old reader.new writer.old writer.new answer × (result ≡ exit_status answer)) }
    // Where they name a file, its script is run, and the reader stays as it is.
    ensures run_file { AreReadAs (codes "run") (words_of words.now) → IsSome (file_named (words_of words.now))
        → ((result ≡ no_memory) × (reader.new ≡ reader.old) × (writer.new ≡ writer.old))
        ⊎ ((reader.new ≡ reader.old) × HasRunSome K.written writer.old writer.new result) }
    // The word `serve` holds a dialogue.
    ensures serve { (name : List ℕ) → words_of words.now ≡ name ∷ codes "serve" ∷ []
        → ((result ≡ no_memory) × (reader.new ≡ reader.old) × (writer.new ≡ writer.old))
        ⊎ ((answer : Result (Unit {0}) ServeFault) × HasServed S.remaining S.failed K.written K.failed
        reader.old reader.new writer.old writer.new answer × (result ≡ serve_status answer)) }
    // Words that are read as `threads` run the threads script, on some number of queues that they may ask for.
    ensures threads { AreReadAs (codes "threads") (words_of words.now)
        → ((result ≡ no_memory) × (reader.new ≡ reader.old) × (writer.new ≡ writer.old))
        ⊎ ((count : ℕ) × IsFromOneTo most_queues count × (answer : Result (Unit {0}) ThreadsFault)
        × HasRunThreads S.remaining S.failed K.written K.failed
        reader.old reader.new writer.old writer.new count answer × (result ≡ threads_status answer)) }
    // Other words touch no device.
    ensures refused { fault_of command_line (words_of words.now) ≢ []
        → (reader.new ≡ reader.old) × (writer.new ≡ writer.old) }
    // Words that are refused end with the status of their error.
    ensures refused_status { fault_of command_line (words_of words.now) ≢ []
        → IsStatusOfOne (fault_of command_line (words_of words.now)) result }
    // Words that ask for help or for the version: it is printed, or there is no memory for it, or nobody takes it.
    ensures shown { AskForText (fault_of command_line (words_of words.now))
        → (result ≡ done) ⊎ (result ≡ no_memory) ⊎ (result ≡ broken_stream) }
    ensures version { (name : List ℕ) → words_of words.now ≡ name ∷ codes "--version" ∷ []
        → (result ≡ done) ⊎ (result ≡ no_memory) ⊎ (result ≡ broken_stream) }
    ensures status { IsStatus result }
{
    match read_words(rt.alloc(), words) {
        Ok(task) => carry_out(rt, host, task, is_terminal, reader, writer),
        Err(WordsFault::Printed(error)) => printed(rt, &error),
        Err(WordsFault::OutOfMemory) => print_fault(
            rt,
            ProgramFault::Script(ScriptFault::OutOfMemory),
        ),
    }
}

/// Does a task over these devices, and gives the exit status.
fn carry_out<
    R: AllocGlobal + Print + Eprint + Clock,
    T: Threads + Wait + Sync + Files,
    S: Source,
    K: Sink + Pipe,
>(rt: &R, host: &T, task: Task<'_>, is_terminal: bool, reader: &mut S, writer: &mut K) -> u8
    requires { IsTask task }
    ensures done { IsDone S.remaining S.failed K.written K.failed reader.old reader.new writer.old writer.new task.entry result }
    ensures status { IsStatus result }
{
    match task {
        Task::Run {
            explain,
            file: None,
        } => run(rt, explain, reader, writer),
        Task::Run {
            explain,
            file: Some(path),
        } => run_file(rt, host, explain, path, writer),
        Task::Serve { json, file: None } => serve(rt, json, reader, writer),
        Task::Serve {
            json,
            file: Some(path),
        } => serve_file(rt, host, json, path, writer),
        Task::Threads {
            queues,
            turns,
            explain,
        } => {
            let asked = Asked {
                queues,
                turns,
                explain,
            };
            run_with_threads(rt, host, reader, writer, asked)
        }
        Task::Replay(asked) => replay(rt, host, asked, is_terminal, reader, writer),
        Task::Draw {
            at,
            width,
            quiet,
            file,
        } => {
            let asked = DrawWords {
                at,
                width,
                shows_progress: is_terminal && !quiet,
                file,
            };
            draw(rt, host, asked, reader, writer)
        }
        Task::Compare(asked) => compare(rt, host, asked, is_terminal, writer),
    }
}

/// The words of the command line, of which the first is the program's name.
fn arguments<R: Env + AllocGlobal>(rt: &R) -> Result<Vec<String>, ProgramFault>
    ensures { IfErr result (λ fault. (fault ≡ ProgramFault.ArgumentNotText)
        ⊎ (fault ≡ ProgramFault.Script ScriptFault.OutOfMemory)) }
{
    match env::args(rt) {
        Ok(words) => Ok(words.collect(rt.alloc())?),
        Err(error) => Err(argument_fault(&error)),
    }
}

/// What the failure to read the arguments is to the program.
fn argument_fault(error: &io::Error) -> ProgramFault
    ensures memory { error_kind error.now ≡ stream.OutOfMemory
        → result ≡ ProgramFault.Script ScriptFault.OutOfMemory }
    ensures text { error_kind error.now ≢ stream.OutOfMemory
        → result ≡ ProgramFault.ArgumentNotText }
{
    match error.kind() {
        io::ErrorKind::OutOfMemory => ProgramFault::Script(ScriptFault::OutOfMemory),
        _ => ProgramFault::ArgumentNotText,
    }
}

/// Runs the script that the reader gives, and gives the exit status: that of the fault, if one is answered.
fn run<R: AllocGlobal + Eprint, S: Source, K: Sink + Pipe>(
    rt: &R,
    explains: bool,
    reader: &mut S,
    writer: &mut K,
) -> u8
    ensures { (answer : Result (Unit {0}) ScriptFault) × HasRun S.remaining S.failed K.written K.failed
        reader.old reader.new writer.old writer.new answer × (result ≡ exit_status answer) }
{
    let mut why = String::new(rt.alloc());
    match run_script_explained(rt.alloc(), reader, writer, &mut why) {
        Ok(()) => DONE,
        Err(fault) => {
            let status = print_unless_closed(rt, writer, ProgramFault::from(fault));
            explain(rt, explains, why);
            status
        }
    }
}

/// Runs the script of a file.
fn run_file<R: AllocGlobal + Eprint, T: Files, K: Sink + Pipe>(
    rt: &R,
    files: &T,
    explains: bool,
    path: &str,
    writer: &mut K,
) -> u8
    ensures { HasRunSome K.written writer.old writer.new result }
{
    match opened(files, path) {
        Ok(mut reader) => run(rt, explains, &mut reader, writer),
        Err(fault) => print_fault(rt, fault),
    }
}

/// On how many queues a threads script is run, after how many turns requests are given up, and whether a bad line is explained.
#[derive(Clone, Copy)]
struct Asked {
    queues: u64,
    turns: u64,
    explain: bool,
}

/// Runs the threads script that the reader gives, and gives the exit status: that of the fault, if one is answered.
fn run_with_threads<R: AllocGlobal + Eprint, T: Threads + Wait + Sync, S: Source, K: Sink + Pipe>(
    rt: &R,
    threads: &T,
    reader: &mut S,
    writer: &mut K,
    asked: Asked,
) -> u8
    requires { IsFromOneTo most_queues asked.queues }
    ensures run { (answer : Result (Unit {0}) ThreadsFault) × HasRunThreads S.remaining S.failed K.written K.failed
        reader.old reader.new writer.old writer.new asked.queues answer × (result ≡ threads_status answer) }
    ensures status { IsStatus result }
{
    let mut why = String::new(rt.alloc());
    let terms = RunTerms {
        queues: asked.queues,
        turns: asked.turns,
    };
    match run_threads_explained(threads, reader, writer, terms, &mut why) {
        Ok(()) => DONE,
        Err(ended) => {
            let status = print_unless_closed(rt, writer, ProgramFault::from(ended));
            explain(rt, asked.explain, why);
            status
        }
    }
}

/// Prints what clap says of the words, and gives the exit status.
fn printed<R: Print + Eprint>(rt: &R, error: &Error) -> u8
    ensures refused { kind_of error.now ≢ kind.DisplayHelp
        → kind_of error.now ≢ kind.DisplayVersion → result ≡ bad_words }
    ensures shown { (kind_of error.now ≡ kind.DisplayHelp)
        ⊎ (kind_of error.now ≡ kind.DisplayVersion)
        → (result ≡ done) ⊎ (result ≡ broken_stream) }
{
    let outcome = error.print(rt);
    if error.use_stderr() {
        return BAD_WORDS;
    }
    match outcome {
        Ok(()) => DONE,
        Err(error) if is_broken_pipe(&error) => BROKEN_STREAM,
        Err(_) => print_fault(rt, ProgramFault::Script(ScriptFault::WriteFault)),
    }
}
