//! What the arguments ask for.
ghost use Rattle.std.specs.Prelude.{◌≡◌, ◌≢◌, ◌⊎◌, ◌∷◌, [], ℕ, List, IfOk, Ok, Err, None, Some, codes, false};
ghost use Rattle.clap.specs.Words.{fault_of, found_of, kind_of, rows_of, subcommand_name_of};
ghost use Rattle.gv_program.specs.CommandLine.{IsEntered, IsFaultOf, IsTask, NamesFile, ReadsBy, command_line, entered, words_of};
ghost use Rattle.gv_program.specs.CommandLine.{IsCompare, IsDraw, IsReplay, IsRunOf, IsServeOf, IsTaskOf, IsThreads};
ghost use Rattle.gv_program.specs.declared.words.WordsFault.TheVariants as words;

use crate::commands::command;
use crate::rows::{MAX_QUEUES, MAX_TURNS, MAX_WIDTH};
use clap::error::ErrorKind;
use clap::{ArgMatches, Error};
use std::alloc::{AllocError, Global};

/// Why the arguments give no task.
#[derive(Drop)]
pub enum WordsFault {
    /// The arguments ask for help, or are refused: print this.
    Printed(Error),
    /// Out of memory.
    OutOfMemory,
}

impl From<AllocError> for WordsFault {
    ghost from_gives = { λ _ fault. fault ≡ words.OutOfMemory };

    fn from(_error: AllocError) -> WordsFault {
        WordsFault::OutOfMemory
    }
}

impl From<Error> for WordsFault {
    ghost from_gives = { IsFaultOf };

    fn from(error: Error) -> WordsFault {
        match error.kind() {
            ErrorKind::OutOfMemory => WordsFault::OutOfMemory,
            _ => WordsFault::Printed(error),
        }
    }
}

/// What the arguments ask for. A file is read instead of standard input.
#[derive(Drop)]
pub enum Task<'a> {
    /// Run a script. With `explain`, say why a line is bad.
    Run {
        explain: bool,
        file: Option<&'a str>,
    },
    /// Answer lines one after another, in text or in JSON.
    Serve {
        json: bool,
        file: Option<&'a str>,
    },
    /// Replay a driver's log.
    Replay(ReplayWords<'a>),
    /// Draw a script, around an address if one is given. `width` is in pixels.
    Draw {
        at: Option<&'a str>,
        width: u64,
        quiet: bool,
        file: Option<&'a str>,
    },
    /// Compare two lists of mappings.
    Compare(CompareWords<'a>),
    /// Run a threads script on `queues` queues, 1 to 16. Give up a request that waits after `turns` turns,
    /// 1 to 1,000,000,000.
    Threads {
        queues: u64,
        turns: u64,
        explain: bool,
    },
}

/// The arguments of `replay`. Addresses are kept as text.
#[derive(Drop)]
pub struct ReplayWords<'a> {
    pub format: &'a str,
    /// The addresses whose past the report gives.
    pub at: Vec<&'a str>,
    pub flags: Option<&'a str>,
    pub pid: Option<u64>,
    /// The address space to take.
    pub space: Option<&'a str>,
    pub all: bool,
    /// No progress is shown.
    pub quiet: bool,
    pub json: bool,
    pub script: bool,
    pub draw: bool,
    /// The width of a picture, in pixels.
    pub width: u64,
    pub file: Option<&'a str>,
}

/// The arguments of `compare`: the files of two lists. With a format the second one is a log.
#[derive(Clone, Copy, Drop)]
pub struct CompareWords<'a> {
    pub first: &'a str,
    pub second: &'a str,
    pub format: Option<&'a str>,
    pub flags: Option<&'a str>,
    pub pid: Option<u64>,
    /// The address space to take.
    pub space: Option<&'a str>,
    /// No progress is shown.
    pub quiet: bool,
}

/// Reads the arguments, of which the first is the program's name, and answers what they ask for.
pub fn read_words<'a>(alloc: Global, words: &'a [String]) -> Result<Task<'a>, WordsFault>
    ensures kinds { ReadsBy (fault_of command_line (words_of words.entry.now)) result }
    ensures run { (name : List ℕ) → words_of words.entry.now ≡ name ∷ codes "run" ∷ []
        → (result ≡ Ok (Task.Run false None)) ⊎ (result ≡ Err WordsFault.OutOfMemory) }
    ensures entered { IfOk result (IsEntered (entered (words_of words.entry.now))) }
    ensures serve { (name : List ℕ) → words_of words.entry.now ≡ name ∷ codes "serve" ∷ []
        → (result ≡ Ok (Task.Serve false None)) ⊎ (result ≡ Err WordsFault.OutOfMemory) }
    ensures file { IfOk result (NamesFile (words_of words.entry.now)) }
    ensures task { IfOk result IsTask }
{
    let command = command(alloc)?;
    let matches = command.try_get_matches_from(words)?;
    Ok(task_of(alloc, &matches)?)
}

/// What the subcommand that was entered asks for.
fn task_of<'a>(alloc: Global, matches: &ArgMatches<'a>) -> Result<Task<'a>, AllocError>
    ensures of { IfOk result (IsTaskOf matches.now) }
    ensures task { IfOk result IsTask }
{
    if let Some(given) = matches.subcommand_matches("replay") {
        return replay_of(alloc, given);
    }
    Ok(plain_task_of(matches))
}

/// The same for each subcommand but `replay`.
fn plain_task_of<'a>(matches: &ArgMatches<'a>) -> Task<'a>
    ensures of { subcommand_name_of matches.now ≢ Some (codes "replay") → IsTaskOf matches.now result }
    ensures task { IsTask result }
{
    if let Some(given) = matches.subcommand_matches("threads") {
        return threads_of(given);
    }
    if let Some(given) = matches.subcommand_matches("serve") {
        return serve_of(given);
    }
    if let Some(given) = matches.subcommand_matches("draw") {
        return draw_of(given);
    }
    if let Some(given) = matches.subcommand_matches("compare") {
        return compare_of(given);
    }
    match matches.subcommand_matches("run") {
        Some(given) => run_of(given),
        None => Task::Run {
            explain: false,
            file: None,
        },
    }
}

/// The arguments of `run`.
fn run_of<'a>(given: &ArgMatches<'a>) -> Task<'a>
    ensures { IsRunOf (rows_of (found_of given.now)) result }
{
    Task::Run {
        explain: given.get_flag("explain"),
        file: given.get_str("file"),
    }
}

/// The arguments of `serve`.
fn serve_of<'a>(given: &ArgMatches<'a>) -> Task<'a>
    ensures { IsServeOf (rows_of (found_of given.now)) result }
{
    Task::Serve {
        json: given.get_flag("json"),
        file: given.get_str("file"),
    }
}

/// The arguments of `threads`. Each number is in its range: the command line takes no other.
fn threads_of<'a>(given: &ArgMatches<'_>) -> Task<'a>
    ensures threads { IsThreads result }
    ensures task { IsTask result }
{
    let queues = given.get_one::<u64>("queues").unwrap_or(1);
    let turns = given.get_one::<u64>("turns").unwrap_or(MAX_TURNS);
    Task::Threads {
        queues: queues.clamp(1, MAX_QUEUES),
        turns: turns.clamp(1, MAX_TURNS),
        explain: given.get_flag("explain"),
    }
}

/// The arguments of `replay`. A format was given: without one they are refused.
fn replay_of<'a>(alloc: Global, given: &ArgMatches<'a>) -> Result<Task<'a>, AllocError>
    ensures { IfOk result IsReplay }
{
    let at = match given.get_strs("at") {
        Some(addresses) => Vec::from_slice(alloc, addresses)?,
        None => Vec::new(alloc),
    };
    Ok(Task::Replay(ReplayWords {
        format: given.get_str("format").unwrap_or(""),
        at,
        flags: given.get_str("flags"),
        pid: given.get_one::<u64>("pid"),
        space: given.get_str("space"),
        all: given.get_flag("all"),
        quiet: given.get_flag("quiet"),
        json: given.get_flag("json"),
        script: given.get_flag("script"),
        draw: given.get_flag("draw"),
        width: given.get_one::<u64>("width").unwrap_or(MAX_WIDTH),
        file: given.get_str("file"),
    }))
}

/// The arguments of `draw`.
fn draw_of<'a>(given: &ArgMatches<'a>) -> Task<'a>
    ensures { IsDraw result }
{
    Task::Draw {
        at: given.get_str("at"),
        width: given.get_one::<u64>("width").unwrap_or(MAX_WIDTH),
        quiet: given.get_flag("quiet"),
        file: given.get_str("file"),
    }
}

/// The arguments of `compare`. Both files were given: without them the arguments are refused.
fn compare_of<'a>(given: &ArgMatches<'a>) -> Task<'a>
    ensures { IsCompare result }
{
    Task::Compare(CompareWords {
        first: given.get_str("first").unwrap_or(""),
        second: given.get_str("second").unwrap_or(""),
        format: given.get_str("format"),
        flags: given.get_str("flags"),
        pid: given.get_one::<u64>("pid"),
        space: given.get_str("space"),
        quiet: given.get_flag("quiet"),
    })
}
