//! The subcommands and their arguments, in a table.
ghost use Rattle.std.specs.Prelude.{◌≡◌, IfOk};
ghost use Rattle.clap.specs.Words.{app_of, with_subcommand};
ghost use Rattle.gv_program.specs.CommandLine.{IsCommandOf, bare_line, command_line};
ghost use Rattle.gv_program.specs.Rows.{Adds, line_of, with_lines};

use crate::args::{Argument, arg_of};
use crate::help;
use crate::rows::{
    ADDRESSES, ALL, AS_JSON, AS_PICTURE, AS_SCRIPT, AT, EXPLAIN, FILE, FIRST, FLAGS, FORMAT, JSON,
    LOG_FORMAT, PID, QUEUES, QUIET, SECOND, SPACE, TURNS, WIDTH,
};
use clap::Command;
use std::alloc::{AllocError, Global};

/// A subcommand.
#[derive(Clone, Copy)]
pub struct Subcommand {
    pub name: &'static str,
    pub about: &'static str,
    /// The text after its long help.
    pub after: &'static str,
    pub rows: &'static [Argument],
}

/// The subcommands, as help shows them.
const SUBCOMMANDS: [Subcommand; 6] = [
    Subcommand {
        name: "run",
        about: help::RUN,
        after: help::SCRIPT,
        rows: &[EXPLAIN, FILE],
    },
    Subcommand {
        name: "serve",
        about: help::SERVE,
        after: help::SERVE_LINES,
        rows: &[JSON, FILE],
    },
    Subcommand {
        name: "replay",
        about: help::REPLAY,
        after: help::REPLAY_STATUSES,
        rows: &[
            FORMAT, ADDRESSES, FLAGS, PID, SPACE, AS_JSON, AS_SCRIPT, AS_PICTURE, ALL, QUIET,
            WIDTH, FILE,
        ],
    },
    Subcommand {
        name: "draw",
        about: help::DRAW,
        after: help::DRAW_STATUSES,
        rows: &[AT, WIDTH, QUIET, FILE],
    },
    Subcommand {
        name: "compare",
        about: help::COMPARE,
        after: help::COMPARE_STATUSES,
        rows: &[FIRST, SECOND, LOG_FORMAT, FLAGS, PID, SPACE, QUIET],
    },
    Subcommand {
        name: "threads",
        about: help::THREADS,
        after: help::THREADS_SCRIPT,
        rows: &[QUEUES, TURNS, EXPLAIN],
    },
];

/// The whole command line.
pub fn command<'a>(alloc: Global) -> Result<Command<'a>, AllocError>
    ensures { IfOk result (λ command. app_of command ≡ command_line) }
{
    with_lines(alloc, bare_command(alloc), &SUBCOMMANDS)
}

/// The program without its subcommands.
fn bare_command<'a>(alloc: Global) -> Command<'a>
    ensures { app_of result ≡ bare_line }
{
    Command::new(alloc, "vmbind")
        .version(help::VERSION)
        .about(help::PROGRAM)
        .after_long_help(help::SCRIPT)
        .subcommand_required(true)
}

/// A command with further subcommands.
fn with_lines<'a>(
    alloc: Global,
    command: Command<'a>,
    lines: &[Subcommand],
) -> Result<Command<'a>, AllocError>
    ensures { IfOk result (λ made. app_of made ≡ with_lines (app_of command.entry) lines.now) }
{
    let mut command = command;
    for line in lines {
        command = with_line(alloc, command, line)?;
    }
    Ok(command)
}

/// A command with one more subcommand.
fn with_line<'a>(
    alloc: Global,
    command: Command<'a>,
    line: &Subcommand,
) -> Result<Command<'a>, AllocError>
    ensures { IfOk result (λ made. app_of made ≡ with_subcommand (app_of command.entry) (line_of line.now).top) }
{
    command.subcommand(line_command(alloc, line)?)
}

/// A subcommand and its arguments.
fn line_command<'a>(alloc: Global, line: &Subcommand) -> Result<Command<'a>, AllocError>
    ensures { IfOk result (IsCommandOf (line_of line.now)) }
{
    let head = Command::new(alloc, line.name)
        .about(line.about)
        .after_long_help(line.after);
    with_rows(alloc, head, line.rows)
}

/// A command with further arguments.
fn with_rows<'a>(
    alloc: Global,
    command: Command<'a>,
    rows: &[Argument],
) -> Result<Command<'a>, AllocError>
    ensures { IfOk result (Adds command.entry rows.now) }
{
    let mut command = command;
    for row in rows {
        command = command.arg(arg_of(alloc, row))?;
    }
    Ok(command)
}
