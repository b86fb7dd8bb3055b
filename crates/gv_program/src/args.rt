//! The arguments of the subcommands, each made from a row.
ghost use Rattle.std.specs.Prelude.{◌≡◌, false};
ghost use Rattle.clap.specs.Words.{rule_of};
ghost use Rattle.gv_program.specs.Rows.{rule_of_row};

use clap::Arg;
use clap::builder::{ArgAction, ValueParser};
use std::alloc::Global;

/// How an argument is written, and what help calls its value.
#[derive(Clone, Copy)]
pub enum Kind {
    /// `--NAME`: it is given or not.
    Flag,
    /// A word in its place.
    Positional(&'static str),
    /// `--NAME VALUE`.
    Text(&'static str),
    /// `--NAME VALUE`, any number of times.
    Texts(&'static str),
    /// `--NAME N`.
    Number(&'static str, Numbers),
}

/// The numbers that an argument takes, and the default, if there is one.
#[derive(Clone, Copy)]
pub struct Numbers {
    pub least: u64,
    pub most: u64,
    pub defaults: &'static [&'static str],
}

/// An argument of a subcommand.
#[derive(Clone, Copy)]
pub struct Argument {
    pub name: &'static str,
    pub help: &'static str,
    pub kind: Kind,
    /// It may not be left out.
    pub needed: bool,
}

/// The argument of a row.
pub fn arg_of<'a>(alloc: Global, row: &Argument) -> Arg<'a>
    ensures rule { rule_of result ≡ rule_of_row row.now }
    ensures one { result.global ≡ false }
{
    let arg = Arg::new(alloc, row.name)
        .help(row.help)
        .required(row.needed);
    match row.kind {
        Kind::Flag => arg.long(row.name).action(ArgAction::SetTrue),
        Kind::Positional(shown) => arg.value_name(shown),
        Kind::Text(shown) => arg.long(row.name).value_name(shown),
        Kind::Texts(shown) => arg
            .long(row.name)
            .value_name(shown)
            .action(ArgAction::Append),
        Kind::Number(shown, numbers) => arg
            .long(row.name)
            .value_name(shown)
            .value_parser(ValueParser::unsigned(numbers.least, numbers.most))
            .default_values(numbers.defaults),
    }
}
