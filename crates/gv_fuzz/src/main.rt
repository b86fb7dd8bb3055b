//! Scripts by chance, each run by `run_script` and by a model that is written from the definitions. Each reply is also written as
//! JSON and read back. Where something differs, the script is shrunk and printed with its seed. The last line is 'N passed, M
//! failed'.
#![tactic(auto)]

mod chance;
mod model;
mod patterns;
mod replies;
mod script;
mod shape;
mod shrink;
mod trial;
mod words;

use replies::changed_reply;
use script::by_chance;
use shrink::shrunk;
use std::alloc::AllocError;
use std::io;
use std::process::ExitCode;
use std::time::{Clock, Instant};
use trial::Trial;
use words::{Campaign, campaign_of};

/// After so many differences no further script is tried.
const MOST_FAILED: u64 = 5;

fn main(rt: HostRuntime) -> io::Result<ExitCode> {
    let Some(campaign) = campaign_of(&rt)? else {
        rt.eprintln("gv_fuzz [--seed N] [--scripts N] [--seconds N], one of the last two")?;
        return Ok(ExitCode::from(2));
    };
    let failed = try_all(&rt, &campaign)?;
    Ok(if failed == 0 {
        ExitCode::SUCCESS
    } else {
        ExitCode::from(1)
    })
}

/// Tries the scripts of a campaign, and gives how many differed.
fn try_all<R: Clock + Print + AllocGlobal>(rt: &R, campaign: &Campaign) -> io::Result<u64> {
    let start = Instant::now(rt)?;
    let mut passed: u64 = 0;
    let mut failed: u64 = 0;
    for number in 0..campaign.scripts {
        if failed >= MOST_FAILED || start.elapsed(rt)?.as_secs() >= campaign.seconds {
            break;
        }
        if agrees(rt, campaign.seed.wrapping_add(number))? {
            passed = passed.saturating_add(1);
        } else {
            failed = failed.saturating_add(1);
        }
    }
    println!(rt; "{passed} passed, {failed} failed")?;
    Ok(failed)
}

/// Tries the replies and the script of a seed. What differs is printed.
fn agrees<R: Print + AllocGlobal>(rt: &R, seed: u64) -> io::Result<bool> {
    if let Some(reply) = changed_reply(rt.alloc(), seed)? {
        let word = reply.word;
        println!(rt; "seed {seed}: JSON says something else than this reply to {word}")?;
        rt.print(reply.text.as_str())?;
        return Ok(false);
    }
    let script = by_chance(rt.alloc(), seed)?;
    if Trial::new(rt.alloc(), &script)?.agrees() {
        return Ok(true);
    }
    tell_shrunk(rt, seed, &script)?;
    Ok(false)
}

/// Prints a script of a seed, shrunk, and how both ways of it differ.
fn tell_shrunk<R: Print + AllocGlobal>(rt: &R, seed: u64, script: &[u8]) -> io::Result<()> {
    let script = shrunk(rt.alloc(), script)?;
    println!(rt; "seed {seed}: this script")?;
    print_text(rt, &script)?;
    tell(rt, &Trial::new(rt.alloc(), &script)?)
}

/// Prints how both ways of a trial differ.
fn tell<R: Print + AllocGlobal>(rt: &R, trial: &Trial) -> io::Result<()> {
    let outcome = &trial.outcome;
    println!(rt; "came to {outcome:?}")?;
    print_text(rt, &trial.got)?;
    let line = trial.wanted.bad_line.unwrap_or(0);
    println!(rt; "and was to come to (bad line {line}, 0 for none)")?;
    print_text(rt, trial.wanted.text.as_bytes())?;
    if let Some(changed) = trial.changed {
        println!(rt; "and the JSON of line {changed} says something else")?;
    }
    Ok(())
}

/// Prints bytes as text; those that are not ASCII as they are written in a string.
fn print_text<R: Print + AllocGlobal>(rt: &R, bytes: &[u8]) -> io::Result<()> {
    let mut text = String::new(rt.alloc());
    for byte in bytes {
        push_shown(&mut text, *byte)?;
    }
    rt.print(text.as_str())
}

fn push_shown(text: &mut String, byte: u8) -> Result<(), AllocError> {
    if byte == b'\n' {
        return text.push('\n');
    }
    for letter in std::ascii::escape_default(byte) {
        text.push(char::from(letter))?;
    }
    Ok(())
}
