//! Operations, moments and occurrences in words.

use crate::act::{Act, Moment};
use crate::occurrence::{Digits, Field, Head, Occurrence};
use gv_types::{BufferId, Flags, Op};
use gv_vm::{Place as Reached, Target};
use std::alloc::AllocError;
use std::fmt::Write;

/// Nanoseconds of a microsecond and of a second.
const MICROSECOND: u64 = 1_000;

const SECOND: u64 = 1_000_000_000;

/// The number of a buffer: how many were made up to it.
pub fn number_of(id: &BufferId) -> u64 {
    id.generation.get().saturating_add(1)
}

/// Writes the name of a buffer.
pub fn write_buffer(out: &mut String, id: &BufferId) -> Result<(), AllocError> {
    let number = number_of(id);
    write!(out, "b{number}")
}

/// Writes that pages are read-only, where they are.
fn write_flags(out: &mut String, flags: Flags) -> Result<(), AllocError> {
    if flags.read_only {
        out.push_str(" ro")?;
    }
    Ok(())
}

/// Writes a number in hexadecimal digits behind a text.
fn write_hex(out: &mut String, before: &str, number: u64) -> Result<(), AllocError> {
    out.push_str(before)?;
    write!(out, "0x{number:x}")
}

/// Writes the bytes that an operation covers behind its word.
fn write_range(out: &mut String, word: &str, addr: u64, len: u64) -> Result<(), AllocError> {
    write_hex(out, word, addr)?;
    write_hex(out, " ", len)
}

/// Writes a byte of a buffer.
fn write_byte(out: &mut String, id: &BufferId, byte: u64) -> Result<(), AllocError> {
    write_buffer(out, id)?;
    write_hex(out, " ", byte)
}

/// Writes an operation as a script has it.
pub fn write_op(out: &mut String, op: &Op) -> Result<(), AllocError> {
    match op {
        Op::Map {
            addr,
            len,
            buffer,
            offset,
            flags,
        } => {
            write_range(out, "map ", *addr, *len)?;
            out.push_str(" ")?;
            write_byte(out, buffer, *offset)?;
            write_flags(out, *flags)
        }
        Op::MapZero { addr, len, flags } => {
            write_range(out, "zero ", *addr, *len)?;
            write_flags(out, *flags)
        }
        Op::Unmap { addr, len } => write_range(out, "unmap ", *addr, *len),
        Op::UnmapBuffer { buffer } => {
            out.push_str("unmapall ")?;
            write_buffer(out, buffer)
        }
    }
}

/// Writes a line's number, and its time where it has one.
pub fn write_moment(out: &mut String, moment: Moment) -> Result<(), AllocError> {
    let line = moment.line;
    write!(out, "line {line}")?;
    if let Some(time) = moment.time {
        out.push_str(", ")?;
        write_time(out, time)?;
        out.push_str(" s")?;
    }
    out.push_str(": ")
}

/// Writes a time in seconds, cut to microseconds.
pub fn write_time(out: &mut String, time: u64) -> Result<(), AllocError> {
    let seconds = time / SECOND;
    let rest = time % SECOND / MICROSECOND;
    write!(out, "{seconds}.{rest:06}")
}

/// Writes when an operation was, what it was, and why.
pub fn write_act(out: &mut String, act: &Act) -> Result<(), AllocError> {
    write_moment(out, act.moment)?;
    write_op(out, &act.op)?;
    match act.cause.words() {
        Some(words) => write!(out, " ({words})"),
        None => Ok(()),
    }
}

/// Writes what an address reaches, in bytes of its buffer.
pub fn write_reached(out: &mut String, reached: &Option<Reached>) -> Result<(), AllocError> {
    match reached {
        Some(reached) => {
            write_target(out, &reached.target)?;
            write_flags(out, reached.flags)
        }
        None => out.push_str("none"),
    }
}

fn write_target(out: &mut String, target: &Target) -> Result<(), AllocError> {
    match target {
        Target::Buffer { id, byte } => write_byte(out, id, *byte),
        Target::Zero => out.push_str("zero"),
    }
}

/// Writes where a finding was made.
pub fn write_occurrence(out: &mut String, occurrence: &Occurrence) -> Result<(), AllocError> {
    write_head(out, &occurrence.head)?;
    for (field, number) in occurrence.kind.fields().iter().zip(&occurrence.numbers) {
        write_field(out, field, *number)?;
    }
    match occurrence.fault {
        Some(fault) => write!(out, ": {fault}"),
        None => Ok(()),
    }
}

fn write_head(out: &mut String, head: &Head) -> Result<(), AllocError> {
    match head {
        Head::Act { act } => write_act(out, act),
        Head::Moment { moment } => write_moment(out, *moment),
        Head::Buffer { moment, buffer } => {
            write_moment(out, *moment)?;
            write_buffer(out, buffer)
        }
    }
}

/// Writes a number between its words.
fn write_field(out: &mut String, field: &Field, number: u64) -> Result<(), AllocError> {
    out.push_str(field.before)?;
    write_number(out, field.digits, number)?;
    out.push_str(field.after)?;
    out.push_str(field.digits.plural(number))
}

fn write_number(out: &mut String, digits: Digits, number: u64) -> Result<(), AllocError> {
    match digits {
        Digits::Hex => write_hex(out, "", number),
        Digits::Decimal | Digits::Counted => write!(out, "{number}"),
    }
}
