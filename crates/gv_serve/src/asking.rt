//! Questions of a dialogue about the journal. Nothing changes.
ghost use Rattle.std.specs.Prelude.{◌≡◌, ◌≢◌, Err, OnOk, OnErr};
ghost use Rattle.gv_session.specs.State.{begun};
ghost use Rattle.gv_session.specs.LineProgress.{Wrote};
ghost use Rattle.gv_session.specs.Stopping.{Loses};
ghost use Rattle.gv_serve.specs.DialogueLine.{Asks};

use gv_journal::{HeldItem, ItemKind};
use gv_text::{BufferNames, LineFault, Session, write_place, write_refused};
use gv_types::{BufferId, Fault, Flags, Op, OutOfMemory};
use std::alloc::{AllocError, Global};
use std::fmt::Write;

/// Writes what an item of the journal did, a line an operation, as `bind` reads it.
pub fn show(
    alloc: Global,
    session: &mut Session,
    entry: u64,
    out: &mut String,
) -> Result<(), LineFault>
    ensures done { OnOk result (Wrote Asks session.old out.old out.new session.new) }
    ensures memory { result ≢ Err LineFault.Bad }
    ensures stopped { OnErr result (Loses Asks session.old session.new) }
{
    let reply = shown(alloc, session, entry)?;
    say(session, reply.as_str(), out)
}

/// Writes which items of the journal say something of an address, newest first, where it led by each, and what lies under them.
pub fn past(
    alloc: Global,
    session: &mut Session,
    addr: u64,
    out: &mut String,
) -> Result<(), LineFault>
    ensures done { OnOk result (Wrote Asks session.old out.old out.new session.new) }
    ensures memory { result ≢ Err LineFault.Bad }
    ensures stopped { OnErr result (Loses Asks session.old session.new) }
{
    let reply = recalled(alloc, session, addr)?;
    say(session, reply.as_str(), out)
}

/// Writes a reply, and is no setting.
fn say(session: &mut Session, reply: &str, out: &mut String) -> Result<(), LineFault>
    ensures done { OnOk result (Wrote Asks session.old out.old out.new session.new) }
    ensures memory { result ≢ Err LineFault.Bad }
    ensures stopped { OnErr result (session.new ≡ begun session.old) }
{
    session.begin();
    Ok(out.push_str(reply)?)
}

/// What is said of an item.
fn shown(alloc: Global, session: &Session, entry: u64) -> Result<String, AllocError> {
    let mut out = String::new(alloc);
    match session.world().vm().entry(entry) {
        Some(
            HeldItem {
                item,
                is_withdrawn: _,
            },
        ) => write_kind(&mut out, session.buffers(), &item.kind)?,
        None => write_refused(&mut out, &Fault::NoEntry)?,
    }
    Ok(out)
}

/// What is said of an address.
fn recalled(alloc: Global, session: &Session, addr: u64) -> Result<String, OutOfMemory> {
    let vm = session.world().vm();
    let names = session.buffers();
    let mut out = String::new(alloc);
    let items = vm.past(alloc, addr)?;
    for item in items.iter() {
        let entry = item.entry;
        let word = if item.is_withdrawn {
            "withdrawn"
        } else {
            "live"
        };
        write!(out, "{entry} {word} ")?;
        write_place(&mut out, names, &item.place)?;
    }
    out.push_str("under ")?;
    write_place(&mut out, names, &vm.base_at(addr))?;
    Ok(out)
}

fn write_kind(out: &mut String, names: &BufferNames, kind: &ItemKind) -> Result<(), AllocError> {
    match kind {
        ItemKind::Withdrawal { of } => writeln!(out, "withdrawal of {of}"),
        ItemKind::Bind { request, .. } => write_ops(out, names, request.ops.as_slice()),
    }
}

fn write_ops(out: &mut String, names: &BufferNames, ops: &[Op]) -> Result<(), AllocError> {
    if ops.is_empty() {
        return out.push_str("empty\n");
    }
    for op in ops {
        write_op(out, names, op)?;
    }
    Ok(())
}

/// Writes an operation as a line has it.
fn write_op(out: &mut String, names: &BufferNames, op: &Op) -> Result<(), AllocError> {
    match *op {
        Op::Map {
            addr,
            len,
            buffer,
            offset,
            flags,
        } => {
            write!(out, "map {addr:#x} {len:#x} ")?;
            write_name(out, names, buffer)?;
            write!(out, " {offset:#x}")?;
            write_end(out, flags)
        }
        Op::MapZero { addr, len, flags } => {
            write!(out, "zero {addr:#x} {len:#x}")?;
            write_end(out, flags)
        }
        Op::Unmap { addr, len } => writeln!(out, "unmap {addr:#x} {len:#x}"),
        Op::UnmapBuffer { buffer } => {
            out.push_str("unmapall ")?;
            write_name(out, names, buffer)?;
            out.push_str("\n")
        }
    }
}

fn write_name(out: &mut String, names: &BufferNames, id: BufferId) -> Result<(), AllocError> {
    match names.name_of(id) {
        Some(name) => out.push_str(name.as_str()),
        None => Ok(()),
    }
}

/// Writes the end of a line that maps.
fn write_end(out: &mut String, flags: Flags) -> Result<(), AllocError> {
    if flags.read_only {
        out.push_str(" ro\n")
    } else {
        out.push_str("\n")
    }
}
