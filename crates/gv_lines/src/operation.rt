//! The operations.
ghost use Rattle.std.specs.Prelude.{◌≡◌};
ghost use Rattle.gv_lines.specs.Operation.{planned_operation, range_operation, unmapall_operation};
ghost use Rattle.gv_lines.specs.Operation.{map_operation, zero_operation, unmap_operation, read_only_end};

use super::name::Name;
use super::words::{Words, is_word};

/// A change of what an address space maps. Addresses, lengths and offsets are in bytes, and may be
/// any numbers: whether an address space allows the change is not asked here.
#[derive(Drop, Debug)]
pub enum Operation {
    /// `map ADDR LEN NAME OFFSET`: `len` bytes from `addr` on show the buffer from `offset` on.
    /// With ` ro` at its end they are read-only.
    Map {
        addr: u64,
        len: u64,
        buffer: Name,
        offset: u64,
        read_only: bool,
    },
    /// `zero ADDR LEN`: `len` bytes from `addr` on show zeros. With ` ro` at its end they are
    /// read-only.
    Zero {
        addr: u64,
        len: u64,
        read_only: bool,
    },
    /// `unmap ADDR LEN`: `len` bytes from `addr` on show nothing.
    Unmap {
        addr: u64,
        len: u64,
    },
    /// `unmapall NAME`: where the buffer is shown, nothing is.
    UnmapAll {
        buffer: Name,
    },
}

/// The operation of a plan line.
pub fn planned_operation(mut words: Words<'_>) -> Option<Operation>
    ensures { result ≡ planned_operation words.entry }
{
    range_operation(words.take_word()?, words)
}

/// The operation on a range of addresses that begins with this word. Inlined, as what it calls is: a value of this size isn't
/// copied from call to call.
#[inline(always)]
pub fn range_operation(first: &[u8], more: Words<'_>) -> Option<Operation>
    ensures { result ≡ range_operation first.now more.entry }
{
    if is_word(first, b"map") {
        map_operation(more)
    } else if is_word(first, b"zero") {
        zero_operation(more)
    } else if is_word(first, b"unmap") {
        unmap_operation(more)
    } else {
        None
    }
}

#[inline(always)]
fn map_operation(mut words: Words<'_>) -> Option<Operation>
    ensures { result ≡ map_operation words.entry }
{
    let addr = words.take_number()?;
    let len = words.take_number()?;
    let buffer = words.take_name()?;
    let offset = words.take_number()?;
    let read_only = read_only_end(words)?;
    Some(Operation::Map {
        addr,
        len,
        buffer,
        offset,
        read_only,
    })
}

#[inline(always)]
fn zero_operation(mut words: Words<'_>) -> Option<Operation>
    ensures { result ≡ zero_operation words.entry }
{
    let addr = words.take_number()?;
    let len = words.take_number()?;
    let read_only = read_only_end(words)?;
    Some(Operation::Zero {
        addr,
        len,
        read_only,
    })
}

#[inline(always)]
fn unmap_operation(mut words: Words<'_>) -> Option<Operation>
    ensures { result ≡ unmap_operation words.entry }
{
    let addr = words.take_number()?;
    let len = words.take_number()?;
    words.is_done().then_some(Operation::Unmap { addr, len })
}

/// The operation behind the word `unmapall`.
pub fn unmapall_operation(mut words: Words<'_>) -> Option<Operation>
    ensures { result ≡ unmapall_operation words.entry }
{
    let buffer = words.take_name()?;
    words.is_done().then_some(Operation::UnmapAll { buffer })
}

// Whether `ro` is left, where nothing else may be.
fn read_only_end(mut words: Words<'_>) -> Option<bool>
    ensures { result ≡ read_only_end words.entry }
{
    match words.take_word() {
        None => Some(false),
        Some(word) => (is_word(word, b"ro") && words.is_done()).then_some(true),
    }
}
