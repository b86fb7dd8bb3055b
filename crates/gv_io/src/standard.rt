//! Readers and writers of the standard library as devices.
ghost use Rattle.std.specs.Prelude.{◌≡◌, ◌≢◌, ◌≤◌, ◌<◌, ◌⊎◌, ℕ, List, Bool, true, false, Option, Result, Ok, Err, IfOk, length};
ghost use Rattle.std.specs.Io.KnownBytes.{ReadConsumes, WriteAppends};
ghost use Rattle.std.specs.IoError.{error_kind};
ghost use Rattle.std.specs.declared.io.Error.{Error};
ghost use Rattle.std.specs.declared.io.ErrorKind.TheVariants as stream;

use crate::device::{ReadFault, Sink, Source, WriteFault};
use std::io;
use std::io::{Read, Write};

/// A reader of the standard library. Contracts see each call: what it finds, what it answers and what it leaves.
pub trait ReadCalls {
    // The bytes that reads will give from here on, where they are known.
    ghost remaining: { Self → Option (List ℕ) };

    // A call may find the first, answer the second and leave the third.
    ghost answers: { Self → Result ℕ Error → Self → Type 0 };

    fn call(&mut self, buffer: &mut [u8]) -> io::Result<usize>
        ensures bound { IfOk result (λ count. count ≤ length buffer.new) }
        ensures bytes { ReadConsumes (remaining self.old) (remaining self.new) result buffer.new }
        ensures answer { answers self.old result self.new };
}

impl<R: Read> ReadCalls for R {
    ghost remaining = { R.remaining };

    ghost answers = { λ _ _ _. Unit {0} };

    fn call(&mut self, buffer: &mut [u8]) -> io::Result<usize> {
        self.read(buffer)
    }
}

/// A reader, and whether it has failed: a read fails only where the reader's own call did.
#[derive(Drop)]
pub struct ReadSource<R: ReadCalls> {
    reader: R,
    failed: bool,
}

impl<R: ReadCalls> ReadSource<R> {
    pub fn new(reader: R) -> Self
        ensures reader { result.reader ≡ reader }
        ensures whole { result.failed ≡ false }
    {
        ReadSource {
            reader,
            failed: false,
        }
    }
}

impl<R: ReadCalls> Source for ReadSource<R> {
    ghost remaining = { λ source. R.remaining source.reader };

    ghost failed = { λ source. source.failed };

    ghost reads = { λ _. 0 };

    // The reader's own call answered an error.
    ghost fails = { λ old new. (error : Error) × R.answers old.reader (Err error) new.reader };

    fn read(&mut self, buffer: &mut [u8]) -> Result<usize, ReadFault> {
        match self.reader.call(buffer) {
            Ok(count) => Ok(count),
            Err(_) => {
                self.failed = true;
                Err(ReadFault)
            }
        }
    }
}

/// A writer of the standard library. Contracts see each call: what it finds, what it answers and what it leaves.
pub trait WriteCalls {
    // The bytes that were written, where they are known.
    ghost contents: { Self → Option (List ℕ) };

    // A call with these bytes may find the first, answer the third and leave the last.
    ghost answers: { Self → List ℕ → Result ℕ Error → Self → Type 0 };

    fn call(&mut self, bytes: &[u8]) -> io::Result<usize>
        ensures bound { IfOk result (λ count. count ≤ length bytes.now) }
        ensures bytes { WriteAppends (contents self.old) (contents self.new) result bytes.now }
        ensures answer { answers self.old bytes.now result self.new };
}

impl<W: Write> WriteCalls for W {
    ghost contents = { W.contents };

    ghost answers = { λ _ _ _ _. Unit {0} };

    fn call(&mut self, bytes: &[u8]) -> io::Result<usize> {
        self.write(bytes)
    }
}

/// A writer that remembers whether its reader has gone.
pub trait Pipe {
    // Whether the last write that failed found its reader gone.
    ghost closed: { Self → Bool };

    /// Whether the last write that failed found its reader gone.
    fn is_closed(&self) -> bool
        ensures { result ≡ closed self.now };
}

/// A writer, and whether it has failed: a write fails only where the writer's own call did, or took nothing. It is closed where that
/// call found the other end of a pipe closed.
#[derive(Drop)]
pub struct WriteSink<W: WriteCalls> {
    writer: W,
    failed: bool,
    closed: bool,
}

impl<W: WriteCalls> WriteSink<W> {
    pub fn new(writer: W) -> Self
        ensures writer { result.writer ≡ writer }
        ensures whole { result.failed ≡ false }
        ensures open { result.closed ≡ false }
    {
        WriteSink {
            writer,
            failed: false,
            closed: false,
        }
    }
}

impl<W: WriteCalls> Sink for WriteSink<W> {
    ghost written = { λ sink. W.contents sink.writer };

    ghost failed = { λ sink. sink.failed };

    // The writer's own call answered an error, which tells whether it is closed, or took nothing.
    ghost fails = { λ old bytes new. ((error : Error) × W.answers old.writer bytes (Err error) new.writer
        × (error_kind error ≡ stream.BrokenPipe → new.closed ≡ true)
        × (error_kind error ≢ stream.BrokenPipe → new.closed ≡ false))
        ⊎ W.answers old.writer bytes (Ok 0) new.writer };

    fn write(&mut self, bytes: &[u8]) -> Result<usize, WriteFault> {
        match self.writer.call(bytes) {
            Ok(count) if 0 < count => return Ok(count),
            Ok(_) => {}
            Err(error) => self.closed = is_broken_pipe(&error),
        }
        self.failed = true;
        Err(WriteFault)
    }
}

impl<W: WriteCalls> Pipe for WriteSink<W> {
    ghost closed = { λ sink. sink.closed };

    fn is_closed(&self) -> bool {
        self.closed
    }
}

/// Whether a write failed since the other end of a pipe is closed.
pub fn is_broken_pipe(error: &io::Error) -> bool
    ensures yes { error_kind error.now ≡ stream.BrokenPipe → result ≡ true }
    ensures no { error_kind error.now ≢ stream.BrokenPipe → result ≡ false }
{
    match error.kind() {
        io::ErrorKind::BrokenPipe => true,
        _ => false,
    }
}
