//! Devices that fail.

use crate::logs::told::terms_of;
use gv_replay::{ReplayFault, replay};
use gv_text::{MemorySink, MemorySource, ReadSource, WriteSink};
use std::io;
use std::io::{Read, Write};

/// Words that ask for each form.
const WORDS: &[&str] = &["", "--script", "--json"];

const MADE: &[u8] =
    b"timestamp=1, VA=0000000000010000-0000000000030000, destroyed=0, is_virtual=0\n";

/// A reader that gives a line and then fails.
#[derive(Drop)]
struct Cut {
    rest: &'static [u8],
}

impl Read for Cut {
    fn read(&mut self, buffer: &mut [u8]) -> io::Result<usize> {
        let count = self.rest.len().min(buffer.len());
        if count == 0 {
            return Err(io::Error::other("cut"));
        }
        let (given, rest) = self.rest.split_at(count);
        buffer[..count].copy_from_slice(given);
        self.rest = rest;
        Ok(count)
    }
}

/// A writer that takes nothing.
#[derive(Drop)]
struct Stuck;

impl Write for Stuck {
    fn write(&mut self, _bytes: &[u8]) -> io::Result<usize> {
        Ok(0)
    }

    fn flush(&mut self) -> io::Result<()> {
        Ok(())
    }
}

#[test]
fn a_failed_read_is_told(rt: HostRuntime) {
    let mut source = ReadSource::new(Cut { rest: MADE });
    let mut sink = MemorySink::new(rt.alloc());
    let terms = terms_of("--format radv", &[]);
    let played = replay(rt.alloc(), &mut source, &mut sink, &terms);
    assert!(rt; played == Err(ReplayFault::ReadFault) && sink.bytes().is_empty());
}

#[test]
fn a_failed_write_is_told(rt: HostRuntime) {
    for words in WORDS {
        let mut sink = WriteSink::new(Stuck);
        let mut source = MemorySource::new(MADE);
        let played = replay(rt.alloc(), &mut source, &mut sink, &terms_of(words, &[]));
        assert!(rt; played == Err(ReplayFault::WriteFault), "{words}");
    }
}
