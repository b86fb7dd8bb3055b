//! Scripts and replies in memory.
ghost use Rattle.std.specs.Prelude.{◌≡◌, ◌+◌, ◌≤◌, ◌<◌, ◌++◌, Bool, true, false, length, vec_len, vec_capacity, Some, [], IsOk};

use crate::device::{ReadFault, Sink, Source, WriteFault};
use std::alloc::{AllocError, Global};

/// A script in memory, which never fails.
#[derive(Drop)]
pub struct MemorySource<'a> {
    rest: &'a [u8],
}

impl<'a> MemorySource<'a> {
    pub fn new(script: &'a [u8]) -> Self
        ensures { result.rest.now ≡ script.entry.now }
    {
        MemorySource { rest: script }
    }
}

impl<'a> Source for MemorySource<'a> {
    ghost remaining = { λ source. Some source.rest.now };

    ghost failed = { λ _. false };

    ghost reads = { λ _. 0 };

    ghost fails = { λ _ _. ⊥ };

    fn read(&mut self, buffer: &mut [u8]) -> Result<usize, ReadFault> {
        let count = self.rest.len().min(buffer.len());
        let (given, rest) = self.rest.split_at(count);
        buffer[..count].copy_from_slice(given);
        self.rest = rest;
        Ok(count)
    }
}

/// Replies kept in memory. A write fails only where there is no room for its bytes, and memory for more is refused.
#[derive(Drop)]
pub struct MemorySink {
    bytes: Vec<u8>,
    failed: bool,
}

impl MemorySink {
    pub fn new(alloc: Global) -> Self
        ensures empty { result.bytes.items ≡ [] }
        ensures whole { result.failed ≡ false }
    {
        MemorySink {
            bytes: Vec::new(alloc),
            failed: false,
        }
    }

    pub fn bytes(&self) -> &[u8]
        ensures { result.now ≡ self.now.bytes.items }
    {
        self.bytes.as_slice()
    }
}

impl Sink for MemorySink {
    ghost written = { λ sink. Some sink.bytes.items };

    ghost failed = { λ sink. sink.failed };

    // There is no room for the bytes.
    ghost fails = { λ sink bytes _. vec_capacity sink.bytes < vec_len sink.bytes + length bytes };

    fn write(&mut self, bytes: &[u8]) -> Result<usize, WriteFault> {
        if self.bytes.extend_from_slice(bytes).is_err() {
            self.failed = true;
            return Err(WriteFault);
        }
        Ok(bytes.len())
    }
}
