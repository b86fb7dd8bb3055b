//! Devices that fail, and that give and take so many bytes a call.

use gv_text::{ReadFault, Sink, Source, WriteFault};

/// How many bytes a read gives and a write takes, and how many of each go well.
#[derive(Clone, Copy)]
pub struct Devices {
    pub given: usize,
    pub taken: usize,
    pub reads: usize,
    pub writes: usize,
}

/// Devices that give and take all there is, and never fail.
pub const WHOLE: Devices = Devices {
    given: usize::MAX,
    taken: usize::MAX,
    reads: usize::MAX,
    writes: usize::MAX,
};

/// Input that comes so many bytes a read. The read after `calls_remaining` of them fails.
#[derive(Drop)]
pub struct FailingSource<'a> {
    pub rest: &'a [u8],
    pub step: usize,
    pub calls_remaining: usize,
    pub failed: bool,
}

impl<'a> Source for FailingSource<'a> {
    ghost use Rattle.std.specs.Prelude.{None};

    ghost remaining = { λ _. None };

    ghost failed = { λ source. source.failed };

    ghost reads = { λ _. 0 };

    ghost fails = { λ _ _. Unit {0} };

    fn read(&mut self, buffer: &mut [u8]) -> Result<usize, ReadFault> {
        if self.calls_remaining == 0 {
            self.failed = true;
            return Err(ReadFault);
        }
        self.calls_remaining -= 1;
        let count = self.rest.len().min(self.step).min(buffer.len());
        let (given, rest) = self.rest.split_at(count);
        buffer[..count].copy_from_slice(given);
        self.rest = rest;
        Ok(count)
    }
}

/// Replies in memory, so many bytes a write. The write after `calls_remaining` of them fails.
#[derive(Drop)]
pub struct FailingSink {
    pub bytes: Vec<u8>,
    pub step: usize,
    pub calls_remaining: usize,
    pub failed: bool,
}

impl Sink for FailingSink {
    ghost use Rattle.std.specs.Prelude.{None};

    ghost written = { λ _. None };

    ghost failed = { λ sink. sink.failed };

    ghost fails = { λ _ _ _. Unit {0} };

    fn write(&mut self, bytes: &[u8]) -> Result<usize, WriteFault> {
        let count = bytes.len().min(self.step.max(1));
        if self.calls_remaining == 0 || self.bytes.extend_from_slice(&bytes[..count]).is_err() {
            self.failed = true;
            return Err(WriteFault);
        }
        self.calls_remaining -= 1;
        Ok(count)
    }
}
