//! A log read line by line.

use crate::fault::LogFault;
use gv_io::Source;
use gv_lines::split_once;
use std::alloc::{AllocError, Global};

/// A line has at most so many bytes; a longer one is passed over and not kept.
pub const LINE_LIMIT: usize = 65_536;

/// One read gives at most so many bytes.
const CHUNK_LEN: usize = 65_536;

/// What comes next in a log.
#[derive(Clone, Copy, Debug, PartialEq, Eq)]
pub enum Found {
    Line,
    TooLong,
    End,
}

/// The bytes that were read and not yet looked at, and the last line.
#[derive(Drop)]
pub struct LineReader {
    chunk: Vec<u8>,
    at: usize,
    end: usize,
    line: Vec<u8>,
}

impl LineReader {
    pub fn new(alloc: Global) -> Result<LineReader, AllocError> {
        Ok(LineReader {
            chunk: vec![in alloc; 0u8; CHUNK_LEN]?,
            at: 0,
            end: 0,
            line: Vec::new(alloc),
        })
    }

    /// The last line that was found, without its end.
    pub fn line(&self) -> &[u8] {
        self.line.as_slice()
    }

    /// Finds the next line. One without an end, at the end of the log, is a line too.
    pub fn find_next<R: Source>(&mut self, reader: &mut R) -> Result<Found, LogFault> {
        self.line.clear();
        let mut found = Found::End;
        for _parts in 0..u64::MAX {
            if self.at >= self.end && !self.fill(reader)? {
                return Ok(found);
            }
            let (kind, is_ended) = self.take_part(found)?;
            found = kind;
            if is_ended {
                return Ok(found);
            }
        }
        Ok(found)
    }

    /// Reads on. Whether anything was there to read.
    fn fill<R: Source>(&mut self, reader: &mut R) -> Result<bool, LogFault> {
        if self.chunk.is_empty() {
            return Ok(false);
        }
        self.at = 0;
        self.end = 0;
        let count = reader.read(&mut self.chunk)?;
        self.end = count.min(self.chunk.len());
        Ok(self.end > 0)
    }

    /// Adds what was read of the line, unless it grows too long. What is found so far, and whether the line ends there.
    fn take_part(&mut self, before: Found) -> Result<(Found, bool), AllocError> {
        let rest = self.chunk.get(self.at..self.end).unwrap_or(&[]);
        let (part, is_ended) = match split_once(rest, b'\n') {
            Some((part, _)) => (part, true),
            None => (rest, false),
        };
        let len = part.len();
        let is_long = before == Found::TooLong || self.line.len().saturating_add(len) > LINE_LIMIT;
        if !is_long {
            self.line.extend_from_slice(part)?;
        }
        let step = len.saturating_add(usize::from(is_ended));
        self.at = self.at.saturating_add(step).min(self.end);
        let found = if is_long { Found::TooLong } else { Found::Line };
        Ok((found, is_ended))
    }
}
