//! Shows on a terminal how far the reading of a file or of standard input is.
ghost use Rattle.std.specs.Prelude.{◌≡◌};

use crate::fault::ProgramFault;
use crate::files::read_all;
use gv_text::{ReadFault, Source};
use std::alloc::Global;
use std::rt::{Clock, Files};
use std::{fmt, fs};

/// It is told from so many milliseconds on, and so many apart.
const FIRST: u64 = 1_000;

const APART: u64 = 500;

/// What takes away a line of a terminal.
const WIPE: &str = "\r\x1b[K";

/// Tells how far the reading is on standard error, if that is a terminal and quiet isn't asked for.
#[derive(Drop)]
pub struct ProgressReporter<'a, R> {
    rt: &'a R,
    is_shown: bool,
}

impl<'a, R: Eprint + Clock> ProgressReporter<'a, R> {
    pub fn new(rt: &'a R, is_shown: bool) -> ProgressReporter<'a, R> {
        ProgressReporter { rt, is_shown }
    }

    /// How many bytes a file has, where it is told and known.
    pub fn len_if_shown<T: Files>(&self, files: &T, path: &str) -> Option<u64> {
        if !self.is_shown {
            return None;
        }
        let len = fs::metadata(files, path).ok()?.len();
        (len > 0).then_some(len)
    }

    /// The same source, of so many bytes where that is known, whose reads are told. It is to be finished.
    pub fn reported<'s, S: Source>(
        &self,
        source: &'s mut S,
        of: Option<u64>,
    ) -> ReportedSource<'a, 's, R, S> {
        let began = if self.is_shown {
            time_of(self.rt)
        } else {
            None
        };
        ReportedSource {
            rt: self.rt,
            source,
            progress: Progress {
                lines: 0,
                bytes: 0,
                of,
                rate: 0,
            },
            began,
            told: None,
            has_failed: false,
        }
    }

    /// All that a source gives, of so many bytes where that is known.
    pub fn read_all<S: Source>(
        &self,
        alloc: Global,
        source: &mut S,
        of: Option<u64>,
    ) -> Result<Vec<u8>, ProgramFault> {
        let mut reported_source = self.reported(source, of);
        let bytes = read_all(alloc, &mut reported_source);
        reported_source.finish();
        bytes
    }
}

/// The milliseconds of a clock, where it can be read.
fn time_of<R: Clock>(rt: &R) -> Option<u64> {
    let time = rt.monotonic().ok()?;
    let whole = time.as_secs().saturating_mul(1_000);
    Some(whole.saturating_add(u64::from(time.subsec_millis())))
}

/// How far it is: the lines and bytes that were read, of how many bytes where that is known, and the lines a second.
#[derive(Clone, Copy, Debug, Drop, PartialEq, Eq)]
struct Progress {
    lines: u64,
    bytes: u64,
    of: Option<u64>,
    rate: u64,
}

impl fmt::Display for Progress {
    fn fmt<W: fmt::Write>(&self, f: &mut fmt::Formatter<W>) -> fmt::Result {
        let (lines, bytes, rate) = (self.lines, self.bytes, self.rate);
        write!(f, "{WIPE}{lines} lines, {bytes} ")?;
        if let Some(of) = self.of {
            write!(f, "of {of} ")?;
        }
        write!(f, "bytes, {rate} lines a second")
    }
}

/// A source whose reads are told. Where nobody is there, the clock isn't read.
#[derive(Drop)]
pub struct ReportedSource<'a, 's, R, S> {
    rt: &'a R,
    source: &'s mut S,
    progress: Progress,
    /// When the reading began, if it is told, and when it was told last.
    began: Option<u64>,
    told: Option<u64>,
    has_failed: bool,
}

impl<'a, 's, R: Eprint + Clock, S: Source> ReportedSource<'a, 's, R, S> {
    /// Takes away what was told, where it isn't yet.
    pub fn finish(self) {
        let mut reported_source = self;
        reported_source.end();
    }

    /// Takes away what was told, so that what comes to be written stands alone, and tells no more.
    fn end(&mut self)
        ensures { self.new.has_failed ≡ self.old.has_failed }
    {
        self.began = None;
        if self.told.take().is_some() {
            let _ = self.rt.eprint(WIPE);
        }
    }

    /// Counts what was read.
    fn count(&mut self, bytes: &[u8])
        ensures { self.new.has_failed ≡ self.old.has_failed }
    {
        let lines = bytes.iter().filter(|byte| **byte == b'\n').count() as u64;
        self.progress.lines = self.progress.lines.saturating_add(lines);
        self.progress.bytes = self.progress.bytes.saturating_add(bytes.len() as u64);
    }

    /// Tells how far it is, if it is time.
    fn tell(&mut self, began: u64)
        ensures { self.new.has_failed ≡ self.old.has_failed }
    {
        let Some(now) = time_of(self.rt) else {
            return;
        };
        let passed = now.saturating_sub(began);
        let is_early = match self.told {
            Some(told) => now.saturating_sub(told) < APART,
            None => passed < FIRST,
        };
        if is_early {
            return;
        }
        let lines = self.progress.lines.saturating_mul(1_000);
        self.progress.rate = lines.checked_div(passed).unwrap_or(0);
        self.told = Some(now);
        let _ = self.rt.eprint(self.progress);
    }
}

impl<'a, 's, R: Eprint + Clock, S: Source> Source for ReportedSource<'a, 's, R, S> {
    ghost use Rattle.std.specs.Prelude.{None};

    ghost remaining = { λ _. None };

    ghost failed = { λ source. source.has_failed };

    ghost reads = { λ _. 0 };

    ghost fails = { λ _ _. Unit {0} };

    fn read(&mut self, buffer: &mut [u8]) -> Result<usize, ReadFault> {
        let Ok(count) = self.source.read(buffer) else {
            self.has_failed = true;
            return Err(ReadFault);
        };
        if count == 0 {
            self.end();
        } else if let Some(began) = self.began {
            self.count(buffer.get(..count).unwrap_or(&[]));
            self.tell(began);
        }
        Ok(count)
    }
}
