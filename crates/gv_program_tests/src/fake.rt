//! A runtime over memory, which keeps what the program writes.

use std::alloc::{Allocator, Global};
use std::cell::{Cell, RefCell};
use std::env::FillError;
use std::fmt::Display;
use std::io;
use std::io::{BufRead, ErrorKind, Lines, Read};
use std::rt::{Clock, Env};
use std::time::Duration;

/// A word of the command line that is no text: the byte 0xff.
pub const NO_TEXT: &str = "\u{ff}";

/// A stream that gives these bytes, or one of which each read fails.
#[derive(Clone, Copy)]
pub struct Stream<'a> {
    pub rest: &'a [u8],
    pub is_broken: bool,
}

impl Read for Stream<'_> {
    fn read(&mut self, buf: &mut [u8]) -> io::Result<usize> {
        if self.is_broken {
            return Err(io::Error::from(ErrorKind::Other));
        }
        let count = self.rest.len().min(buf.len());
        let (given, remaining) = self.rest.split_at(count);
        buf[..count].copy_from_slice(given);
        self.rest = remaining;
        Ok(count)
    }
}

impl BufRead for Stream<'_> {
    fn fill_buf(&mut self) -> io::Result<&[u8]> {
        if self.is_broken {
            return Err(io::Error::from(ErrorKind::Other));
        }
        Ok(self.rest)
    }

    fn consume(&mut self, amount: usize) {
        self.rest = self.rest.get(amount..).unwrap_or(&[]);
    }
}

/// The program's words, its input and what it has written. Each look at the clock is so many milliseconds after the one before.
#[derive(Drop)]
pub struct Fake<'a> {
    pub alloc: Global,
    pub words: &'a str,
    pub input: Stream<'a>,
    pub failure: Option<ErrorKind>,
    pub pace: u64,
    pub looks: Cell<u64>,
    pub output: RefCell<Vec<u8>>,
    pub errors: RefCell<Vec<u8>>,
}

fn append(kept: &RefCell<Vec<u8>>, bytes: &[u8]) -> io::Result<()> {
    match kept.try_borrow_mut() {
        Ok(mut kept) => Ok(kept.extend_from_slice(bytes)?),
        Err(_) => Err(io::Error::from(ErrorKind::Other)),
    }
}

impl Alloc for Fake<'_> {
    type A = Global;

    fn alloc(&self) -> Global {
        self.alloc
    }
}

impl Clock for Fake<'_> {
    fn monotonic(&self) -> io::Result<Duration> {
        let looks = self.looks.get();
        self.looks.set(looks.wrapping_add(1));
        Ok(Duration::from_millis(looks.wrapping_mul(self.pace)))
    }

    fn since_1970(&self) -> io::Result<Duration> {
        Err(io::Error::from(ErrorKind::Unsupported))
    }
}

impl Env for Fake<'_> {
    fn arg(&self, i: usize, buf: &mut [u8]) -> Result<usize, FillError> {
        let Some(word) = self.words.split(' ').nth(i) else {
            return Err(FillError::NotPresent);
        };
        let bytes = if word == NO_TEXT {
            b"\xff"
        } else {
            word.as_bytes()
        };
        if bytes.len() > buf.len() {
            return Err(FillError::TooLong);
        }
        buf[..bytes.len()].copy_from_slice(bytes);
        Ok(bytes.len())
    }

    fn var(&self, _name: &str, _buf: &mut [u8]) -> Result<usize, FillError> {
        Err(FillError::NotPresent)
    }

    fn var_at(&self, _i: usize, _buf: &mut [u8]) -> Result<usize, FillError> {
        Err(FillError::NotPresent)
    }
}

impl<'a> Input for Fake<'a> {
    type Reader = Stream<'a>;

    fn read_line<A: Allocator + Clone>(&self, buf: &mut String<A>) -> io::Result<usize> {
        self.reader().read_line(buf)
    }

    fn lines<A: Allocator>(&self, alloc: A) -> Lines<Stream<'a>, A> {
        self.reader().lines(alloc)
    }

    fn reader(&self) -> Stream<'a> {
        self.input
    }
}

impl Print for Fake<'_> {
    fn print<D: Display + Drop>(&self, value: D) -> io::Result<()> {
        self.write_all(value.to_string(self.alloc)?.as_bytes())
    }

    fn println<D: Display + Drop>(&self, value: D) -> io::Result<()> {
        self.print(value)?;
        self.write_all(b"\n")
    }

    fn write_all(&self, bytes: &[u8]) -> io::Result<()> {
        match self.failure {
            None => append(&self.output, bytes),
            Some(kind) => Err(io::Error::from(kind)),
        }
    }
}

impl Eprint for Fake<'_> {
    fn eprint<D: Display + Drop>(&self, value: D) -> io::Result<()> {
        append(&self.errors, value.to_string(self.alloc)?.as_bytes())
    }

    fn eprintln<D: Display + Drop>(&self, value: D) -> io::Result<()> {
        self.eprint(value)?;
        append(&self.errors, b"\n")
    }
}
