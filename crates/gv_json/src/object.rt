//! A line of JSON that is being written.
ghost use Rattle.std.specs.Prelude.{◌≡◌, []};

use std::alloc::{AllocError, Global};
use std::fmt::Write;
use std::str::from_utf8;

/// The text so far, and room for an address in digits.
#[derive(Drop)]
pub struct Json {
    out: json::Writer,
    digits: String,
    ghost alone: { out.before ≡ [] },
}

impl Json {
    /// An object that is the reply to the line of this number.
    pub(crate) fn new(alloc: Global, line: u64) -> Result<Json, AllocError> {
        let mut json = Json::open(alloc)?;
        json.number("line", line)?;
        Ok(json)
    }

    /// An object with no member yet.
    pub fn open(alloc: Global) -> Result<Json, AllocError> {
        let mut json = Json {
            out: json::Writer::new(Vec::new(alloc)),
            digits: String::new(alloc),
        };
        json.open_object()?;
        Ok(json)
    }

    /// Closes the object, and adds it to `out` with its line end. On an error `out` is as before.
    pub fn finish(mut self, out: &mut String) -> Result<(), AllocError> {
        self.close_object()?;
        let Json { out: writer, .. } = self;
        let bytes = writer.into_inner();
        out.reserve(bytes.len().saturating_add(1))?;
        out.push_str(from_utf8(&bytes).unwrap())?;
        out.push('\n')
    }

    /// The key of the member that comes next.
    pub fn key(&mut self, key: &str) -> Result<(), AllocError> {
        self.out.key(key)
    }

    pub fn open_object(&mut self) -> Result<(), AllocError> {
        self.out.begin_object()
    }

    pub fn close_object(&mut self) -> Result<(), AllocError> {
        self.out.end_object()
    }

    pub fn open_list(&mut self) -> Result<(), AllocError> {
        self.out.begin_array()
    }

    pub fn close_list(&mut self) -> Result<(), AllocError> {
        self.out.end_array()
    }

    pub fn null(&mut self) -> Result<(), AllocError> {
        self.out.null()
    }

    /// A number of a list.
    pub fn item(&mut self, number: u64) -> Result<(), AllocError> {
        self.out.u64(number)
    }

    pub fn number(&mut self, key: &str, number: u64) -> Result<(), AllocError> {
        self.out.key(key)?;
        self.out.u64(number)
    }

    pub fn text(&mut self, key: &str, text: &str) -> Result<(), AllocError> {
        self.out.key(key)?;
        self.out.string(text)
    }

    pub fn flag(&mut self, key: &str, is_set: bool) -> Result<(), AllocError> {
        self.out.key(key)?;
        self.out.boolean(is_set)
    }

    /// An address, an offset or a length in bytes: text in hexadecimal, since a reader may keep numbers as floats.
    pub fn address(&mut self, key: &str, address: u64) -> Result<(), AllocError> {
        self.digits.clear();
        write!(self.digits, "0x{address:x}")?;
        self.out.key(key)?;
        self.out.string(self.digits.as_str())
    }
}
