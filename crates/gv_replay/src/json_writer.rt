//! Operations, moments and occurrences as members of JSON.

use crate::act::{Act, Moment};
use crate::occurrence::{Digits, Field, Head, Occurrence};
use crate::text::{write_buffer, write_op, write_time};
use gv_json::Json;
use gv_types::{BufferId, Fault, Op};
use gv_vm::{Place as Reached, Target};
use std::alloc::{AllocError, Global};

/// An object that is being written, and room for a text.
#[derive(Drop)]
pub struct JsonWriter {
    pub json: Json,
    text: String,
}

impl JsonWriter {
    /// An object with no member yet.
    pub fn new(alloc: Global) -> Result<JsonWriter, AllocError> {
        Ok(JsonWriter {
            json: Json::open(alloc)?,
            text: String::new(alloc),
        })
    }

    /// Closes the object, and adds it to `out` with its line end.
    pub fn finish(self, out: &mut String) -> Result<(), AllocError> {
        let JsonWriter { json, text: _ } = self;
        json.finish(out)
    }

    /// The members of a line: its number, and its time where it has one.
    fn moment(&mut self, moment: Moment) -> Result<(), AllocError> {
        self.json.number("line", moment.line)?;
        if let Some(time) = moment.time {
            self.text.clear();
            write_time(&mut self.text, time)?;
            self.json.text("time", self.text.as_str())?;
        }
        Ok(())
    }

    /// The members of an operation: when it was, what it was, and why.
    pub fn act(&mut self, act: &Act) -> Result<(), AllocError> {
        self.moment(act.moment)?;
        self.op(&act.op)?;
        match act.cause.words() {
            Some(words) => self.json.text("cause", words),
            None => Ok(()),
        }
    }

    fn op(&mut self, op: &Op) -> Result<(), AllocError> {
        self.text.clear();
        write_op(&mut self.text, op)?;
        self.json.text("op", self.text.as_str())
    }

    fn buffer(&mut self, id: &BufferId) -> Result<(), AllocError> {
        self.text.clear();
        write_buffer(&mut self.text, id)?;
        self.json.text("buffer", self.text.as_str())
    }

    fn fault(&mut self, fault: Fault) -> Result<(), AllocError> {
        self.json.text("fault", fault.name())?;
        match fault.carried() {
            Some(number) => self.json.number("number", number),
            None => Ok(()),
        }
    }

    /// Opens a list under a key.
    pub fn open_list(&mut self, key: &str) -> Result<(), AllocError> {
        self.json.key(key)?;
        self.json.open_list()
    }

    /// What an address reaches, in bytes of its buffer: an object, or null.
    pub fn reached(&mut self, key: &str, reached: &Option<Reached>) -> Result<(), AllocError> {
        self.json.key(key)?;
        match reached {
            Some(reached) => self.object(reached),
            None => self.json.null(),
        }
    }

    fn object(&mut self, reached: &Reached) -> Result<(), AllocError> {
        self.json.open_object()?;
        self.target(&reached.target)?;
        self.json.flag("ro", reached.flags.read_only)?;
        self.json.close_object()
    }

    fn target(&mut self, target: &Target) -> Result<(), AllocError> {
        match target {
            Target::Buffer { id, byte } => {
                self.buffer(id)?;
                self.json.address("offset", *byte)
            }
            Target::Zero => self.json.flag("zero", true),
        }
    }

    /// Where a finding was made: an object.
    pub fn occurrence(&mut self, occurrence: &Occurrence) -> Result<(), AllocError> {
        self.json.open_object()?;
        self.occurrence_members(occurrence)?;
        self.json.close_object()
    }

    fn occurrence_members(&mut self, occurrence: &Occurrence) -> Result<(), AllocError> {
        self.head(&occurrence.head)?;
        for (field, number) in occurrence.kind.fields().iter().zip(&occurrence.numbers) {
            self.field(field, *number)?;
        }
        match occurrence.fault {
            Some(fault) => self.fault(fault),
            None => Ok(()),
        }
    }

    fn head(&mut self, head: &Head) -> Result<(), AllocError> {
        match head {
            Head::Act { act } => self.act(act),
            Head::Moment { moment } => self.moment(*moment),
            Head::Buffer { moment, buffer } => {
                self.moment(*moment)?;
                self.buffer(buffer)
            }
        }
    }

    fn field(&mut self, field: &Field, number: u64) -> Result<(), AllocError> {
        match field.digits {
            Digits::Hex => self.json.address(field.key, number),
            Digits::Decimal | Digits::Counted => self.json.number(field.key, number),
        }
    }
}
