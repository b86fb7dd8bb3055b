//! A log's operations as a script.

use crate::act::Act;
use crate::fault::ReplayFault;
use crate::text::write_op;
use crate::watcher::Watcher;
use gv_io::{Output, SCRIPT_LIMIT, Sink, write_all};
use gv_space::Space;
use gv_types::{Fault, MAX_TOLD, Op, PageOp};
use gv_vm::QUEUES;
use std::alloc::{AllocError, Global};
use std::fmt::Write;

/// What stands before a script that `run` doesn't take.
const TOO_LONG: &[u8] = b"# more bytes than vmbind run takes: for vmbind serve\n";

/// What stands before the first request for which no queue is left.
const TOO_MANY: &str = "# from here on more requests than the queues take\n";

/// Writes each step as a line of a script. Its front is kept until it is known to be too long, or at its end.
#[derive(Drop)]
pub struct ScriptWriter<'a, W: Sink> {
    sink: &'a mut W,
    front: Vec<u8>,
    is_long: bool,
    output: Output,
    text: String,
    requests: u64,
}

impl<'a, W: Sink> ScriptWriter<'a, W> {
    pub fn new(alloc: Global, sink: &'a mut W) -> ScriptWriter<'a, W> {
        ScriptWriter {
            sink,
            front: Vec::new(alloc),
            is_long: false,
            output: Output::new(alloc),
            text: String::new(alloc),
            requests: 0,
        }
    }

    /// Sends the line that was written on its way.
    fn send(&mut self) -> Result<(), ReplayFault> {
        if !self.is_long && SCRIPT_LIMIT.saturating_sub(self.front.len()) < self.text.len() {
            self.let_front_go()?;
        }
        if self.is_long {
            self.output.push(self.sink, self.text.as_bytes())?;
        } else {
            self.front.extend_from_slice(self.text.as_bytes())?;
        }
        self.text.clear();
        Ok(())
    }

    /// The script is too long: its front is written.
    fn let_front_go(&mut self) -> Result<(), ReplayFault> {
        self.is_long = true;
        write_all(self.sink, TOO_LONG)?;
        write_all(self.sink, &self.front)?;
        self.front.clear();
        Ok(())
    }

    /// Writes what is left.
    pub fn finish(&mut self) -> Result<(), ReplayFault> {
        write_all(self.sink, &self.front)?;
        self.front.clear();
        self.output.flush(self.sink)?;
        Ok(())
    }

    /// Writes a request. Each queue takes its limit of them, one after another.
    fn write_request(&mut self, act: &Act) -> Result<(), AllocError> {
        let queue = self.requests / MAX_TOLD;
        if self.requests == MAX_TOLD * QUEUES as u64 {
            self.text.push_str(TOO_MANY)?;
        }
        self.requests = self.requests.saturating_add(1);
        write_bind(&mut self.text, &act.op, queue)
    }
}

impl<'a, W: Sink> Watcher for ScriptWriter<'a, W> {
    fn made(&mut self, buffer: u64, pages: u64) -> Result<(), ReplayFault> {
        writeln!(self.text, "buffer b{buffer} {pages}")?;
        self.send()
    }

    fn bound(
        &mut self,
        act: &Act,
        _refused: Option<Fault>,
        _done: &[PageOp],
        _space: &Space,
    ) -> Result<(), ReplayFault> {
        self.write_request(act)?;
        self.send()
    }

    fn settled(&mut self, to: u64) -> Result<(), ReplayFault> {
        writeln!(self.text, "settle {to}")?;
        self.send()
    }

    fn destroyed(&mut self, buffer: u64) -> Result<(), ReplayFault> {
        writeln!(self.text, "destroy b{buffer}")?;
        self.send()
    }
}

/// Writes a request of a queue. The first queue has no name, nor one that isn't there.
fn write_bind(out: &mut String, op: &Op, queue: u64) -> Result<(), AllocError> {
    out.push_str("bind ")?;
    write_op(out, op)?;
    if queue > 0 && queue < QUEUES as u64 {
        write!(out, " ; queue {queue}")?;
    }
    out.push_str("\n")
}
