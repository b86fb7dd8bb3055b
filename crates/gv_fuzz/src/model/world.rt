//! The state between two lines, and what each line does to it.
use super::area::{Area, are_limits};
use super::forms::{LINES, RANGES, Verb};
use super::grammar::{Said, said_by};
use super::names::{Names, id_of, index_of};
use super::request::{Asked, accesses, asked_by};
use super::steps::{op_in_pages, write_steps};
use super::text::{write_refused, write_reply};
use gv_model::{Model, Setting};
use gv_types::{Bounds, Limits, MAX_TOLD, Op, OutOfMemory};
use gv_vm::{Event, QUEUES, Reply};
use std::alloc::{AllocError, Global};

/// The greatest number of timelines.
const TIMELINES: u64 = 64;

/// What was declared, the world behind it, and which settings may still come.
#[derive(Drop)]
pub struct World {
    pub names: Names,
    pub model: Model,
    area: Area,
    may_bound: bool,
    may_limit: bool,
}

impl World {
    /// Nothing is declared and nothing done.
    pub fn new(alloc: Global) -> Result<World, AllocError> {
        let setting = Setting {
            bounds: Bounds::whole(),
            limits: Limits::full(),
            queues: QUEUES as u64,
            depth: 1,
            timelines: TIMELINES,
        };
        let Ok(model) = Model::new(alloc, setting) else {
            return Err(AllocError);
        };
        Ok(World {
            names: Names {
                buffers: Vec::new(alloc),
                timelines: Vec::new(alloc),
            },
            model,
            area: Area::whole(),
            may_bound: true,
            may_limit: true,
        })
    }

    /// Runs a line and writes its reply. False where it is a bad line.
    pub fn run_line(
        &mut self,
        alloc: Global,
        line: &[u8],
        out: &mut String,
    ) -> Result<bool, AllocError> {
        let Ok(text) = str::from_utf8(line) else {
            return Ok(false);
        };
        if !text.is_ascii() {
            return Ok(false);
        }
        if text.is_empty() || text.starts_with('#') {
            return Ok(true);
        }
        match self.run_text(alloc, text, out) {
            Ok(is_good) => Ok(is_good),
            Err(OutOfMemory) => Err(AllocError),
        }
    }

    fn run_text(
        &mut self,
        alloc: Global,
        text: &str,
        out: &mut String,
    ) -> Result<bool, OutOfMemory> {
        if let Some(clauses) = text.strip_prefix("bind ") {
            return self.run_bind(alloc, clauses, out);
        }
        if let Some(accesses) = text.strip_prefix("job ") {
            return self.run_job(alloc, accesses, out);
        }
        if let Some(operation) = text.strip_prefix("plan ") {
            return self.run_plan(alloc, operation, out);
        }
        let Some(said) = said_by(&self.names, &LINES, text) else {
            return Ok(false);
        };
        match said.verb {
            Verb::Space | Verb::Limits => self.set(&said, out),
            Verb::Buffer | Verb::Timeline => self.declare(alloc, &said, text, out),
            _ => self.run(alloc, &said, out),
        }
    }

    /// Writes what no reply is, where the bounds answer of an operation what the documents don't say.
    fn expect_alike(&self, op: &Op, out: &mut String) -> Result<(), OutOfMemory> {
        if !self.area.is_checked_alike(&self.model.space.bounds, op) {
            out.push_str("the bounds answer otherwise\n")?;
        }
        Ok(())
    }

    /// No setting may come any more.
    fn begin(&mut self) {
        self.may_bound = false;
        self.may_limit = false;
    }

    fn set(&mut self, said: &Said, out: &mut String) -> Result<bool, OutOfMemory> {
        let [first, second, third, fourth, _] = said.numbers;
        if let Verb::Space = said.verb {
            let area = Area::from_bytes(first, second, third, fourth);
            let Some(area) = area.filter(|_| self.may_bound) else {
                return Ok(false);
            };
            self.area = area;
            if let Some(bounds) = Bounds::from_bytes(first, second, third, fourth) {
                self.model.space.bounds = bounds;
            }
        } else {
            if !are_limits([first, second, third]) || !self.may_limit {
                return Ok(false);
            }
            if let Some(limits) = Limits::new(first, second, third, MAX_TOLD) {
                self.model.space.limits = limits;
            }
            self.may_limit = false;
        }
        self.may_bound = false;
        out.push_str("ok\n")?;
        Ok(true)
    }

    /// A line that declares a name.
    fn declare(
        &mut self,
        alloc: Global,
        said: &Said,
        text: &str,
        out: &mut String,
    ) -> Result<bool, OutOfMemory> {
        self.begin();
        let name = text.split(' ').nth(1).unwrap_or("");
        if let Verb::Timeline = said.verb {
            return self.declare_timeline(alloc, name, out);
        }
        if index_of(&self.names.buffers, name).is_some() {
            return Ok(false);
        }
        let pages = said.numbers[1];
        let reply = self.model.answer(alloc, &Event::Create { pages })?;
        if let Reply::Created { .. } = &reply {
            self.names.buffers.push(String::from_str(alloc, name)?)?;
        }
        write_reply(alloc, out, &self.names, 0, &reply)?;
        Ok(true)
    }

    fn declare_timeline(
        &mut self,
        alloc: Global,
        name: &str,
        out: &mut String,
    ) -> Result<bool, OutOfMemory> {
        let timelines = &mut self.names.timelines;
        if index_of(timelines, name).is_some() || timelines.len() as u64 >= TIMELINES {
            return Ok(false);
        }
        timelines.push(String::from_str(alloc, name)?)?;
        out.push_str("ok\n")?;
        Ok(true)
    }

    /// A line that asks, or is an event.
    fn run(&mut self, alloc: Global, said: &Said, out: &mut String) -> Result<bool, OutOfMemory> {
        self.begin();
        let number = said.first();
        let event = match said.verb {
            Verb::Bind => {
                self.bind(alloc, Asked::nothing(alloc), out)?;
                return Ok(true);
            }
            Verb::Destroy => Event::Destroy { id: id_of(number) },
            Verb::Raise => Event::Raise {
                point: said.point(),
            },
            Verb::Rewind => Event::Rewind,
            Verb::At => Event::Translate { addr: number },
            Verb::Withdraw => Event::Withdraw { entry: number },
            Verb::Settle => Event::Settle { to: number },
            Verb::End => Event::JobEnd { job: number },
            _ => {
                self.ask(alloc, said, out)?;
                return Ok(true);
            }
        };
        self.answer(alloc, &event, number, out)?;
        Ok(true)
    }

    /// Writes what the world answers to an event that names this number.
    fn answer(
        &mut self,
        alloc: Global,
        event: &Event,
        number: u64,
        out: &mut String,
    ) -> Result<(), OutOfMemory> {
        let reply = self.model.answer(alloc, event)?;
        write_reply(alloc, out, &self.names, number, &reply)?;
        Ok(())
    }

    fn run_bind(
        &mut self,
        alloc: Global,
        clauses: &str,
        out: &mut String,
    ) -> Result<bool, OutOfMemory> {
        let Some(asked) = asked_by(alloc, &self.names, clauses)? else {
            return Ok(false);
        };
        self.begin();
        self.bind(alloc, asked, out)?;
        Ok(true)
    }

    /// A request goes through its queue: as many looks as it has waits, and as many signals paid as it has.
    fn bind(&mut self, alloc: Global, asked: Asked, out: &mut String) -> Result<(), OutOfMemory> {
        let Asked { queue, request } = asked;
        let queue = queue.unwrap_or(0);
        let (looks, signals) = (request.waits.len(), request.signals.len());
        for op in &request.ops {
            self.expect_alike(op, out)?;
        }
        self.model.answer(alloc, &Event::Put { queue, request })?;
        self.model.answer(alloc, &Event::Take { queue })?;
        for _ in 0..looks {
            self.model.answer(alloc, &Event::Look { queue })?;
        }
        let mut told = self.model.answer(alloc, &Event::Bind { queue })?;
        if let Reply::Idle = &told {
            told = self.model.answer(alloc, &Event::GiveUp { queue })?;
        }
        for _ in 0..signals {
            self.model.answer(alloc, &Event::Pay { queue })?;
        }
        write_reply(alloc, out, &self.names, 0, &told)?;
        Ok(())
    }

    fn run_job(
        &mut self,
        alloc: Global,
        text: &str,
        out: &mut String,
    ) -> Result<bool, OutOfMemory> {
        let Some(accesses) = accesses(alloc, &self.names, text)? else {
            return Ok(false);
        };
        self.begin();
        self.answer(alloc, &Event::JobBegin { accesses }, 0, out)?;
        Ok(true)
    }

    /// Writes what an operation would do to the list, or why it is refused.
    fn run_plan(
        &mut self,
        alloc: Global,
        text: &str,
        out: &mut String,
    ) -> Result<bool, OutOfMemory> {
        let Some(said) = said_by(&self.names, &RANGES, text) else {
            return Ok(false);
        };
        self.begin();
        let op = said.op();
        self.expect_alike(&op, out)?;
        let space_model = &self.model.space;
        match op_in_pages(space_model, &op) {
            Ok(op) => write_steps(alloc, out, &self.names, &space_model.list, &op)?,
            Err(fault) => write_refused(alloc, out, &fault)?,
        }
        Ok(true)
    }
}
