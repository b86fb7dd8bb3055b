//! A world and the model of it, which answer the same events, and what both come to by lines of text.
use crate::machine::agreement::{agrees, is_wanted};
use crate::machine::vm_text::{named, question, text_of};
use gv_model::{Model, Setting, event_in, number_of};
use gv_types::{BufferId, OutOfMemory};
use gv_vm::{Event, Reply, Sizes, World};
use std::alloc::{AllocError, Global};
use std::process::Abort;
use std::test::Fail;

/// Both, whether they are compared after each event, and the ids of the buffers that were made, in order.
pub struct Stage {
    alloc: Global,
    compares: bool,
    world: World,
    pub model: Model,
    ids: Vec<BufferId>,
}

impl Stage {
    pub fn new(alloc: Global, setting: &Setting, compares: bool) -> Result<Stage, Fail> {
        let model = Model::new(alloc, *setting)?;
        let sizes = Sizes {
            queues: setting.queues.clamp(1, 16),
            depth: setting.depth.clamp(1, 65_536),
            timelines: setting.timelines.clamp(1, 64),
        };
        let world = World::new(alloc, setting.bounds, setting.limits, sizes)?;
        Ok(Stage {
            alloc,
            compares,
            world,
            model,
            ids: Vec::new(alloc),
        })
    }

    pub fn close(self) {
        let Stage {
            alloc: _,
            compares: _,
            world,
            model: _,
            ids: _,
        } = self;
        world.close();
    }

    /// What the world answers to an event, and whether the model answers the same, and both come to the same, where that is
    /// compared.
    pub fn ask(&mut self, event: Event) -> Result<(Reply, bool), OutOfMemory> {
        if !self.compares {
            return Ok((self.step(event)?, true));
        }
        let wanted = self.model.answer(self.alloc, &event)?;
        let given = self.step(event)?;
        let is_same = is_wanted(&mut self.model, &wanted, &given)
            && agrees(self.alloc, &self.world, &self.model)?;
        Ok((given, is_same))
    }

    fn step(&mut self, event: Event) -> Result<Reply, OutOfMemory> {
        let reply = self.world.step(self.alloc, event)?;
        if let Reply::Created { id } = &reply {
            self.ids.push(*id)?;
        }
        Ok(reply)
    }

    /// What an event is answered by both.
    fn agreed(&mut self, event: Event) -> Result<String, Fail> {
        let (reply, is_same) = self.ask(event)?;
        if !is_same {
            return Err("not as the definitions say".into());
        }
        text_of(self.alloc, &reply)
    }

    /// The event that a line stands for.
    pub fn event(&self, line: &str) -> Result<Event, Fail> {
        match event_in(self.alloc, &self.ids, line)? {
            Some(event) => Ok(event),
            None => Err("no such event".into()),
        }
    }

    /// What a line is answered.
    fn answer(&mut self, line: &str) -> Result<String, Fail> {
        let text = match question(self.alloc, self.world.vm(), line)? {
            Some(text) => text,
            None => {
                let event = self.event(line)?;
                self.agreed(event)?
            }
        };
        Ok(named(self.alloc, &self.ids, text)?)
    }

    /// A line, which has to be answered as it says.
    fn expect(&mut self, rt: &impl Abort, line: &str) -> Result<(), Fail> {
        let (asked, wanted) = line.split_once(" = ").unwrap_or((line, ".. "));
        let given = self.answer(asked)?;
        assert!(rt; is_answer(given.as_str(), wanted), "{asked} = {given}");
        Ok(())
    }

    /// A line as often as it says.
    fn play_line(&mut self, rt: &impl Abort, line: &str) -> Result<(), Fail> {
        let (times, line) = line.split_once(" times ").unwrap_or(("1", line));
        for _ in 0..number_of(times) {
            self.expect(rt, line)?;
        }
        Ok(())
    }

    pub fn play_text(&mut self, rt: &impl Abort, text: &str) -> Result<(), Fail> {
        for line in text.lines() {
            self.play_line(rt, line)?;
        }
        Ok(())
    }

    /// A text for each number from one on.
    fn play_each(&mut self, rt: &impl Abort, act: &Act) -> Result<(), Fail> {
        let Act(from, to, text) = act;
        for number in *from..*to {
            let text = with_number(self.alloc, text, number)?;
            self.play_text(rt, text.as_str())?;
        }
        Ok(())
    }

    pub fn play(&mut self, rt: &impl Abort, acts: &[Act]) -> Result<(), Fail> {
        for act in acts {
            self.play_each(rt, act)?;
        }
        Ok(())
    }
}

/// A text that is played for each number from the first up to the second. In it they stand as `{n}`, in one of `FORMS`, or as `{2n}`.
pub struct Act(pub u64, pub u64, pub &'static str);

/// How a number and the next ones stand in a text.
const FORMS: [&str; 5] = ["{n}", "{n+1}", "{n+2}", "{n+3}", "{n+4}"];

/// A text with a number in it, the next ones, and twice the number.
fn with_number(alloc: Global, text: &str, number: u64) -> Result<String, AllocError> {
    let mut text = with_form(alloc, text, "{2n}", number.wrapping_add(number))?;
    for (more, form) in FORMS.iter().enumerate() {
        text = with_form(alloc, text.as_str(), form, number.wrapping_add(more as u64))?;
    }
    Ok(text)
}

fn with_form(alloc: Global, text: &str, form: &str, number: u64) -> Result<String, AllocError> {
    let digits = format!(in alloc; "{number}")?;
    text.replace(alloc, form, digits.as_str())
}

/// Whether an answer is this one, or ends so behind two dots.
pub fn is_answer(given: &str, wanted: &str) -> bool {
    match wanted.strip_prefix(".. ") {
        Some(end) => given.ends_with(end),
        None => given == wanted,
    }
}
