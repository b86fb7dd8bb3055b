//! Events by chance, as lines of text.
use gv_model::{InHand, Model, Random};
use gv_types::{PAGE_BYTES, Point};
use std::alloc::{AllocError, Global};

/// More operations than a request may have.
const TOO_MANY_OPS: u64 = 257;

/// Operations, each as often as it is to come. A capital letter stands for a number by chance, which `Chance::number` gives.
const OPS: [&str; 10] = [
    " ; map F C B O 1 1 S R",
    " ; map F C B O 1 1 S R",
    " ; map F C B O 1 1 S R",
    " ; map F C B O 1 1 S R",
    " ; map F C B O 1 1 S R",
    " ; zero F C 0 0 1 1 S R",
    " ; zero F C 0 0 1 1 S R",
    " ; unmap F C 0 0 1 1 S",
    " ; unmap F C 0 0 1 1 S",
    " ; unmap_all B",
];

/// Events that are no queue's, each as often as it is to come.
const CALLS: [&str; 22] = [
    "raise T V",
    "create N",
    "create N",
    "destroy B",
    "rewind",
    "rewind",
    "withdraw E",
    "withdraw E",
    "settle L",
    "job",
    "job",
    "job",
    "job",
    "end J",
    "end J",
    "forget G K",
    "forget G K",
    "trim",
    "settle X",
    "at A",
    "at A",
    "at A",
];

/// Events of a queue, whether they are enabled or not.
const ANY: [&str; 8] = [
    "put Q",
    "put Q",
    "put Q",
    "take Q",
    "look Q",
    "bind Q",
    "give_up Q",
    "pay Q",
];

/// What jobs and requests have beside.
const ACCESSES: [&str; 2] = [" ; read A", " ; write A"];

const WAITS: [&str; 1] = [" ; wait T V"];

const SIGNALS: [&str; 1] = [" ; signal T V"];

/// What comes next, by the numbers of a seed.
#[derive(Drop)]
pub struct Chance {
    random: Random,
    /// The queue whose event is chosen, and the point that its request in hand waits for.
    own: u64,
    point: Point,
    /// The number that was given last.
    last: u64,
}

impl Chance {
    pub fn new(seed: u64) -> Chance {
        Chance {
            random: Random::new(seed),
            own: 0,
            point: Point {
                timeline: 0,
                value: 0,
            },
            last: 0,
        }
    }

    /// One of these, each as likely as the others.
    fn one_of(&mut self, forms: &[&'static str]) -> &'static str {
        let position = self.random.below((forms.len() as u64).max(1));
        forms.get(position as usize).copied().unwrap_or("")
    }

    /// `rare` once in so many times, else a number below another.
    fn mostly_below(&mut self, bound: u64, times: u64, rare: u64) -> u64 {
        if self.random.is_one_in(times.max(1)) {
            return rare;
        }
        self.random.below(bound.max(1))
    }

    /// A count of pages, seldom none.
    fn count(&mut self) -> u64 {
        let count = self.random.below(6);
        if count == 0 && !self.random.is_one_in(8) {
            return 1;
        }
        count
    }

    /// The position of a buffer that was made, alive or not, one of the newest.
    fn buffer(&mut self, model: &Model) -> u64 {
        let made = model.space.buffers.len() as u64;
        made.saturating_sub(self.random.below(3).saturating_add(1))
    }

    /// A number close to what the timeline is at that was given last.
    fn value(&mut self, model: &Model) -> u64 {
        let now = model.numbers.get(self.last as usize).copied();
        now.unwrap_or(0)
            .saturating_add(self.random.below(3))
            .saturating_sub(self.random.below(2))
    }

    /// A byte of a page, of every second one that the first page of some mapping.
    fn addr(&mut self, model: &Model) -> u64 {
        let any = self.random.below(34);
        let list = model.space.list.as_slice();
        let places = (list.len() as u64).saturating_mul(2).saturating_add(1);
        let page = match list.get(self.random.below(places) as usize) {
            Some(mapping) => mapping.range.first(),
            None => any,
        };
        page.saturating_mul(PAGE_BYTES)
            .saturating_add(self.random.below(PAGE_BYTES))
    }

    /// One of so many numbers from the first on, the one behind them, or now and then the one before.
    fn around(&mut self, first: u64, count: u64) -> u64 {
        first
            .saturating_add(self.random.below(count.saturating_add(2).max(1)))
            .saturating_sub(u64::from(self.random.is_one_in(12)))
    }

    /// The number of an entry, or one on either side of those that are held.
    fn entry(&mut self, model: &Model) -> u64 {
        let history = &model.space.history;
        self.around(history.first, history.entries.len() as u64)
    }

    /// The number of an outcome that isn't forgotten of the queue that was given last, or one on either side of those.
    fn outcome(&mut self, model: &Model) -> u64 {
        match model.told.get(self.last as usize) {
            Some(told) => self.around(told.forgotten, told.rest().len() as u64),
            None => self.random.below(2),
        }
    }

    /// The number of a job that may run, or not yet.
    fn job(&mut self, model: &Model) -> u64 {
        let begun = model.running.begun().saturating_add(1);
        begun.saturating_sub(self.random.below(5).saturating_add(1))
    }

    /// The number that a capital letter stands for. None for what is none.
    fn number(&mut self, model: &Model, letter: char) -> Option<u64> {
        Some(match letter {
            'A' => self.addr(model),
            'B' => self.buffer(model),
            'C' => self.count(),
            'E' => self.entry(model),
            'F' => self.random.below(31).saturating_add(1),
            'G' => self.mostly_below(3, 24, 16),
            'J' => self.job(model),
            'K' => self.outcome(model),
            'L' => self.entry(model).min(self.entry(model)),
            'N' => self.mostly_below(1, 12, 7) ^ 7,
            'O' => self.random.below(4),
            'P' => self.point.timeline,
            'Q' => self.mostly_below(2, 24, 2),
            'R' => u64::from(self.random.is_one_in(4)),
            'S' => u64::from(self.random.is_one_in(40)),
            'T' => self.mostly_below(2, 60, 2),
            'U' => self.own,
            'V' => self.value(model),
            'W' => self.point.value,
            'X' => model.space.history.next(),
            _ => return None,
        })
    }

    /// Writes a form with numbers in it.
    fn fill(&mut self, line: &mut String, model: &Model, form: &str) -> Result<(), AllocError> {
        for letter in form.chars() {
            match self.number(model, letter) {
                Some(number) => {
                    self.last = number;
                    write!(line, "{number}")?;
                }
                None => line.push(letter)?,
            }
        }
        Ok(())
    }

    /// Writes so many of these forms.
    fn fill_some(
        &mut self,
        line: &mut String,
        model: &Model,
        forms: &[&'static str],
        count: u64,
    ) -> Result<(), AllocError> {
        for _ in 0..count {
            let form = self.one_of(forms);
            self.fill(line, model, form)?;
        }
        Ok(())
    }

    /// A few operations, now and then too many, and a few points.
    fn request(&mut self, line: &mut String, model: &Model) -> Result<(), AllocError> {
        let count = self.mostly_below(4, 100, TOO_MANY_OPS);
        self.fill_some(line, model, &OPS, count)?;
        let count = self.random.below(3);
        self.fill_some(line, model, &WAITS, count)?;
        let count = self.random.below(3);
        self.fill_some(line, model, &SIGNALS, count)
    }

    /// The event of a queue that is enabled there, or one of two.
    fn useful(&mut self, model: &Model) -> &'static str {
        self.own = self.mostly_below(2, 24, 2);
        let Some(line) = model.queues.get(self.own as usize) else {
            return "take U";
        };
        if !line.owed.is_empty() {
            return "pay U";
        }
        match &line.hand {
            Some(hand) => self.of_hand(hand),
            None if line.waiting.is_empty() => "put U",
            None => "take U",
        }
    }

    fn of_hand(&mut self, hand: &InHand) -> &'static str {
        let Some(point) = hand.wait() else {
            return "bind U";
        };
        self.point = point;
        match self.random.below(3) {
            0 => "raise P W",
            1 if hand.lacked.is_some() => "give_up U",
            _ => "look U",
        }
    }

    /// The line of the next event.
    pub fn line(&mut self, alloc: Global, model: &Model) -> Result<String, AllocError> {
        let form = match self.random.below(40) {
            0..=19 => self.useful(model),
            20..=27 => self.one_of(&ANY),
            _ => self.one_of(&CALLS),
        };
        let mut line = String::new(alloc);
        self.fill(&mut line, model, form)?;
        if form.starts_with("put") {
            self.request(&mut line, model)?;
        } else if form == "job" {
            let count = self.random.below(3);
            self.fill_some(&mut line, model, &ACCESSES, count)?;
        }
        Ok(line)
    }
}
