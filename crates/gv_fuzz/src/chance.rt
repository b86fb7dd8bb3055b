//! Text by chance, written by patterns.
mod numbers;

use crate::model::Sight;
use crate::patterns::{
    ACCESSES, CLAUSES, FAULTS, FLAGS, LINES, MAYBE_READ_ONLY, NAMES, OPERATIONS, OTHER_CLAUSE,
    OTHER_LINE, READ_ONLY, Row, STATES,
};
use crate::shape::{PAGE, Shape, UNITS};
use gv_model::Random;
use numbers::{ODD_LENGTHS, ODD_PLACES};
use std::alloc::AllocError;
use std::fmt::Write;

/// What chance writes with: its numbers, where it plays, what there is to name, and the first page of the last range.
#[derive(Drop)]
pub struct Chance {
    pub random: Random,
    pub shape: Shape,
    pub sight: Sight,
    page: u64,
}

impl Chance {
    /// The chance of a seed. There is nothing to name yet.
    pub fn new(seed: u64) -> Chance {
        let mut random = Random::new(seed);
        let shape = Shape::by_chance(&mut random);
        Chance {
            random,
            shape,
            sight: Sight::nothing(),
            page: 0,
        }
    }

    /// One of some patterns, by their weights.
    pub fn pick(&mut self, rows: &[Row]) -> &'static str {
        let all = rows.iter().fold(0u64, |sum, row| sum.saturating_add(row.0));
        let mut remaining = self.random.below(all.max(1));
        for (weight, pattern) in rows {
            if remaining < *weight {
                return *pattern;
            }
            remaining = remaining.saturating_sub(*weight);
        }
        ""
    }

    /// The same, but another one where it names what there is none of.
    fn pick_named(&mut self, rows: &[Row], other: &'static str) -> &'static str {
        let pattern = self.pick(rows);
        let lacks_buffer = self.sight.buffers == 0 && pattern.contains("$b");
        let lacks_timeline = self.sight.timelines == 0 && pattern.contains("$t");
        if lacks_buffer || lacks_timeline {
            other
        } else {
            pattern
        }
    }

    /// Writes a line, without its end, that names what there is.
    pub fn write_line(&mut self, out: &mut String) -> Result<(), AllocError> {
        let pattern = self.pick_named(&LINES, OTHER_LINE);
        self.write(pattern, out)?;
        match pattern {
            "bind" => self.write_clauses(out),
            "job" => {
                let count = self.few_or_many(100);
                self.write_parts(" ", &ACCESSES, count, out)
            }
            "plan" => self.write_parts(" ", &OPERATIONS, 1, out),
            _ => Ok(()),
        }
    }

    /// A small number, or once in so many times a great one.
    fn few_or_many(&mut self, times: u64) -> u64 {
        if self.random.below(times.max(1)) == 0 {
            257
        } else {
            self.random.below(3).saturating_add(1)
        }
    }

    /// Writes the clauses of a request: mostly few, seldom none or very many.
    fn write_clauses(&mut self, out: &mut String) -> Result<(), AllocError> {
        let some = self.few_or_many(8_000);
        let count = if self.random.is_one_in(20) { 0 } else { some };
        if !self.random.is_one_in(4) {
            return self.write_parts(" ", &CLAUSES, count, out);
        }
        let queues = if self.random.is_one_in(30) { 20 } else { 3 };
        let queue = self.random.below(queues);
        write!(out, " queue {queue}")?;
        self.write_parts(" ; ", &CLAUSES, count, out)
    }

    /// Writes so many parts, the first of them behind this separator.
    fn write_parts(
        &mut self,
        first: &str,
        rows: &[Row],
        count: u64,
        out: &mut String,
    ) -> Result<(), AllocError> {
        for index in 0..count {
            out.push_str(if index == 0 { first } else { " ; " })?;
            let pattern = self.pick_named(rows, OTHER_CLAUSE);
            self.write(pattern, out)?;
        }
        Ok(())
    }

    /// Writes a pattern.
    pub fn write(&mut self, pattern: &str, out: &mut String) -> Result<(), AllocError> {
        let mut is_letter = false;
        for letter in pattern.chars() {
            if is_letter {
                self.write_letter(letter, out)?;
            } else if letter != '$' {
                out.push(letter)?;
            }
            is_letter = !is_letter && letter == '$';
        }
        Ok(())
    }

    fn write_letter(&mut self, letter: char, out: &mut String) -> Result<(), AllocError> {
        match letter {
            'r' => self.write_range(out),
            'b' | 't' | 'B' | 'T' => self.write_name(letter, out),
            'n' | 'x' | 'h' => self.write_told(letter, out),
            'w' | 'W' | 'R' | 'L' | 'F' | 'N' => out.push_str(self.word(letter)),
            _ => {
                let number = self.number(letter);
                self.write_number(number, out)
            }
        }
    }

    fn word(&mut self, letter: char) -> &'static str {
        match letter {
            'w' => self.one_of(&MAYBE_READ_ONLY),
            'W' => self.one_of(&READ_ONLY),
            'R' => self.one_of(&FLAGS),
            'L' => self.one_of(&STATES),
            'F' => self.one_of(&FAULTS),
            _ => self.one_of(&NAMES),
        }
    }

    fn one_of(&mut self, words: &[&'static str]) -> &'static str {
        let index = self.random.below((words.len() as u64).max(1));
        words.get(index as usize).copied().unwrap_or("b")
    }

    /// Writes a number, in one of its two forms, behind a space.
    pub fn write_number(&mut self, number: u64, out: &mut String) -> Result<(), AllocError> {
        if self.random.is_one_in(2) {
            write!(out, " {number}")
        } else {
            write!(out, " 0x{number:x}")
        }
    }

    /// Writes a number of a reply.
    fn write_told(&mut self, letter: char, out: &mut String) -> Result<(), AllocError> {
        let low = self.random.below(20);
        let number = self.random.among(&[low, low, low, (1 << 53) + 1, u64::MAX]);
        match letter {
            'n' => write!(out, "{number}"),
            'x' => write!(out, "0x{number:x}"),
            _ => write!(out, "{number:016x}"),
        }
    }

    /// Writes the name of something declared, or now and then of nothing; or a new one, or now and then an old one.
    fn write_name(&mut self, letter: char, out: &mut String) -> Result<(), AllocError> {
        let declared = match letter {
            'b' | 'B' => self.sight.buffers,
            _ => self.sight.timelines,
        };
        let number = match letter {
            'b' | 't' => {
                let past = u64::from(self.random.is_one_in(300));
                self.random.below(declared.max(1)).saturating_add(past * 9)
            }
            _ => declared.saturating_sub(u64::from(self.random.is_one_in(100))),
        };
        let letters = self.shape.letters;
        write!(out, "{letters}{number}")
    }

    /// Writes an address and a length.
    fn write_range(&mut self, out: &mut String) -> Result<(), AllocError> {
        self.page = self.shape.page(&mut self.random);
        let units = self.random.below(6).saturating_add(1);
        let count = self.shape.pages(&mut self.random, units);
        let addr = self.bytes(self.page, &ODD_PLACES);
        let len = self.bytes(count, &ODD_LENGTHS);
        self.write_number(addr, out)?;
        self.write_number(len, out)
    }

    /// Writes a line that sets the bounds: some of the shape's units, and a region in them.
    pub fn write_space(&mut self, out: &mut String) -> Result<(), AllocError> {
        let units = UNITS.saturating_sub(self.random.below(6));
        let first = self.random.below(units.max(1));
        let count = self
            .random
            .below(units.saturating_sub(first).saturating_add(1))
            / 2;
        let start = self.shape.base.saturating_mul(PAGE);
        let unit = self.shape.unit.saturating_mul(PAGE);
        out.push_str("space")?;
        for number in [
            start,
            units.saturating_mul(unit),
            start.saturating_add(first.saturating_mul(unit)),
            count.saturating_mul(unit),
        ] {
            let odd = u64::from(self.random.is_one_in(100));
            self.write_number(number.saturating_add(odd), out)?;
        }
        Ok(())
    }
}
