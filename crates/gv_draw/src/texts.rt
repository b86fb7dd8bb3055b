//! The texts of a row.

use crate::pen::Pen;
use crate::picture::Picture;
use crate::pixels::Tenths;
use crate::row::Row;
use crate::sizes::{write_count, write_size};

/// The width of a character of a label, in tenths of a pixel.
const LABEL_EACH: u64 = 73;

/// Where labels begin.
const LABEL_X: Tenths = Tenths(580);

/// How many characters of labels there is room for.
const LABEL_CHARS: usize = 44;

/// Where numbers end.
const NUMBER_X: Tenths = Tenths(460);

/// How far below a row's top the upper and the lower one of two texts are.
const UPPER: Tenths = Tenths(160);

const LOWER: Tenths = Tenths(310);

impl<'a> Picture<'a> {
    /// Writes the texts of all rows.
    pub fn write_texts(&self, pen: &mut Pen<'_>) {
        let mut next: u64 = 0;
        for (index, row) in self.history.rows.iter().enumerate() {
            let top = self.rows.top_of(index);
            if row.serial > next {
                write_left_out(pen, row.serial.saturating_sub(next), top);
            }
            next = row.serial.saturating_add(1);
            write_number(pen, row, top.plus(self.rows.middle));
            self.write_label(pen, row, top);
            self.write_counts(pen, row, top);
        }
    }

    /// Writes what was asked, and the answer where there is one.
    fn write_label(&self, pen: &mut Pen<'_>, row: &Row, top: Tenths) {
        let label = row.content.label.as_str();
        let answer = row.content.answer.as_str();
        let answer_chars = answer.chars().count();
        let parts = label.split_once(" ; ");
        let is_short = label.chars().count().saturating_add(answer_chars) < LABEL_CHARS;
        let is_one_line = parts.is_none() && (is_short || answer.is_empty());
        if is_one_line || !self.rows.is_roomy {
            let y = top.plus(self.rows.middle);
            let room = LABEL_CHARS.saturating_sub(answer_chars);
            let end = write_shortened(pen, label, room, y);
            return write_answer(pen, row, end.plus(Tenths(120)), y);
        }
        let (upper, lower) = (top.plus(UPPER), top.plus(LOWER));
        match parts {
            Some((first, more)) if answer.is_empty() => {
                write_shortened(pen, first, LABEL_CHARS, upper);
                write_shortened(pen, more, LABEL_CHARS, lower);
            }
            _ => {
                write_shortened(pen, label, LABEL_CHARS, upper);
                write_answer(pen, row, LABEL_X, lower);
            }
        }
    }

    /// Writes how much stood after a row.
    fn write_counts(&self, pen: &mut Pen<'_>, row: &Row, top: Tenths) {
        let has_tables = self.rows.has_tables;
        let below = if has_tables { UPPER } else { self.rows.middle };
        let x = self.across.counts;
        pen.begin_text(x, top.plus(below), "class=\"count\"");
        write_usage(pen, row);
        pen.end_text();
        if has_tables {
            pen.begin_text(x, top.plus(LOWER), "class=\"tables\"");
            write_tables(pen, row);
            pen.end_text();
        }
    }
}

/// Writes how many rows are left out above a row.
fn write_left_out(pen: &mut Pen<'_>, count: u64, top: Tenths) {
    pen.begin_text(LABEL_X, top.minus(Tenths(50)), "class=\"note\"");
    pen.push("… ");
    write_count(pen, count, "row");
    pen.push(" left out");
    pen.end_text();
}

/// Writes the number of a row's entry, or a sign of what it is.
fn write_number(pen: &mut Pen<'_>, row: &Row, y: Tenths) {
    let look = row.content.kind.look();
    pen.begin_text(NUMBER_X, y, look.number);
    pen.push(look.sign);
    match row.content.number {
        Some(number) if look.sign.is_empty() => pen.number(number),
        _ => {}
    }
    pen.end_text();
}

/// Writes a label of at most so many characters, and answers where it ends.
fn write_shortened(pen: &mut Pen<'_>, label: &str, room: usize, y: Tenths) -> Tenths {
    pen.begin_text(LABEL_X, y, "class=\"label\"");
    let shown = pen.shortened(label, room);
    pen.end_text();
    LABEL_X.plus(Tenths(shown.saturating_mul(LABEL_EACH)))
}

/// Writes the answer to what was asked, where it is worth showing.
fn write_answer(pen: &mut Pen<'_>, row: &Row, x: Tenths, y: Tenths) {
    let answer = row.content.answer.as_str();
    if !answer.is_empty() {
        pen.begin_text(x, y, row.content.kind.look().answer);
        pen.text(answer);
        pen.end_text();
    }
}

/// Writes how many mappings and pages there were after a row.
pub fn write_usage(pen: &mut Pen<'_>, row: &Row) {
    write_count(pen, row.mappings, "mapping");
    pen.push(" · ");
    write_size(pen, row.pages);
}

/// Writes how many tables of each level stood after a row.
pub fn write_tables(pen: &mut Pen<'_>, row: &Row) {
    pen.push("tables");
    for count in row.tables {
        pen.push(" ");
        pen.number(count);
    }
}
