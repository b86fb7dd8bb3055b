//! Writes the JSON of a reply as its text again, by the forms.
use super::forms::FORMS;
use serde_json::Value;
use std::alloc::Global;
use std::fmt::Write;

/// No reply has more parts.
const PARTS: u32 = 1 << 24;

/// What is still to be written of a value: a form from some place on.
#[derive(Clone, Copy, Drop)]
struct Rest<'a> {
    value: &'a Value,
    form: &'static str,
}

/// The text so far, and what is still to be written, the next one last.
#[derive(Drop)]
struct Reading<'a> {
    text: String,
    rests: Vec<Rest<'a>>,
}

/// The text of the reply to a line that begins with this word, if an object is one of its kind: it has its members, and the line's
/// number.
pub fn text_of(alloc: Global, word: &str, value: &Value) -> Option<String> {
    let members = value.as_object()?.len().checked_sub(1)?;
    let form = form_of(word, value, members).or_else(|| form_of("lone", value, members))?;
    let mut reading = Reading {
        text: String::new(alloc),
        rests: Vec::new(alloc),
    };
    reading.add(value, form)?;
    for _ in 0..PARTS {
        let Some(rest) = reading.rests.pop() else {
            return Some(reading.text);
        };
        reading.go_on(rest)?;
    }
    None
}

/// The form of a kind whose members these are.
fn form_of(kind: &str, value: &Value, members: usize) -> Option<&'static str> {
    let form = FORMS
        .iter()
        .find(|form| form.0 == kind && fits(form.1, value, members))?;
    Some(form.1)
}

/// Whether an object has each member of a form, and so many as it has.
fn fits(form: &str, value: &Value, members: usize) -> bool {
    let mut named: usize = 0;
    for hole in form.split('{').skip(1) {
        let key = hole.split(' ').next().unwrap_or("");
        if value.get(key).is_none() {
            return false;
        }
        named = named.saturating_add(1);
    }
    named == members
}

impl<'a> Reading<'a> {
    fn add(&mut self, value: &'a Value, form: &'static str) -> Option<()> {
        self.rests.push(Rest { value, form }).ok()
    }

    /// Writes up to the next member, and that.
    fn go_on(&mut self, rest: Rest<'a>) -> Option<()> {
        let Some((front, more)) = rest.form.split_once('{') else {
            return self.text.push_str(rest.form).ok();
        };
        self.text.push_str(front).ok()?;
        let (hole, behind) = more.split_once('}')?;
        self.add(rest.value, behind)?;
        let (key, how) = hole.split_once(' ')?;
        let member = rest.value.get(key)?;
        if let Some(kind) = how.strip_prefix("* ") {
            return self.add_rows(member, kind);
        }
        if let Some(kind) = how.strip_prefix("+ ") {
            return self.add_some_rows(member, kind);
        }
        match how.as_bytes() {
            [letter] => self.write(member, *letter),
            _ => self.add_object(member, how),
        }
    }

    /// An object of a kind, or nothing.
    fn add_object(&mut self, value: &'a Value, kind: &str) -> Option<()> {
        if value.is_null() {
            return self.text.push_str("none").ok();
        }
        let form = form_of(kind, value, value.as_object()?.len())?;
        self.add(value, form)
    }

    /// Each object of a list.
    fn add_rows(&mut self, value: &'a Value, kind: &str) -> Option<()> {
        for row in value.as_array()?.iter().rev() {
            self.add(row, "\n")?;
            let form = form_of(kind, row, row.as_object()?.len())?;
            self.add(row, form)?;
        }
        Some(())
    }

    fn add_some_rows(&mut self, value: &'a Value, kind: &str) -> Option<()> {
        if value.as_array()?.is_empty() {
            return self.text.push_str("empty\n").ok();
        }
        self.add_rows(value, kind)
    }

    /// Writes a member that is a number, text or a word.
    fn write(&mut self, value: &Value, letter: u8) -> Option<()> {
        match letter {
            b'n' => write!(self.text, "{}", value.as_u64()?).ok(),
            b's' => self.text.push_str(value.as_str()?).ok(),
            b'a' => write!(self.text, "{:016x}", address(value)?).ok(),
            b'x' => write!(self.text, "0x{:x}", address(value)?).ok(),
            b'5' => self.write_five(value),
            _ => self.text.push_str(word(value.as_bool()?, letter)?).ok(),
        }
    }

    fn write_five(&mut self, value: &Value) -> Option<()> {
        let numbers = value.as_array()?;
        let mut separator = "";
        for number in numbers.iter() {
            write!(self.text, "{separator}{}", number.as_u64()?).ok()?;
            separator = " ";
        }
        if numbers.len() == 5 { Some(()) } else { None }
    }
}

/// The word for a flag.
fn word(flag: bool, letter: u8) -> Option<&'static str> {
    match (letter, flag) {
        (b'f', true) => Some("ro"),
        (b'f', false) => Some("rw"),
        (b'r', true) => Some(" ro"),
        (b'k', true) => Some(" keep"),
        (b'w', true) => Some("live"),
        (b'w', false) => Some("withdrawn"),
        (b't', true) | (b'r', false) | (b'k', false) => Some(""),
        _ => None,
    }
}

/// The address that some text is, of the one form that it may have.
fn address(value: &Value) -> Option<u64> {
    let digits = value.as_str()?.strip_prefix("0x")?;
    let is_short = digits == "0" || !digits.starts_with('0');
    let is_plain = digits
        .bytes()
        .all(|digit| matches!(digit, b'0'..=b'9' | b'a'..=b'f'));
    if !is_short || !is_plain {
        return None;
    }
    u64::from_str_radix(digits, 16).ok()
}
