//! What stands before a trace event, as trace-cmd, perf and the kernel's own trace file write it.

use crate::cursor::decimal_of;

/// Nanoseconds of a second, and the digits of a fraction of it.
const SECOND: u64 = 1_000_000_000;

const FRACTION_DIGITS: usize = 9;

/// What stands before an event, as far as it is said: its time in nanoseconds, its thread and its process.
#[derive(Clone, Copy)]
pub struct EventHead {
    pub time: Option<u64>,
    pub thread: Option<u64>,
    pub process: Option<u64>,
}

impl EventHead {
    /// What stands before an event's name: `TASK-PID (TGID) [CPU] FLAGS TIME: `, as far as it does. perf writes the `system` of
    /// the event behind it.
    pub fn parse(before: &[u8], system: &[u8]) -> EventHead {
        let none = EventHead {
            time: None,
            thread: None,
            process: None,
        };
        let before = before.trim_ascii_end();
        let before = before.strip_suffix(system).unwrap_or(before);
        let Some(before) = before.trim_ascii_end().strip_suffix(b":") else {
            return none;
        };
        let (rest, time) = split_last(before, b' ');
        let Some((task, _)) = split_at_last(rest, b'[') else {
            return EventHead {
                time: parse_time(time),
                ..none
            };
        };
        let (thread, process) = parse_task(task.trim_ascii_end());
        EventHead {
            time: parse_time(time),
            thread,
            process,
        }
    }

    /// Whether the event is of this process or thread.
    pub fn is_of(&self, pid: Option<u64>) -> bool {
        pid.is_none() || self.thread == pid || self.process == pid
    }
}

/// The thread of a task, and its process where that stands behind it in parentheses.
fn parse_task(task: &[u8]) -> (Option<u64>, Option<u64>) {
    let Some(inner) = task.strip_suffix(b")") else {
        return (last_number(task), None);
    };
    match split_at_last(inner, b'(') {
        Some((task, process)) => (
            last_number(task.trim_ascii_end()),
            decimal_of(process.trim_ascii()),
        ),
        None => (None, None),
    }
}

/// The decimal number that a text ends with.
fn last_number(text: &[u8]) -> Option<u64> {
    let digits = text
        .iter()
        .rev()
        .take_while(|byte| byte.is_ascii_digit())
        .count();
    let (_, number) = text.split_at_checked(text.len().checked_sub(digits)?)?;
    decimal_of(number)
}

/// What stands before and behind the last such byte, if there is one.
fn split_at_last(text: &[u8], byte: u8) -> Option<(&[u8], &[u8])> {
    let at = text.iter().rposition(|other| *other == byte)?;
    let (before, rest) = text.split_at_checked(at)?;
    let (_, behind) = rest.split_first()?;
    Some((before, behind))
}

/// What stands before and behind the last such byte, and else nothing and all.
fn split_last(text: &[u8], byte: u8) -> (&[u8], &[u8]) {
    split_at_last(text, byte).unwrap_or((&[], text))
}

/// A time in seconds with a fraction, in nanoseconds.
fn parse_time(text: &[u8]) -> Option<u64> {
    let (seconds, fraction) = split_at_last(text, b'.')?;
    if fraction.len() > FRACTION_DIGITS {
        return None;
    }
    let mut part = decimal_of(fraction)?;
    for _missing in fraction.len()..FRACTION_DIGITS {
        part = part.checked_mul(10)?;
    }
    decimal_of(seconds)?.checked_mul(SECOND)?.checked_add(part)
}
