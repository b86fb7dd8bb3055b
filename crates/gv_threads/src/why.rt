//! Why a line may not stand where it stands in a threads script.
use crate::script::{Part, ThreadsScript};
use gv_lines::{
    Found, Line, Misplacement, NumberSlip, Reason, Slip, explain, no_such_line, parse_line,
    queue_in, split_once, word_at,
};
use gv_text::{
    BufferNames, Declared, ScriptFault, Stage, at_first_word, why_not_named, why_not_set, write_why,
};
use std::alloc::Global;

/// Where the line of this number is bad for the names of buffers, once those are known.
fn why_not_begun<'a>(
    script: &ThreadsScript<'_>,
    buffers: &BufferNames,
    text: &'a [u8],
    number: u64,
) -> Slip<'a> {
    let line = line_at(text, number);
    let declared = Declared {
        buffers: Some(buffers),
        timelines: &script.timelines,
    };
    why_not_named(declared, line).unwrap_or(no_such_line(line))
}

/// Says why the line is bad at which a script ended, where it ended so.
pub fn tell_bad_line(
    why: &mut String,
    fault: &ScriptFault,
    script: &ThreadsScript<'_>,
    buffers: &BufferNames,
    text: &[u8],
) {
    if let ScriptFault::BadLine { line } = fault {
        write_why(why, &why_not_begun(script, buffers, text, *line));
    }
}

/// The line of this number, counted from 1.
fn line_at(text: &[u8], number: u64) -> &[u8] {
    let mut rest = text;
    for _ in 1..number {
        match split_once(rest, b'\n') {
            Some((_, after)) => rest = after,
            None => break,
        }
    }
    match split_once(rest, b'\n') {
        Some((line, _)) => line,
        None => rest,
    }
}

impl ThreadsScript<'_> {
    /// Where a line that may not be read next, at this stage, is bad first.
    pub fn why_not_read<'l>(&self, alloc: Global, stage: Stage, text: &'l [u8]) -> Slip<'l> {
        if let Some(slip) = explain(alloc, text) {
            return slip;
        }
        if let Some(slip) = self.why_not_in_part(text) {
            return slip;
        }
        if let Some(slip) = why_not_set(stage, text) {
            return slip;
        }
        let declared = Declared {
            buffers: None,
            timelines: &self.timelines,
        };
        match why_not_named(declared, text) {
            Some(slip) => slip,
            None => self.why_no_queue(text),
        }
    }

    /// That no threads script has such a line, or not in the part that is read.
    fn why_not_in_part<'l>(&self, text: &'l [u8]) -> Option<Slip<'l>> {
        let word = word_at(text, 0)?.word;
        let misplacement = match parse_line(text)? {
            Line::Space { .. }
            | Line::Limits { .. }
            | Line::Buffer { .. }
            | Line::Timeline { .. }
            | Line::Raise { .. } => (self.part != Part::Settings).then_some(
                Misplacement::FirstPart { word },
            ),
            Line::Bind { .. } => (self.part == Part::Questions).then_some(Misplacement::SecondPart),
            Line::Silent
            | Line::Uses { .. }
            | Line::Map
            | Line::At { .. }
            | Line::Tables
            | Line::Journal
            | Line::Value { .. }
            | Line::Told { .. } => None,
            _ => Some(Misplacement::NotInThreads { word }),
        };
        Some(at_first_word(misplacement?))
    }

    /// That the queue which a line names is not there.
    fn why_no_queue<'l>(&self, text: &'l [u8]) -> Slip<'l> {
        let Some(Found { word, column }) = queue_in(text) else {
            return no_such_line(text);
        };
        let slip = NumberSlip::NoSuchQueue {
            queues: self.queues,
        };
        Slip {
            column,
            reason: Reason::Number { word, slip },
        }
    }
}
