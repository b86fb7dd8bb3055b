//! Scripts for running queues, read: what stands before the workers, the requests, and what is asked behind.
ghost use Rattle.std.specs.Prelude.{◌≡◌, ◌≤◌, ◌++◌, ◌∷◌, [], ℕ, List, Err, IfOk, IfErr, IsErr, OnOk, length, true};
ghost use Rattle.gv_types.specs.Limits.{IsFromOneTo};
ghost use Rattle.gv_vm.specs.Outcomes.{queues};
ghost use Rattle.gv_text.specs.Reading.{script_limit};
ghost use Rattle.gv_lines.specs.declared.line.Line.{Line as TheLine};
ghost use Rattle.gv_threads.specs.Parts.{AreLinesOf, Keeps, areas_in, last_of, limits_in, settings_in, timelines_in, unnumbered};
ghost use Rattle.gv_threads.specs.ReadSoFar.{MayAsk, MayFollow, MaySet, MayStand, MayStandAll, MayStandText, StopsReading, read_after, read_so_far, stages_in};
ghost use Rattle.gv_threads.specs.Reading.{Adds, IsKept};
ghost use Rattle.gv_threads.specs.declared.setting.SetupLine.{SetupLine as TheSetting};
ghost use Rattle.gv_threads.specs.Script.{IsOfLine, most_waiting};

use crate::requests::queue_asked;
use crate::setting::SetupLine;
use gv_lines::{ClauseList, Line, Slip, parse_line, split_once};
use gv_text::{LineFault, ScriptFault, Stage, TimelineNames, write_why};
use gv_types::{Bounds, Limits};
use gv_vm::QUEUES;
use std::alloc::Global;
use std::marker::Model;

/// How many requests may wait on a queue.
const MAX_DEPTH: u64 = 65_536;

/// A part of a script. The parts come in this order.
#[derive(Clone, Copy, Debug, PartialEq, Eq)]
pub enum Part {
    Settings,
    Requests,
    Questions,
}

/// A script whose requests are put on running queues: first `space`, `limits`, `buffer`, `timeline` and `raise`, then
/// `bind`, then `map`, `at`, `tables`, `uses`, `value`, `told` and `journal`. Empty lines and comments stand anywhere. Each
/// other line was read once, and stands with its number.
#[derive(Drop)]
pub struct ThreadsScript<'a> {
    pub(crate) settings: Vec<(u64, SetupLine)>,
    pub(crate) requests: Vec<(u64, ClauseList<'a>)>,
    pub(crate) questions: Vec<(u64, Line<'a>)>,
    pub(crate) timelines: TimelineNames,
    pub(crate) queues: u64,
    pub(crate) bounds: Bounds,
    pub(crate) limits: Limits,
    depth: u64,
    pub(crate) part: Part,
    pub(crate) stage: Stage,
    binds: [u64; QUEUES],
    has_memory: bool,
}

impl<'a> Model for ThreadsScript<'a> {
    ghost use Rattle.gv_threads.specs.Script.{ThreadsScriptState};
    ghost use Rattle.gv_threads.specs.Inside.{IsRead, read_state};

    ghost Value = { ThreadsScriptState };

    ghost view = { λ s. record {
      part = s.part;
      stage = s.stage;
      bounds = s.bounds;
      limits = s.limits;
      queues = s.queues;
      depth = s.depth;
      timelines = s.timelines.names;
      settings = s.settings.items;
      requests = s.requests.items;
      questions = s.questions.items;
      has_memory = s.has_memory;
    } };

    ghost invariant = { λ s. IsRead (read_state s.timelines.names s.queues s.depth) };
}

impl<'a> ThreadsScript<'a> {
    fn new(alloc: Global, count: u64) -> Self
        requires { IsFromOneTo queues count }
        ensures queues { result.queues ≡ count }
        ensures so_far { read_so_far result ≡ read_after [] }
        ensures none { Keeps [] result }
    {
        ThreadsScript {
            settings: Vec::new(alloc),
            requests: Vec::new(alloc),
            questions: Vec::new(alloc),
            timelines: TimelineNames::new(alloc),
            bounds: Bounds::whole(),
            limits: Limits::full(),
            queues: count,
            depth: 1,
            part: Part::Settings,
            stage: Stage::Fresh,
            binds: [0; QUEUES],
            has_memory: true,
        }
    }

    /// Reads a script for so many queues. A line that is not of the language, or not at its place, or of a queue that there is
    /// not, or whose timelines' names are not declared or declared twice, is `BadLine`, the first of them; buffers' names are
    /// looked at when the script begins. Want of memory for a line hides no bad one. Where a line is bad, it says why.
    pub fn read(
        alloc: Global,
        text: &'a [u8],
        count: u64,
        why: &mut String,
    ) -> Result<ThreadsScript<'a>, ScriptFault>
        requires count { IsFromOneTo queues count }
        requires short { length text.now ≤ script_limit }
        ensures queues { IfOk result (λ script. script.queues ≡ count) }
        ensures depth { IfOk result (λ script. IsFromOneTo most_waiting script.depth) }
        ensures lines { IsOfLine result }
        ensures kept { IfOk result (λ script. (lines : List TheLine)
            × AreLinesOf text.now lines × MayStandAll count lines × Keeps lines script) }
        ensures bad_line { (line : ℕ) → result ≡ Err (ScriptFault.BadLine line) → StopsReading text.now count line }
    {
        let mut script = ThreadsScript::new(alloc, count);
        let mut rest = text;
        let mut number: u64 = 1;
        while let Some((line, after)) = split_once(rest, b'\n') {
            let stage = script.stage;
            if let Err(fault) = script.read_line(number, line) {
                write_why(why, &script.why_not_read(alloc, stage, line));
                return Err(fault.at(number));
            }
            rest = after;
            number += 1;
        }
        if !rest.is_empty() {
            write_why(why, &Slip::no_line_end(rest.len()));
            return Err(ScriptFault::BadLine { line: number });
        }
        if !script.has_memory {
            return Err(ScriptFault::OutOfMemory);
        }
        Ok(script)
    }

    /// Reads a line, and notes where memory for it is refused.
    fn read_line(&mut self, number: u64, text: &'a [u8]) -> Result<(), LineFault>
        ensures queues { self.new.queues ≡ self.old.queues }
        ensures adds { OnOk result (Adds text.now self.old self.new) }
        ensures bad { result ≡ Err LineFault.Bad → ¬ MayStandText self.old.queues (read_so_far self.old) text.now }
    {
        let line = parse_line(text).ok_or(LineFault::Bad)?;
        if !self.keep_line(number, line)? {
            self.has_memory = false;
        }
        Ok(())
    }

    /// Keeps what a line is to its part. Whether there was memory for it.
    fn keep_line(&mut self, number: u64, line: Line<'a>) -> Result<bool, LineFault>
        ensures queues { self.new.queues ≡ self.old.queues }
        ensures kept { IfOk result (IsKept line.entry self.old self.new) }
        ensures bad { result ≡ Err LineFault.Bad → ¬ MayStand self.old.queues (read_so_far self.old) line.entry }
    {
        match line {
            Line::Silent => Ok(true),
            Line::Bind { clauses } => self.keep_request(number, clauses),
            Line::Uses { name } => self.keep_question(number, Line::Uses { name }),
            Line::Map => self.keep_question(number, Line::Map),
            Line::At { addr } => self.keep_question(number, Line::At { addr }),
            Line::Tables => self.keep_question(number, Line::Tables),
            Line::Journal => self.keep_question(number, Line::Journal),
            Line::Value { name } => {
                self.timelines.index_of(&name).ok_or(LineFault::Bad)?;
                self.keep_question(number, Line::Value { name })
            }
            Line::Told { queue } => {
                if queue >= self.queues {
                    return Err(LineFault::Bad);
                }
                self.keep_question(number, Line::Told { queue })
            }
            _ => self.keep_setting(number, line),
        }
    }

    fn keep_setting(&mut self, number: u64, line: Line<'a>) -> Result<bool, LineFault>
        ensures state { OnOk result (self.new ≡ record self.old {
          bounds = last_of self.old.bounds (areas_in line.entry);
          part = Part.Settings;
          stage = last_of self.old.stage (stages_in line.entry);
          limits = last_of self.old.limits (limits_in line.entry);
          timelines = self.old.timelines ++ timelines_in line.entry;
          settings = self.new.settings;
        }) }
        ensures added { IfOk result (λ kept. (setting : TheSetting) × (settings_in line.entry ≡ setting ∷ [])
            × (kept ≡ true → unnumbered self.new.settings ≡ unnumbered self.old.settings ++ setting ∷ [])) }
        ensures may { OnOk result (MayFollow self.old.part Part.Settings × MaySet (read_so_far self.old) line.entry) }
        ensures bad { result ≡ Err LineFault.Bad
            → ¬ (MayFollow self.old.part Part.Settings × MaySet (read_so_far self.old) line.entry) }
        ensures queues { self.new.queues ≡ self.old.queues }
    {
        self.enter(Part::Settings)?;
        let setting = self.set(line)?;
        Ok(keep(&mut self.settings, number, setting))
    }

    fn keep_request(&mut self, number: u64, clauses: ClauseList<'a>) -> Result<bool, LineFault>
        ensures state { OnOk result
            (self.new ≡ record self.old { part = Part.Requests; depth = self.new.depth; requests = self.new.requests }) }
        ensures may { OnOk result (MayFollow self.old.part Part.Requests × MayAsk self.old.queues (read_so_far self.old) clauses.entry) }
        ensures bad { result ≡ Err LineFault.Bad
            → ¬ (MayFollow self.old.part Part.Requests × MayAsk self.old.queues (read_so_far self.old) clauses.entry) }
        ensures added { IfOk result (λ kept. kept ≡ true
            → unnumbered self.new.requests ≡ unnumbered self.old.requests ++ clauses.entry ∷ []) }
        ensures queues { self.new.queues ≡ self.old.queues }
    {
        self.enter(Part::Requests)?;
        self.count(&clauses)?;
        Ok(keep(&mut self.requests, number, clauses))
    }

    fn keep_question(&mut self, number: u64, line: Line<'a>) -> Result<bool, LineFault>
        ensures state { OnOk result (self.new ≡ record self.old { part = Part.Questions; questions = self.new.questions }) }
        ensures may { OnOk result (MayFollow self.old.part Part.Questions) }
        ensures bad { result ≡ Err LineFault.Bad → ¬ MayFollow self.old.part Part.Questions }
        ensures added { IfOk result (λ kept. kept ≡ true
            → unnumbered self.new.questions ≡ unnumbered self.old.questions ++ line.entry ∷ []) }
        ensures queues { self.new.queues ≡ self.old.queues }
    {
        self.enter(Part::Questions)?;
        Ok(keep(&mut self.questions, number, line))
    }

    /// Goes on to a line of this part.
    fn enter(&mut self, part: Part) -> Result<(), LineFault>
        ensures entered { OnOk result (self.new ≡ record self.old { part = part }) }
        ensures queues { self.new.queues ≡ self.old.queues }
        ensures may { OnOk result (MayFollow self.old.part part) }
        ensures bad { IsErr result → ¬ MayFollow self.old.part part }
        ensures fault { IfErr result (λ fault. fault ≡ LineFault.Bad) }
    {
        match (self.part, part) {
            (Part::Settings, _)
            | (Part::Requests, Part::Requests | Part::Questions)
            | (Part::Questions, Part::Questions) => {
                self.part = part;
                Ok(())
            }
            _ => Err(LineFault::Bad),
        }
    }

    /// Counts a request of its queue, where there is such a queue and the timelines that it names are declared.
    fn count(&mut self, clauses: &ClauseList<'_>) -> Result<(), LineFault>
        ensures counted { self.new ≡ record self.old { depth = self.new.depth } }
        ensures may { OnOk result (MayAsk self.old.queues (read_so_far self.old) clauses.now) }
        ensures bad { result ≡ Err LineFault.Bad → ¬ MayAsk self.old.queues (read_so_far self.old) clauses.now }
        ensures fault { IfErr result (λ fault. fault ≡ LineFault.Bad) }
    {
        let queue = queue_asked(&self.timelines, clauses).ok_or(LineFault::Bad)?;
        if queue >= self.queues {
            return Err(LineFault::Bad);
        }
        let binds = self.binds[queue as usize].saturating_add(1);
        self.binds[queue as usize] = binds;
        self.depth = self.depth.max(binds).min(MAX_DEPTH);
        Ok(())
    }

    /// The bounds of the address space that the script runs on.
    pub fn bounds(&self) -> Bounds
        ensures { result ≡ self.now.bounds }
    {
        self.bounds
    }

    /// The limits of the address space that the script runs on.
    pub fn limits(&self) -> Limits
        ensures { result ≡ self.now.limits }
    {
        self.limits
    }

    /// How many places each queue has: the greatest number of requests on one queue, at least 1 and at most 65,536.
    pub fn depth(&self) -> usize
        ensures value { result ≡ self.now.depth }
        ensures limit { IsFromOneTo most_waiting result }
    {
        self.depth as usize
    }
}

/// Keeps something of the line of this number. Whether there was memory for it.
fn keep<T: Drop>(list: &mut Vec<(u64, T)>, number: u64, item: T) -> bool
    ensures { result ≡ true → unnumbered list.new.items ≡ unnumbered list.old.items ++ item ∷ [] }
{
    list.push((number, item)).is_ok()
}
