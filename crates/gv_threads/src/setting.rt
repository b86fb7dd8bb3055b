//! The lines of the first part of a threads script, read.
ghost use Rattle.std.specs.Prelude.{◌≡◌, ◌++◌, ◌∷◌, [], Err, IfOk, IsErr, IsSome, OnOk};
ghost use Rattle.gv_types.specs.Limits.{IsWithin};
ghost use Rattle.gv_session.specs.Line.{MaySetLimits, line_limits};
ghost use Rattle.gv_threads.specs.Parts.{areas_in, areas_of, last_of, limits_in, settings_in, timelines_in};
ghost use Rattle.gv_threads.specs.ReadSoFar.{MaySet, read_so_far, stages_in};

use crate::script::ThreadsScript;
use gv_lines::{Line, Name, NamedPoint};
use gv_text::{LineFault, Stage, point_named};
use gv_types::{Bounds, Limits, MAX_TOLD};

/// What a line of the first part does when the script begins.
#[derive(Drop)]
pub enum SetupLine {
    /// A setting or a timeline, which stands as soon as it is read.
    AlreadySet,
    Buffer { name: Name, pages: u64 },
    Raise { point: NamedPoint },
}

impl<'a> ThreadsScript<'a> {
    /// Reads a line of the first part: settings and timelines stand from here on.
    pub fn set(&mut self, line: Line<'a>) -> Result<SetupLine, LineFault>
        ensures done { IfOk result (λ setting. settings_in line.entry ≡ setting ∷ []) }
        ensures state { OnOk result (self.new ≡ record self.old {
          stage = last_of self.old.stage (stages_in line.entry);
          bounds = last_of self.old.bounds (areas_in line.entry);
          limits = last_of self.old.limits (limits_in line.entry);
          timelines = self.old.timelines ++ timelines_in line.entry;
        }) }
        ensures may { OnOk result (MaySet (read_so_far self.old) line.entry) }
        ensures bad { result ≡ Err LineFault.Bad → ¬ MaySet (read_so_far self.old) line.entry }
        ensures queues { self.new.queues ≡ self.old.queues }
    {
        let stage = self.stage;
        self.stage = Stage::Begun;
        match line {
            Line::Space {
                start,
                len,
                reserved_start,
                reserved_len,
            } => {
                self.set_bounds(
                    stage,
                    Bounds::from_bytes(start, len, reserved_start, reserved_len),
                )
            }
            Line::Limits {
                buffers,
                mappings,
                items,
            } => self.set_limits(stage, buffers, mappings, items),
            Line::Timeline { name } => {
                self.timelines.add(name)?;
                Ok(SetupLine::AlreadySet)
            }
            Line::Buffer { name, pages } => Ok(SetupLine::Buffer { name, pages }),
            Line::Raise { point } => {
                point_named(&self.timelines, &point).ok_or(LineFault::Bad)?;
                Ok(SetupLine::Raise { point })
            }
            _ => Err(LineFault::Bad),
        }
    }

    /// Sets the bounds, where there are such bounds and no other line stands before.
    fn set_bounds(&mut self, stage: Stage, bounds: Option<Bounds>) -> Result<SetupLine, LineFault>
        ensures done { IfOk result (λ setting. setting ≡ SetupLine.AlreadySet) }
        ensures state { OnOk result (self.new
            ≡ record self.old { stage = Stage.Bounded; bounds = last_of self.old.bounds (areas_of bounds) }) }
        ensures may { OnOk result ((stage ≡ Stage.Fresh) × IsSome bounds) }
        ensures bad { IsErr result → ¬ ((stage ≡ Stage.Fresh) × IsSome bounds) }
        ensures queues { self.new.queues ≡ self.old.queues }
    {
        if stage != Stage::Fresh {
            return Err(LineFault::Bad);
        }
        self.stage = Stage::Bounded;
        self.bounds = bounds.ok_or(LineFault::Bad)?;
        Ok(SetupLine::AlreadySet)
    }

    /// Sets the limits, where there are such limits and no line stands before but one of bounds.
    fn set_limits(
        &mut self,
        stage: Stage,
        buffers: u64,
        mappings: u64,
        items: u64,
    ) -> Result<SetupLine, LineFault>
        ensures done { IfOk result (λ setting. setting ≡ SetupLine.AlreadySet) }
        ensures state { OnOk result (self.new ≡ record self.old { limits = line_limits buffers mappings items }) }
        ensures may { OnOk result (MaySetLimits stage × IsWithin (line_limits buffers mappings items)) }
        ensures bad { IsErr result → ¬ (MaySetLimits stage × IsWithin (line_limits buffers mappings items)) }
        ensures queues { self.new.queues ≡ self.old.queues }
    {
        if stage == Stage::Begun {
            return Err(LineFault::Bad);
        }
        self.limits = Limits::new(buffers, mappings, items, MAX_TOLD).ok_or(LineFault::Bad)?;
        Ok(SetupLine::AlreadySet)
    }
}
