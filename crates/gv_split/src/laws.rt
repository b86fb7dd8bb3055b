//! Laws of the steps of an operation, each proved once for all callers.
ghost use Rattle.gv_split.specs.Laws.{StepsMakeTheList, StepsArePresent, UnmapOfBufferIsUnmaps};

/// Steps do to a list what their operation does, and each finds its mapping there at its turn; an unmap of a whole buffer
/// does what the unmaps of its mappings do.
pub fn steps()
    ensures carried_out { StepsMakeTheList }
    ensures present { StepsArePresent }
    ensures unmaps { UnmapOfBufferIsUnmaps }
{}
