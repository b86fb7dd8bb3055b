//! Laws of address spaces, each proved once for all callers.
ghost use Rattle.gv_space.specs.Laws.{KeptInAnyOrder};

/// What undo values keep may be given up in any order.
pub fn keeping()
    ensures { KeptInAnyOrder }
{}
