//! Laws of the table of buffers, each proved once for all callers.
ghost use Rattle.gv_buffers.specs.Laws.{MadeBufferIsFound, OthersStayWhereOneIsMade};
ghost use Rattle.gv_buffers.specs.Laws.{DeadIdStaysDead, DestroyedIdIsDead};
ghost use Rattle.gv_buffers.specs.Laws.{OthersStayWhereOneIsDestroyed, ChangedBufferIsFound};
ghost use Rattle.gv_buffers.specs.Laws.{LeftBufferIsFound, NoTwoJobsConflict};
ghost use Rattle.gv_buffers.specs.Laws.{CreateMovesNoCount, DestroyMovesNoCount};
ghost use Rattle.gv_buffers.specs.Laws.{JoinMovesNoCount, LeaveMovesNoCount};
ghost use Rattle.gv_buffers.specs.Laws.{LeaveTakesBackJoin, LeaveOfNoUserIsNothing};

/// What an id finds after each change of the table.
pub fn lookups()
    ensures made { MadeBufferIsFound }
    ensures beside_made { OthersStayWhereOneIsMade }
    ensures dead { DeadIdStaysDead }
    ensures destroyed { DestroyedIdIsDead }
    ensures beside_destroyed { OthersStayWhereOneIsDestroyed }
    ensures changed { ChangedBufferIsFound }
    ensures left { LeftBufferIsFound }
{}

/// Neither buffers that are made or destroyed nor jobs that come or go move what an id tells: how
/// many mappings there are of its buffer, and how many pages it has.
pub fn counts()
    ensures create { CreateMovesNoCount }
    ensures destroy { DestroyMovesNoCount }
    ensures join { JoinMovesNoCount }
    ensures leave { LeaveMovesNoCount }
{}

/// A job that used no buffer, joined some and leaves has left the table as it was.
pub fn leaving()
    ensures takes_back { LeaveTakesBackJoin }
    ensures nothing { LeaveOfNoUserIsNothing }
{}

/// Two jobs use one buffer only where both read it.
pub fn reservations()
    ensures { NoTwoJobsConflict }
{}
