//! Laws of timelines, each proved once for all callers.
ghost use Rattle.gv_sync.specs.Laws.{LoadKeepsRule, NewTimelinesAgree, RaiseKeepsRule};
ghost use Rattle.gv_sync.specs.Laws.{SplitKeepsRule};
ghost use Rattle.gv_sync.specs.Laws.{NoSeatFromElsewhere, WholeIsTheOnlySeat, WholeRaisedAll};
ghost use Rattle.gv_sync.specs.Laws.{RaisedIsGreatest, RaisedIsReached, RaisedOnceMore};
ghost use Rattle.gv_sync.specs.SeatSteps.{NoRaisesYet, OneMoreRaise};

/// A timeline after a list of raises is the greatest of them, or 0.
pub fn raises()
    ensures greatest { RaisedIsGreatest }
    ensures reached { RaisedIsReached }
    ensures once_more { RaisedOnceMore }
{}

/// The seats' rule holds for new timelines, and each kind of step keeps it, whatever the other
/// threads did: what a seat raised is at most what it has seen, and that at most the number; a
/// number is 0 or what some seat raised it to; the seats' shares are one whole. Seats that were
/// dropped count too.
pub fn steps()
    ensures new { NewTimelinesAgree }
    ensures load { LoadKeepsRule }
    ensures raise { RaiseKeepsRule }
    ensures split { SplitKeepsRule }
{}

/// What follows from shares that are one whole: no seat comes from elsewhere than a split, so a
/// seat whose share is as before was not split, and while the first seat is whole nobody else
/// took a step.
pub fn shares()
    ensures no_more { NoSeatFromElsewhere }
    ensures only { WholeIsTheOnlySeat }
    ensures numbers { WholeRaisedAll }
{}

/// What a seat is after several raises, for a caller that makes them one by one.
pub fn seat_raises()
    ensures none { NoRaisesYet }
    ensures one_more { OneMoreRaise }
{}
