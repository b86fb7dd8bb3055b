//! Laws of lists and of their trees, proved once for all callers: what a paint after a change of the
//! list may rely on.
ghost use Rattle.gv_table.specs.Laws.{ReplacedListIsAlike, ReplacedListHasPieces, AlikeIsMutual};
ghost use Rattle.gv_table.specs.Laws.{TreesGainAlike};

/// A list with a range replaced is the same outside the range, and has the pieces in it.
pub fn replaces()
    ensures alike { ReplacedListIsAlike }
    ensures both_ways { AlikeIsMutual }
    ensures pieces { ReplacedListHasPieces }
{}

/// Two trees of one list gain the same tables on the way to another list.
pub fn trees()
    ensures { TreesGainAlike }
{}
