//! Laws of lists and of what is put into them, each proved once for all callers.
ghost use Rattle.gv_ranges.specs.Laws.{EditedListSays, EditedListIsViewed, EditedListIsLaidOut};
ghost use Rattle.gv_ranges.specs.Laws.{EditedRunInPlace, UndoneEditIsOld};
ghost use Rattle.gv_ranges.specs.Laws.{RestoredListSays, RestoredListIsLaidOut};
ghost use Rattle.gv_ranges.specs.Laws.{RestoredRunInPlace, UndoneRestoreIsOld, OverlappingRunSays};

/// Edits do to a list what operations do to an address map, in place, and can be taken back.
pub fn edits()
    ensures says { EditedListSays }
    ensures viewed { EditedListIsViewed }
    ensures laid_out { EditedListIsLaidOut }
    ensures in_place { EditedRunInPlace }
    ensures undone { UndoneEditIsOld }
{}

/// A range takes back what older mappings held there, in place, and that can be taken back too.
pub fn restores()
    ensures says { RestoredListSays }
    ensures laid_out { RestoredListIsLaidOut }
    ensures in_place { RestoredRunInPlace }
    ensures undone { UndoneRestoreIsOld }
{}

/// The run that meets a range says all that the list says of the range's pages.
pub fn overlaps()
    ensures { OverlappingRunSays }
{}
