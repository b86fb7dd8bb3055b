//! Laws of journals, each proved once for all callers.
ghost use Rattle.gv_journal.specs.Laws.{NewJournalFits, EmptyJournalFits, FitsWithOtherBuffers, FitsWithRoom, ViewOfOthers};

/// When a journal fits a space that it did not change.
pub fn fitting()
    ensures new { NewJournalFits }
    ensures empty { EmptyJournalFits }
    ensures buffers { FitsWithOtherBuffers }
    ensures room { FitsWithRoom }
{}

/// What items say without one of them.
pub fn viewing()
    ensures { ViewOfOthers }
{}
