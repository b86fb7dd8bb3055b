//! Worked examples of lists in chunks, proved.
ghost use Rattle.gv_chunks.specs.Examples.{ThreeInARow, NoChunkHoldsNothing, RoomOfAChunk};
ghost use Rattle.gv_chunks.specs.Examples.{OneIsMerged, TooMuchForOne, FitIntoOne};

/// Each worked example holds.
pub fn examples()
    ensures row { ThreeInARow }
    ensures none { NoChunkHoldsNothing }
    ensures room { RoomOfAChunk }
    ensures one { OneIsMerged }
    ensures much { TooMuchForOne }
    ensures fit { FitIntoOne }
{}
