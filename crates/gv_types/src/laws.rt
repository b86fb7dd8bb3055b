//! Worked examples, proved: two mappings packed in 32 bytes, and back.
ghost use Rattle.gv_types.specs.Examples.{BufferIsPacked, ZerosArePacked, BothComeBack, ZerosHaveNoPage};

/// Each worked example holds.
pub fn examples()
    ensures buffer { BufferIsPacked }
    ensures zeros { ZerosArePacked }
    ensures both { BothComeBack }
    ensures no_page { ZerosHaveNoPage }
{}
