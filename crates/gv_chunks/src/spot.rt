//! An index of the list, with the chunk that is tried first.
ghost use Rattle.std.specs.Prelude.{◌≡◌};

/// An index, and the chunk that is looked in for it. It may be any number: where the index isn't in that chunk it is looked for in all
/// of them, and nothing but time comes of it.
#[derive(Clone, Copy, Debug)]
pub struct Spot {
    pub index: usize,
    pub hint: usize,
}

impl Spot {
    /// An index of which no chunk is known.
    #[inline(always)]
    pub fn anywhere(index: usize) -> Spot
        ensures { result.index ≡ index }
    {
        Spot { index, hint: 0 }
    }

    /// Another index, which is looked for in the same chunk.
    #[inline(always)]
    pub fn at(self, index: usize) -> Spot
        ensures { result.index ≡ index }
    {
        Spot {
            index,
            hint: self.hint,
        }
    }
}
