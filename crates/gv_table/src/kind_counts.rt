//! How many tables there are of each kind.
ghost use Rattle.std.specs.Prelude.{◌≡◌, ◌+◌, ◌<◌, ◌^◌};
ghost use Rattle.gv_table.specs.Kinds.{Kind, of, none};

/// How many tables of single pages, and how many of other slots.
#[derive(Clone, Copy)]
pub struct KindCounts {
    pub pages: u64,
    pub slots: u64,
}

impl KindCounts {
    /// No table.
    pub(crate) const NONE: KindCounts = KindCounts { pages: 0, slots: 0 };

    /// These and the others.
    #[inline(always)]
    pub(crate) fn with(self, others: KindCounts) -> KindCounts
        requires { (kind : Kind) → of kind self + of kind others < 2 ^ 64 }
        ensures { (kind : Kind) → of kind result ≡ of kind self + of kind others }
    {
        KindCounts {
            pages: self.pages + others.pages,
            slots: self.slots + others.slots,
        }
    }
}
