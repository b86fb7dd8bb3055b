//! The numbers that a line by chance has.
use super::Chance;
use crate::shape::PAGE;

/// Addresses and offsets that are seldom right.
pub const ODD_PLACES: [u64; 8] = [
    0,
    1,
    0x800,
    PAGE - 1,
    1 << 48,
    1 << 57,
    (1 << 57) + PAGE,
    u64::MAX - 4_095,
];

/// Lengths that are seldom right. None of them fits the whole space, whose page table would take 3 GB.
pub const ODD_LENGTHS: [u64; 6] = [0, 1, 0x800, 1 << 41, (1 << 57) + PAGE, u64::MAX - 4_095];

/// Numbers of pages that are seldom right.
const ODD_SIZES: [u64; 4] = [0, 1 << 36, (1 << 36) + 1, u64::MAX];

impl Chance {
    /// A number of a line.
    pub fn number(&mut self, letter: char) -> u64 {
        match letter {
            'a' => self.address(),
            'f' => self.offset(),
            'e' => self.entry(),
            'j' => self.random.below(self.sight.jobs.saturating_add(1)),
            'q' => self.queue(),
            'v' => self.value(),
            's' => self.size(),
            'l' => self.limit(4),
            _ => self.limit(12),
        }
    }

    /// A number of pages in bytes, or now and then another number.
    pub fn bytes(&mut self, pages: u64, odd: &[u64]) -> u64 {
        if self.random.is_one_in(60) {
            return self.random.among(odd);
        }
        pages.saturating_mul(PAGE)
    }

    fn address(&mut self) -> u64 {
        let page = self.shape.page(&mut self.random);
        let byte = self.random.below(PAGE);
        self.bytes(page, &ODD_PLACES).saturating_add(byte)
    }

    /// An offset: a map often goes on with the pages of its buffer where others do.
    fn offset(&mut self) -> u64 {
        let units = self.random.below(8);
        let pages = if self.random.is_one_in(2) {
            self.page.saturating_sub(self.shape.base)
        } else {
            self.shape.pages(&mut self.random, units)
        };
        self.bytes(pages, &ODD_PLACES)
    }

    /// The number of an entry, or of one that is not held.
    fn entry(&mut self) -> u64 {
        let held = self.sight.next.saturating_sub(self.sight.first);
        let index = self.random.below(held.saturating_add(1));
        let less = u64::from(self.random.is_one_in(20));
        self.sight.first.saturating_add(index).saturating_sub(less)
    }

    fn queue(&mut self) -> u64 {
        let queues = if self.random.is_one_in(50) { 17 } else { 3 };
        self.random.below(queues)
    }

    fn value(&mut self) -> u64 {
        let low = self.random.below(8);
        self.random.among(&[low, low, low, low, 1 << 40, u64::MAX])
    }

    /// The pages of a buffer.
    fn size(&mut self) -> u64 {
        let units = self.random.below(12).saturating_add(4);
        if self.random.is_one_in(20) {
            return self.random.among(&ODD_SIZES);
        }
        self.shape.pages(&mut self.random, units)
    }

    fn limit(&mut self, most: u64) -> u64 {
        if self.random.is_one_in(100) {
            return 0;
        }
        self.random.below(most.max(1)).saturating_add(1)
    }
}
