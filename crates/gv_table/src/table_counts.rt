//! How many tables stand at each level.
ghost use Rattle.std.specs.Prelude.{◌≡◌, ◌+◌, ◌<◌, ◌≤◌, ℕ, [], ◌∷◌, nat_eq};
ghost use Rattle.gv_types.specs.Page.{PAGES};
ghost use Rattle.gv_table.specs.Levels.{root_level};
ghost use Rattle.gv_table.specs.Counts.{one_if, count_at};

use crate::levels::TOP_LEVEL;

/// How many tables stand at each level, from level 0 on, kept as tables come and go.
#[derive(Drop)]
pub struct TableCounts {
    by_level: [u64; TOP_LEVEL],
}

impl TableCounts {
    /// No table at any level.
    pub fn new() -> TableCounts
        ensures { (target : ℕ) → count_at result target ≡ 0 }
    {
        TableCounts {
            by_level: [0; TOP_LEVEL],
        }
    }

    /// One table more at the level.
    pub fn raise(&mut self, level: usize)
        requires known { level ≤ root_level }
        requires room { count_at self.old level < PAGES }
        ensures { (target : ℕ) → count_at self.new target
            ≡ count_at self.old target + one_if (nat_eq target level) }
    {
        self.by_level[level] += 1;
    }

    /// One table fewer at the level.
    pub fn lower(&mut self, level: usize)
        requires known { level ≤ root_level }
        requires some { 0 < count_at self.old level }
        ensures { (target : ℕ) → count_at self.new target + one_if (nat_eq target level)
            ≡ count_at self.old target }
    {
        self.by_level[level] -= 1;
    }

    /// The counts at the levels 4, 3, 2, 1 and 0.
    pub fn descending(&self) -> [u64; TOP_LEVEL]
        ensures { result ≡ count_at self.now 4 ∷ count_at self.now 3 ∷ count_at self.now 2
            ∷ count_at self.now 1 ∷ count_at self.now 0 ∷ [] }
    {
        let [zero, one, two, three, four] = self.by_level;
        [four, three, two, one, zero]
    }
}
