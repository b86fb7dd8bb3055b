//! Where a script by chance plays: few pages, so that its ranges meet.
ghost use Rattle.std.specs.Prelude.{◌≤◌, ◌<◌, ◌^◌};

use gv_model::Random;

/// Bytes of a page.
pub const PAGE: u64 = 4_096;

/// How many units there are.
pub const UNITS: u64 = 16;

/// First pages: of the space, and of places where slots of each level end.
const BASES: [u64; 6] = [
    0,
    (1 << 9) - 4,
    (1 << 18) - 4,
    (1 << 27) - 4,
    (1 << 36) - 4,
    (1 << 45) - UNITS,
];

/// Letters that names begin with.
const LETTERS: [&str; 4] = ["b", "zero", "map_ro_", "abcdefghijklm"];

/// What the numbers of a script are chosen around, and what its names begin with.
#[derive(Clone, Copy)]
pub struct Shape {
    pub base: u64,
    pub unit: u64,
    pub letters: &'static str,
}

impl Shape {
    /// A shape by chance.
    pub fn by_chance(random: &mut Random) -> Shape {
        let unit = random.among(&[1, 1, 1, 1, 512, 1 << 18]);
        let base = if unit == 1 { random.among(&BASES) } else { 0 };
        let index = random.below(LETTERS.len() as u64) as usize;
        Shape {
            base,
            unit,
            letters: LETTERS.get(index).copied().unwrap_or("b"),
        }
    }

    /// A number of units in pages, now and then a page more or less where units are larger.
    pub fn pages(&self, random: &mut Random, units: u64) -> u64 {
        let pages = units.saturating_mul(self.unit);
        match random.below(8) {
            0 if self.unit > 1 => pages.saturating_add(1),
            1 if self.unit > 1 => pages.saturating_sub(1),
            _ => pages,
        }
    }

    /// A page by chance.
    pub fn page(&self, random: &mut Random) -> u64 {
        let units = random.below(UNITS);
        self.base.saturating_add(self.pages(random, units))
    }
}
