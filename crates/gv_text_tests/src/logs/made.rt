//! Logs by chance, and addresses to ask of them.

use crate::logs::forms::{Numbers, write_form};
use gv_model::Random;
use std::alloc::{AllocError, Global};

/// Where memory lies, where sparse ranges do, and the last 43 pages of RADV's addresses.
const MEMORY: u64 = 0x1_0000;

const SPARSE: u64 = 0x80_0000;

const LAST: u64 = 0xffff_fffd_5000;

/// Addresses at the edges of those areas, where nothing ever is, beyond what RADV cuts, and past the address space.
const EDGES: [u64; 16] = [
    0,
    0xffff,
    MEMORY,
    0x1_3fff,
    0x1_4000,
    0x4_8000,
    0x7f_ffff,
    SPARSE,
    0x80_1000,
    0x90_0000,
    0x7000_0000,
    LAST,
    0xffff_ffff_f000,
    0xffff_8000_0001_4010,
    0x200_0000_0000_0000,
    u64::MAX,
];

/// So many more are asked, in the areas.
const INSIDE: u64 = 16;

/// Where a sparse range may lie.
const AREAS: [u64; 6] = [MEMORY, SPARSE, SPARSE, SPARSE, SPARSE, LAST];

/// Lines of RADV's: memory is made or freed, sparse ranges are made or go, and parts of them are bound to memory or unbound.
pub const OF_RADV: &[&str] = &[
    "timestamp=$l, VA=$M-$N, destroyed=0, is_virtual=0\n",
    "timestamp=$l, VA=$M-$N, destroyed=0, is_virtual=0\n",
    "timestamp=$l, VA=$M-$N, destroyed=1, is_virtual=0\n",
    "timestamp=$l, VA=$M-$N, destroyed=1, is_virtual=0\n",
    "timestamp=$l, VA=$S-$E, destroyed=0, is_virtual=1\n",
    "timestamp=$l, VA=$S-$E, destroyed=1, is_virtual=1\n",
    "timestamp=$l, VA=$S-$E, mapped_to=0000000000000000\n",
    "timestamp=$l, VA=$S-$E, mapped_to=$T\n",
    "timestamp=$l, VA=$S-$E, mapped_to=$T\n",
    "timestamp=$l, VA=$S-$E, mapped_to=$T\n",
    "timestamp=$l, VA=$S-$E, mapped_to=$T\n",
    "timestamp=$l, VA=$S-$E, mapped_to=$T\n",
];

/// Events of amdgpu's, on a few objects and on none.
pub const OF_AMDGPU: &[&str] = &[
    "game-1 [000] $l.5: amdgpu_bo_create: bo=0x$o, pages=$p, type=1\n",
    "game-1 [000] $l.5: amdgpu_vm_bo_map: bo=0x$o, start=$F, last=$G, offset=$O, flags=30\n",
    "game-1 [000] $l.5: amdgpu_vm_bo_map: bo=0x$o, start=$F, last=$G, offset=$O, flags=30\n",
    "game-1 [000] $l.5: amdgpu_vm_bo_map: bo=0x$o, start=$F, last=$G, offset=$O, flags=70\n",
    "game-1 [000] $l.5: amdgpu_vm_bo_map: bo=0x$o, start=$F, last=$G, offset=$O, flags=70\n",
    "game-1 [000] $l.5: amdgpu_vm_bo_map: bo=0x$o, start=$F, last=$G, offset=$O, flags=70\n",
    "game-1 [000] $l.5: amdgpu_vm_bo_unmap: bo=0x$o, start=$F, last=$G, offset=$O, flags=30\n",
    "game-1 [000] $l.5: amdgpu_vm_bo_unmap: bo=0x$o, start=$F, last=$G, offset=$O, flags=70\n",
];

/// Events of xe's, on a few VMAs.
pub const OF_XE: &[&str] = &[
    "game-1 [000] $l.5: xe_vm_free: vm=00000000aa, asid=0x00021\n",
    "game-1 [000] $l.5: xe_vma_bind: vma=f$v, asid=0x00021, start=0x$B, end=0x$D, userptr=0x0,\n",
    "game-1 [000] $l.5: xe_vma_bind: vma=f$v, asid=0x00021, start=0x$B, end=0x$D, userptr=0x0,\n",
    "game-1 [000] $l.5: xe_vma_bind: vma=f$v, asid=0x00021, start=0x$B, end=0x$D, userptr=0x0,\n",
    "game-1 [000] $l.5: xe_vma_bind: vma=f$v, asid=0x00021, start=0x$B, end=0x$D, userptr=0x0,\n",
    "game-1 [000] $l.5: xe_vma_bind: vma=f$v, asid=0x00021, start=0x$B, end=0x$D, userptr=0x0,\n",
    "game-1 [000] $l.5: xe_vma_bind: vma=f$v, asid=0x00021, start=0x$B, end=0x$D, userptr=0x0,\n",
    "game-1 [000] $l.5: xe_vma_bind: vma=f$v, asid=0x00021, start=0x$B, end=0x$D, userptr=0x0,\n",
    "game-1 [000] $l.5: xe_vma_bind: vma=f$v, asid=0x00021, start=0x$B, end=0x$D, userptr=0x0,\n",
    "game-1 [000] $l.5: xe_vma_bind: vma=f$v, asid=0x00021, start=0x$B, end=0x$D, userptr=0x0,\n",
    "game-1 [000] $l.5: xe_vma_bind: vma=f$v, asid=0x00021, start=0x$B, end=0x$D, userptr=0x0,\n",
    "game-1 [000] $l.5: xe_vma_unbind: vma=f$v, asid=0x00021, start=0x$B, end=0x$D, userptr=0x0,\n",
    "game-1 [000] $l.5: xe_vma_unbind: vma=f$v, asid=0x00021, start=0x$B, end=0x$D, userptr=0x0,\n",
    "game-1 [000] $l.5: xe_vma_unbind: vma=f$v, asid=0x00021, start=0x$B, end=0x$D, userptr=0x0,\n",
    "game-1 [000] $l.5: xe_vma_unbind: vma=f$v, asid=0x00021, start=0x$B, end=0x$D, userptr=0x0,\n",
    "game-1 [000] $l.5: xe_vma_unbind: vma=f$v, asid=0x00021, start=0x$B, end=0x$D, userptr=0x0,\n",
];

/// Numbers by chance: of the line of this number, where a range began at the last.
#[derive(Drop)]
pub struct RandomLog {
    pub random: Random,
    pub line: u64,
    pub last: u64,
}

impl RandomLog {
    /// Those of a seed.
    pub fn new(seed: u64) -> RandomLog {
        RandomLog {
            random: Random::new(seed),
            line: 0,
            last: 0,
        }
    }

    /// Writes so many more lines by chance.
    pub fn write_lines(
        &mut self,
        log: &mut String,
        forms: &[&str],
        lines: u64,
    ) -> Result<(), AllocError> {
        for _ in 0..lines {
            let index = self.random.below((forms.len() as u64).max(1));
            let form = forms.get(index as usize).copied().unwrap_or("");
            write_form(log, form, self)?;
            self.line = self.line.saturating_add(1);
        }
        Ok(())
    }

    /// The addresses to ask of a log.
    pub fn addresses(&mut self, alloc: Global) -> Result<Vec<u64>, AllocError> {
        let mut addresses = Vec::from_slice(alloc, &EDGES)?;
        for _address in 0..INSIDE {
            let area = self.random.among(&[MEMORY, MEMORY, SPARSE, LAST]);
            let byte = self.random.below(0x2_8000);
            addresses.push(area.wrapping_add(byte))?;
        }
        Ok(addresses)
    }
}

/// What a number begins at, before one by chance is added.
#[derive(Clone, Copy)]
enum Start {
    /// This number.
    Here(u64),
    /// The page behind the last number, or the last byte before that.
    Next(u64),
    /// So many bytes behind the last number.
    Past(u64),
    /// One of the areas.
    Area,
}

/// What letters stand for: what a number begins at, and so many times a number below a bound.
const LETTERS: &[(u8, Start, u64, u64)] = &[
    (b'M', Start::Here(MEMORY), 0x4000, 12),
    (b'B', Start::Here(MEMORY), 0x4000, 12),
    (b'N', Start::Next(0), 0x1000, 8),
    (b'S', Start::Area, 0x1000, 32),
    (b'E', Start::Next(0), 0x1000, 12),
    (b'T', Start::Here(MEMORY), 0x1000, 56),
    (b'D', Start::Past(0xfff), 0x1000, 8),
    (b'F', Start::Here(0x10), 1, 40),
    (b'G', Start::Past(0), 1, 8),
    (b'O', Start::Here(0), 0x1000, 16),
    (b'o', Start::Here(0), 1, 5),
    (b'p', Start::Here(1), 1, 24),
    (b'v', Start::Here(0), 1, 6),
    (b'C', Start::Here(0x20_0000), 0x1000, 8),
    (b'X', Start::Next(1), 0, 1),
    (b'H', Start::Here(0), 1, 8),
    (b'I', Start::Past(0), 1, 2),
    (b'i', Start::Here(0), 1, 9),
    (b's', Start::Here(0), 1, 4),
    (b'q', Start::Here(2), 1, 4),
    (b'w', Start::Here(0), 1, 3),
];

impl RandomLog {
    /// Where a number begins.
    fn first(&mut self, start: Start) -> u64 {
        match start {
            Start::Here(number) => number,
            Start::Next(less) => (self.last & !0xfff).wrapping_add(0x1000).wrapping_sub(less),
            Start::Past(more) => self.last.wrapping_add(more),
            Start::Area => self.random.among(&AREAS),
        }
    }
}

impl Numbers for RandomLog {
    /// Ranges begin at few places and overlap; seldom they begin behind their page's first byte.
    fn number(&mut self, letter: u8) -> u64 {
        for (other, start, step, bound) in LETTERS {
            if *other == letter {
                let far = self.random.below((*bound).max(1)).wrapping_mul(*step);
                let is_shifted = b"BST".contains(&letter) && self.random.is_one_in(16);
                let shift = if is_shifted { 0x800 } else { 0 };
                self.last = self.first(*start).wrapping_add(far).wrapping_add(shift);
                return self.last;
            }
        }
        self.line
    }
}
