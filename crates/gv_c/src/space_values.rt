//! What crosses to C of the address space: what addresses reach, mappings, steps and counts.
ghost use Rattle.std.specs.Prelude.{◌≡◌};
ghost use Rattle.gv_c.specs.Values.{c_place, c_mapping, c_rest, c_step, no_mapping, no_uses, bit};

use crate::values::{Buffer, bits_of};
use gv_split::Step;
use gv_types::{Backing, Mapping, PAGE_BYTES};
use gv_vm::{Place, Target};

/// Kinds of what an address or a mapping reaches.
pub const NOTHING: u32 = 0;

pub const IN_BUFFER: u32 = 1;

pub const ZEROS: u32 = 2;

/// What an address reaches, and how many bytes from there on are in the same mapping or hole.
#[repr(C)]
#[derive(Clone, Copy)]
pub struct Translation {
    pub kind: u32,
    pub flags: u32,
    pub run: u64,
    pub buffer: Buffer,
    pub byte: u64,
}

/// A mapping of the list, in bytes.
#[repr(C)]
#[derive(Clone, Copy)]
pub struct ListedMapping {
    pub kind: u32,
    pub flags: u32,
    pub start: u64,
    pub size: u64,
    pub buffer: Buffer,
    pub offset: u64,
}

/// Kinds of steps.
pub const STEP_UNMAP: u32 = 1;

pub const STEP_REMAP: u32 = 2;

pub const STEP_MAP: u32 = 3;

/// A step of an operation.
#[repr(C)]
#[derive(Clone, Copy)]
pub struct SplitStep {
    pub kind: u32,
    pub keep: u32,
    pub mapping: ListedMapping,
    pub prev: ListedMapping,
    pub next: ListedMapping,
}

/// How many tables there are at the levels 4 to 0.
#[repr(C)]
#[derive(Clone, Copy)]
pub struct TableCounts {
    pub tables: [u64; 5],
}

/// A buffer's pages, and how many mappings of it are in the list and kept.
#[repr(C)]
#[derive(Clone, Copy)]
pub struct BufferUses {
    pub pages: u64,
    pub mapped: u64,
    pub kept: u64,
}

impl BufferUses {
    /// No pages and no mappings.
    pub fn none() -> BufferUses
        ensures { result ≡ no_uses }
    {
        BufferUses {
            pages: 0,
            mapped: 0,
            kept: 0,
        }
    }
}

impl Translation {
    pub fn of(place: Option<Place>, run: u64) -> Translation
        ensures { result ≡ c_place place run }
    {
        let Some(Place { target, flags }) = place else {
            return Translation {
                kind: NOTHING,
                flags: 0,
                run,
                buffer: Buffer::none(),
                byte: 0,
            };
        };
        match target {
            Target::Buffer { id, byte } => Translation {
                kind: IN_BUFFER,
                flags: bits_of(flags),
                run,
                buffer: Buffer::of(id),
                byte,
            },
            Target::Zero => Translation {
                kind: ZEROS,
                flags: bits_of(flags),
                run,
                buffer: Buffer::none(),
                byte: 0,
            },
        }
    }
}

impl ListedMapping {
    /// No mapping.
    pub fn none() -> ListedMapping
        ensures { result ≡ no_mapping }
    {
        ListedMapping {
            kind: NOTHING,
            flags: 0,
            start: 0,
            size: 0,
            buffer: Buffer::none(),
            offset: 0,
        }
    }

    pub fn of(mapping: &Mapping) -> ListedMapping
        ensures { result ≡ c_mapping mapping.now }
    {
        let listed = ListedMapping {
            flags: bits_of(mapping.flags),
            start: mapping.range.first() * PAGE_BYTES,
            size: mapping.range.count() * PAGE_BYTES,
            ..ListedMapping::none()
        };
        match mapping.backing {
            Backing::Buffer { id, page } => ListedMapping {
                kind: IN_BUFFER,
                buffer: Buffer::of(id),
                offset: page.wrapping_mul(PAGE_BYTES),
                ..listed
            },
            Backing::Zero => ListedMapping {
                kind: ZEROS,
                ..listed
            },
        }
    }

    /// What is left of a mapping, if anything is.
    fn rest(mapping: &Option<Mapping>) -> ListedMapping
        ensures { result ≡ c_rest mapping.now }
    {
        match mapping {
            Some(mapping) => ListedMapping::of(mapping),
            None => ListedMapping::none(),
        }
    }
}

/// 1 if it is so, else 0.
pub fn bit(is: bool) -> u32
    ensures { result ≡ bit is }
{
    if is { 1 } else { 0 }
}

impl SplitStep {
    pub fn of(step: &Step) -> SplitStep
        ensures { result ≡ c_step step.now }
    {
        match step {
            Step::Unmap { mapping, keep } => SplitStep {
                kind: STEP_UNMAP,
                keep: bit(*keep),
                mapping: ListedMapping::of(mapping),
                prev: ListedMapping::none(),
                next: ListedMapping::none(),
            },
            Step::Remap {
                mapping,
                prev,
                next,
                keep,
            } => SplitStep {
                kind: STEP_REMAP,
                keep: bit(*keep),
                mapping: ListedMapping::of(mapping),
                prev: ListedMapping::rest(prev),
                next: ListedMapping::rest(next),
            },
            Step::Map { mapping } => SplitStep {
                kind: STEP_MAP,
                keep: 0,
                mapping: ListedMapping::of(mapping),
                prev: ListedMapping::none(),
                next: ListedMapping::none(),
            },
        }
    }
}
