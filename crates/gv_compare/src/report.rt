//! Two texts compared, and what is written of it.

use crate::fault::{CompareFault, Which};
use crate::listing::{Kind, Listing};
use crate::objects::Objects;
use crate::part::Part;
use crate::walk::{Difference, Walk};
use gv_lines::write_hex;
use gv_types::{Backing, BufferId, Entry, Flags, Mapping, PAGE_BYTES};
use std::alloc::{AllocError, Global};
use std::fmt::Write;

/// Compares two lists of mappings page by page, wherever their mappings begin and end, and writes a line for each run of
/// pages at which they differ, ascending: its first byte, the byte past it, what the first list holds there, a bar, and what
/// the second does, each `NAME OFFSET FLAGS`, `zero FLAGS` or `none`, of the run's first page. The last line tells how many
/// pages differ, which is the answer too.
///
/// A list is what a script's line `map` is answered, or a kernel's `gpuvas`; its lines tell which. Two lists of one kind are
/// compared by the names, or the kernel's addresses, of their buffers. Between a `map` and a `gpuvas` names can't agree: two
/// buffers are taken for one another at the first page that both lists map to buffers that weren't taken for any, so that
/// other names are no difference. There, and between two `gpuvas`, nothing is said of flags.
///
/// A `gpuvas` is of one address space: of several with rows none is taken.
pub fn compare(
    alloc: Global,
    first: &[u8],
    second: &[u8],
    out: &mut String,
) -> Result<u64, CompareFault> {
    compare_of(alloc, first, second, None, out)
}

/// The same, of the address space of this name in each `gpuvas` that names its spaces: by what stands in parentheses in the
/// head, or the head's number, counted from 1.
pub fn compare_of(
    alloc: Global,
    first: &[u8],
    second: &[u8],
    space: Option<&str>,
    out: &mut String,
) -> Result<u64, CompareFault> {
    let mut objects = Objects::new(alloc);
    let lhs = read_part(alloc, &mut objects, Which::First, first, space)?;
    let rhs = read_part(alloc, &mut objects, Which::Second, second, space)?;
    let kinds = (lhs.kind, rhs.kind);
    let mut pair = Pair {
        lhs: lhs.mappings,
        rhs: rhs.mappings,
    };
    if kinds.0 != kinds.1 {
        pair.match_objects(&mut objects);
        make_alike(&mut pair.lhs, &objects);
        make_alike(&mut pair.rhs, &objects);
    }
    let report = Report {
        objects,
        lhs: kinds.0,
        rhs: kinds.1,
    };
    report.write_all(out, Walk::new(&pair.lhs, &pair.rhs))
}

/// The list of one address space of a text.
fn read_part(
    alloc: Global,
    objects: &mut Objects,
    list: Which,
    text: &[u8],
    space: Option<&str>,
) -> Result<Listing, CompareFault> {
    let part = Part::of(text, list, space)?;
    Listing::read(alloc, objects, list, part.text).map_err(|fault| fault.behind(part.lines))
}

/// The mappings of both lists.
#[derive(Drop)]
struct Pair {
    lhs: Vec<Mapping>,
    rhs: Vec<Mapping>,
}

impl Pair {
    /// Takes buffers for one another, each at the first page at which both lists map to buffers that aren't taken for any.
    fn match_objects(&self, objects: &mut Objects) {
        let mut walk = Walk::new(&self.lhs, &self.rhs);
        while let Some(both) = walk.next_both() {
            if let (Some(lhs), Some(rhs)) = (object_of(both.0), object_of(both.1)) {
                objects.pair(lhs, rhs);
            }
        }
    }
}

/// Gives buffers that are taken for one another one number, and leaves out what a `gpuvas` doesn't tell.
fn make_alike(mappings: &mut Vec<Mapping>, objects: &Objects) {
    for mapping in mappings.iter_mut() {
        mapping.flags = Flags { read_only: false };
        if let Backing::Buffer { id, page } = mapping.backing {
            let number = match objects.partner(id.index) {
                Some(partner) => id.index.min(partner),
                None => id.index,
            };
            mapping.backing = Backing::Buffer {
                id: BufferId::new(number, 0),
                page,
            };
        }
    }
}

/// The number of the buffer behind a page.
fn object_of(entry: Option<Entry>) -> Option<u32> {
    match entry?.backing {
        Backing::Buffer { id, .. } => Some(id.index),
        Backing::Zero => None,
    }
}

/// How differences are written: the buffers' names, and the kinds of the two lists.
#[derive(Drop)]
struct Report {
    objects: Objects,
    lhs: Kind,
    rhs: Kind,
}

impl Report {
    /// Writes each difference, and how many pages differ.
    fn write_all(&self, out: &mut String, walk: Walk<'_>) -> Result<u64, CompareFault> {
        let mut walk = walk;
        let mut pages: u64 = 0;
        while let Some(difference) = walk.next_difference() {
            self.write(out, &difference)?;
            pages = pages.saturating_add(difference.range.count());
        }
        match pages {
            1 => out.push_str("1 page differs\n")?,
            _ => writeln!(out, "{pages} pages differ")?,
        }
        Ok(pages)
    }

    /// Writes a difference on a line of its own.
    fn write(&self, out: &mut String, difference: &Difference) -> Result<(), AllocError> {
        write_hex(out, difference.range.first() * PAGE_BYTES)?;
        out.push_str(" ")?;
        write_hex(out, difference.range.end() * PAGE_BYTES)?;
        out.push_str(" ")?;
        self.write_side(out, difference.lhs, self.lhs)?;
        out.push_str(" | ")?;
        self.write_side(out, difference.rhs, self.rhs)?;
        out.push_str("\n")
    }

    /// Writes what a list of this kind holds.
    fn write_side(
        &self,
        out: &mut String,
        entry: Option<Entry>,
        kind: Kind,
    ) -> Result<(), AllocError> {
        match entry {
            Some(entry) => {
                self.write_backing(out, entry.backing, kind)?;
                self.write_flags(out, entry.flags)
            }
            None => out.push_str("none"),
        }
    }

    /// Writes what stands behind a page.
    fn write_backing(
        &self,
        out: &mut String,
        backing: Backing,
        kind: Kind,
    ) -> Result<(), AllocError> {
        match backing {
            Backing::Buffer { id, page } => {
                self.objects.write(out, id.index, kind)?;
                out.push_str(" ")?;
                write_hex(out, page.wrapping_mul(PAGE_BYTES))
            }
            Backing::Zero => out.push_str("zero"),
        }
    }

    /// Writes flags, where both lists tell them.
    fn write_flags(&self, out: &mut String, flags: Flags) -> Result<(), AllocError> {
        if self.lhs == Kind::Dump || self.rhs == Kind::Dump {
            return Ok(());
        }
        out.push_str(if flags.read_only { " ro" } else { " rw" })
    }
}
