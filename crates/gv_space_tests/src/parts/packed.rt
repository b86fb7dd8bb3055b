//! Mappings at the edges, packed and unpacked.
ghost use Rattle.std.specs.Prelude.{◌+◌, ◌≤◌, IfOk};
ghost use Rattle.gv_types.specs.Page.{backing_pages};
ghost use Rattle.gv_types.specs.Mapping.{IsMapping};

use gv_types::{Backing, BufferId, Flags, Mapping, Packed, PageRange, SPACE_PAGES, laws};
use std::test::Fail;

/// No mapping reaches past this page of its buffer.
const BACKING_PAGES: u64 = 1 << 53;

/// `count` pages of zeros, at the page `first`.
fn zeros(first: u64, count: u64, read_only: bool) -> Result<Mapping, &'static str>
    ensures { IfOk result IsMapping }
{
    Ok(Mapping {
        range: PageRange::new(first, count).ok_or("no range")?,
        backing: Backing::Zero,
        flags: Flags { read_only },
    })
}

/// The greatest buffer.
fn greatest() -> BufferId {
    BufferId::new(0xffff_ffff, 0xffff_ffff_ffff_ffff)
}

/// `count` pages of it from its page `page` on, at the page `first`.
fn pages(first: u64, count: u64, page: u64, read_only: bool) -> Result<Mapping, &'static str>
    requires { page + count ≤ backing_pages }
    ensures { IfOk result IsMapping }
{
    Ok(Mapping {
        range: PageRange::new(first, count).ok_or("no range")?,
        backing: Backing::Buffer {
            id: greatest(),
            page,
        },
        flags: Flags { read_only },
    })
}

/// Whether these are pages of it.
fn is_of_greatest(backing: Backing) -> bool {
    match backing {
        Backing::Buffer { id, .. } => id == greatest(),
        Backing::Zero => false,
    }
}

/// Whether the mapping in 32 bytes tells the same as the mapping.
fn is_told(mapping: &Mapping) -> bool
    requires { IsMapping mapping.now }
{
    let packed = Packed::new(mapping);
    packed.mapping() == *mapping
        && packed.first() == mapping.range.first()
        && packed.end() == mapping.range.end()
        && packed.is_of(greatest()) == is_of_greatest(mapping.backing)
        && packed.part(packed.end() - 1) == mapping.part(mapping.range.end() - 1)
        && packed.clip(7, SPACE_PAGES - 1) == clipped(mapping)
}

/// What is left of the mapping between two pages, in 32 bytes.
fn clipped(mapping: &Mapping) -> Option<Packed>
    requires { IsMapping mapping.now }
{
    match mapping.clip(7, SPACE_PAGES - 1) {
        Some(piece) => Some(Packed::new(&piece)),
        None => None,
    }
}

#[test]
fn edges_are_packed(rt: HostRuntime) -> Result<(), Fail> {
    laws::examples();
    let rest = BACKING_PAGES - SPACE_PAGES;
    assert!(rt; is_told(&pages(0, SPACE_PAGES, rest, false)?));
    assert!(rt; is_told(&pages(SPACE_PAGES - 1, 1, BACKING_PAGES - 1, true)?));
    assert!(rt; is_told(&pages(5, (1 << 32) + 3, 0, true)?));
    assert!(rt; is_told(&zeros(0, SPACE_PAGES, true)?));
    assert!(rt; is_told(&zeros(SPACE_PAGES - 1, 1, false)?));
    Ok(())
}
