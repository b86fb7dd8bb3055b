//! Where the mappings of a buffer begin, as the table of first pages keeps it.

use gv_buffers::FirstPageTable;
use std::alloc::Global;
use std::test::Fail;

/// So many mappings a test counts at most.
const MANY: u64 = 100;

/// A mapping of an index comes at a page, or one leaves: the pages at which those of the index begin then.
fn places_after(
    alloc: Global,
    table: &mut FirstPageTable,
    index: u32,
    comes: bool,
    page: u64,
) -> Option<&[u64]> {
    if table.reserve(alloc, index).is_err() || table.count(index) >= MANY {
        return None;
    }
    if comes {
        table.add_page(index, page);
    } else {
        table.remove_page(index, page);
    }
    Some(table.first_pages(index))
}

/// Whether a mapping comes or leaves, at which page, and the first pages then.
const MOVES: [(bool, u64, &[u64]); 14] = [
    (true, 5, &[5]),
    (true, 2, &[2, 5]),
    (true, 9, &[2, 5, 9]),
    (false, 5, &[2, 9]),
    (true, 2, &[2, 2, 9]),
    (false, 2, &[2, 9]),
    // not one of these first pages: none is known until it has no mapping
    (false, 7, &[]),
    (true, 3, &[]),
    (false, 3, &[]),
    (false, 9, &[]),
    (true, 4, &[4]),
    (true, 6, &[4, 6]),
    (true, 1, &[1, 4, 6]),
    (true, 8, &[1, 4, 6, 8]),
];

#[test]
fn places_of_mappings(rt: HostRuntime) {
    let alloc = rt.alloc();
    let mut table = FirstPageTable::new(alloc);
    for (comes, page, wanted) in &MOVES {
        let first_pages = places_after(alloc, &mut table, 1, *comes, *page);
        assert_eq!(rt; first_pages, Some(*wanted));
    }
    // no other index knows of them
    assert!(rt; table.first_pages(0).is_empty() && table.first_pages(2).is_empty());
    assert_eq!(rt; table.count(1), 4);
    table.shrink();
    assert_eq!(rt; table.first_pages(1), [1, 4, 6, 8].as_slice());
}

/// So many mappings come, each behind the ones before, with room asked for it or not: how many first pages are known then.
fn known_after(alloc: Global, many: u64, is_asked: bool) -> Result<usize, Fail> {
    let mut table = FirstPageTable::new(alloc);
    table.reserve(alloc, 0)?;
    for page in 0..many {
        if is_asked {
            table.make_room(0, 1)?;
        }
        let _ = places_after(alloc, &mut table, 0, true, page);
    }
    Ok(table.first_pages(0).len())
}

/// How many come, whether room is asked for, and how many are known.
const KNOWN: [(u64, bool, usize); 5] = [
    (4, false, 4),
    (5, false, 0),
    (5, true, 5),
    (64, true, 64),
    (65, true, 0),
];

#[test]
fn as_many_places_as_are_kept(rt: HostRuntime) -> Result<(), Fail> {
    for (many, is_asked, wanted) in &KNOWN {
        assert_eq!(rt; known_after(rt.alloc(), *many, *is_asked)?, *wanted);
    }
    Ok(())
}
