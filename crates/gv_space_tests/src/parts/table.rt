//! The page table: trees painted to new lists and back, and their spare tables.
ghost use Rattle.std.specs.Prelude.{◌≡◌, IfOk, List, [], OnOk, Some, slice_get};
ghost use Rattle.gv_types.specs.PageRange.{end_of};
ghost use Rattle.gv_types.specs.Operation.{IsPageOp, own_mapping, range_of};
ghost use Rattle.gv_types.specs.Mapping.{buffer_id};
ghost use Rattle.gv_types.specs.declared.mapping.BufferId.{BufferId};
ghost use Rattle.gv_types.specs.declared.mapping.Mapping.{Mapping};
ghost use Rattle.gv_ranges.specs.List.{IsLaidOut};
ghost use Rattle.gv_ranges.specs.Edit.{clipped};
ghost use Rattle.gv_table.specs.BufferNames.{AreNamed};
ghost use Rattle.gv_table.specs.Reads.{AreAlikeOutside};
ghost use Rattle.gv_table.specs.Kinds.{AreEnough};
ghost use Rattle.gv_table.specs.Table.{IsTree, FitsOutside, gained_by};

use super::fixtures::{edit, entry, map, spread, to_vec, unmap};
use gv_ranges::RangeList;
use gv_table::{PageTable, Spares, laws};
use gv_types::{BufferId, Fault, Packed, PageOp, PageRange, SPACE_PAGES};
use std::alloc::Global;
use std::test::Fail;

/// The spares for the operation.
fn spares_for(alloc: Global, table: &PageTable, op: &PageOp) -> Result<Spares, Fault>
    requires { IsPageOp op.now }
    ensures { IfOk result (λ spares. (ms : List Mapping) → IsLaidOut ms
        → FitsOutside ms (range_of op.now) table.now
        → clipped (range_of op.now).first (end_of (range_of op.now)) ms ≡ own_mapping op.now
        → AreEnough spares (gained_by ms table.now)) }
{
    match Packed::own(op) {
        Some(own) => table.spare(alloc, op.range(), &[own]),
        None => table.spare(alloc, op.range(), &[]),
    }
}

/// How many tables stand at each level.
type Tables = [u64; 5];

/// Paints the tree to the new list, back to the old one with just the tables that it lost, and to
/// the new one again: the tables after each of these.
fn sway(
    table: &mut PageTable,
    old: &RangeList,
    new: &RangeList,
    range: PageRange,
    spares: &mut Spares,
) -> [Tables; 3]
    requires old { IsLaidOut old.now.mappings }
    requires new { IsLaidOut new.now.mappings }
    requires alike { AreAlikeOutside range old.now.mappings new.now.mappings }
    requires old_named { AreNamed table.old.names old.now.mappings }
    requires new_named { AreNamed table.old.names new.now.mappings }
    requires tree { IsTree old.now.mappings table.old }
    requires enough { AreEnough spares.old (gained_by new.now.mappings table.old) }
    ensures tree { IsTree new.now.mappings table.new }
    ensures names { table.new.names ≡ table.old.names }
{
    let (position, _) = new.overlapping(range);
    let mut lost = Spares::new();
    table.paint(new, range, position, spares, &mut lost);
    let after = table.tables();
    let (back_from, _) = old.overlapping(range);
    let mut gained = Spares::new();
    table.paint(old, range, back_from, &mut lost, &mut gained);
    let back = table.tables();
    table.paint(new, range, position, &mut gained, &mut lost);
    [after, back, table.tables()]
}

/// Changes the list and its twin by the operation, and the tree with them: the tables of the new list, the old one and the new one.
fn apply(
    alloc: Global,
    list: &mut RangeList,
    twin: &mut RangeList,
    table: &mut PageTable,
    op: &PageOp,
) -> Result<[Tables; 3], Fail>
    requires operation { IsPageOp op.now }
    requires twins { twin.old.mappings ≡ list.old.mappings }
    requires tree { IsTree list.old.mappings table.old }
    requires named { AreNamed table.old.names list.old.mappings }
    requires own { AreNamed table.old.names (own_mapping op.now) }
    ensures named { OnOk result (AreNamed table.new.names list.new.mappings) }
    ensures names { table.new.names ≡ table.old.names }
    ensures twins { OnOk result (twin.new.mappings ≡ list.new.mappings) }
    ensures tree { OnOk result (IsTree list.new.mappings table.new) }
{
    let mut spares = spares_for(alloc, table, op)?;
    edit(alloc, list, op)?;
    let seen = sway(table, twin, list, op.range(), &mut spares);
    edit(alloc, twin, op)?;
    Ok(seen)
}

/// A map, or else an unmap, of so many pages from the first on, and how many tables stand at each level then.
type Row = (bool, u64, u64, Tables);

/// It is of the buffer that the tree has to name.
fn map_or_unmap(is_map: bool, first: u64, count: u64) -> Result<PageOp, &'static str>
    ensures op { IfOk result IsPageOp }
    ensures own { IfOk result (λ op. (names : List BufferId) → slice_get names 1 ≡ Some (buffer_id 1 1)
        → AreNamed names (own_mapping op)) }
{
    if is_map {
        if count > MOST_PAGES {
            return Err("more pages than a buffer has");
        }
        map(first, count, 1, 0)
    } else {
        unmap(first, count)
    }
}

/// A buffer has no more pages.
const MOST_PAGES: u64 = 1 << 36;

/// A tree of no mapping that names the buffer of the rows.
fn named_tree(alloc: Global) -> Result<PageTable, Fault>
    ensures tree { IfOk result (IsTree []) }
    ensures named { IfOk result (λ table. slice_get table.names 1 ≡ Some (buffer_id 1 1)) }
{
    let mut table = PageTable::new(alloc);
    table.reserve_name(1)?;
    table.name(BufferId::new(1, 1));
    Ok(table)
}

/// Plays a row on a list, its twin and their tree, which had so many tables.
fn play_row(
    alloc: Global,
    list: &mut RangeList,
    twin: &mut RangeList,
    table: &mut PageTable,
    row: &Row,
    before: Tables,
) -> Result<(), Fail>
    requires twins { twin.old.mappings ≡ list.old.mappings }
    requires tree { IsTree list.old.mappings table.old }
    requires named { AreNamed table.old.names list.old.mappings }
    requires buffer { slice_get table.old.names 1 ≡ Some (buffer_id 1 1) }
    ensures twins { OnOk result (twin.new.mappings ≡ list.new.mappings) }
    ensures tree { OnOk result (IsTree list.new.mappings table.new) }
    ensures named { OnOk result (AreNamed table.new.names list.new.mappings) }
    ensures names { table.new.names ≡ table.old.names }
{
    let (is_map, first, count, wanted) = *row;
    let op = &map_or_unmap(is_map, first, count)?;
    let seen = apply(alloc, list, twin, table, op)?;
    if seen != [wanted, before, wanted] {
        return Err(Fail::new(format_args!("{seen:?}")));
    }
    Ok(())
}

/// Plays the rows on a tree of no mapping.
fn play(alloc: Global, rows: &[Row]) -> Result<PageTable, Fail> {
    let mut list = RangeList::new(alloc);
    let mut twin = RangeList::new(alloc);
    let mut table = named_tree(alloc)?;
    let mut before = [0; 5];
    for row in rows {
        play_row(alloc, &mut list, &mut twin, &mut table, row, before)?;
        before = row.3;
    }
    Ok(table)
}

#[test]
fn laws_hold(_rt: HostRuntime) {
    laws::replaces();
    laws::trees();
}

const LARGE: [Row; 2] = [
    (true, 0, 262_144, [1, 1, 1, 0, 0]),
    (false, 0, 1, [1, 1, 1, 1, 1]),
];

#[test]
fn one_large_mapping(rt: HostRuntime) -> Result<(), Fail> {
    let table = play(rt.alloc(), &LARGE)?;
    let found = [table.walk(0), table.walk(262_143), table.walk(u64::MAX)];
    assert_eq!(rt; found, [None, Some(entry(262_143)), None]);
    Ok(())
}

const ALL_SIZES: [Row; 9] = [
    (true, 0, 65_536, [1, 1, 1, 1, 0]),
    (false, 0, 65_536, [0, 0, 0, 0, 0]),
    (true, 0x1ff, 2, [1, 1, 1, 1, 2]),
    (false, 0x1ff, 2, [0, 0, 0, 0, 0]),
    (true, 0, 512, [1, 1, 1, 1, 0]),
    (false, 7, 1, [1, 1, 1, 1, 1]),
    (true, 0, 512, [1, 1, 1, 1, 0]),
    (true, (1 << 45) - 1, 1, [1, 2, 2, 2, 1]),
    (false, 0, 1 << 37, [1, 1, 1, 1, 1]),
];

#[test]
fn tables_come_and_go(rt: HostRuntime) -> Result<(), Fail> {
    play(rt.alloc(), &ALL_SIZES)?;
    Ok(())
}

/// More tables than a drop that calls itself for each could give back on a test's stack. Each stands for a mapping of one
/// page, in 512 pages of its own.
const LONG_CHAIN: u32 = 30_000;

#[test]
fn long_chain_of_spares(rt: HostRuntime) -> Result<(), Fail> {
    let alloc = rt.alloc();
    let list = spread(alloc, LONG_CHAIN, 512)?;
    let range = PageRange::between(0, SPACE_PAGES);
    let mappings = to_vec(alloc, &list)?;
    drop(PageTable::new(alloc).spare(alloc, range, &mappings)?);
    Ok(())
}

#[test]
fn nothing_is_spared_for_nothing(rt: HostRuntime) -> Result<(), Fail> {
    let alloc = rt.alloc();
    drop(Spares::new());
    let table = PageTable::new(alloc);
    let range = PageRange::between(0, SPACE_PAGES);
    drop(table.spare(alloc, range, &[])?);
    Ok(())
}
