//! The list with its page table, edited.
ghost use Rattle.std.specs.Prelude.{◌≡◌, ◌+◌, ◌<◌, ◌≤◌, List, length, false, IsTrue, IfOk, IfSome, IsOkUnless, OnOk, OnErr};
ghost use Rattle.std.specs.List.{splice};
ghost use Rattle.gv_types.specs.PageRange.{end_of};
ghost use Rattle.gv_types.specs.declared.mapping.Mapping.{Mapping};
ghost use Rattle.gv_ranges.specs.List.{AreEnded, IsLaidOut};
ghost use Rattle.gv_ranges.specs.Edit.{clipped};
ghost use Rattle.gv_table.specs.Kinds.{none, AreEnough};
ghost use Rattle.gv_table.specs.BufferNames.{AreNamed};
ghost use Rattle.gv_table.specs.Patch.{HasMappingAt};
ghost use Rattle.gv_table.specs.Reads.{AreAlikeOutside};
ghost use Rattle.gv_table.specs.Table.{IsTree, FitsOutside, gained_by};
ghost use Rattle.gv_table.specs.declared.page_table.PageTable.{PageTable};

use super::ListWithTable;
use gv_chunks::Spot;
use gv_ranges::RangeList;
use gv_table::{PageTable, Spares};
use gv_types::{Fault, Packed, PageRange};
use std::alloc::Global;

impl ListWithTable {
    /// Replaces `out_count` mappings from a spot on by `pieces`, and paints the range. The mappings before it have to
    /// end before the range, and the list to stay as it is outside the range, and to have the pieces `inside` in it: nothing is searched.
    /// It answers the tables that left the tree: just those that the old list needs to be painted back. It takes memory for the
    /// tables that the tree may need, and before the first change. `OutOfMemory` where the system refuses it.
    pub fn edit(
        &mut self,
        alloc: Global,
        range: PageRange,
        spot: Spot,
        out_count: usize,
        pieces: &[Packed],
        inside: &[Packed],
    ) -> Result<Spares, Fault>
        requires within { spot.index + out_count ≤ length self.old.mappings }
        requires ended { AreEnded self.old.mappings range.first spot.index }
        requires room { length self.old.mappings + length pieces.now ≤ self.old.room + out_count }
        requires laid_out { IsLaidOut
            (splice self.old.mappings spot.index (spot.index + out_count) pieces.now) }
        requires alike { AreAlikeOutside range self.old.mappings
            (splice self.old.mappings spot.index (spot.index + out_count) pieces.now) }
        requires inside { clipped range.first (end_of range)
            (splice self.old.mappings spot.index (spot.index + out_count) pieces.now) ≡ inside.now }
        requires sorted { IsLaidOut inside.now }
        requires named_inside { AreNamed self.old.names inside.now }
        requires named { AreNamed self.old.names (splice self.old.mappings spot.index (spot.index + out_count) pieces.now) }
        ensures mappings { OnOk result (self.new.mappings
            ≡ splice self.old.mappings spot.index (spot.index + out_count) pieces.now) }
        ensures tables { IfOk result (λ tables. (table : PageTable) → IsTree self.new.mappings table
            → gained_by self.old.mappings table ≡ tables) }
        ensures err { IsOkUnless result Fault.OutOfMemory }
        ensures unchanged { OnErr result (self.new ≡ self.old) }
        ensures room { self.new.room ≡ self.old.room }
        ensures names { self.new.names ≡ self.old.names }
    {
        if self.edit_ahead(range, spot, out_count, pieces, inside) {
            return Ok(Spares::new());
        }
        self.edit_anywhere(alloc, range, spot, out_count, pieces, inside)
    }

    /// The same, where the range lies in one table that stands and is to stay, and no table is gained or lost: whether it did, and if not,
    /// nothing changed. It takes no memory. The page table is painted ahead of the list.
    #[inline(always)]
    fn edit_ahead(
        &mut self,
        range: PageRange,
        spot: Spot,
        out_count: usize,
        pieces: &[Packed],
        inside: &[Packed],
    ) -> bool
        requires within { spot.index + out_count ≤ length self.old.mappings }
        requires room { length self.old.mappings + length pieces.now ≤ self.old.room + out_count }
        requires laid_out { IsLaidOut
            (splice self.old.mappings spot.index (spot.index + out_count) pieces.now) }
        requires alike { AreAlikeOutside range self.old.mappings
            (splice self.old.mappings spot.index (spot.index + out_count) pieces.now) }
        requires inside { clipped range.first (end_of range)
            (splice self.old.mappings spot.index (spot.index + out_count) pieces.now)
            ≡ clipped range.first (end_of range) inside.now }
        requires sorted { IsLaidOut inside.now }
        requires named_inside { AreNamed self.old.names inside.now }
        requires named { AreNamed self.old.names (splice self.old.mappings spot.index (spot.index + out_count) pieces.now) }
        ensures not { result ≡ false → self.new ≡ self.old }
        ensures mappings { IsTrue result → self.new.mappings
            ≡ splice self.old.mappings spot.index (spot.index + out_count) pieces.now }
        ensures tables { IsTrue result → (table : PageTable) → IsTree self.new.mappings table
            → gained_by self.old.mappings table ≡ none }
        ensures room { self.new.room ≡ self.old.room }
        ensures names { self.new.names ≡ self.old.names }
    {
        // Tells that the list is laid out.
        let _len = self.list.len();
        let Some(some) = pages_of_one(&self.list, spot, out_count, pieces) else {
            return false;
        };
        if !self.table.try_paint_within(range, inside, some) {
            return false;
        }
        self.list.splice_at(spot, out_count, pieces);
        true
    }

    /// The same, wherever the range lies. Not inlined: nearly every edit takes the fast path, whose frame stays small so.
    #[inline(never)]
    fn edit_anywhere(
        &mut self,
        alloc: Global,
        range: PageRange,
        spot: Spot,
        out_count: usize,
        pieces: &[Packed],
        inside: &[Packed],
    ) -> Result<Spares, Fault>
        requires within { spot.index + out_count ≤ length self.old.mappings }
        requires ended { AreEnded self.old.mappings range.first spot.index }
        requires room { length self.old.mappings + length pieces.now ≤ self.old.room + out_count }
        requires laid_out { IsLaidOut
            (splice self.old.mappings spot.index (spot.index + out_count) pieces.now) }
        requires alike { AreAlikeOutside range self.old.mappings
            (splice self.old.mappings spot.index (spot.index + out_count) pieces.now) }
        requires inside { clipped range.first (end_of range)
            (splice self.old.mappings spot.index (spot.index + out_count) pieces.now) ≡ inside.now }
        requires sorted { IsLaidOut inside.now }
        requires named { AreNamed self.old.names (splice self.old.mappings spot.index (spot.index + out_count) pieces.now) }
        ensures mappings { OnOk result (self.new.mappings
            ≡ splice self.old.mappings spot.index (spot.index + out_count) pieces.now) }
        ensures tables { IfOk result (λ tables. (table : PageTable) → IsTree self.new.mappings table
            → gained_by self.old.mappings table ≡ tables) }
        ensures err { IsOkUnless result Fault.OutOfMemory }
        ensures unchanged { OnErr result (self.new ≡ self.old) }
        ensures room { self.new.room ≡ self.old.room }
        ensures names { self.new.names ≡ self.old.names }
    {
        // Tells that the list is laid out.
        let _len = self.list.len();
        let spares = self.table.spare(alloc, range, inside)?;
        self.list.splice_at(spot, out_count, pieces);
        Ok(paint(&mut self.table, &self.list, range, spot.index, spares))
    }

    /// Replaces `out_count` mappings from a spot on by `pieces`, and paints the range, as `edit` does, with tables that are enough for
    /// it. Those that leave the tree are given back to the system. It takes no memory.
    pub fn put_back(
        &mut self,
        range: PageRange,
        spot: Spot,
        out_count: usize,
        pieces: &[Packed],
        spares: Spares,
    )
        requires within { spot.index + out_count ≤ length self.old.mappings }
        requires ended { AreEnded self.old.mappings range.first spot.index }
        requires room { length self.old.mappings + length pieces.now ≤ self.old.room + out_count }
        requires laid_out { IsLaidOut
            (splice self.old.mappings spot.index (spot.index + out_count) pieces.now) }
        requires alike { AreAlikeOutside range self.old.mappings
            (splice self.old.mappings spot.index (spot.index + out_count) pieces.now) }
        requires inside { clipped range.first (end_of range)
            (splice self.old.mappings spot.index (spot.index + out_count) pieces.now)
            ≡ clipped range.first (end_of range) pieces.now }
        requires sorted { IsLaidOut pieces.now }
        requires named_pieces { AreNamed self.old.names pieces.now }
        requires named { AreNamed self.old.names (splice self.old.mappings spot.index (spot.index + out_count) pieces.now) }
        requires enough { (table : PageTable) → IsTree self.old.mappings table
            → AreEnough spares (gained_by (splice self.old.mappings spot.index (spot.index + out_count) pieces.now) table) }
        ensures mappings { self.new.mappings
            ≡ splice self.old.mappings spot.index (spot.index + out_count) pieces.now }
        ensures room { self.new.room ≡ self.old.room }
        ensures names { self.new.names ≡ self.old.names }
    {
        if !self.edit_ahead(range, spot, out_count, pieces, pieces) {
            self.put_back_anywhere(range, spot, out_count, pieces, spares);
        }
    }

    /// The same, wherever the range lies. Not inlined: nearly every edit takes the fast path, whose frame stays small so.
    #[inline(never)]
    fn put_back_anywhere(
        &mut self,
        range: PageRange,
        spot: Spot,
        out_count: usize,
        pieces: &[Packed],
        spares: Spares,
    )
        requires within { spot.index + out_count ≤ length self.old.mappings }
        requires ended { AreEnded self.old.mappings range.first spot.index }
        requires room { length self.old.mappings + length pieces.now ≤ self.old.room + out_count }
        requires laid_out { IsLaidOut
            (splice self.old.mappings spot.index (spot.index + out_count) pieces.now) }
        requires alike { AreAlikeOutside range self.old.mappings
            (splice self.old.mappings spot.index (spot.index + out_count) pieces.now) }
        requires named { AreNamed self.old.names (splice self.old.mappings spot.index (spot.index + out_count) pieces.now) }
        requires enough { (table : PageTable) → IsTree self.old.mappings table
            → AreEnough spares (gained_by (splice self.old.mappings spot.index (spot.index + out_count) pieces.now) table) }
        ensures mappings { self.new.mappings
            ≡ splice self.old.mappings spot.index (spot.index + out_count) pieces.now }
        ensures room { self.new.room ≡ self.old.room }
        ensures names { self.new.names ≡ self.old.names }
    {
        // Tells that the list is laid out.
        let _len = self.list.len();
        self.list.splice_at(spot, out_count, pieces);
        let _left = paint(&mut self.table, &self.list, range, spot.index, spares);
    }
}

/// Where one of the mappings lies that the list has once the pieces stand in a run's place, if it has any there or beside it.
#[inline(always)]
fn pages_of_one(
    list: &RangeList,
    spot: Spot,
    out_count: usize,
    pieces: &[Packed],
) -> Option<PageRange>
    requires { spot.index + out_count ≤ length list.now.mappings }
    ensures { IfSome result (HasMappingAt (splice list.now.mappings spot.index (spot.index + out_count) pieces.now)) }
{
    if !pieces.is_empty() {
        return Some(pieces[0].range());
    }
    let index = spot.index;
    if index > 0 {
        return Some(list.get_at(spot.at(index - 1)).range());
    }
    if out_count < list.len() {
        return Some(list.get_at(spot.at(out_count)).range());
    }
    None
}

/// Makes the table that of the list by these tables; those that are left over are given back to the system. It answers the tables that left
/// the tree.
fn paint(
    table: &mut PageTable,
    list: &RangeList,
    range: PageRange,
    position: usize,
    spares: Spares,
) -> Spares
    requires ended { AreEnded list.now.mappings range.first position }
    requires fitted { FitsOutside list.now.mappings range table.old }
    requires named { AreNamed table.old.names list.now.mappings }
    requires enough { AreEnough spares (gained_by list.now.mappings table.old) }
    ensures tree { IsTree list.now.mappings table.new }
    ensures names { table.new.names ≡ table.old.names }
    ensures back { (ms : List Mapping) → IsLaidOut ms → IsTree ms table.old
        → gained_by ms table.new ≡ result }
{
    let mut spares = spares;
    let mut left = Spares::new();
    table.paint(list, range, position, &mut spares, &mut left);
    left
}
