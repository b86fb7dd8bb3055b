//! How the list of an address space changes: the limits, the room, and then the change.
ghost use Rattle.std.specs.Prelude.{◌≡◌, ◌≢◌, ◌+◌, length};
ghost use Rattle.std.specs.Prelude.{[], Err, IfErr, IfOk, IsOkUnless, OnOk, OnErr, MatchOption};
ghost use Rattle.std.specs.List.{All, splice};
ghost use Rattle.gv_types.specs.declared.mapping.Mapping.{Mapping};
ghost use Rattle.gv_ranges.specs.List.{IsLaidOut};
ghost use Rattle.gv_ranges.specs.Edit.{restored};
ghost use Rattle.gv_space.specs.State.{IsValidMapping, IsUnchanged};
ghost use Rattle.gv_space.specs.Refusal.{limit_fault};
ghost use Rattle.gv_space.specs.Change.{IsChanged, GrowsJustFor};
ghost use Rattle.gv_space.specs.Ready.{IsReady};
ghost use Rattle.gv_space.specs.Undo.{undo_with};

use super::Space;
use crate::counts;
use crate::pieces::{TakenMappings, copy_run, with_rests};
use gv_chunks::Spot;
use gv_table::Spares;
use gv_types::{Fault, Packed, PageRange};
use smallvec::SmallVec;
use std::alloc::Global;

/// What a change made, beside the mappings that it took out: their index, how many stand for them now, and the tables that left the tree.
#[derive(Drop)]
pub(super) struct Made {
    pub(super) index: usize,
    pub(super) put_in: usize,
    pub(super) tables: Spares,
}

impl Space {
    /// The range is taken out, and what the saved mappings have in it is put in. The list is searched once for all of it. What was taken
    /// out is put where it stays: a value of its size is moved seldom.
    pub(super) fn change(
        &mut self,
        alloc: Global,
        range: PageRange,
        saved: &[Packed],
        taken: &mut TakenMappings,
    ) -> Result<Made, Fault>
        requires laid_out { IsLaidOut saved.now }
        requires valid { All (IsValidMapping self.old.area self.old.buffers) saved.now }
        requires none { taken.old.items ≡ [] }
        ensures fault { MatchOption (limit_fault self.old range (restored self.old.mappings range saved.now))
            (IsOkUnless result Fault.OutOfMemory) (λ fault. result ≡ Err fault) }
        ensures changed { IfOk result (λ made. IsChanged self.old self.new (restored self.old.mappings range saved.now)
            (undo_with made.index made.put_in taken.new.items range made.tables)) }
        ensures taken { OnOk result (IsLaidOut taken.new.items) }
        ensures unchanged { OnErr result (IsUnchanged self.old self.new) }
        ensures refused { IfErr result (λ fault. fault ≢ Fault.OutOfMemory → self.new ≡ self.old) }
        ensures room { GrowsJustFor (restored self.old.mappings range saved.now) self.old self.new }
    {
        let overlap = self.list().overlap(range);
        self.check_limits(range, overlap, saved)?;
        copy_run(taken, self.list(), overlap)?;
        let spot = overlap.spot;
        let mut pieces = SmallVec::new(alloc);
        let (start, end) = with_rests(&mut pieces, taken.as_slice(), saved, range)?;
        let pieces = pieces.as_slice();
        let inside = &pieces[start..end];
        self.mapped
            .reserve(pieces.len().saturating_sub(taken.len()))?;
        counts::make_room(&mut self.first_pages, pieces)?;
        let tables = self.commit(alloc, range, spot, taken.as_slice(), pieces, inside)?;
        Ok(Made {
            index: spot.index,
            put_in: pieces.len(),
            tables,
        })
    }

    /// The change, for which all room is there but that of the table. It answers the tables that left the tree.
    fn commit(
        &mut self,
        alloc: Global,
        range: PageRange,
        spot: Spot,
        taken: &[Packed],
        pieces: &[Packed],
        inside: &[Packed],
    ) -> Result<Spares, Fault>
        requires { IsReady inside.now self.old range spot.index taken.now pieces.now }
        ensures changed { IfOk result (λ tables. IsChanged self.old self.new
            (splice self.old.mappings spot.index (spot.index + length taken.now) pieces.now)
            (undo_with spot.index (length pieces.now) taken.now range tables)) }
        ensures err { IsOkUnless result Fault.OutOfMemory }
        ensures unchanged { OnErr result (self.new ≡ self.old) }
        ensures room { self.new.room ≡ self.old.room }
    {
        let count = taken.len();
        let tables = self.mapped.edit(alloc, range, spot, count, pieces, inside)?;
        counts::move_counts(&mut self.buffers, &mut self.first_pages, taken, pieces);
        self.kept_count += count as u64;
        Ok(tables)
    }
}
