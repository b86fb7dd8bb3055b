//! The counts of buffers and the first pages of their mappings, moved with the mappings. A mapping of zeros counts nothing, and all but
//! `make_room` takes no memory.
ghost use Rattle.std.specs.Prelude.{◌≡◌, ◌+◌, ◌≤◌, IfSome, length};
ghost use Rattle.std.specs.List.{All};
ghost use Rattle.gv_buffers.specs.Buffers.{most_counted};
ghost use Rattle.gv_buffers.specs.FirstPages.{HaveSameFirstPages};
ghost use Rattle.gv_space.specs.Counts.{by_count, count_of};
ghost use Rattle.gv_space.specs.Counts.{more_used, less_used, more_kept, less_kept};
ghost use Rattle.gv_space.specs.Counts.{moved_out, moved_in, IsFirstOf};
ghost use Rattle.gv_space.specs.Live.{IsLiveBacking};
ghost use Rattle.gv_space.specs.ListFirstPages.{BeginAlike, HasRow, CanCount, AreWithout, AreWith, AreReplaced, HaveNoMore};

use gv_buffers::{Buffers, FirstPageTable};
use gv_ranges::Run;
use gv_types::{Backing, BufferId, OutOfMemory, Packed};

/// Makes room for the first pages of mappings that come into the list.
pub fn make_room(first_pages: &mut FirstPageTable, mappings: &[Packed]) -> Result<(), OutOfMemory>
    ensures same { HaveSameFirstPages first_pages.old first_pages.new }
    ensures rows { length first_pages.new ≡ length first_pages.old }
{
    for mapping in mappings {
        if let Backing::Buffer { id, .. } = mapping.backing() {
            first_pages.make_room(id.index, mappings.len() as u64)?;
        }
    }
    Ok(())
}

/// Counts mappings that come into the list, each in its buffer, with the page where it begins.
#[inline(always)]
fn count_in(buffers: &mut Buffers, first_pages: &mut FirstPageTable, mappings: &[Packed])
    requires live { All (λ m. IsLiveBacking buffers.old m.backing) mappings.now }
    requires room { All (λ b. b.uses + count_of b.id mappings.now ≤ most_counted) buffers.old.live }
    requires rows { All (λ m. HasRow (length first_pages.old) m.backing) mappings.now }
    requires few { CanCount (length mappings.now) first_pages.old }
    ensures counts { buffers.new ≡ by_count more_used mappings.now buffers.old }
    ensures first_pages { AreWith mappings.now first_pages.old first_pages.new }
    ensures rows { length first_pages.new ≡ length first_pages.old }
{
    for mapping in mappings {
        if let Backing::Buffer { id, .. } = mapping.backing() {
            first_pages.add_page(id.index, mapping.first());
            buffers.count_in(id);
        }
    }
}

/// Counts out a run of the list, which leaves it.
fn count_out_run(buffers: &mut Buffers, first_pages: &mut FirstPageTable, run: Run<'_>)
    requires live { All (λ m. IsLiveBacking buffers.old m.backing) run }
    requires counted { All (λ b. count_of b.id run ≤ b.uses) buffers.old.live }
    ensures counts { buffers.new ≡ by_count less_used run.entry buffers.old }
    ensures first_pages { AreWithout run.entry first_pages.old first_pages.new }
    ensures no_more { HaveNoMore first_pages.old first_pages.new }
    ensures rows { length first_pages.new ≡ length first_pages.old }
{
    for mapping in run {
        if let Backing::Buffer { id, .. } = mapping.backing() {
            first_pages.remove_page(id.index, mapping.first());
            buffers.count_out(id);
        }
    }
}

/// Counts mappings that leave the list and come into an undo value, each in its buffer, with the page where it began.
#[inline(always)]
fn take_out(buffers: &mut Buffers, first_pages: &mut FirstPageTable, mappings: &[Packed])
    requires live { All (λ m. IsLiveBacking buffers.old m.backing) mappings.now }
    requires counted { All (λ b. count_of b.id mappings.now ≤ b.uses) buffers.old.live }
    requires room { All (λ b. b.kept + count_of b.id mappings.now ≤ most_counted) buffers.old.live }
    ensures counts { buffers.new ≡ by_count moved_out mappings.now buffers.old }
    ensures first_pages { AreWithout mappings.now first_pages.old first_pages.new }
    ensures no_more { HaveNoMore first_pages.old first_pages.new }
    ensures rows { length first_pages.new ≡ length first_pages.old }
{
    for mapping in mappings {
        if let Backing::Buffer { id, .. } = mapping.backing() {
            first_pages.remove_page(id.index, mapping.first());
            buffers.count_taken_out(id);
        }
    }
}

/// Counts mappings that come back into the list out of an undo value, each in its buffer, with the page where it begins.
fn bring_back(buffers: &mut Buffers, first_pages: &mut FirstPageTable, mappings: &[Packed])
    requires live { All (λ m. IsLiveBacking buffers.old m.backing) mappings.now }
    requires kept { All (λ b. count_of b.id mappings.now ≤ b.kept) buffers.old.live }
    requires room { All (λ b. b.uses + count_of b.id mappings.now ≤ most_counted) buffers.old.live }
    requires rows { All (λ m. HasRow (length first_pages.old) m.backing) mappings.now }
    requires few { CanCount (length mappings.now) first_pages.old }
    ensures counts { buffers.new ≡ by_count moved_in mappings.now buffers.old }
    ensures first_pages { AreWith mappings.now first_pages.old first_pages.new }
    ensures rows { length first_pages.new ≡ length first_pages.old }
{
    for mapping in mappings {
        if let Backing::Buffer { id, .. } = mapping.backing() {
            first_pages.add_page(id.index, mapping.first());
            buffers.count_brought_back(id);
        }
    }
}

/// Counts out mappings that leave an undo value.
pub fn unkeep(buffers: &mut Buffers, mappings: &[Packed])
    requires live { All (λ m. IsLiveBacking buffers.old m.backing) mappings.now }
    requires counted { All (λ b. count_of b.id mappings.now ≤ b.kept) buffers.old.live }
    ensures { buffers.new ≡ by_count less_kept mappings.now buffers.old }
{
    for mapping in mappings {
        if let Backing::Buffer { id, .. } = mapping.backing() {
            buffers.unkeep(id);
        }
    }
}

/// The buffer of the first mapping that was taken out, where the first piece is of it too and begins at the same page, as a rest of that
/// mapping does: then the one stands in the list in the place of the other.
#[inline(always)]
fn stays_first(taken: &[Packed], pieces: &[Packed]) -> Option<BufferId>
    ensures taken { IfSome result (λ id. IsFirstOf id taken.now) }
    ensures pieces { IfSome result (λ id. IsFirstOf id pieces.now) }
    ensures first_pages { IfSome result (λ _. BeginAlike taken.now pieces.now) }
{
    if taken.is_empty() || pieces.is_empty() || taken[0].first() != pieces[0].first() {
        return None;
    }
    let Backing::Buffer { id, .. } = taken[0].backing() else {
        return None;
    };
    let Backing::Buffer { id: other, .. } = pieces[0].backing() else {
        return None;
    };
    if id != other {
        return None;
    }
    Some(id)
}

/// Counts what was taken out of the list, where it gave way to `pieces`, and came into an undo value. Where a rest of the first mapping
/// stays in its place, the list has as many of its buffer as before, and they begin where they began.
pub fn move_counts(
    buffers: &mut Buffers,
    first_pages: &mut FirstPageTable,
    taken: &[Packed],
    pieces: &[Packed],
)
    requires taken { All (λ m. IsLiveBacking buffers.old m.backing) taken.now }
    requires pieces { All (λ m. IsLiveBacking buffers.old m.backing) pieces.now }
    requires keeps { All (λ b. b.kept + count_of b.id taken.now ≤ most_counted) buffers.old.live }
    requires room { All (λ b. b.uses + count_of b.id pieces.now ≤ most_counted) buffers.old.live }
    requires counted { All (λ b. count_of b.id taken.now ≤ b.uses) buffers.old.live }
    requires rows { All (λ m. HasRow (length first_pages.old) m.backing) pieces.now }
    requires few { CanCount (length pieces.now) first_pages.old }
    ensures counts { buffers.new ≡ by_count less_used taken.now
        (by_count more_used pieces.now (by_count more_kept taken.now buffers.old)) }
    ensures first_pages { AreReplaced taken.now pieces.now first_pages.old first_pages.new }
    ensures rows { length first_pages.new ≡ length first_pages.old }
{
    if let Some(id) = stays_first(taken, pieces) {
        buffers.keep(id);
        take_out(buffers, first_pages, &taken[1..]);
        count_in(buffers, first_pages, &pieces[1..]);
        return;
    }
    take_out(buffers, first_pages, taken);
    count_in(buffers, first_pages, pieces);
}

/// Counts a run that comes back out of an undo value into the list, where `pieces` give way to it.
pub fn move_counts_back(
    buffers: &mut Buffers,
    first_pages: &mut FirstPageTable,
    pieces: Run<'_>,
    taken: &[Packed],
)
    requires taken { All (λ m. IsLiveBacking buffers.old m.backing) taken.now }
    requires pieces { All (λ m. IsLiveBacking buffers.old m.backing) pieces }
    requires kept { All (λ b. count_of b.id taken.now ≤ b.kept) buffers.old.live }
    requires room { All (λ b. b.uses + count_of b.id taken.now ≤ most_counted) buffers.old.live }
    requires counted { All (λ b. count_of b.id pieces ≤ b.uses) buffers.old.live }
    requires rows { All (λ m. HasRow (length first_pages.old) m.backing) taken.now }
    requires few { CanCount (length taken.now) first_pages.old }
    ensures counts { buffers.new ≡ by_count less_used pieces.entry
        (by_count more_used taken.now (by_count less_kept taken.now buffers.old)) }
    ensures first_pages { AreReplaced pieces.entry taken.now first_pages.old first_pages.new }
    ensures rows { length first_pages.new ≡ length first_pages.old }
{
    count_out_run(buffers, first_pages, pieces);
    bring_back(buffers, first_pages, taken);
}
