//! Whether a world is what the definitions have: list and page table say of each page what the entries say, looked up in the
//! history page by page, and entries, counts, outcomes and timelines are the same.
use gv_journal::{Item, ItemKind};
use gv_model::{HistoryEntry, Kind, Model};
use gv_types::OutOfMemory;
use gv_vm::{QUEUES, Reply, World};
use std::alloc::Global;

/// The pages that are looked at.
const PAGES: u64 = 34;

/// Whether an entry of the journal is what the definitions have.
fn is_entry(item: &Item, past: &HistoryEntry) -> bool {
    match (&item.kind, &past.kind) {
        (
            ItemKind::Bind {
                queue,
                number,
                request,
                seen,
                done,
            },
            Kind::Bind {
                queue: of_queue,
                number: with_number,
                request: wanted,
                seen: saw,
                done: did,
            },
        ) => {
            queue == of_queue
                && number == with_number
                && request == wanted
                && seen == saw
                && done == did
        }
        (ItemKind::Withdrawal { of }, Kind::Withdrawal { of: wanted }) => of == wanted,
        _ => false,
    }
}

/// Whether the journal holds the entries of the history.
fn has_entries(world: &World, model: &Model) -> bool {
    let history = &model.space.history;
    let items = world.vm().items();
    world.vm().first() == history.first
        && items.len() == history.entries.len()
        && items
            .iter()
            .zip(history.entries.as_slice())
            .all(|(item, past)| is_entry(item, past))
}

/// Whether list and page table give each page what the entries say of it.
fn shows_each_page(world: &World, model: &Model) -> bool {
    let space = world.vm().space();
    for page in 0..PAGES {
        let wanted = model.space.view(page);
        if space.find(page) != wanted || space.walk(page) != wanted {
            return false;
        }
    }
    true
}

/// Whether each buffer that was made has its pages and its counts, where it is alive.
fn counts_buffers(alloc: Global, world: &World, model: &Model) -> Result<bool, OutOfMemory> {
    let space = world.vm().space();
    let space_model = &model.space;
    for made in &space_model.buffers {
        let id = &made.id;
        let uses = gv_model::count_of(space_model.list.as_slice(), id);
        let kept = space_model.history.kept(alloc, id)?;
        let wanted = if made.is_alive {
            (Some(made.pages), Some(uses), Some(kept))
        } else {
            (None, None, None)
        };
        if (space.pages(*id), space.uses(*id), space.kept(*id)) != wanted {
            return Ok(false);
        }
    }
    Ok(true)
}

/// Whether each queue was told the same.
fn told_each_queue(world: &World, model: &Model) -> bool {
    for queue in 0..QUEUES as u64 {
        let wanted = match model.told.get(queue as usize) {
            Some(told) => (told.forgotten, told.rest()),
            None => (0, [].as_slice()),
        };
        if (world.vm().told_from(queue), world.vm().told(queue)) != wanted {
            return false;
        }
    }
    true
}

/// Whether each timeline is where it was raised to.
fn is_each_timeline(world: &World, model: &Model) -> bool {
    let clock = world.clock();
    for timeline in 0..clock.count() {
        if model.numbers.get(timeline as usize).copied() != Some(clock.value(timeline)) {
            return false;
        }
    }
    clock.count() == model.setting.timelines
}

/// Whether the list has the mappings that the definitions have, and no others.
fn is_listed(world: &World, model: &Model) -> bool {
    let (list, wanted) = (world.vm().space().list(), &model.space.list);
    list.len() == wanted.len()
        && list
            .iter()
            .zip(wanted)
            .all(|(one, other)| one.mapping() == *other)
}

/// Whether a world is what the definitions have.
pub fn agrees(alloc: Global, world: &World, model: &Model) -> Result<bool, OutOfMemory> {
    let is_same = is_listed(world, model)
        && has_entries(world, model)
        && shows_each_page(world, model)
        && told_each_queue(world, model)
        && is_each_timeline(world, model);
    Ok(is_same && counts_buffers(alloc, world, model)?)
}

/// Whether a reply is the one that was wanted. A new buffer has any free place of the table.
pub fn is_wanted(model: &mut Model, wanted: &Reply, given: &Reply) -> bool {
    match (wanted, given) {
        (Reply::Created { .. }, Reply::Created { id }) => model.space.place_newest(id),
        _ => wanted == given,
    }
}
