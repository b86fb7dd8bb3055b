//! What a space has to be by the definitions alone.
use gv_model::{Edit, History, HistoryEntry, Kind, at, changed, count_of, only, push, range_of};
use gv_ranges::RangeList;
use gv_space::Space;
use gv_types::{
    Bounds, BufferId, Entry, Fault, Mapping, Op, OutOfMemory, PageOp, PageRange, Request,
};
use std::alloc::Global;

/// How many slots of 512 pages have mappings, at most.
const SLOTS: u64 = 32;

/// A list by the definitions, the lists before the changes whose undo values are not spent, and the pages that are looked at.
#[derive(Drop)]
pub struct Judge {
    list: Vec<Mapping>,
    history: History,
    pub pages: Vec<u64>,
}

impl Judge {
    pub fn new(alloc: Global) -> Judge {
        Judge {
            list: Vec::new(alloc),
            history: History {
                first: 0,
                entries: Vec::new(alloc),
            },
            pages: Vec::new(alloc),
        }
    }

    /// An edit of the list. Whether each page is as it says.
    pub fn edit(&mut self, alloc: Global, edit: &Edit) -> Result<bool, Fault> {
        let op = Bounds::whole().check(edit.op())?;
        let Some(range) = range_of(&op) else {
            return Ok(false);
        };
        match op.own_mapping() {
            Some(own) => self.change(alloc, range, &[own]),
            None => self.change(alloc, range, &[]),
        }
    }

    /// A restore of a range from the oldest change: what its pages met comes back. Whether each page is as it was.
    pub fn restore(&mut self, alloc: Global, range: PageRange) -> Result<bool, Fault> {
        let Some(oldest) = self.history.entries.first() else {
            return Ok(false);
        };
        let Some(edited) = oldest.done().first().and_then(range_of) else {
            return Ok(false);
        };
        let met: Vec<Mapping> = oldest
            .before
            .iter()
            .filter(|mapping| mapping.range.meets(edited))
            .copied()
            .collect(alloc)?;
        self.change(alloc, range, &met)
    }

    /// A range holds what of some mappings lies in it. Whether each page holds what these give it: a second way to the list.
    fn change(
        &mut self,
        alloc: Global,
        range: PageRange,
        inside: &[Mapping],
    ) -> Result<bool, Fault> {
        let list = changed(alloc, &self.list, range, inside)?;
        let is_right = are_pages(&self.pages, &list, &self.list, range, inside);
        let before = std::mem::replace(&mut self.list, list);
        let kind = Kind::Bind {
            queue: 0,
            number: 0,
            request: request_of(alloc, Vec::new(alloc)),
            seen: Vec::new(alloc),
            done: only(alloc, PageOp::Unmap { range })?,
        };
        push(&mut self.history.entries, HistoryEntry { before, kind })?;
        Ok(is_right)
    }

    /// The newest change stays, or is undone.
    pub fn end_newest(&mut self, stays: bool) {
        let Some(newest) = self.history.entries.pop() else {
            return;
        };
        let HistoryEntry { before, kind: _ } = newest;
        if !stays {
            self.list = before;
        }
    }

    /// Whether a space is as it has to be.
    pub fn agrees(
        &self,
        alloc: Global,
        space: &Space,
        ids: &[BufferId],
    ) -> Result<bool, OutOfMemory> {
        agrees(alloc, space, ids, &self.list, &self.history, &self.pages)
    }
}

/// A request of these operations.
pub fn request_of(alloc: Global, ops: Vec<Op>) -> Request {
    Request {
        ops,
        waits: Vec::new(alloc),
        signals: Vec::new(alloc),
    }
}

/// Whether pages of a list hold what these mappings give them inside a range, and what the list before it gives them outside.
fn are_pages(
    pages: &[u64],
    list: &[Mapping],
    before: &[Mapping],
    range: PageRange,
    inside: &[Mapping],
) -> bool {
    pages.iter().all(|page| {
        let is_inside = range.first() <= *page && *page < range.end();
        let holds = if is_inside { inside } else { before };
        at(list, *page) == at(holds, *page)
    })
}

/// Whether a space is as it has to be: its list, its tables, its counts of each buffer's mappings, and what these pages hold.
pub fn agrees(
    alloc: Global,
    space: &Space,
    ids: &[BufferId],
    list: &[Mapping],
    history: &History,
    pages: &[u64],
) -> Result<bool, OutOfMemory> {
    Ok(
        are_counted(alloc, space, ids, list, history)?
            && are_listed(space.list(), list)
            && space.tables() == tables_of(list)
            && pages
                .iter()
                .all(|page| is_held(space, *page, at(list, *page))),
    )
}

/// Whether a list has these mappings and no others.
fn are_listed(list: &RangeList, wanted: &[Mapping]) -> bool {
    list.iter()
        .map(|mapping| mapping.mapping())
        .eq(wanted.iter().copied())
}

/// Whether the list and the undo values have as many mappings of each buffer as the space counts.
fn are_counted(
    alloc: Global,
    space: &Space,
    ids: &[BufferId],
    list: &[Mapping],
    history: &History,
) -> Result<bool, OutOfMemory> {
    for id in ids {
        let kept = history.kept(alloc, id)?;
        if space.uses(*id) != Some(count_of(list, id)) || space.kept(*id) != Some(kept) {
            return Ok(false);
        }
    }
    Ok(true)
}

/// Whether a page holds this, by list and by page table.
pub fn is_held(space: &Space, page: u64, wanted: Option<Entry>) -> bool {
    space.find(page) == wanted && space.walk(page) == wanted
}

/// How many tables stand at the levels 4, 3, 2, 1 and 0, where no mapping covers 262,144 pages.
fn tables_of(list: &[Mapping]) -> [u64; 5] {
    if list.is_empty() {
        return [0; 5];
    }
    let broken = (0..SLOTS).filter(|slot| is_broken(list, *slot)).count();
    [1, 1, 1, 1, broken as u64]
}

/// Whether a slot of 512 pages needs a table: a mapping has pages of it, and not all.
fn is_broken(list: &[Mapping], slot: u64) -> bool {
    let first = slot.saturating_mul(512);
    let end = first.saturating_add(512);
    list.iter().any(|mapping| {
        let (from, to) = (mapping.range.first(), mapping.range.end());
        from < end && first < to && (first < from || to < end)
    })
}
