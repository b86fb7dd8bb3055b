//! The entries of a journal by the definitions alone: each with the whole list before it, and no way back kept.
use crate::lists::{at, changed, count_met, edited, edited_by_all, given, range_of};
use gv_types::{BufferId, Entry, Mapping, OutOfMemory, PageOp, Request};
use std::alloc::Global;

/// What an entry stands for.
#[derive(Drop)]
pub enum Kind {
    /// An accepted request: its queue and its number there, what each wait saw, and its operations as they were done.
    Bind {
        queue: u64,
        number: u64,
        request: Request,
        seen: Vec<u64>,
        done: Vec<PageOp>,
    },
    Withdrawal {
        of: u64,
    },
}

/// An entry, with the list before it.
#[derive(Drop)]
pub struct HistoryEntry {
    pub before: Vec<Mapping>,
    pub kind: Kind,
}

impl HistoryEntry {
    /// The operations that it did; none for a withdrawal.
    pub fn done(&self) -> &[PageOp] {
        match &self.kind {
            Kind::Bind { done, .. } => done.as_slice(),
            Kind::Withdrawal { .. } => &[],
        }
    }

    /// Whether it withdraws the entry with a number.
    fn withdraws(&self, number: u64) -> bool {
        match &self.kind {
            Kind::Bind { .. } => false,
            Kind::Withdrawal { of } => *of == number,
        }
    }

    /// What its last operation that covers a page gives it.
    fn said(&self, page: u64) -> Option<Option<Entry>> {
        let mut last = None;
        for op in self.done() {
            if let Some(entry) = given(op, page) {
                last = Some(entry);
            }
        }
        last
    }

    /// Whether one of its operations meets one of another's.
    fn touches(&self, other: &HistoryEntry) -> bool {
        self.done().iter().any(|mine| other.done().iter().any(|its| share_a_page(mine, its)))
    }

    /// The list before its operation with this position, and after those before it.
    fn list_at(&self, alloc: Global, position: usize) -> Result<Vec<Mapping>, OutOfMemory> {
        let ops = self.done();
        edited_by_all(
            alloc,
            self.before.as_slice(),
            &ops[..position.min(ops.len())],
        )
    }
}

fn share_a_page(one: &PageOp, other: &PageOp) -> bool {
    match (range_of(one), range_of(other)) {
        (Some(one), Some(other)) => one.meets(other),
        _ => false,
    }
}

/// The entries that are held, the oldest one first, and its number.
#[derive(Drop)]
pub struct History {
    pub first: u64,
    pub entries: Vec<HistoryEntry>,
}

impl History {
    /// The number of the next entry.
    pub fn next(&self) -> u64 {
        self.first.saturating_add(self.entries.len() as u64)
    }

    /// The number of the oldest entry, where one is held.
    pub fn oldest(&self) -> Option<u64> {
        (!self.entries.is_empty()).then_some(self.first)
    }

    /// The entry with a number.
    pub fn get(&self, number: u64) -> Option<&HistoryEntry> {
        let position = number.checked_sub(self.first)?;
        self.entries.get(position as usize)
    }

    /// Whether an entry is held that withdraws the one with a number.
    pub fn is_withdrawn(&self, number: u64) -> bool {
        self.entries.iter().any(|entry| entry.withdraws(number))
    }

    /// What lies under the oldest entry at a page.
    fn base(&self, now: &[Mapping], page: u64) -> Option<Entry> {
        match self.entries.first() {
            Some(entry) => at(entry.before.as_slice(), page),
            None => at(now, page),
        }
    }

    /// What the newest live operation that covers a page says of it, looked for from the newest entry back; what lies under
    /// the oldest one, where none does.
    pub fn view(&self, now: &[Mapping], page: u64) -> Option<Entry> {
        let mut number = self.next();
        for entry in self.entries.iter().rev() {
            number = number.saturating_sub(1);
            if let Some(said) = entry.said(page) {
                if !self.is_withdrawn(number) {
                    return said;
                }
            }
        }
        self.base(now, page)
    }

    /// The least live later entry that touches the one with a number.
    pub fn touched_by(&self, number: u64) -> Option<u64> {
        let touched = self.get(number)?;
        let mut later = self.first;
        for entry in &self.entries {
            if later > number && entry.touches(touched) && !self.is_withdrawn(later) {
                return Some(later);
            }
            later = later.saturating_add(1);
        }
        None
    }

    /// The least entry from `to` on that withdraws one below it.
    pub fn crossed_by(&self, to: u64) -> Option<u64> {
        let mut number = self.first;
        for entry in &self.entries {
            if let Kind::Withdrawal { of } = &entry.kind {
                if number >= to && *of < to {
                    return Some(number);
                }
            }
            number = number.saturating_add(1);
        }
        None
    }

    /// The least entry that is a request of this queue with a number below this one.
    pub fn told_below(&self, queue: u64, to: u64) -> Option<u64> {
        let mut number = self.first;
        for entry in &self.entries {
            if let Kind::Bind {
                queue: of,
                number: own,
                ..
            } = &entry.kind
            {
                if *of == queue && *own < to {
                    return Some(number);
                }
            }
            number = number.saturating_add(1);
        }
        None
    }

    /// The list once the pages of one operation of an entry hold again what they held before it.
    pub fn restored(
        &self,
        alloc: Global,
        list: &[Mapping],
        entry: &HistoryEntry,
        position: usize,
    ) -> Result<Vec<Mapping>, OutOfMemory> {
        let Some(range) = entry.done().get(position).and_then(range_of) else {
            return Ok(Vec::from_slice(alloc, list)?);
        };
        let old = entry.list_at(alloc, position)?;
        changed(alloc, list, range, old.as_slice())
    }

    /// How many mappings of a buffer entries hold, to be put back when they are taken back: those that met the pages of each
    /// of their operations, and of each that they withdrew, at its turn.
    pub fn kept(&self, alloc: Global, id: &BufferId) -> Result<u64, OutOfMemory> {
        let mut kept = 0u64;
        for entry in &self.entries {
            let more = match &entry.kind {
                Kind::Bind { .. } => kept_by_bind(alloc, entry, id)?,
                Kind::Withdrawal { of } => self.kept_by_withdrawal(alloc, entry, *of, id)?,
            };
            kept = kept.saturating_add(more);
        }
        Ok(kept)
    }

    fn kept_by_withdrawal(
        &self,
        alloc: Global,
        withdrawal: &HistoryEntry,
        of: u64,
        id: &BufferId,
    ) -> Result<u64, OutOfMemory> {
        let Some(entry) = self.get(of) else {
            return Ok(0);
        };
        let mut list = withdrawal.before.clone()?;
        let mut kept = 0u64;
        for position in (0..entry.done().len()).rev() {
            if let Some(range) = entry.done().get(position).and_then(range_of) {
                kept = kept.saturating_add(count_met(list.as_slice(), id, range));
            }
            list = self.restored(alloc, list.as_slice(), entry, position)?;
        }
        Ok(kept)
    }
}

fn kept_by_bind(alloc: Global, entry: &HistoryEntry, id: &BufferId) -> Result<u64, OutOfMemory> {
    let mut list = entry.before.clone()?;
    let mut kept = 0u64;
    for op in entry.done() {
        if let Some(range) = range_of(op) {
            kept = kept.saturating_add(count_met(list.as_slice(), id, range));
        }
        list = edited(alloc, list.as_slice(), op)?;
    }
    Ok(kept)
}
