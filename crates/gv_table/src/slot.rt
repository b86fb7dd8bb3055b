//! A slot of a table.
ghost use Rattle.std.specs.Prelude.{◌≡◌, false};

use crate::buffer_index::BufferIndex;
use crate::levels::SLOTS;
use crate::page_slot::Pages;
use gv_types::{Backing, Entry, Flags};
use std::mem;

/// A slot of more than one page: empty where no mapping meets its pages; a leaf where one mapping holds them all, with the entry of
/// its first page (pages of zeros, or a buffer's from `page` on); or the table of its parts, at level 1 a table of single pages.
#[derive(Drop)]
pub enum Slot {
    Empty,
    Zero {
        flags: Flags,
    },
    Buffer {
        flags: Flags,
        id: BufferIndex,
        page: u64,
    },
    Pages(Box<Pages>),
    Table(Box<[Slot; SLOTS]>),
}

// A table of 512 slots is made in a frame and then moved to the heap, so a slot is kept small.
const _: () = prove!(size_of::<Slot>() == 16);

impl Slot {
    ghost use Rattle.std.specs.Prelude.{◌≡◌, MatchOption};
    ghost use Rattle.gv_table.specs.BufferNames.{IsEncodable};
    ghost use Rattle.gv_table.specs.Tree.{leaf, is_table, HasNoEntry};

    /// The leaf of an entry, whose buffer is encoded by its index alone.
    #[inline(always)]
    pub fn leaf(entry: Entry) -> Slot
        ensures leaf { IsEncodable entry.backing 1 → result ≡ leaf entry }
        ensures other { is_table result ≡ false }
    {
        let flags = entry.flags;
        match entry.backing {
            Backing::Zero => Slot::Zero { flags },
            Backing::Buffer { id, page } => Slot::Buffer {
                flags,
                id: BufferIndex::of(id),
                page,
            },
        }
    }

    /// Whether the slot is a table.
    #[inline(always)]
    pub fn is_table(&self) -> bool
        ensures { result ≡ is_table self.now }
    {
        match self {
            Slot::Pages(_) | Slot::Table(_) => true,
            Slot::Empty | Slot::Zero { .. } | Slot::Buffer { .. } => false,
        }
    }

    /// The entry of a leaf.
    pub fn entry(&self) -> Option<Entry>
        ensures { MatchOption result (HasNoEntry self.now) (λ entry. self.now ≡ leaf entry) }
    {
        match *self {
            Slot::Empty | Slot::Pages(_) | Slot::Table(_) => None,
            Slot::Zero { flags } => Some(Entry {
                backing: Backing::Zero,
                flags,
            }),
            Slot::Buffer { flags, id, page } => Some(Entry {
                backing: Backing::Buffer { id: id.id(), page },
                flags,
            }),
        }
    }
}

/// Puts another slot where a slot was. A table that was there is given back in a frame of its own, which is as large as it.
pub fn overwrite(slot: &mut Slot, new: Slot)
    ensures { slot.new ≡ new }
{
    match mem::replace(slot, new) {
        Slot::Pages(table) => give_pages_back(table),
        Slot::Table(slots) => give_back(slots),
        Slot::Empty | Slot::Zero { .. } | Slot::Buffer { .. } => {}
    }
}

/// Gives the memory of a table of pages back.
#[cold]
#[inline(never)]
pub fn give_pages_back(table: Box<Pages>) {
    drop(table);
}

/// Gives a table's memory back.
#[cold]
#[inline(never)]
pub fn give_back(slots: Box<[Slot; SLOTS]>) {
    drop(slots);
}
