//! A slot of a single page.
ghost use Rattle.std.specs.Prelude.{◌≡◌, ◌<◌, ◌^◌, MatchOption};
ghost use Rattle.gv_table.specs.declared.slot.Slot.TheVariants.{Empty};
ghost use Rattle.gv_table.specs.BufferNames.{IsEncodable};
ghost use Rattle.gv_table.specs.Tree.{leaf, slot_of, decoded_slot};

use crate::levels::SLOTS;
use crate::slot::Slot;
use gv_types::{Backing, BufferId, Entry, Flags};

/// What one page holds, in eight bytes: nothing by 0, else a page of a buffer in the lower 40 bits, and above them 1 for zeros, or 3 and
/// twice the buffer's index; one more where it is read-only. So a page further on is one more.
pub type PageSlot = u64;

/// The slot of a page that no mapping holds.
pub const NO_PAGE: PageSlot = 0;

/// A table of single pages, with a link to the next one where it is in no tree.
pub type Pages = ([PageSlot; SLOTS], Slot);

/// So many bits tell a page of a buffer.
const PAGE_BITS: u32 = 40;

const ENCODABLE_PAGES: u64 = 1 << PAGE_BITS;

/// The slot of a page with an entry, whose buffer is encoded by its index alone.
#[inline(always)]
pub fn page_leaf(entry: Entry) -> PageSlot
    ensures { IsEncodable entry.backing 1 → slot_of result ≡ leaf entry }
{
    let read_only = u64::from(entry.flags.read_only);
    let (head, page) = match entry.backing {
        Backing::Zero => (1 + read_only, 0),
        Backing::Buffer { id, page } => (3 + 2 * u64::from(id.index) + read_only, page),
    };
    (head << PAGE_BITS).wrapping_add(page)
}

/// What a page holds.
pub fn page_entry(slot: PageSlot) -> Option<Entry>
    ensures { MatchOption result (slot_of slot ≡ Empty) (λ entry. slot_of slot ≡ leaf entry) }
{
    if slot == NO_PAGE {
        return None;
    }
    Some(entry_of(slot / ENCODABLE_PAGES, slot % ENCODABLE_PAGES))
}

/// The entry of a head and a page.
fn entry_of(head: u64, page: u64) -> Entry
    requires { head < 2 ^ 24 }
    ensures { leaf result ≡ decoded_slot head page }
{
    if head < 3 {
        return Entry {
            backing: Backing::Zero,
            flags: Flags {
                read_only: head == 2,
            },
        };
    }
    let index = ((head - 3) / 2) as u32;
    Entry {
        backing: Backing::Buffer {
            id: BufferId::new(index, 0),
            page,
        },
        flags: Flags {
            read_only: (head - 3) % 2 == 1,
        },
    }
}
