//! What an address reaches.
ghost use Rattle.std.specs.Prelude.{◌≡◌, ◌<◌, ◌≤◌, ◌/◌, nat_lt, if◌then◌else◌, IsTrue, IfSome};
ghost use Rattle.gv_types.specs.Page.{PAGES, bytes_per_page};
ghost use Rattle.gv_types.specs.PageRange.{covers, end_of};
ghost use Rattle.gv_types.specs.Operation.{own_part, range_of};
ghost use Rattle.gv_ranges.specs.List.{at, IsLaidOut};
ghost use Rattle.gv_vm.specs.Places.{place_at, place_by, place_of, run_of, stretch_end, target_of, BytesFit};

use gv_ranges::RangeList;
use gv_space::Space;
use gv_types::{Backing, BufferId, Entry, Flags, PAGE_BYTES, PageOp, SPACE_PAGES};

/// What one byte of the address space reaches: a byte of a buffer, or a zero.
#[derive(Clone, Copy, Debug, PartialEq, Eq)]
pub enum Target {
    Buffer { id: BufferId, byte: u64 },
    Zero,
}

/// What an address reaches, and how it may be accessed.
#[derive(Clone, Copy, Debug, PartialEq, Eq)]
pub struct Place {
    pub target: Target,
    pub flags: Flags,
}

/// What an address reaches, and how many bytes from there on are in the same mapping; without a mapping, how many there are to the
/// next one or to the end of the address space. 0 past that end.
#[derive(Clone, Copy, Debug, PartialEq, Eq)]
pub struct Stretch {
    pub place: Option<Place>,
    pub run: u64,
}

impl Target {
    /// What is `rest` bytes after the first byte of a backing's first page.
    fn of(backing: Backing, rest: u64) -> Target
        requires backing { BytesFit backing }
        requires rest { rest < bytes_per_page }
        ensures { result ≡ target_of backing rest }
    {
        match backing {
            Backing::Buffer { id, page } => Target::Buffer {
                id,
                byte: page * PAGE_BYTES + rest,
            },
            Backing::Zero => Target::Zero,
        }
    }
}

impl Place {
    /// What the byte reaches that is `rest` bytes after the start of a page.
    pub(crate) fn of(entry: Entry, rest: u64) -> Place
        requires backing { BytesFit entry.backing }
        requires rest { rest < bytes_per_page }
        ensures { result ≡ place_of entry rest }
    {
        Place {
            target: Target::of(entry.backing, rest),
            flags: entry.flags,
        }
    }
}

/// What an address, in bytes, reaches, by the page table: at most five steps. None if no mapping holds its page, and past
/// the end of the address space.
pub fn translate(space: &Space, addr: u64) -> Option<Place>
    ensures { result ≡ place_at space.now.mappings addr }
{
    // For the prover: what always holds of the space.
    let _list = space.list();
    // The borrow checker proves this only where the function names the types inside the entry.
    let _backing = Backing::Zero;
    let entry = space.walk(addr / PAGE_BYTES)?;
    Some(Place::of(entry, addr % PAGE_BYTES))
}

/// What an address, in bytes, reaches by an operation that covers its page. None by an unmap.
pub fn place_by(op: &PageOp, addr: u64) -> Option<Place>
    requires covered { IsTrue (covers (range_of op.now) (addr / bytes_per_page)) }
    requires bytes { IfSome (own_part op.now (addr / bytes_per_page)) (λ e. BytesFit e.backing) }
    ensures { result ≡ place_by (own_part op.now) addr }
{
    match *op {
        PageOp::Map {
            range,
            backing,
            flags,
        } => {
            let first = Entry { backing, flags };
            let entry = first.advanced(addr / PAGE_BYTES - range.first());
            Some(Place::of(entry, addr % PAGE_BYTES))
        }
        PageOp::Unmap { .. } | PageOp::UnmapBuffer { .. } => None,
    }
}

/// What an address, in bytes, reaches, and how many bytes from there on are in the same mapping or hole. One search in the
/// list.
pub fn find(space: &Space, addr: u64) -> Stretch
    ensures place { result.place ≡ place_at space.now.mappings addr }
    ensures run { result.run ≡ run_of space.now.mappings addr }
{
    let list = space.list();
    let page = addr / PAGE_BYTES;
    if page >= SPACE_PAGES {
        return Stretch {
            place: None,
            run: 0,
        };
    }
    let (entry, end) = held_until(list, page);
    let run = end * PAGE_BYTES - addr;
    let Some(entry) = entry else {
        return Stretch { place: None, run };
    };
    Stretch {
        place: Some(Place::of(entry, addr % PAGE_BYTES)),
        run,
    }
}

/// What a page holds, and where its mapping or hole ends.
fn held_until(list: &RangeList, page: u64) -> (Option<Entry>, u64)
    requires page { page < PAGES }
    requires laid_out { IsLaidOut list.now.mappings }
    ensures entry { result.0 ≡ at list.now.mappings page }
    ensures end { result.1 ≡ stretch_end list.now.mappings page }
    ensures behind { page < result.1 }
    ensures in_space { result.1 ≤ PAGES }
{
    let Some(m) = list.first_ending_after(page) else {
        return (None, SPACE_PAGES);
    };
    if page < m.first() {
        return (None, m.first());
    }
    (Some(m.part(page)), m.end())
}
