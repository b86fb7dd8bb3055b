//! Calls played on a table of buffers.
ghost use Rattle.gv_types.specs.Limits.{greatest, IsFromOneTo};

use gv_buffers::{Buffers, Usage};
use gv_types::{BufferId, Fault};
use std::alloc::Global;
use std::test::Fail;

/// One call on a table.
#[derive(Clone, Copy)]
pub enum Call {
    Create,
    Destroy,
    Read,
    Write,
    Leave,
    CountIn,
    CountOut,
    TakeOut,
    BringBack,
    Keep,
    Unkeep,
}

/// Where in the table a buffer is, how many pages it has, how many mappings of it are in the list, and how many in undo values.
pub type BufferCounts = [u64; 4];

/// Stands for each number of a buffer that is dead.
pub const DEAD: u64 = u64::MAX;

/// What is seen of a buffer that was never made.
pub const NOBODY: BufferCounts = [4_294_967_295, DEAD, DEAD, DEAD];

/// The buffer that a call is on, by the order in which they were made; the call; its pages or its job, where it has any; the fault that it
/// answers, if any; and what the table says of the buffer then.
pub type Row = (usize, Call, u64, Option<Fault>, BufferCounts);

/// What answers a row that no table can play.
const STRANGE: Fault = Fault::Unmapped { access: 0 };

/// The job that reads where another is refused memory.
const READER: u64 = 1_000_000;

/// So many ids have room from the start: no call on so few buffers wants memory for an id.
const ROOM: usize = 100;

/// A table, and the ids of those that were made.
#[derive(Drop)]
pub struct BufferTable {
    buffers: Buffers,
    ids: Vec<BufferId>,
}

impl BufferTable {
    /// A table of at most `limit` buffers.
    pub fn new(alloc: Global, limit: u64) -> Result<BufferTable, Fault>
        requires { IsFromOneTo greatest.buffers limit }
    {
        Ok(BufferTable {
            buffers: Buffers::new(alloc, limit)?,
            ids: Vec::with_capacity(alloc, ROOM)?,
        })
    }

    /// The id of a buffer, by the order in which they were made.
    fn id(&self, position: usize) -> BufferId {
        let nobody = BufferId::new(u32::MAX, 0);
        self.ids.get(position).copied().unwrap_or(nobody)
    }

    /// Makes a buffer: each is the next.
    fn create(&mut self, alloc: Global, pages: u64) -> Result<(), Fault> {
        let id = self.buffers.create(alloc, pages)?;
        let is_next = id.generation.get() == self.ids.len() as u64;
        if !is_next || self.ids.push(id).is_err() {
            return Err(STRANGE);
        }
        Ok(())
    }

    /// What the table says of a buffer.
    fn sight(&self, position: usize) -> BufferCounts {
        let id = &self.id(position);
        [
            u64::from(id.index),
            self.buffers.pages(*id).unwrap_or(DEAD),
            self.buffers.uses(*id).unwrap_or(DEAD),
            self.buffers.kept(*id).unwrap_or(DEAD),
        ]
    }

    /// Makes a call.
    fn call(
        &mut self,
        alloc: Global,
        position: usize,
        call: Call,
        number: u64,
    ) -> Result<(), Fault> {
        let id = &self.id(position);
        match call {
            Call::Create => self.create(alloc, number),
            Call::Destroy => self.buffers.destroy(*id),
            Call::Read => self.buffers.join(alloc, *id, number, Usage::Read),
            Call::Write => self.buffers.join(alloc, *id, number, Usage::Write),
            Call::Leave => {
                self.buffers.leave(number);
                Ok(())
            }
            _ => count(&mut self.buffers, id, call),
        }
    }

    /// Makes a call, at the second try where the first wants memory. The first has changed nothing then: where it was to let a job
    /// write, another job can read the buffer between the two.
    pub fn call_at_last(
        &mut self,
        alloc: Global,
        position: usize,
        call: Call,
        number: u64,
    ) -> Result<(), Fault> {
        match self.call(alloc, position, call, number) {
            Err(Fault::OutOfMemory) => {
                if matches!(call, Call::Write) {
                    self.call(alloc, position, Call::Read, READER)?;
                    self.buffers.leave(READER);
                }
                self.call(alloc, position, call, number)
            }
            said => said,
        }
    }

    /// Fails where rows answer something else. The buffers are counted from `first` on, and their places in the table from `index` on.
    pub fn play(
        &mut self,
        alloc: Global,
        first: usize,
        index: u64,
        rows: &[Row],
    ) -> Result<(), Fail> {
        for (row, (position, call, number, fault, sight)) in rows.iter().enumerate() {
            let position = first.saturating_add(*position);
            let said = self.call_at_last(alloc, position, *call, *number);
            let mut seen = self.sight(position);
            seen[0] = seen[0].wrapping_sub(index);
            if said.err() != *fault || seen != *sight {
                return Err(Fail::new(format_args!("buffers from {first}, row {row}")));
            }
        }
        Ok(())
    }
}

/// Counts a mapping in or out, where the counts are small and more than none.
fn count(buffers: &mut Buffers, id: &BufferId, call: Call) -> Result<(), Fault> {
    let (Some(uses), Some(kept)) = (buffers.uses(*id), buffers.kept(*id)) else {
        return Err(STRANGE);
    };
    if uses >= 10 || kept >= 10 {
        return Err(STRANGE);
    }
    match call {
        Call::CountIn => buffers.count_in(*id),
        Call::Keep => buffers.keep(*id),
        Call::CountOut if uses > 0 => buffers.count_out(*id),
        Call::TakeOut if uses > 0 => buffers.count_taken_out(*id),
        Call::BringBack if kept > 0 => buffers.count_brought_back(*id),
        Call::Unkeep if kept > 0 => buffers.unkeep(*id),
        _ => return Err(STRANGE),
    }
    Ok(())
}

/// Fails where rows answer something else on a table of at most so many buffers.
pub fn expect(alloc: Global, limit: u64, rows: &[Row]) -> Result<(), Fail>
    requires { IsFromOneTo greatest.buffers limit }
{
    let mut table = BufferTable::new(alloc, limit)?;
    table.play(alloc, 0, 0, rows)
}
