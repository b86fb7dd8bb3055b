//! The operations that clauses stand for. Buffers are known by the order in which they were made.
use crate::words::{Clause, Clauses, Verb};
use gv_model::Edit;
use gv_types::{BufferId, Flags, Op, PAGE_BYTES};
use std::alloc::{AllocError, Global};

/// The id of a buffer, and one that no buffer has where it was not made.
pub fn id_of(ids: &[BufferId], buffer: u64) -> BufferId {
    match ids.get(buffer as usize) {
        Some(id) => *id,
        None => BufferId::new(u32::MAX, 0),
    }
}

/// The operation of a clause, in bytes. None where it is another verb.
pub fn op_of(ids: &[BufferId], clause: &Clause) -> Option<Op> {
    let [first, count, buffer, page] = clause.numbers;
    let (unit, read_only) = match clause.verb {
        Verb::MapBytes => (1, false),
        Verb::ZeroRo => (PAGE_BYTES, true),
        _ => (PAGE_BYTES, false),
    };
    let (addr, len) = (first.saturating_mul(unit), count.saturating_mul(unit));
    let flags = Flags { read_only };
    match clause.verb {
        Verb::Map | Verb::MapBytes => Some(Op::Map {
            addr,
            len,
            buffer: id_of(ids, buffer),
            offset: page.saturating_mul(unit),
            flags,
        }),
        Verb::Zero | Verb::ZeroRo => Some(Op::MapZero { addr, len, flags }),
        Verb::Unmap => Some(Op::Unmap { addr, len }),
        Verb::UnmapAll => Some(Op::UnmapBuffer {
            buffer: id_of(ids, first),
        }),
        _ => None,
    }
}

/// A map of the first page to zeros.
pub const ZERO: Op = Op::MapZero {
    addr: 0,
    len: PAGE_BYTES,
    flags: Flags { read_only: false },
};

/// The operations among the clauses of a row, or so many maps of a page of zeros.
pub fn ops_of(alloc: Global, ids: &[BufferId], clauses: &Clauses) -> Result<Vec<Op>, AllocError> {
    if let Verb::Many = clauses[0].verb {
        return vec![in alloc; ZERO; clauses[0].numbers[0] as usize];
    }
    let mut ops = Vec::new(alloc);
    for clause in clauses {
        if let Some(op) = op_of(ids, clause) {
            ops.push(op)?;
        }
    }
    Ok(ops)
}

/// Those of the operations that name their pages.
pub fn edits_of(alloc: Global, ops: &[Op]) -> Result<Vec<Edit>, AllocError> {
    let mut edits = Vec::new(alloc);
    for op in ops {
        if op.has_range() {
            edits.push(Edit::new(*op))?;
        }
    }
    Ok(edits)
}
