//! The items of a journal.
use gv_space::OpUndo;
use gv_types::{PageOp, Request};

/// What an item of the journal stands for.
#[derive(Drop)]
pub enum ItemKind {
    /// An accepted request: its queue and its number there, what each of its waits saw, and its operations as they were
    /// done, with each unmap of a whole buffer replaced by the unmaps that it stood for.
    Bind {
        queue: u64,
        number: u64,
        request: Request,
        seen: Vec<u64>,
        done: Vec<PageOp>,
    },
    /// The withdrawal of an older item.
    Withdrawal {
        of: u64,
    },
}

/// An accepted request or a withdrawal, with the undo values that take it back, in the order of its changes. They have to
/// be spent, so an item isn't `Drop`.
pub struct Item {
    pub kind: ItemKind,
    pub undos: Vec<OpUndo>,
}
