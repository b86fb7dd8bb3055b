//! The journal of an address space: each accepted request, and each withdrawal of one, is an item that owns the undo values
//! that take it back. A request is applied whole or not at all, and the newest item is taken back without memory.
//!
//! ```text
//!   oldest held                                    newest
//!     entry 3     entry 4     entry 5     entry 6
//!     bind        bind        bind        withdrawal of 4
//!     undo 3      undo 4      undo 5      undo 6              each undo value takes back just what its item changed
//!
//!   rewind      takes entry 6 back: entry 4 is live again
//!   withdraw 3  restores what entry 3 took out, where no live later entry touches it, and stands as entry 7
//!   settle 4    lets entry 3 go with its undo values: it stands for good. settle 5 is refused, since entry 6 withdraws one below 5
//! ```
//!
//! An entry is live where no held withdrawal names it. A page holds what the newest live operation that covers it says, and where
//! none does, what lay under the oldest held item.
#![tactic(auto)]

mod applying;
mod columns;
mod item;
mod item_store;
mod journal;
pub mod laws;
mod note;
mod part;
mod reach;
mod ready;
mod refusal;
mod restoring;
mod room;
mod settling;
mod touching;
mod undoing;

pub use item::{Item, ItemKind};
pub use journal::{CoveringOp, HeldItem, Journal, MAX_OPS};
pub use ready::ReadyRequest;
pub use refusal::Refusal;
