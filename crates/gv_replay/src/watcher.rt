//! Who looks on while a log is replayed.

use crate::act::Act;
use crate::fault::ReplayFault;
use gv_space::Space;
use gv_types::{Fault, PageOp};

/// It is told each step, in order. Buffers are known by their numbers: the k-th that was made is k. A fault that it answers ends
/// the replay.
pub trait Watcher {
    /// A buffer of so many pages was made.
    fn made(&mut self, buffer: u64, pages: u64) -> Result<(), ReplayFault>;

    /// A line was carried out, or refused for this reason. `done` has what it did, in pages: an unmap of a whole buffer is the unmaps that it
    /// stood for. `space` is as the line left it.
    fn bound(
        &mut self,
        act: &Act,
        refused: Option<Fault>,
        done: &[PageOp],
        space: &Space,
    ) -> Result<(), ReplayFault>;

    /// The entries below this number can't be taken back any more.
    fn settled(&mut self, to: u64) -> Result<(), ReplayFault>;

    /// A buffer whose memory was freed before was destroyed.
    fn destroyed(&mut self, buffer: u64) -> Result<(), ReplayFault>;
}

/// Nobody.
#[derive(Drop)]
pub struct Nobody;

impl Watcher for Nobody {
    fn made(&mut self, _buffer: u64, _pages: u64) -> Result<(), ReplayFault> {
        Ok(())
    }

    fn bound(
        &mut self,
        _act: &Act,
        _refused: Option<Fault>,
        _done: &[PageOp],
        _space: &Space,
    ) -> Result<(), ReplayFault> {
        Ok(())
    }

    fn settled(&mut self, _to: u64) -> Result<(), ReplayFault> {
        Ok(())
    }

    fn destroyed(&mut self, _buffer: u64) -> Result<(), ReplayFault> {
        Ok(())
    }
}
