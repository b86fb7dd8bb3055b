//! The one address space of a log that is taken.

use crate::fault::ReplayFault;
use crate::terms::Terms;
use gv_logs::VmaLine;

/// Which address space is taken: the one that was asked for, once a VMA of it comes up, or the first one in which the process
/// has a VMA.
#[derive(Clone, Copy)]
pub struct Chosen {
    wanted: Option<u64>,
    taken: Option<u64>,
    others: u64,
}

impl Chosen {
    /// None is taken yet. `NoSpace` where no address space of the format can have the name that is asked.
    pub fn new(terms: &Terms<'_>) -> Result<Chosen, ReplayFault> {
        let wanted = match terms.space {
            Some(name) => Some(terms.format.space_number(name).ok_or(ReplayFault::NoSpace)?),
            None => None,
        };
        Ok(Chosen {
            wanted,
            taken: None,
            others: 0,
        })
    }

    /// Whether the space that was asked for didn't come up.
    pub fn is_missing(&self) -> bool {
        self.wanted.is_some() && self.taken.is_none()
    }

    /// Whether something of other spaces came up that might have been taken.
    pub fn has_others(&self) -> bool {
        self.others > 0
    }

    /// Whether an event is of the address space that is taken. Its events count whoever they are of, since workers of the kernel
    /// free it.
    pub fn takes(&mut self, line: &VmaLine, pid: Option<u64>) -> bool {
        if line.head.is_of(pid) && self.begins(line) {
            self.meet(line.space);
        }
        self.taken == Some(line.space)
    }

    /// Something of a space that may be taken comes up.
    pub fn meet(&mut self, space: u64) {
        match self.taken {
            None => self.taken = Some(space),
            Some(taken) if taken != space => self.others = self.others.saturating_add(1),
            Some(_) => {}
        }
    }

    /// Whether the rows of a space are taken, the spaces of a list being counted from 1: those of the first where none is asked.
    pub fn takes_rows(&mut self, number: u64) -> bool {
        let is_taken = self.takes_head(number);
        if is_taken || self.wanted.is_none() {
            self.meet(number);
        }
        is_taken
    }

    /// Whether a head is that of the space whose rows are taken.
    pub fn takes_head(&self, number: u64) -> bool {
        number == self.wanted.unwrap_or(1)
    }

    /// Whether an event is one of a VMA, in a space that may be taken.
    fn begins(&self, line: &VmaLine) -> bool {
        let may_be = match self.wanted {
            Some(wanted) => wanted == line.space,
            None => true,
        };
        may_be && line.event.is_of_vma()
    }
}
