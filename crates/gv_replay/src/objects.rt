//! Objects that a log knows by a pointer, which another object may have later.

use std::alloc::{AllocError, AllocFailed, Global};
use std::collections::HashMap;

/// The objects of a log in the order in which they came up, each with what is known of it.
#[derive(Drop)]
pub struct Objects<T: Drop> {
    newest: HashMap<u64, usize>,
    known: Vec<T>,
}

impl<T: Drop> Objects<T> {
    pub fn new(alloc: Global) -> Objects<T> {
        Objects {
            newest: HashMap::new(alloc),
            known: Vec::new(alloc),
        }
    }

    /// The index of the object that a pointer is now, if one came up.
    pub fn index_of(&self, pointer: u64) -> Option<usize> {
        self.newest.get(&pointer).copied()
    }

    /// The index of the next object that comes up.
    pub fn len(&self) -> usize {
        self.known.len()
    }

    pub fn get(&self, index: usize) -> Option<&T> {
        self.known.get(index)
    }

    /// The pointer is a new object's, of which this is known. Its index.
    pub fn add(&mut self, pointer: u64, known: T) -> Result<usize, AllocError> {
        let index = self.known.len();
        let added: Result<(), AllocFailed<T>> = self.known.push(known);
        added?;
        let _older = self.newest.insert(pointer, index)?;
        Ok(index)
    }

    /// This is known of the object at an index from here on.
    pub fn set(&mut self, index: usize, known: T) {
        if let Some(old) = self.known.get_mut(index) {
            *old = known;
        }
    }

    /// What is known of all objects.
    pub fn into_known(self) -> Vec<T> {
        let Objects { newest: _, known } = self;
        known
    }
}
