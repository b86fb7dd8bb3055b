//! The buffers of both lists, and which two are taken for one another.

use crate::listing::Kind;
use gv_lines::{Name, write_hex};
use gv_types::OutOfMemory;
use indexmap::IndexMap;
use std::alloc::{AllocError, Global};

/// A buffer as a list names it.
#[derive(Debug, Drop, PartialEq, Eq, Hash)]
pub enum Object {
    /// A buffer of a script.
    Named(Name),
    /// A kernel's address of an object, which is not 0.
    Address(u64),
}

/// The objects of both lists, each with a number from 0 on, and the object of the other list that it is taken for.
#[derive(Drop)]
pub struct Objects {
    partners: IndexMap<Object, Option<u32>>,
}

impl Objects {
    /// No object.
    pub fn new(alloc: Global) -> Objects {
        Objects {
            partners: IndexMap::new(alloc),
        }
    }

    /// The number of an object: one that is there, or the next one.
    pub fn number_of(&mut self, object: Object) -> Result<u32, OutOfMemory> {
        if let Some(place) = self.partners.get_index_of(&object) {
            return u32::try_from(place).map_err(|_| OutOfMemory);
        }
        let place = u32::try_from(self.partners.len()).map_err(|_| OutOfMemory)?;
        self.partners.insert(object, None)?;
        Ok(place)
    }

    /// The object of the other list that an object is taken for.
    pub fn partner(&self, number: u32) -> Option<u32> {
        let (_, partner) = self.partners.get_index(number as usize)?;
        *partner
    }

    /// Takes two objects for one another, if neither is taken for one yet.
    pub fn pair(&mut self, lhs: u32, rhs: u32) {
        if self.partner(lhs).is_none() && self.partner(rhs).is_none() {
            self.set(lhs, rhs);
            self.set(rhs, lhs);
        }
    }

    fn set(&mut self, number: u32, partner: u32) {
        if let Some(place) = self.partners.get_index_mut(number as usize) {
            *place = Some(partner);
        }
    }

    /// Writes an object as a list of this kind names it, or as the other does where only that has it.
    pub fn write(&self, out: &mut String, number: u32, kind: Kind) -> Result<(), AllocError> {
        let shown = match self.partner(number) {
            Some(partner) if !self.is_of(number, kind) => partner,
            _ => number,
        };
        match self.partners.get_index(shown as usize) {
            Some((Object::Named(name), _)) => out.push_str(name.as_str()),
            Some((Object::Address(address), _)) => {
                out.push_str("0x")?;
                write_hex(out, *address)
            }
            None => Ok(()),
        }
    }

    /// Whether lists of this kind name the object so.
    fn is_of(&self, number: u32, kind: Kind) -> bool {
        match self.partners.get_index(number as usize) {
            Some((Object::Named(_), _)) => kind == Kind::Map,
            Some((Object::Address(_), _)) => kind == Kind::Dump,
            None => false,
        }
    }
}
