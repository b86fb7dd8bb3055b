//! How many things of each kind an address space may hold.
ghost use Rattle.std.specs.Prelude.{◌≡◌, ◌↔◌, IsTrue};
ghost use Rattle.gv_types.specs.Limits.{IsFromOneTo};

use std::marker::Model;

/// The greatest limit of live buffers.
pub const MAX_BUFFERS: u64 = 65_536;

/// The greatest limit of mappings in the list.
pub const MAX_MAPPINGS: u64 = 1_048_576;

/// The greatest limit of items in the journal.
pub const MAX_ITEMS: u64 = 65_536;

/// The greatest limit of a queue's outcomes.
pub const MAX_TOLD: u64 = 65_536;

/// The limits of live buffers, mappings in the list, items in the journal and outcomes of a queue: each
/// from 1 to its greatest.
#[derive(Clone, Copy, Debug, PartialEq, Eq)]
pub struct Limits {
    buffers: u64,
    mappings: u64,
    items: u64,
    told: u64,
}

impl Model for Limits {
    ghost use Rattle.gv_types.specs.Limits.{LimitsState, IsWithin};

    ghost Value = { LimitsState };

    ghost view = { λ l. record { buffers = l.buffers; mappings = l.mappings; items = l.items; told = l.told } };

    ghost invariant = { λ l. IsWithin (record { buffers = l.buffers; mappings = l.mappings; items = l.items; told = l.told }) };

    ghost inverse = { λ c. record { buffers = c.buffers; mappings = c.mappings; items = c.items; told = c.told } };
}

impl Limits {
    ghost use Rattle.std.specs.Prelude.{◌↔◌, IsSome, IfSome};
    ghost use Rattle.gv_types.specs.Limits.{caps, greatest, IsWithin};

    /// None unless each is from 1 to its greatest.
    pub fn new(buffers: u64, mappings: u64, items: u64, told: u64) -> Option<Limits>
        ensures within { IsSome result ↔ IsWithin (caps buffers mappings items told) }
        ensures value { IfSome result (λ l. l ≡ caps buffers mappings items told) }
    {
        if is_from_one_to(buffers, MAX_BUFFERS)
            && is_from_one_to(mappings, MAX_MAPPINGS)
            && is_from_one_to(items, MAX_ITEMS)
            && is_from_one_to(told, MAX_TOLD)
        {
            Some(Limits {
                buffers,
                mappings,
                items,
                told,
            })
        } else {
            None
        }
    }

    /// The greatest limits.
    pub fn full() -> Limits
        ensures { result ≡ greatest }
    {
        Limits {
            buffers: MAX_BUFFERS,
            mappings: MAX_MAPPINGS,
            items: MAX_ITEMS,
            told: MAX_TOLD,
        }
    }

    /// How many live buffers there may be.
    pub fn buffers(self) -> u64
        ensures value { result ≡ self.buffers }
        ensures within { IsWithin self }
    {
        self.buffers
    }

    /// How many mappings in the list there may be.
    pub fn mappings(self) -> u64
        ensures value { result ≡ self.mappings }
        ensures within { IsWithin self }
    {
        self.mappings
    }

    /// How many items in the journal there may be.
    pub fn items(self) -> u64
        ensures value { result ≡ self.items }
        ensures within { IsWithin self }
    {
        self.items
    }

    /// How many outcomes a queue may have.
    pub fn told(self) -> u64
        ensures value { result ≡ self.told }
        ensures within { IsWithin self }
    {
        self.told
    }
}

fn is_from_one_to(number: u64, greatest: u64) -> bool
    ensures { IsTrue result ↔ IsFromOneTo greatest number }
{
    1 <= number && number <= greatest
}
