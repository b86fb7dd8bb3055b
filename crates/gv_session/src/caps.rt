//! What a line of limits says.
ghost use Rattle.std.specs.Prelude.{◌≡◌};

/// The numbers that a line of limits sets.
#[derive(Clone, Copy)]
pub struct Caps {
    pub buffers: u64,
    pub mappings: u64,
    pub items: u64,
}

impl Caps {
    pub fn new(buffers: u64, mappings: u64, items: u64) -> Caps
        ensures { result ≡ record { buffers = buffers; mappings = mappings; items = items } }
    {
        Caps {
            buffers,
            mappings,
            items,
        }
    }
}
