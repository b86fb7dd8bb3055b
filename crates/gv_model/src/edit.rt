//! `Edit`, an operation for tests that names its pages: no unmap of a whole buffer.
ghost use Rattle.std.specs.Prelude.{◌≡◌, IsTrue};
ghost use Rattle.gv_types.specs.Operation.{has_range};

use gv_types::Op;

/// An operation that names its pages, so that a space applies it at once.
#[derive(Clone, Copy)]
pub struct Edit {
    op: Op,
    ghost ranged: { IsTrue (has_range op) },
}

impl Edit {
    /// Of an operation that is no unmap of a whole buffer.
    pub fn new(op: Op) -> Edit
        requires { IsTrue (has_range op) }
    {
        Edit { op }
    }

    /// The operation.
    pub fn op(&self) -> &Op
        ensures { IsTrue (has_range result.now) }
    {
        &self.op
    }
}
