//! The text of a reply, which is used again for the next line.
ghost use Rattle.std.specs.Prelude.{◌≡◌, string_bytes, []};

use std::alloc::{AllocError, Global};

/// Room for the reply of most lines is there from the beginning.
const FIRST_ROOM: usize = 4_096;

/// A reply with more room gives it back before the next line.
const MOST_ROOM: usize = 1 << 16;

/// An empty reply.
pub fn new_reply(alloc: Global) -> Result<String, AllocError> {
    String::with_capacity(alloc, FIRST_ROOM)
}

/// Empties a reply. It takes no memory, and the room of a large one is given back.
pub fn empty(reply: &mut String)
    ensures bytes { string_bytes reply.new ≡ [] }
{
    reply.clear();
    if reply.capacity() > MOST_ROOM {
        reply.shrink_to(FIRST_ROOM);
    }
}
