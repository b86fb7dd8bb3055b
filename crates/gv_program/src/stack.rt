//! Touches the stack at the start, so that it need not grow later.

/// How many bytes of stack the program touches first: more than it needs. Tables are passed by value, in frames of a table's size
/// each: a table that is freed, and one that the system has no memory for. A line of a script takes less than 64 KiB, a replay some
/// 90.
const FRAME_LEN: usize = 1 << 17;

/// Writes a frame of `FRAME_LEN` bytes and reads it back: always true. If the system has no memory for the stack, it ends the
/// program here, so a later line that is out of memory finds a stack that need not grow.
// A frame of its own, freed before the arguments are read. It is read back, else a compiler may leave it out.
#[inline(never)]
pub fn is_stack_there(byte: u8) -> bool {
    let frame = [byte; FRAME_LEN];
    frame.iter().all(|written| *written == byte)
}
