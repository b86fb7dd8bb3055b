//! Numbers as sixteen hexadecimal digits.
ghost use Rattle.std.specs.Prelude.{◌≡◌, ◌++◌, OnOk, string_bytes};
ghost use Rattle.gv_lines.specs.Hex.{hex};

use std::alloc::AllocError;
use std::fmt::Write;

/// Adds a number as sixteen lower-case hexadecimal digits, without `0x`.
pub fn write_hex(out: &mut String, number: u64) -> Result<(), AllocError>
    ensures { OnOk result (string_bytes out.new ≡ string_bytes out.old ++ hex number) }
{
    write!(out, "{number:016x}")
}
