//! Fields of a trace event, which stand in any order.

use crate::cursor::{Cursor, hex_of};

/// The numbers of the fields of these names: hexadecimal, with or without `0x`.
pub fn hex_fields<const N: usize>(fields: &[u8], names: &[&str]) -> Option<[u64; N]> {
    let mut numbers = [0; N];
    for (number, name) in numbers.iter_mut().zip(names) {
        *number = hex_of(field(fields, name.as_bytes())?)?;
    }
    Some(numbers)
}

/// What the field of a name holds: `NAME=VALUE`, up to a space or a comma.
fn field<'a>(fields: &'a [u8], name: &[u8]) -> Option<&'a [u8]> {
    for word in fields.split(|byte| *byte == b',' || byte.is_ascii_whitespace()) {
        let mut cursor = Cursor::new(word);
        if cursor.take_if(name) && cursor.take_if(b"=") {
            return Some(cursor.rest());
        }
    }
    None
}
