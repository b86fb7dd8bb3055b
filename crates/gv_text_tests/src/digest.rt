//! A number that stands for a long text in a row.

/// A number that depends on all bytes of a text, and on their order.
pub fn digest_of(text: &str) -> u64 {
    let mut sum: u64 = 0;
    for byte in text.bytes() {
        sum = (sum.rotate_left(5) ^ u64::from(byte)).wrapping_mul(0x517c_c1b7_2722_0a95);
    }
    sum
}
