//! Bytes that make a line bad.
use crate::reason::{Layout, Reason, Slip};

/// The first byte for which the line is no row of words with one space between them. In a comment only a byte that is not ASCII
/// is one.
pub fn bytes_slip(text: &[u8]) -> Option<Slip<'_>> {
    let is_comment = text.first() == Some(&b'#');
    let mut before: Option<u8> = None;
    for (position, byte) in text.iter().enumerate() {
        let after = text.get(position + 1).copied();
        let layout = if is_comment {
            comment_layout(*byte)
        } else {
            layout(before, *byte, after)
        };
        if let Some(layout) = layout {
            return Some(Slip {
                column: position as u64 + 1,
                reason: Reason::Layout(layout),
            });
        }
        before = Some(*byte);
    }
    None
}

fn comment_layout(byte: u8) -> Option<Layout> {
    (!byte.is_ascii()).then_some(Layout::HighByte { byte })
}

/// What is wrong with a byte between two others. There is none before the first, nor after the last.
fn layout(before: Option<u8>, byte: u8, after: Option<u8>) -> Option<Layout> {
    match byte {
        b'\t' => Some(Layout::Tab),
        b'\r' => Some(Layout::CarriageReturn),
        0..=0x1f | 0x7f => Some(Layout::ControlByte { byte }),
        0x80..=0xff => Some(Layout::HighByte { byte }),
        b' ' => space_layout(before, after),
        b';' => (!is_open(before) || !is_open(after)).then_some(Layout::GluedSeparator),
        b'#' => (before == Some(b' ')).then_some(Layout::CommentBehind),
        _ => None,
    }
}

fn space_layout(before: Option<u8>, after: Option<u8>) -> Option<Layout> {
    if before.is_none() {
        Some(Layout::SpaceAtStart)
    } else if after.is_none() {
        Some(Layout::SpaceAtEnd)
    } else if before == Some(b' ') {
        Some(Layout::TwoSpaces)
    } else {
        None
    }
}

/// Whether there is a space, or no byte.
fn is_open(beside: Option<u8>) -> bool {
    match beside {
        Some(byte) => byte == b' ',
        None => true,
    }
}
