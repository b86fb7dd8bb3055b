//! What is wrong with the bytes of a line.
use std::fmt;

/// How many bytes a line has at most, without its line end.
pub const LINE_LIMIT: usize = 1_048_576;

/// Why the bytes of a line are not words with one space between them.
#[derive(Clone, Copy)]
pub enum Layout {
    /// A byte from 0x80 on, also in a comment.
    HighByte { byte: u8 },
    /// A byte below 0x20, or 0x7f, that is neither a tab nor a carriage return.
    ControlByte { byte: u8 },
    Tab,
    CarriageReturn,
    SpaceAtStart,
    TwoSpaces,
    SpaceAtEnd,
    /// A separator of clauses without a space on each side.
    GluedSeparator,
    /// A comment after the words of a line.
    CommentBehind,
    /// More than `LINE_LIMIT` bytes.
    TooLong,
    /// The script ends without a line end.
    NoLineEnd,
}

impl Layout {
    /// What the byte or the line should be.
    fn wanted(self) -> &'static str {
        match self {
            Layout::HighByte { .. } => "all bytes are ASCII, also in a comment",
            Layout::ControlByte { .. } => "words have only printable bytes",
            Layout::Tab => "a tab; words are separated by one space",
            Layout::CarriageReturn => "a carriage return; lines end with byte 10 only",
            Layout::SpaceAtStart => "a space at the start",
            Layout::TwoSpaces => "a second space; words are separated by one space",
            Layout::SpaceAtEnd => "a space at the end",
            Layout::GluedSeparator => "; at a word; put a space before and after ;",
            Layout::CommentBehind => "a comment; it needs a line of its own",
            Layout::TooLong => "a line of over 1048576 bytes",
            Layout::NoLineEnd => "no line end",
        }
    }
}

impl fmt::Display for Layout {
    fn fmt<W: fmt::Write>(&self, f: &mut fmt::Formatter<W>) -> fmt::Result {
        let wanted = self.wanted();
        match self {
            Layout::HighByte { byte } | Layout::ControlByte { byte } => {
                write!(f, "byte 0x{byte:02x}; {wanted}")
            }
            _ => f.write_str(wanted),
        }
    }
}
