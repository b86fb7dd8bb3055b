//! The worked rows: what is tried, its input, and what that comes to.
mod bad_lines;
mod dialogues;
mod edits;
mod reasons;
mod requests;

pub use bad_lines::BAD_LINES;
pub use dialogues::{DIALOGUES, JSON_DIALOGUES};
pub use edits::EDITS;
pub use reasons::REASONS;
pub use requests::REQUESTS;

/// What is tried, the input, and the replies, with how it ends behind them where that is early.
pub type Row<'a> = (&'a str, &'a [u8], &'a str);
