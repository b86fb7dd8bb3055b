//! The lines of the script language: from bytes to a syntax tree, and numbers printed in
//! hexadecimal.
#![tactic(auto)]

mod clause;
mod clause_words;
mod clauses;
mod digit;
mod explaining;
mod hex;
mod job;
mod keyword;
mod line;
mod name;
mod number;
mod operation;
mod parse;
mod point;
mod reason;
mod serve_line;
mod words;

pub use clause::Clause;
pub use clauses::ClauseList;
pub use explaining::{
    Found, Mention, Mentions, explain, explain_serve, no_such_line, queue_in, word_at,
};
pub use hex::write_hex;
pub use job::{Access, AccessList};
pub use line::Line;
pub use name::Name;
pub use number::number_of;
pub use operation::Operation;
pub use parse::parse_line;
pub use point::NamedPoint;
pub use reason::{
    Beginning, Form, LINE_LIMIT, Layout, Misplacement, NameSet, NameSlip, NumberSlip, Reason,
    Setting, Slip,
};
pub use serve_line::{ServeLine, parse_serve_line};
pub use words::split_once;
