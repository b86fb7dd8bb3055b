//! Tests of the journal, on a space of its own in each.
mod older;
mod playing;
mod rounds;
mod rows;
