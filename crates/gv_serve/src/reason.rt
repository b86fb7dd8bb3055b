//! Why a line of a dialogue is bad.

use gv_lines::{Line, Misplacement, ServeLine, Slip, explain_serve, parse_serve_line};
use gv_text::{Session, at_first_word, why_misplaced};
use std::alloc::Global;

/// Where a line is bad first, and why. It has to be bad there.
pub fn why_bad<'a>(alloc: Global, session: &Session, line: &'a [u8]) -> Slip<'a> {
    if let Some(queue) = busy_queue(session, line) {
        return at_first_word(Misplacement::Busy { queue });
    }
    match explain_serve(alloc, line) {
        Some(slip) => slip,
        None => why_misplaced(session, line),
    }
}

/// The queue on which requests stand before the line's own.
fn busy_queue(session: &Session, line: &[u8]) -> Option<u64> {
    match parse_serve_line(line)? {
        ServeLine::Run {
            line: Line::Bind { clauses },
        } => {
            let queue = clauses.queue();
            (!session.world().is_quiet(queue)).then_some(queue)
        }
        _ => None,
    }
}
