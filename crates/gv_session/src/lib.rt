//! A session: lines of the script language run one by one, each line's reply written.
#![tactic(auto)]

mod accesses;
mod buffer_names;
mod caps;
mod fault;
mod journal;
mod question;
mod reply_text;
mod request;
mod run;
mod run_request;
mod session;
mod space_text;
mod stage;
mod timeline_names;
mod why;

pub use buffer_names::BufferNames;
pub use fault::{LineFault, ScriptFault};
pub use question::{NamedVm, answer};
pub use reply_text::{write_number, write_outcome_line, write_refused, write_timeline};
pub use request::{asked_by, point_named};
pub use run::{run as run_line, run_event, run_text};
pub use session::Session;
pub use space_text::write_place;
pub use stage::Stage;
pub use timeline_names::TimelineNames;
pub use why::{
    Declared, at_first_word, why_bad, why_misplaced, why_not_named, why_not_set, write_why,
};
