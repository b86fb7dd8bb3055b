//! Why a threads script ends early.
use gv_queues::QueuesFault;
use gv_text::ScriptFault;
use thiserror::Error;

/// Why a threads script was not run to its end.
#[derive(Clone, Copy, Debug, PartialEq, Eq, Error)]
pub enum ThreadsFault {
    /// The script is bad, a device has failed, or memory is refused.
    #[error("the script was not run to its end")]
    Script(#[from] ScriptFault),
    /// The queues were not made or not started, or disagree.
    #[error("the queues did not run to their end")]
    Queues(#[from] QueuesFault),
}
