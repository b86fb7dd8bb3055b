//! What the program says of a failure: a line on standard error, and an exit status.
ghost use Rattle.std.specs.Prelude.{◌≡◌, Some};
ghost use Rattle.gv_session.specs.declared.fault.ScriptFault.TheVariants as script;
ghost use Rattle.gv_program.specs.Fault.{line_of_fault, queues_status, script_status, status_of};
ghost use Rattle.gv_program.specs.declared.fault.ProgramFault.TheVariants as fault;

use crate::status::{BAD_QUEUES, BAD_SCRIPT, BAD_WORDS, BROKEN_STREAM, NO_MEMORY};
use gv_queues::QueuesFault;
use gv_serve::ServeFault;
use gv_text::{Pipe, ScriptFault};
use gv_threads::ThreadsFault;
use std::alloc::AllocError;
use std::fmt;

/// Why the program did not do what the words asked for. It is shown as its line on standard error.
#[derive(Clone, Copy, Debug, PartialEq, Eq)]
pub enum ProgramFault {
    /// The script was not run to its end. Help that can't be written, and words for which memory is refused, are named
    /// by the same faults.
    Script(ScriptFault),
    /// The queues of a threads script did not run to their end.
    Queues(QueuesFault),
    /// An argument of the program is not UTF-8 text.
    ArgumentNotText,
    /// A file that the words name can't be opened.
    NotOpened,
    /// The words name no format of logs.
    NoFormat,
    /// The words name no meaning of flags.
    NoFlags,
    /// The words ask for a log in more than one form.
    TwoForms,
    /// An address in the words is no number.
    NoAddress,
    /// No line of a log is of its format.
    NoLine,
    /// No event of a log is of the address space that the words name.
    NoSpace,
    /// A log is of several address spaces, and the words name none.
    ManySpaces,
}

impl ProgramFault {
    /// The exit status.
    pub fn status(&self) -> u8
        ensures { result ≡ status_of self.now }
    {
        match self {
            ProgramFault::Script(fault) => script_status(fault),
            ProgramFault::Queues(fault) => queues_status(fault),
            ProgramFault::ArgumentNotText
            | ProgramFault::NoFormat
            | ProgramFault::NoFlags
            | ProgramFault::TwoForms
            | ProgramFault::NoAddress
            | ProgramFault::ManySpaces => BAD_WORDS,
            ProgramFault::NotOpened => BROKEN_STREAM,
            ProgramFault::NoLine | ProgramFault::NoSpace => BAD_SCRIPT,
        }
    }
}

/// The exit status of a script that ended early.
fn script_status(fault: &ScriptFault) -> u8
    ensures { result ≡ script_status fault.now }
{
    match fault {
        ScriptFault::BadLine { .. } | ScriptFault::ScriptTooLong => BAD_SCRIPT,
        ScriptFault::ReadFault | ScriptFault::WriteFault => BROKEN_STREAM,
        ScriptFault::OutOfMemory => NO_MEMORY,
    }
}

/// The exit status of queues that did not run to their end.
fn queues_status(fault: &QueuesFault) -> u8
    ensures { result ≡ queues_status fault.now }
{
    match fault {
        QueuesFault::NotMade => NO_MEMORY,
        QueuesFault::NotStarted { .. } | QueuesFault::Disagree { .. } => BAD_QUEUES,
    }
}

impl fmt::Display for ProgramFault {
    ghost output = { λ fault. Some (line_of_fault fault) };

    fn fmt<W: fmt::Write>(&self, f: &mut fmt::Formatter<W>) -> fmt::Result {
        match self {
            ProgramFault::Script(ScriptFault::BadLine { line }) => {
                write!(f, "vmbind: bad line {line}")
            }
            ProgramFault::Script(ScriptFault::ScriptTooLong) => {
                write!(f, "vmbind: script too long")
            }
            ProgramFault::Script(ScriptFault::ReadFault) => write!(f, "vmbind: read fault"),
            ProgramFault::Script(ScriptFault::WriteFault) => write!(f, "vmbind: write fault"),
            ProgramFault::Script(ScriptFault::OutOfMemory) => write!(f, "vmbind: out of memory"),
            ProgramFault::Queues(QueuesFault::NotMade) => write!(f, "vmbind: out of memory"),
            ProgramFault::Queues(QueuesFault::NotStarted { queue }) => {
                write!(f, "vmbind: worker not started {queue}")
            }
            ProgramFault::Queues(QueuesFault::Disagree { queue }) => {
                write!(f, "vmbind: queues disagree {queue}")
            }
            ProgramFault::ArgumentNotText => write!(f, "vmbind: argument is not text"),
            ProgramFault::NotOpened => write!(f, "vmbind: file not opened"),
            ProgramFault::NoFormat => write!(f, "vmbind: no such format"),
            ProgramFault::NoFlags => write!(f, "vmbind: no such flags"),
            ProgramFault::TwoForms => write!(f, "vmbind: more than one form"),
            ProgramFault::NoAddress => write!(f, "vmbind: not an address"),
            ProgramFault::NoLine => write!(f, "vmbind: no line of this format"),
            ProgramFault::NoSpace => write!(f, "vmbind: no such address space"),
            ProgramFault::ManySpaces => write!(f, "vmbind: more than one address space"),
        }
    }
}

impl From<ScriptFault> for ProgramFault {
    ghost from_gives = { λ script program. program ≡ fault.Script script };

    fn from(fault: ScriptFault) -> ProgramFault {
        ProgramFault::Script(fault)
    }
}

impl From<ServeFault> for ProgramFault {
    ghost use Rattle.gv_program.specs.Fault.{of_serve};

    ghost from_gives = { λ serve program. program ≡ of_serve serve };

    fn from(fault: ServeFault) -> ProgramFault {
        match fault {
            ServeFault::ReadFault => ProgramFault::Script(ScriptFault::ReadFault),
            ServeFault::WriteFault => ProgramFault::Script(ScriptFault::WriteFault),
            ServeFault::OutOfMemory => ProgramFault::Script(ScriptFault::OutOfMemory),
        }
    }
}

impl From<ThreadsFault> for ProgramFault {
    ghost use Rattle.gv_program.specs.Fault.{of_threads};

    ghost from_gives = { λ threads program. program ≡ of_threads threads };

    fn from(fault: ThreadsFault) -> ProgramFault {
        match fault {
            ThreadsFault::Script(fault) => ProgramFault::Script(fault),
            ThreadsFault::Queues(fault) => ProgramFault::Queues(fault),
        }
    }
}

impl From<AllocError> for ProgramFault {
    ghost from_gives = { λ _ program. program ≡ fault.Script script.OutOfMemory };

    fn from(_error: AllocError) -> ProgramFault {
        ProgramFault::Script(ScriptFault::OutOfMemory)
    }
}

/// Prints the line of a fault, and gives its exit status.
pub fn print_fault<R: Eprint>(rt: &R, fault: ProgramFault) -> u8
    ensures { result ≡ status_of fault }
{
    let _ = rt.eprintln(fault);
    fault.status()
}

/// Tells a fault too, but prints nothing where a write failed since the writer's reader has gone: it wanted no more.
pub fn print_unless_closed<R: Eprint, K: Pipe>(rt: &R, writer: &K, fault: ProgramFault) -> u8
    ensures { result ≡ status_of fault }
{
    match fault {
        ProgramFault::Script(ScriptFault::WriteFault) if writer.is_closed() => fault.status(),
        _ => print_fault(rt, fault),
    }
}

/// Prints why a line is bad, if that is asked and known.
pub fn explain<R: Eprint>(rt: &R, asked: bool, why: String) {
    if asked && !why.is_empty() {
        let _ = rt.eprintln(why);
    }
}
