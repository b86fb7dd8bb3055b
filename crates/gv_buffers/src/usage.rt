//! How a job uses a buffer.
ghost use Rattle.std.specs.Prelude.{◌≡◌};
ghost use Rattle.gv_buffers.specs.Users.{is_write, stronger, conflicts};

/// How a job uses a buffer: two of the usages of the kernel's Reservation Objects. A writer waits
/// for readers and writers there, and a reader for writers.
#[derive(Clone, Copy, Debug, PartialEq, Eq)]
pub enum Usage {
    Read,
    Write,
}

/// A job that uses a buffer.
#[derive(Clone, Copy, Debug, PartialEq, Eq)]
pub struct User {
    pub job: u64,
    pub usage: Usage,
}

impl Usage {
    pub(crate) fn is_write(self) -> bool
        ensures { result ≡ is_write self }
    {
        match self {
            Usage::Read => false,
            Usage::Write => true,
        }
    }

    /// Write if either is.
    pub fn stronger(self, other: Usage) -> Usage
        ensures { result ≡ stronger self other }
    {
        match self {
            Usage::Read => other,
            Usage::Write => Usage::Write,
        }
    }
}

impl User {
    /// Whether this is another job than `job`, and one of the two writes.
    pub fn conflicts(&self, job: u64, usage: Usage) -> bool
        ensures { result ≡ conflicts job usage self.now }
    {
        self.job != job && (usage.is_write() || self.usage.is_write())
    }
}
