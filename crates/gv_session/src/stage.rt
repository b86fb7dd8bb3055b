//! Which settings may still come.

/// How far a script has come with its settings.
#[derive(Clone, Copy, Debug, PartialEq, Eq)]
pub enum Stage {
    /// No line has run that is neither empty nor a comment: bounds and limits may be set.
    Fresh,
    /// The bounds are set: limits may be.
    Bounded,
    /// Nothing may be set any more.
    Begun,
}
