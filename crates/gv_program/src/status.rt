//! The exit statuses of the program.

/// The script was run to its end, or help or the version was asked for and printed.
pub const DONE: u8 = 0;

/// The script has a bad line, or is too long.
pub const BAD_SCRIPT: u8 = 1;

/// The words of the command line are refused.
pub const BAD_WORDS: u8 = 2;

/// Standard input or standard output failed.
pub const BROKEN_STREAM: u8 = 3;

/// The system refused to give memory.
pub const NO_MEMORY: u8 = 4;

/// The queues of a threads script did not start, or disagree.
pub const BAD_QUEUES: u8 = 5;

/// Two lists of mappings differ.
pub const DIFFERENT: u8 = 1;
