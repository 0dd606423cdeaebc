//! Why nothing is judged.

use mt_base::NoMemory;
use mt_log::{LogError, Why};
use std::alloc::AllocError;
use std::fmt;

/// Why there is no judgment on an input.
#[derive(Clone, Copy)]
pub enum JudgeFailure {
    /// The input is no log: its first bad line, and why.
    BadLog { line: u64, why: Why },
    /// No line of the input is `---`.
    NoTranscript,
    /// There are more bytes than an input may have.
    TooLong,
    /// The words ask for nothing that there is.
    Usage,
    /// The input could not be read.
    ReadFault,
    /// The output could not be written.
    WriteFault,
    /// Memory ran out.
    NoMemory,
}

impl From<LogError> for JudgeFailure {
    fn from(error: LogError) -> Self {
        match error {
            LogError::Bad { line, why } => JudgeFailure::BadLog { line, why },
            LogError::NoMemory => JudgeFailure::NoMemory,
        }
    }
}

impl From<AllocError> for JudgeFailure {
    fn from(_: AllocError) -> Self {
        JudgeFailure::NoMemory
    }
}

impl From<NoMemory> for JudgeFailure {
    fn from(_: NoMemory) -> Self {
        JudgeFailure::NoMemory
    }
}

impl fmt::Display for JudgeFailure {
    fn fmt<W: fmt::Write>(&self, f: &mut fmt::Formatter<W>) -> fmt::Result {
        match self {
            JudgeFailure::BadLog { line, why } => {
                let why = why.text();
                write!(f, "line {line}: {why}")
            }
            JudgeFailure::NoTranscript => write!(f, "no transcript"),
            JudgeFailure::TooLong => write!(f, "input too long"),
            JudgeFailure::Usage => write!(f, "usage: mt_judge [--rows N] < LOG_AND_TRANSCRIPT"),
            JudgeFailure::ReadFault => write!(f, "read fault"),
            JudgeFailure::WriteFault => write!(f, "write fault"),
            JudgeFailure::NoMemory => write!(f, "out of memory"),
        }
    }
}
