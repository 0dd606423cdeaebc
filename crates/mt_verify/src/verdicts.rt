//! What is found of a text.

use mt_log::ListOf;

/// Whether a text is that of a transcript of a run of a log.
#[derive(Drop)]
pub enum Verdict {
    /// It is. Each read, in the order of its lines, is true after as many calls of its tree as its point says, which is the least
    /// that it has in any run with this text.
    Yes { points: ListOf<u64> },
    /// No transcript with this text is of a run.
    No,
}
