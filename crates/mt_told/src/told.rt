use mt_base::{Call, Query};
use mt_log::Answer;

/// What a line of a transcript reports. A reply and a count stay as printed: they are compared with what they should be.
#[derive(Clone, Copy)]
pub enum What<'t> {
    /// A call, its number on its tree, and what it was answered.
    Wrote {
        number: u64,
        call: Call,
        reply: &'t [u8],
    },
    /// A read, its window, and what it was answered.
    Got {
        lo: u64,
        hi: u64,
        query: Query,
        answer: Answer,
    },
    /// A tree was copied, and had this many ranges.
    Copied {
        count: &'t [u8],
    },
    /// A tree was found well-formed, and had this many ranges.
    Lawful {
        count: &'t [u8],
    },
}

/// A line of a transcript: the number of the log's line that it answers, that line's lane and phase, the tree that it names,
/// and what it reports.
#[derive(Clone, Copy)]
pub struct ToldLine<'t> {
    pub line: u64,
    pub lane: u32,
    pub phase: u64,
    pub tree: u32,
    pub what: What<'t>,
}
