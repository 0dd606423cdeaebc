use std::alloc::{AllocError, AllocFailed};
use std::fmt;

/// Why a line is refused: the first of its tests that failed, in this order.
#[derive(Clone, Copy, Debug, PartialEq, Eq)]
pub enum Why {
    /// The last line is not ended.
    NoNewline,
    /// The first line is neither `mtlog 1` nor `mtlog 2`.
    Header,
    /// The first field is no word of the language.
    Unknown,
    /// The line's word takes another number of fields.
    Fields,
    /// A tree's field is no name.
    Name,
    /// No tree of this name is declared.
    NoTree,
    /// A tree of this name is declared already.
    Twice,
    /// The kind is no kind of tree.
    BadKind,
    /// A field is no number.
    Number,
    /// A lane is no number, or is above 15.
    LaneNo,
    /// The count of a scan is no number, or is 0 or too large.
    Count,
    /// The line comes after a step of its phase, and has to come before it.
    Order,
    /// With this line the log would declare more than 16 trees.
    Trees,
    /// With this line the scans have too many steps.
    Scans,
}

impl Why {
    ghost use Rattle.std.specs.Prelude.{◌≡◌, ◌≤◌, length};
    ghost use Rattle.mt_log.specs.Fault.{why_text};

    /// The reason in words, of at most 23 bytes.
    pub fn text(&self) -> &'static str
        ensures text { result.now ≡ why_text self.now }
        ensures short { length result.now ≤ 23 }
    {
        match self {
            Why::NoNewline => "no newline",
            Why::Header => "no header",
            Why::Unknown => "unknown word",
            Why::Fields => "wrong number of fields",
            Why::Name => "bad name",
            Why::NoTree => "unknown tree",
            Why::Twice => "tree declared twice",
            Why::BadKind => "bad kind",
            Why::Number => "bad number",
            Why::LaneNo => "bad lane",
            Why::Count => "bad count",
            Why::Order => "not between phases",
            Why::Trees => "too many trees",
            Why::Scans => "too many scan steps",
        }
    }
}

impl fmt::Display for Why {
    ghost use Rattle.std.specs.Prelude.{Some};
    ghost use Rattle.mt_log.specs.Fault.{why_text};

    ghost output = { λ w. Some (why_text w) };

    fn fmt<W: fmt::Write>(&self, f: &mut fmt::Formatter<W>) -> fmt::Result {
        let text = self.text();
        write!(f, "{text}")
    }
}

/// Why no log was read.
#[derive(Clone, Copy, Debug, PartialEq, Eq)]
pub enum LogError {
    /// The bytes are no log: the first bad line, from 1, and the first failed test of it.
    Bad { line: u64, why: Why },
    /// Memory ran out.
    NoMemory,
}

impl From<AllocError> for LogError {
    ghost use Rattle.std.specs.Prelude.{◌≡◌};
    ghost use Rattle.mt_log.specs.declared.faults.LogError.TheVariants.{NoMemory};

    ghost from_gives = { λ _ e. e ≡ NoMemory };

    fn from(_: AllocError) -> Self {
        LogError::NoMemory
    }
}

impl<T: Drop> From<AllocFailed<T>> for LogError {
    ghost use Rattle.std.specs.Prelude.{◌≡◌};
    ghost use Rattle.mt_log.specs.declared.faults.LogError.TheVariants.{NoMemory};

    ghost from_gives = { λ _ e. e ≡ NoMemory };

    fn from(_: AllocFailed<T>) -> Self {
        LogError::NoMemory
    }
}
