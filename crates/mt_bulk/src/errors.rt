//! Why no tree is built of ranges.

use mt_base::NoMemory;
use std::alloc::AllocError;
use std::fmt;

/// Why no tree is built of ranges.
#[derive(Clone, Copy, Debug, PartialEq, Eq)]
pub enum BulkError {
    /// The range at this place, counted from 0, is no range of a tree of this kind, or does not begin above the end of the one
    /// before it. It is the first such range.
    Order { at: u64 },
    /// The ranges are in good order, but their tree would have `rows` nodes, which are more than can be named.
    TooMany { rows: u64 },
    /// Memory ran out.
    NoMemory,
}

impl From<NoMemory> for BulkError {
    ghost use Rattle.std.specs.Prelude.{◌≡◌};
    ghost use Rattle.mt_bulk.specs.declared.errors.BulkError.TheVariants as errors;

    ghost from_gives = { λ _ e. e ≡ errors.NoMemory };

    fn from(_: NoMemory) -> Self {
        BulkError::NoMemory
    }
}

impl From<AllocError> for BulkError {
    ghost use Rattle.std.specs.Prelude.{◌≡◌};
    ghost use Rattle.mt_bulk.specs.declared.errors.BulkError.TheVariants as errors;

    ghost from_gives = { λ _ e. e ≡ errors.NoMemory };

    fn from(_: AllocError) -> Self {
        BulkError::NoMemory
    }
}

impl fmt::Display for BulkError {
    ghost use Rattle.std.specs.Prelude.{Some};
    ghost use Rattle.mt_bulk.specs.Texts.{error_text};

    ghost output = { λ e. Some (error_text e) };

    fn fmt<W: fmt::Write>(&self, f: &mut fmt::Formatter<W>) -> fmt::Result {
        match *self {
            BulkError::Order { at } => write!(f, "range {at} is out of order"),
            BulkError::TooMany { rows } => write!(f, "too many rows: {rows}"),
            BulkError::NoMemory => write!(f, "out of memory"),
        }
    }
}
