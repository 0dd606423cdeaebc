//! Why bytes are no image.

ghost use Rattle.std.specs.Prelude.{◌≡◌};
ghost use Rattle.mt_image.specs.Texts.{law_text};

use mt_base::NoMemory;
use mt_check::{Fault, Law};
use std::fmt;

/// Why bytes are no image of a tree.
#[derive(Clone, Copy, Debug, PartialEq, Eq)]
pub enum ImageError {
    /// There are `got` bytes, and an image of this many nodes has `want`. If there are fewer than 32, any image has at least
    /// `want`.
    Length { want: u64, got: u64 },
    /// The text, the kind or the number of nodes that begins at this byte is not one that an image has.
    Head { at: u64 },
    /// The words of the node break this law, the first in the order of the walk.
    Broken { row: u32, law: Law },
    /// The node is the least that is not at its place of the walk.
    Stray { row: u32 },
    /// Memory ran out.
    NoMemory,
}

impl From<NoMemory> for ImageError {
    ghost use Rattle.std.specs.Prelude.{◌≡◌};
    ghost use Rattle.mt_image.specs.declared.errors.ImageError.TheVariants as errors;

    ghost from_gives = { λ _ e. e ≡ errors.NoMemory };

    fn from(_: NoMemory) -> Self {
        ImageError::NoMemory
    }
}

impl From<Fault> for ImageError {
    ghost use Rattle.std.specs.Prelude.{◌≡◌};
    ghost use Rattle.mt_image.specs.declared.errors.ImageError.TheVariants as errors;

    ghost from_gives = { λ fault e. e ≡ errors.Broken fault.row fault.law };

    fn from(fault: Fault) -> Self {
        ImageError::Broken {
            row: fault.row,
            law: fault.law,
        }
    }
}

/// The name of a law, in lower case.
pub fn law_text(law: Law) -> &'static str
    ensures { result.now ≡ law_text law }
{
    match law {
        Law::Name => "name",
        Law::Depth => "depth",
        Law::Parent => "parent",
        Law::Pivots => "pivots",
        Law::Count => "count",
        Law::Entries => "entries",
        Law::Holes => "holes",
        Law::Gaps => "gaps",
    }
}

impl fmt::Display for ImageError {
    ghost use Rattle.std.specs.Prelude.{Some};
    ghost use Rattle.mt_image.specs.Texts.{error_text};

    ghost output = { λ e. Some (error_text e) };

    fn fmt<W: fmt::Write>(&self, f: &mut fmt::Formatter<W>) -> fmt::Result {
        match *self {
            ImageError::Length { want, got } => write!(f, "length {want} {got}"),
            ImageError::Head { at } => write!(f, "head {at}"),
            ImageError::Broken { row, law } => write!(f, "row {row} {}", law_text(law)),
            ImageError::Stray { row } => write!(f, "stray row {row}"),
            ImageError::NoMemory => write!(f, "out of memory"),
        }
    }
}
