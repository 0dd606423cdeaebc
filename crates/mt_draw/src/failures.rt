//! Why nothing is drawn.

ghost use Rattle.std.specs.Prelude.{◌≡◌};
ghost use Rattle.mt_draw.specs.Asked.{status_of};

use mt_base::NoMemory;
use mt_image::ImageError;
use std::alloc::AllocError;
use std::fmt;

/// Why nothing, or only a part, is written.
#[derive(Clone, Copy)]
pub enum DrawFailure {
    /// The input is no image.
    NoImage(ImageError),
    /// The words ask for nothing that there is.
    Usage,
    /// The input could not be read.
    ReadFault,
    /// The output could not be written.
    WriteFault,
    /// Memory ran out.
    NoMemory,
}

impl DrawFailure {
    /// The status that the program ends with.
    pub fn status(&self) -> u8
        ensures { result ≡ status_of self.now }
    {
        match self {
            DrawFailure::NoImage(_) => 1,
            DrawFailure::Usage => 2,
            DrawFailure::ReadFault => 3,
            DrawFailure::WriteFault => 4,
            DrawFailure::NoMemory => 5,
        }
    }
}

impl From<ImageError> for DrawFailure {
    ghost use Rattle.std.specs.Prelude.{◌≡◌};
    ghost use Rattle.mt_draw.specs.Asked.{failure_of_image};

    ghost from_gives = { λ r e. e ≡ failure_of_image r };

    fn from(error: ImageError) -> Self {
        match error {
            ImageError::NoMemory => DrawFailure::NoMemory,
            _ => DrawFailure::NoImage(error),
        }
    }
}

impl From<AllocError> for DrawFailure {
    ghost use Rattle.std.specs.Prelude.{◌≡◌};
    ghost use Rattle.mt_draw.specs.declared.failures.DrawFailure.TheVariants.{NoMemory};

    ghost from_gives = { λ _ e. e ≡ NoMemory };

    fn from(_: AllocError) -> Self {
        DrawFailure::NoMemory
    }
}

impl From<NoMemory> for DrawFailure {
    ghost use Rattle.std.specs.Prelude.{◌≡◌};
    ghost use Rattle.mt_draw.specs.declared.failures.DrawFailure.TheVariants.{NoMemory};

    ghost from_gives = { λ _ e. e ≡ NoMemory };

    fn from(_: NoMemory) -> Self {
        DrawFailure::NoMemory
    }
}

impl fmt::Display for DrawFailure {
    ghost use Rattle.std.specs.Prelude.{Some};
    ghost use Rattle.mt_draw.specs.Asked.{failure_text};

    ghost output = { λ e. Some (failure_text e) };

    fn fmt<W: fmt::Write>(&self, f: &mut fmt::Formatter<W>) -> fmt::Result {
        match self {
            DrawFailure::NoImage(error) => write!(f, "no image: {error}"),
            DrawFailure::Usage => write!(f, "usage: mt_draw [--text | --ranges] < IMAGE"),
            DrawFailure::ReadFault => write!(f, "read fault"),
            DrawFailure::WriteFault => write!(f, "write fault"),
            DrawFailure::NoMemory => write!(f, "out of memory"),
        }
    }
}
