use std::alloc::{AllocError, AllocFailed};

/// Why no listing was read.
#[derive(Clone, Copy, Debug, PartialEq, Eq)]
pub enum ListingError {
    /// The text is no listing: the line, from 1, at which that shows.
    Bad { line: u64 },
    /// Memory ran out.
    NoMemory,
}

impl From<AllocError> for ListingError {
    ghost use Rattle.std.specs.Prelude.{◌≡◌};
    ghost use Rattle.mt_told.specs.declared.errors.ListingError.TheVariants.{NoMemory};

    ghost from_gives = { λ _ e. e ≡ NoMemory };

    fn from(_: AllocError) -> Self {
        ListingError::NoMemory
    }
}

impl<T: Drop> From<AllocFailed<T>> for ListingError {
    ghost use Rattle.std.specs.Prelude.{◌≡◌};
    ghost use Rattle.mt_told.specs.declared.errors.ListingError.TheVariants.{NoMemory};

    ghost from_gives = { λ _ e. e ≡ NoMemory };

    fn from(_: AllocFailed<T>) -> Self {
        ListingError::NoMemory
    }
}
