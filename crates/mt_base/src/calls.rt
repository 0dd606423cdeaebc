ghost use Rattle.std.specs.Prelude.{◌≡◌};
ghost use Rattle.mt_base.specs.Entry.{reserved};
ghost use Rattle.mt_base.specs.Call.{is_invalid, finds_room, is_no_area, is_bad_area};

use crate::kinds::Kind;
use crate::widths::{top, width_of};

/// A call of a tree's history: a write, or a search for room (`Gap`, `Rgap`), which stores nothing. Each call has the tree's
/// next number (its version), from 1, even if it changes nothing.
#[derive(Clone, Copy, Debug, PartialEq, Eq)]
pub enum Call {
    /// Stores `entry` over `first` to `last`. An entry 0 leaves a hole (gap) there.
    Store {
        first: u64,
        last: u64,
        entry: u64,
    },
    /// Stores as [`Call::Store`] does. It always needs the nodes of a store that changes nodes, so that a caller can reserve
    /// them beforehand.
    StorePre {
        first: u64,
        last: u64,
        entry: u64,
    },
    /// Stores `entry` over `first` to `last`, if no range holds any of these indexes.
    Insert {
        first: u64,
        last: u64,
        entry: u64,
    },
    /// Removes the whole range that holds `index`.
    Erase {
        index: u64,
    },
    /// Stores `entry` over `size` indexes at the lowest start at which they lie in one hole, from `min` to `max`. The tree has
    /// to be one for allocation.
    Alloc {
        size: u64,
        min: u64,
        max: u64,
        entry: u64,
    },
    /// Stores `entry` as `Alloc` does, at the highest start.
    Ralloc {
        size: u64,
        min: u64,
        max: u64,
        entry: u64,
    },
    /// Returns the lowest start for `size` indexes, and stores nothing.
    Gap {
        size: u64,
        min: u64,
        max: u64,
    },
    /// Returns the highest start for `size` indexes, and stores nothing.
    Rgap {
        size: u64,
        min: u64,
        max: u64,
    },
    /// Removes every range.
    Clear,
}

/// A read.
#[derive(Clone, Copy, Debug, PartialEq, Eq)]
pub enum Query {
    /// The range that holds `index`.
    Load { index: u64 },
    /// The first range that ends at `index` or above and begins at `max` or below. None if `index` is above `max`.
    Find { index: u64, max: u64 },
    /// The first range that begins above `index`, and at `max` or below.
    Next { index: u64, max: u64 },
    /// The last range that ends below `index`, and at `min` or above.
    Prev { index: u64, min: u64 },
    /// The last range that begins at `index` or below and ends at `min` or above. None if `index` is below `min`.
    Rfind { index: u64, min: u64 },
}

/// Whether the tree keeps this entry for its own use. No call stores such an entry.
pub fn is_reserved(entry: u64) -> bool
    ensures { result ≡ reserved entry }
{
    entry < 4096 && entry % 4 == 2
}

/// Whether a call that stores `entry` over `first` to `last` in a tree of this kind is refused as invalid.
pub fn is_invalid(kind: Kind, first: u64, last: u64, entry: u64) -> bool
    ensures { result ≡ is_invalid kind first last entry }
{
    first > last || last > top(width_of(kind)) || is_reserved(entry)
}

/// Whether a tree of this kind can search for room.
pub fn finds_room(kind: Kind) -> bool
    ensures { result ≡ finds_room kind }
{
    match kind {
        Kind::Range | Kind::Range32 => false,
        Kind::Alloc | Kind::Alloc32 => true,
    }
}

/// Whether a search for `size` indexes from `min` to `max` in a tree of this kind is refused as invalid.
pub fn is_no_area(kind: Kind, size: u64, min: u64, max: u64) -> bool
    ensures { result ≡ is_no_area kind size min max }
{
    !finds_room(kind) || min > max || max > top(width_of(kind)) || size == 0 || max - min < size - 1
}

/// Whether a call that stores `entry` where such a search finds room is refused as invalid.
pub fn is_bad_area(kind: Kind, size: u64, min: u64, max: u64, entry: u64) -> bool
    ensures { result ≡ is_bad_area kind size min max entry }
{
    is_no_area(kind, size, min, max) || is_reserved(entry) || entry == 0
}
