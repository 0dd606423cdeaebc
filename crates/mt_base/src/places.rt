//! Where a walk over ranges begins and goes on.

ghost use Rattle.std.specs.Prelude.{◌≡◌};
ghost use Rattle.mt_base.specs.Places.{find_at, place_after, place_behind, place_within};

use crate::calls::Query;
use crate::ranges::Range;

/// Where a walk begins, if anywhere.
pub fn place_within(index: u64, max: u64) -> Option<u64>
    ensures { result ≡ place_within index max }
{
    if index <= max { Some(index) } else { None }
}

/// Where a walk goes on after a range, if anywhere.
pub fn place_after(max: u64, range: &Range) -> Option<u64>
    ensures { result ≡ place_after max range.now }
{
    if range.last < max {
        Some(range.last + 1)
    } else {
        None
    }
}

/// Where a walk goes on after what a step found, if anywhere.
pub fn place_behind(range: Option<Range>, max: u64) -> Option<u64>
    ensures { result ≡ place_behind range max }
{
    let range = range?;
    place_after(max, &range)
}

/// The find that a step is, from this place on. It finds nothing if there is no place.
pub fn find_at(at: Option<u64>, max: u64) -> Query
    ensures { result ≡ find_at at max }
{
    match at {
        Some(index) => Query::Find { index, max },
        None => Query::Find { index: 1, max: 0 },
    }
}
